//! Files in memory, which do as they are reported.

use jls_io::Open;
use std::alloc::Global;
use std::io;
use std::io::{Read, Write};

/// An input by its name.
pub(super) type File<'a> = (&'a str, &'a [u8]);

/// What the files do.
#[derive(Clone, Copy)]
pub(super) struct Manners {
    /// The most bytes that one call gives or takes.
    pub most: usize,
    /// Whether a read gives nothing after the next byte FF.
    pub parts_at_ff: bool,
    /// How many bytes an input gives before its reads fail.
    pub reads_fail_at: Option<usize>,
    /// How many bytes an output takes before its writes fail.
    pub writes_fail_at: Option<usize>,
    pub can_create: bool,
}

/// Files that do all they can.
pub(super) const GOOD: Manners = Manners {
    most: usize::MAX,
    parts_at_ff: false,
    reads_fail_at: None,
    writes_fail_at: None,
    can_create: true,
};

#[derive(Drop)]
pub(super) struct MemoryFiles<'a> {
    files: &'a [File<'a>],
    manners: Manners,
    rest: &'a [u8],
    given: usize,
    output: Option<Vec<u8>>,
    created: String,
    alloc: Global,
}

impl<'a> MemoryFiles<'a> {
    /// These files, none of which is open yet.
    pub(super) fn new(alloc: Global, files: &'a [File<'a>], manners: Manners) -> MemoryFiles<'a> {
        MemoryFiles {
            files,
            manners,
            rest: &[],
            given: 0,
            output: None,
            created: String::new(alloc),
            alloc,
        }
    }

    /// The names of the outputs that were created, each with a blank after it.
    pub(super) fn created(&self) -> &str {
        self.created.as_str()
    }

    /// What the last output took.
    pub(super) fn output(&self) -> Option<&[u8]> {
        match &self.output {
            Some(bytes) => Some(bytes.as_slice()),
            None => None,
        }
    }
}

/// What the file of this name has.
pub(super) fn find<'a>(files: &'a [File<'a>], name: &str) -> Option<&'a [u8]> {
    for file in files {
        if file.0 == name {
            return Some(file.1);
        }
    }
    None
}

fn failed() -> io::Error {
    io::Error::from(io::ErrorKind::Other)
}

/// How many bytes a call may still move where so many were moved before.
fn room(limit: Option<usize>, moved: usize) -> usize {
    match limit {
        Some(limit) => limit.saturating_sub(moved),
        None => usize::MAX,
    }
}

/// How many bytes there are up to the first FF, that one among them.
fn up_to_ff(bytes: &[u8]) -> usize {
    match bytes.iter().position(|&byte| byte == 0xFF) {
        Some(before) => before.saturating_add(1),
        None => bytes.len(),
    }
}

impl Read for MemoryFiles<'_> {
    fn read(&mut self, into: &mut [u8]) -> io::Result<usize> {
        let room = room(self.manners.reads_fail_at, self.given);
        if room == 0 {
            return Err(failed());
        }
        let rest = self.rest;
        let part = if self.manners.parts_at_ff {
            up_to_ff(rest)
        } else {
            rest.len()
        };
        let n = rest
            .len()
            .min(part)
            .min(into.len())
            .min(room)
            .min(self.manners.most);
        into[..n].copy_from_slice(&rest[..n]);
        self.rest = &rest[n..];
        self.given = self.given.saturating_add(n);
        Ok(n)
    }
}

impl Write for MemoryFiles<'_> {
    fn write(&mut self, bytes: &[u8]) -> io::Result<usize> {
        let Some(output) = &mut self.output else {
            return Err(failed());
        };
        let room = room(self.manners.writes_fail_at, output.len());
        let n = bytes.len().min(room).min(self.manners.most);
        output.extend_from_slice(&bytes[..n])?;
        Ok(n)
    }

    fn flush(&mut self) -> io::Result<()> {
        Ok(())
    }
}

impl Open for &mut MemoryFiles<'_> {
    fn open_input(&mut self, name: &str) -> io::Result<()> {
        self.rest = find(self.files, name).ok_or(failed())?;
        self.given = 0;
        Ok(())
    }

    fn create_output(&mut self, name: &str) -> io::Result<()> {
        self.created.push_str(name)?;
        self.created.push_str(" ")?;
        if !self.manners.can_create {
            return Err(failed());
        }
        self.output = Some(Vec::new(self.alloc));
        Ok(())
    }
}
