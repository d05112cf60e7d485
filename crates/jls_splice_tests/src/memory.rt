//! Files in memory: copies, which are numbered from 1 on, lists of bad places, and the outputs that were created. No copy is replaced, nor
//! a file that stands.

use jls_io::Open;
use std::alloc::Global;
use std::io;
use std::io::{Read, Write};

/// The name of a file that stands.
const STANDING: &str = "STANDS-2";

/// Lists of bad places, by their names: lines with offsets and lengths, mapfiles of ddrescue, and one that is none.
const LISTS: &[(&str, &str)] = &[
    ("none", "# nothing is bad\n"),
    ("two", "100 8\n0x12C 8 -\n"),
    (
        "map",
        "# Mapfile. Created by GNU ddrescue version 1.27\n\
        0x000000C8     ?               1\n\
        0x00000000  0x000000C8  +\n0x000000C8  0x00000008  -\n0x000000D0  0x000001DE  +\n",
    ),
    ("place", "300 8\n"),
    ("byte", "300 1\n"),
    ("interval", "70 3\n"),
    ("header", "6 1\n"),
    ("end", "600 9999\n"),
    ("words", "100 8\nat 300\n"),
];

/// An output, by its name.
#[derive(Drop)]
pub(crate) struct Output {
    pub name: String,
    pub bytes: Vec<u8>,
}

#[derive(Drop)]
pub(crate) struct MemoryFiles<'a> {
    copies: &'a [Vec<u8>],
    rest: &'a [u8],
    outputs: Vec<Output>,
    alloc: Global,
}

impl<'a> MemoryFiles<'a> {
    /// These copies, none of which is open yet.
    pub(crate) fn new(alloc: Global, copies: &'a [Vec<u8>]) -> MemoryFiles<'a> {
        MemoryFiles {
            copies,
            rest: &[],
            outputs: Vec::new(alloc),
            alloc,
        }
    }

    /// Whether an output was created.
    pub(crate) fn has_output(&self) -> bool {
        !self.outputs.is_empty()
    }

    /// How many outputs were created.
    pub(crate) fn count(&self) -> usize {
        self.outputs.len()
    }

    /// What the output of this name took, if it was created.
    pub(crate) fn output(&self, name: &str) -> Option<&[u8]> {
        for output in &self.outputs {
            if output.name.as_str() == name {
                return Some(output.bytes.as_slice());
            }
        }
        None
    }
}

fn failed() -> io::Error {
    io::Error::from(io::ErrorKind::Other)
}

/// The copy of this number.
fn copy_named<'a>(copies: &'a [Vec<u8>], name: &str) -> Option<&'a [u8]> {
    let number = name.parse::<usize>().ok()?;
    let copy = copies.get(number.checked_sub(1)?)?;
    Some(copy.as_slice())
}

/// The list of this name.
pub(crate) fn list_named(name: &str) -> Option<&'static [u8]> {
    for list in LISTS {
        if list.0 == name {
            return Some(list.1.as_bytes());
        }
    }
    None
}

impl Read for MemoryFiles<'_> {
    fn read(&mut self, into: &mut [u8]) -> io::Result<usize> {
        self.rest.read(into)
    }
}

impl Write for MemoryFiles<'_> {
    fn write(&mut self, bytes: &[u8]) -> io::Result<usize> {
        match self.outputs.last_mut() {
            Some(output) => output.bytes.write(bytes),
            None => Err(failed()),
        }
    }

    fn flush(&mut self) -> io::Result<()> {
        Ok(())
    }
}

impl Open for &mut MemoryFiles<'_> {
    fn open_input(&mut self, name: &str) -> io::Result<()> {
        self.rest = match list_named(name) {
            Some(list) => list,
            None => copy_named(self.copies, name).ok_or(failed())?,
        };
        Ok(())
    }

    fn create_output(&mut self, name: &str) -> io::Result<()> {
        if name == STANDING || copy_named(self.copies, name).is_some() {
            return Err(failed());
        }
        let output = Output {
            name: String::from_str(self.alloc, name)?,
            bytes: Vec::new(self.alloc),
        };
        self.outputs.push(output)?;
        Ok(())
    }
}
