//! Copies of files in memory.

use jls_io::{Counted, Open};
use jls_station::{CopyCause, CopyRefusal, ReadStop, read_copies};
use std::io;
use std::io::{Read, Write};
use std::test::Fail;

/// Files in memory.
#[derive(Drop)]
struct Files<'a> {
    files: &'a [(&'a str, &'a [u8])],
    /// The most bytes that one read gives.
    most: usize,
    /// Whether a read fails where the file ends.
    is_torn: bool,
    rest: &'a [u8],
}

fn failed() -> io::Error {
    io::Error::from(io::ErrorKind::Other)
}

impl Read for Files<'_> {
    fn read(&mut self, into: &mut [u8]) -> io::Result<usize> {
        let rest = self.rest;
        if rest.is_empty() && self.is_torn {
            return Err(failed());
        }
        let n = rest.len().min(into.len()).min(self.most);
        into[..n].copy_from_slice(&rest[..n]);
        self.rest = &rest[n..];
        Ok(n)
    }
}

impl Write for Files<'_> {
    fn write(&mut self, _bytes: &[u8]) -> io::Result<usize> {
        Err(failed())
    }

    fn flush(&mut self) -> io::Result<()> {
        Ok(())
    }
}

fn find<'a>(files: &'a [(&'a str, &'a [u8])], name: &str) -> Option<&'a [u8]> {
    for file in files {
        if file.0 == name {
            return Some(file.1);
        }
    }
    None
}

impl Open for Files<'_> {
    fn open_input(&mut self, name: &str) -> io::Result<()> {
        self.rest = find(self.files, name).ok_or(failed())?;
        Ok(())
    }

    fn create_output(&mut self, _name: &str) -> io::Result<()> {
        Err(failed())
    }
}

/// The desk of these files, none of which is open yet.
fn desk<'a>(files: &'a [(&'a str, &'a [u8])], most: usize, is_torn: bool) -> Counted<Files<'a>> {
    Counted::closed(Files {
        files,
        most,
        is_torn,
        rest: &[],
    })
}

/// Bytes stand after the EOI of one copy, and the other is longer than a read.
#[test]
fn each_copy_is_read_to_its_end(rt: HostRuntime) -> Result<(), Fail> {
    let alloc = rt.alloc();
    let mut long = Vec::new(alloc);
    for at in 0..10_000u32 {
        long.push((at % 251) as u8)?;
    }
    let short: &[u8] = b"\xFF\xD8\xFF\xD9 and more";
    let files = [("long", long.as_slice()), ("short", short), ("none", b"")];
    for (most, is_torn, stop) in [
        (1, false, ReadStop::Whole),
        (4096, true, ReadStop::Failed),
        (10_000, false, ReadStop::Whole),
    ] {
        let mut desk = desk(&files, most, is_torn);
        let copies = match read_copies(alloc, &mut desk, &["short", "none", "long"]) {
            Ok(copies) => copies,
            Err(_) => return Err(Fail::from("refused")),
        };
        let [first, second, third] = copies.as_slice() else {
            return Err(Fail::from("not three copies"));
        };
        assert_eq!(rt; first.bytes.as_slice(), short);
        assert!(rt; second.bytes.is_empty());
        assert_eq!(rt; third.bytes.as_slice(), long.as_slice());
        for copy in [first, second, third] {
            assert_eq!(rt; copy.stop, stop);
        }
    }
    Ok(())
}

#[test]
fn a_refusal_has_the_name(rt: HostRuntime) -> Result<(), Fail> {
    let files: [(&str, &[u8]); 3] = [
        ("copy", b"\xFF\xD8"),
        ("text", b"JLSP\x02"),
        ("near", b"JLSQ"),
    ];
    let no_copy = CopyCause::PartialPicture;
    let not_there = CopyCause::NotOpened;
    for (names, name, cause) in [
        (["copy", "text", "lost"], "text", no_copy),
        (["near", "lost", "text"], "lost", not_there),
    ] {
        for most in [1, 4096] {
            let mut desk = desk(&files, most, false);
            match read_copies(rt.alloc(), &mut desk, &names) {
                Ok(_) => return Err(Fail::from("taken")),
                Err(refusal) => assert_eq!(rt; refusal, CopyRefusal { name, cause }),
            }
        }
    }
    Ok(())
}
