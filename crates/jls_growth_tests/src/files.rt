//! Files in memory, whose outputs take room that was reserved.

use crate::room::Room;
use jls_io::Open;
use std::alloc::{AllocError, Global};
use std::io;
use std::io::{Read, Write};

fn failed() -> io::Error {
    io::Error::from(io::ErrorKind::Other)
}

/// An input by its name.
pub type File<'a> = (&'a str, &'a [u8]);

/// Files in memory: inputs, and room for what all outputs take, one after the other.
#[derive(Drop)]
pub struct Files<'a> {
    files: &'a [File<'a>],
    rest: &'a [u8],
    created: u8,
    output: Room,
}

impl<'a> Files<'a> {
    /// These files, of which none is open, and room for 100,000 bytes of outputs.
    pub fn new(alloc: Global, files: &'a [File<'a>]) -> Result<Files<'a>, AllocError> {
        Ok(Files {
            files,
            rest: &[],
            created: 0,
            output: Room::of(alloc, 100_000)?,
        })
    }

    /// How many outputs were created.
    pub fn created(&self) -> u8 {
        self.created
    }

    /// What the outputs took.
    pub fn output(&self) -> &[u8] {
        self.output.held()
    }
}

impl Read for Files<'_> {
    fn read(&mut self, into: &mut [u8]) -> io::Result<usize> {
        self.rest.read(into)
    }
}

impl Write for Files<'_> {
    fn write(&mut self, bytes: &[u8]) -> io::Result<usize> {
        if self.created == 0 {
            return Err(failed());
        }
        self.output.write(bytes)
    }

    fn flush(&mut self) -> io::Result<()> {
        Ok(())
    }
}

impl Open for &mut Files<'_> {
    fn open_input(&mut self, name: &str) -> io::Result<()> {
        for file in self.files {
            if file.0 == name {
                self.rest = file.1;
                return Ok(());
            }
        }
        Err(failed())
    }

    fn create_output(&mut self, _name: &str) -> io::Result<()> {
        self.created = self.created.saturating_add(1);
        Ok(())
    }
}
