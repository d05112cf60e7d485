//! A writer into memory that was reserved, and grows nothing.

use std::alloc::{AllocError, Global};
use std::io;
use std::io::Write;

/// A writer into memory that was reserved.
#[derive(Drop)]
pub struct Room {
    held: Vec<u8>,
}

impl Room {
    /// Room for so many bytes.
    pub fn of(alloc: Global, count: usize) -> Result<Room, AllocError> {
        Ok(Room {
            held: Vec::with_capacity(alloc, count)?,
        })
    }

    /// What was written so far.
    pub fn held(&self) -> &[u8] {
        self.held.as_slice()
    }
}

fn failed() -> io::Error {
    io::Error::from(io::ErrorKind::Other)
}

impl Write for Room {
    fn write(&mut self, bytes: &[u8]) -> io::Result<usize> {
        if self.held.len().saturating_add(bytes.len()) > self.held.capacity() {
            return Err(failed());
        }
        self.held.extend_from_slice(bytes)?;
        Ok(bytes.len())
    }

    fn flush(&mut self) -> io::Result<()> {
        Ok(())
    }
}
