//! A writer that stops after so many bytes.

use std::alloc::Global;
use std::io;
use std::io::Write;

/// A writer into memory that takes so many bytes in a call, and so many in all.
#[derive(Drop)]
pub struct Limited {
    pub held: Vec<u8>,
    pub most: usize,
    pub limit: usize,
}

impl Limited {
    /// A writer that has taken nothing yet.
    pub fn new(alloc: Global, most: usize, limit: usize) -> Limited {
        Limited {
            held: Vec::new(alloc),
            most,
            limit,
        }
    }
}

impl Write for Limited {
    fn write(&mut self, bytes: &[u8]) -> io::Result<usize> {
        let room = self.limit.saturating_sub(self.held.len());
        let n = bytes.len().min(self.most).min(room);
        if n == 0 {
            return Err(io::Error::from(io::ErrorKind::WriteZero));
        }
        self.held.extend_from_slice(&bytes[..n])?;
        Ok(n)
    }

    fn flush(&mut self) -> io::Result<()> {
        Ok(())
    }
}
