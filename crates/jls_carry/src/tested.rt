//! Which lines of copies were compared with the bytes of others.

use std::alloc::{AllocError, Global};

/// Which lines of which copies were compared with the bytes of another.
#[derive(Drop)]
pub(crate) struct Tested {
    /// For each copy, for each line.
    lines: Vec<Vec<bool>>,
}

impl Tested {
    /// No line, of so many copies and lines.
    pub(crate) fn new(alloc: Global, copies: usize, lines: usize) -> Result<Tested, AllocError> {
        let mut all = Vec::new(alloc);
        for _ in 0..copies {
            all.push(vec![in alloc; false; lines]?)?;
        }
        Ok(Tested { lines: all })
    }

    /// Notes that a line of a copy was compared.
    pub(crate) fn add(&mut self, copy: usize, place: usize) {
        if let Some(lines) = self.lines.get_mut(copy) {
            if let Some(is_tested) = lines.get_mut(place) {
                *is_tested = true;
            }
        }
    }

    /// Whether a line of a copy was compared.
    pub(crate) fn has(&self, copy: usize, place: usize) -> bool {
        match self.lines.get(copy) {
            None => false,
            Some(lines) => lines.get(place).copied().unwrap_or(false),
        }
    }
}
