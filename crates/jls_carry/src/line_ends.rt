//! Where lines end in their code.

use std::alloc::{AllocError, Global};

/// How many whole bytes of a code stand before the end of each of its lines.
#[derive(Drop)]
pub(crate) struct LineEnds {
    ends: Vec<usize>,
    /// How many bytes the code fills.
    length: usize,
}

impl LineEnds {
    /// Those of a code that fills so many bytes.
    pub(crate) fn new(ends: Vec<usize>, length: usize) -> LineEnds {
        LineEnds { ends, length }
    }

    /// Those of the code of no line.
    pub(crate) fn empty(alloc: Global) -> LineEnds {
        LineEnds::new(Vec::new(alloc), 0)
    }

    /// How many lines the code has.
    pub(crate) fn count(&self) -> usize {
        self.ends.len()
    }

    /// How many bytes the code fills.
    pub(crate) fn length(&self) -> usize {
        self.length
    }

    /// The same where the code fills a byte more.
    pub(crate) fn with_byte(self) -> LineEnds {
        let LineEnds { ends, length } = self;
        LineEnds::new(ends, length.saturating_add(1))
    }

    /// How many whole bytes stand before the end of a line.
    pub(crate) fn end_of(&self, line: usize) -> usize {
        self.ends.get(line).copied().unwrap_or(self.length)
    }

    /// How many whole bytes stand before a line.
    pub(crate) fn begin_of(&self, line: usize) -> usize {
        match line.checked_sub(1) {
            None => 0,
            Some(before) => self.end_of(before),
        }
    }

    /// How many lines end before so many bytes.
    pub(crate) fn count_below(&self, bound: usize) -> usize {
        let mut low = 0usize;
        let mut high = self.ends.len();
        for _ in 0..usize::BITS {
            if low >= high {
                break;
            }
            let middle = low.saturating_add(high.saturating_sub(low) / 2);
            match self.ends.get(middle) {
                Some(end) if *end < bound => low = middle.saturating_add(1),
                _ => high = middle,
            }
        }
        low
    }
}
