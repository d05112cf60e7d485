//! The first lines of each component, as copies give them, and their code.

use crate::claims::bytes_of;
use crate::code::{CODES_TO_FILL_BYTE, FirstCode, front_of, read_lines};
use crate::interval::Interval;
use crate::pieces::Layout;
use std::alloc::{AllocError, Global};

/// The first lines of each component, as some copy gives them.
#[derive(Drop)]
pub(crate) struct FirstLines {
    components: Vec<Vec<Vec<u16>>>,
}

impl FirstLines {
    /// For each component those of the copy that gives most, but for one copy. Only copies of a picture of so many components count.
    pub(crate) fn of(
        alloc: Global,
        copies: &[&[u8]],
        layouts: &[Option<Layout>],
        without: usize,
        in_frame: usize,
    ) -> Result<FirstLines, AllocError> {
        let mut components: Vec<Vec<Vec<u16>>> = Vec::new(alloc);
        for _ in 0..in_frame {
            components.push(Vec::new(alloc))?;
        }
        let mut first = FirstLines { components };
        for (number, (copy, layout)) in copies.iter().zip(layouts).enumerate() {
            if let (Some(layout), true) = (layout, number != without) {
                if layout.shape.ids().len() == in_frame {
                    first.take(alloc, copy, layout)?;
                }
            }
        }
        Ok(first)
    }

    /// Takes what the first pieces of a copy's scans give.
    fn take(&mut self, alloc: Global, copy: &[u8], layout: &Layout) -> Result<(), AllocError> {
        for piece in layout.pieces.iter() {
            if piece.number != 0 {
                continue;
            }
            let read = read_lines(alloc, piece, bytes_of(copy, piece))?;
            let mut given: Vec<Vec<Vec<u16>>> = Vec::new(alloc);
            for _ in 0..self.components.len() {
                given.push(Vec::new(alloc))?;
            }
            for (line, samples) in read.lines.into_iter().enumerate() {
                let component = piece.interval.place(line) % self.components.len().max(1);
                if let Some(lines) = given.get_mut(component) {
                    lines.push(samples)?;
                }
            }
            for (lines, more) in self.components.iter_mut().zip(given) {
                if more.len() > lines.len() {
                    *lines = more;
                }
            }
        }
        Ok(())
    }

    /// The line at a place of the picture, if it is known.
    fn line(&self, place: usize) -> Option<&[u16]> {
        let in_frame = self.components.len();
        let row = place.checked_div(in_frame)?;
        let lines = self.components.get(place.checked_rem(in_frame)?)?;
        Some(lines.get(row)?.as_slice())
    }

    /// The bytes that the code of these lines fills, as far as they begin an interval; none, where they can't be coded there.
    pub(crate) fn code(&self, alloc: Global, interval: &Interval) -> Result<Vec<u8>, AllocError> {
        let blank = vec![in alloc; 0u16; usize::from(interval.width)]?;
        let mut lines: Vec<&[u16]> = Vec::new(alloc);
        for line in 0..interval.line_count() {
            let Some(samples) = self.line(interval.place(line)) else {
                break;
            };
            lines.push(samples)?;
        }
        let count = interval.coded_lines(lines.len());
        lines.truncate(count);
        for _ in 0..interval.lines_to_fill(count, CODES_TO_FILL_BYTE) {
            lines.push(&blank)?;
        }
        let Some(front) = front_of(alloc, interval, &lines)? else {
            return Ok(Vec::new(alloc));
        };
        match FirstCode::of(alloc, &front, count)? {
            None => Ok(Vec::new(alloc)),
            Some(code) => {
                let FirstCode { bytes, .. } = code;
                Ok(bytes)
            }
        }
    }
}
