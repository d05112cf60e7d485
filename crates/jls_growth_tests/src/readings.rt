//! Partial pictures whose readings are lines of equal samples, and their texts.

use crate::met::Stopped;
use jls_partial::Partial;
use jls_values::{Merge, Shape};
use std::alloc::{AllocError, Global};
use std::process::Abort;

/// Pictures of one component with samples of 8 bits. Each line has been read as each of `samples`, all along it, under each of
/// `sources`; both are in ascending order.
#[derive(Clone, Copy)]
pub struct Readings<'a> {
    pub width: u16,
    pub height: u16,
    pub samples: &'a [u8],
    pub sources: &'a [u32],
}

impl<'a> Readings<'a> {
    /// The same lines, read as other samples.
    pub fn read_as(self, samples: &'a [u8]) -> Readings<'a> {
        Readings { samples, ..self }
    }

    /// The same readings under other sources.
    pub fn under(self, sources: &'a [u32]) -> Readings<'a> {
        Readings { sources, ..self }
    }

    /// The shape of the picture: 8 bits, one component.
    pub fn shape(&self) -> Result<Shape, Stopped> {
        Ok(Shape::new(8, self.width, self.height, &[1])?)
    }

    /// The text of the picture.
    pub fn text(&self, alloc: Global) -> Result<Vec<u8>, AllocError> {
        let mut text = Vec::from_slice(alloc, b"JLSP\x02\x08")?;
        text.extend_from_slice(&self.width.to_be_bytes())?;
        text.extend_from_slice(&self.height.to_be_bytes())?;
        text.extend_from_slice(&[1, 1])?;
        text.extend_from_slice(&u32::from(self.height).to_be_bytes())?;
        for line in 0..self.height {
            self.put_line(&mut text, line)?;
        }
        Ok(text)
    }

    fn put_line(&self, text: &mut Vec<u8>, line: u16) -> Result<(), AllocError> {
        text.push(0)?;
        text.extend_from_slice(&line.to_be_bytes())?;
        text.extend_from_slice(&(self.samples.len() as u64).to_be_bytes())?;
        for sample in self.samples {
            for _ in 0..self.width {
                text.extend_from_slice(&[0, *sample])?;
            }
            self.put_sources(text)?;
        }
        Ok(())
    }

    fn put_sources(&self, text: &mut Vec<u8>) -> Result<(), AllocError> {
        text.extend_from_slice(&(self.sources.len() as u64).to_be_bytes())?;
        for source in self.sources {
            text.extend_from_slice(&source.to_be_bytes())?;
        }
        Ok(())
    }

    /// The partial picture, read from its text.
    pub fn partial(&self, alloc: Global) -> Result<Partial, Stopped> {
        Ok(Partial::from_bytes(alloc, &self.text(alloc)?)?)
    }
}

/// Another partial picture that holds the same.
fn copy_of(alloc: Global, partial: &Partial) -> Result<Partial, Stopped> {
    Ok(Partial::from_bytes(alloc, &partial.to_bytes(alloc)?)?)
}

/// What is held holds all of `old`, and nothing that `union` doesn't.
pub fn check_between(
    rt: &impl Abort,
    alloc: Global,
    old: &Partial,
    held: &Partial,
    union: &Partial,
) -> Result<(), Stopped> {
    let mut with_old = copy_of(alloc, held)?;
    with_old.merge(old)?;
    assert!(rt; with_old == *held, "something that was held is lost");
    let mut with_held = copy_of(alloc, union)?;
    with_held.merge(held)?;
    assert!(rt; with_held == *union, "something is held that was not taken");
    Ok(())
}

/// The readings of pictures, small and large: one sample; many short lines; few long lines; many readings of one line. Each has what
/// is held, what is taken, and both.
pub const CASES: [Case<'static>; 4] = [
    Case {
        width: 1,
        height: 1,
        held: &[3],
        taken: &[5],
        both: &[3, 5],
    },
    Case {
        width: 1,
        height: 50,
        held: &[1, 4],
        taken: &[4, 200],
        both: &[1, 4, 200],
    },
    Case {
        width: 1000,
        height: 2,
        held: &[7],
        taken: &[0, 255],
        both: &[0, 7, 255],
    },
    Case {
        width: 2,
        height: 1,
        held: &[1, 3, 5, 7, 9, 11, 13, 15, 17, 19, 21, 23, 25, 27, 29],
        taken: &[0, 2, 4, 6, 8, 10, 12, 14, 16, 18, 20, 22, 24, 26, 28],
        both: &[
            0, 1, 2, 3, 4, 5, 6, 7, 8, 9, 10, 11, 12, 13, 14, 15, 16, 17, 18, 19, 20, 21, 22, 23,
            24, 25, 26, 27, 28, 29,
        ],
    },
];

/// What is held of a picture, what is taken, and both together.
#[derive(Clone, Copy)]
pub struct Case<'a> {
    pub width: u16,
    pub height: u16,
    held: &'a [u8],
    taken: &'a [u8],
    both: &'a [u8],
}

impl<'a> Case<'a> {
    fn readings(&self, samples: &'a [u8]) -> Readings<'a> {
        Readings {
            width: self.width,
            height: self.height,
            samples,
            sources: &[],
        }
    }

    /// What is held before the call.
    pub fn held(&self) -> Readings<'a> {
        self.readings(self.held)
    }

    /// What the call takes.
    pub fn taken(&self) -> Readings<'a> {
        self.readings(self.taken)
    }

    /// What is held after the call.
    pub fn both(&self) -> Readings<'a> {
        self.readings(self.both)
    }
}
