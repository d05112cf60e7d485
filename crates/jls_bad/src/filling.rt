//! What is known of a copy's bytes, by itself and by the others that are as long.

ghost use Rattle.std.specs.Prelude.{◌≡◌, ℕ, ◌<◌, false, get_or, length, IfOk};
ghost use Rattle.jls_bad.specs.Known.{known_byte};
ghost use Rattle.jls_bad.specs.Copies.{copy_of};
ghost use Rattle.jls_bad.specs.Inside.{AreMarked, IsFilled, byte_if_as_long, first_as_long, marked_byte, marked_byte_for};

use crate::known::Listed;
use crate::marks::marks_of;
use std::alloc::{AllocError, Global};

/// A copy, and which of its bytes are in bad places.
#[derive(Drop)]
pub(crate) struct Marked<'a> {
    pub(crate) bytes: &'a [u8],
    /// No marks stand for bytes of which none is bad.
    pub(crate) is_bad: Vec<bool>,
}

/// The bytes for a copy, and which are lost.
#[derive(Drop)]
pub(crate) struct Filled {
    pub(crate) bytes: Vec<u8>,
    /// No marks stand for bytes of which none is lost.
    pub(crate) is_lost: Vec<bool>,
}

/// Whether the byte at an offset is marked.
pub(crate) fn is_marked(marks: &[bool], offset: usize) -> bool
    ensures { result ≡ get_or marks.now offset false }
{
    if offset < marks.len() {
        marks[offset]
    } else {
        false
    }
}

impl Marked<'_> {
    /// The byte that the copy is known to have at an offset.
    fn byte_at(&self, offset: usize) -> Option<u8>
        ensures { result ≡ marked_byte self.now offset }
    {
        if is_marked(&self.is_bad, offset) {
            return None;
        }
        self.bytes.get(offset).copied()
    }

    /// The byte that the copy is known to have at an offset, if it has so many bytes.
    fn byte_if_as_long(&self, count: usize, offset: usize) -> Option<u8>
        ensures { result ≡ byte_if_as_long count self.now offset }
    {
        if self.bytes.len() == count {
            self.byte_at(offset)
        } else {
            None
        }
    }
}

/// A copy with its marks. `Err` comes if memory is refused.
fn with_marks<'a>(alloc: Global, copy: &Listed<'a>) -> Result<Marked<'a>, AllocError>
    ensures bytes { IfOk result (λ marked. marked.bytes.now ≡ copy.now.bytes.now) }
    ensures marks { IfOk result (λ marked. (offset : ℕ) → marked_byte marked offset ≡ known_byte (copy_of copy.now) offset) }
{
    let is_bad = marks_of(alloc, copy.bytes.len(), copy.places)?;
    Ok(Marked {
        bytes: copy.bytes,
        is_bad,
    })
}

/// Copies with their marks. `Err` comes if memory is refused.
pub(crate) fn all_marked<'a>(
    alloc: Global,
    copies: &[Listed<'a>],
) -> Result<Vec<Marked<'a>>, AllocError>
    ensures { IfOk result (λ all. AreMarked copies.now all.items) }
{
    let mut all = Vec::with_capacity(alloc, copies.len())?;
    for copy in copies {
        all.push(with_marks(alloc, copy)?)?;
    }
    Ok(all)
}

/// The byte that the first of the copies with so many bytes is known to have at an offset.
fn first_byte(copies: &[Marked<'_>], count: usize, offset: usize) -> Option<u8>
    ensures { result ≡ first_as_long copies.now count offset }
{
    for copy in copies {
        if let Some(byte) = copy.byte_if_as_long(count, offset) {
            return Some(byte);
        }
    }
    None
}

/// The byte for a copy at an offset.
///
/// A copy of another length lost or gained bytes, or is another coding: at the same offset it has another byte.
fn byte_for(copies: &[Marked<'_>], copy: &Marked<'_>, offset: usize) -> Option<u8>
    ensures { result ≡ marked_byte_for copies.now copy.now offset }
{
    match copy.byte_at(offset) {
        Some(byte) => Some(byte),
        None => first_byte(copies, copy.bytes.len(), offset),
    }
}

/// The bytes for a copy. `Err` comes if memory is refused.
pub(crate) fn fill(
    alloc: Global,
    copies: &[Marked<'_>],
    copy: &Marked<'_>,
) -> Result<Filled, AllocError>
    ensures { IfOk result (λ filled.
        IsFilled (marked_byte_for copies.now copy.now) (length copy.now.bytes.now) filled.bytes.items filled.is_lost.items) }
{
    if copy.is_bad.is_empty() {
        return Ok(Filled {
            bytes: Vec::from_slice(alloc, copy.bytes)?,
            is_lost: Vec::new(alloc),
        });
    }
    let mut bytes = Vec::with_capacity(alloc, copy.bytes.len())?;
    let mut is_lost = Vec::with_capacity(alloc, copy.bytes.len())?;
    for offset in 0..copy.bytes.len() {
        let byte = byte_for(copies, copy, offset);
        bytes.push(byte.unwrap_or(0))?;
        is_lost.push(byte.is_none())?;
    }
    Ok(Filled { bytes, is_lost })
}
