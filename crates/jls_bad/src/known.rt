//! Known copies, which stand for copies with bad places.

ghost use Rattle.std.specs.Prelude.{◌≡◌, ℕ, ◌-◌, ◌<◌, ◌≤◌, false, true, take, vec_len, get_or, IfOk};
ghost use Rattle.jls_bad.specs.Known.{AreKnownCopies};
ghost use Rattle.jls_bad.specs.Copies.{bytes_in, copies_of};
ghost use Rattle.jls_bad.specs.Inside.{IsChosen};

use crate::choice::{are_as_long, cut_of};
use crate::filling::{Filled, all_marked, fill, is_marked};
use crate::place::Place;
use std::alloc::{AllocError, Global};

/// A copy, and its bytes that are known to be bad.
#[derive(Clone, Copy)]
pub struct Listed<'a> {
    pub bytes: &'a [u8],
    /// In any order. They may overlap, and lie past the end.
    pub places: &'a [Place],
}

/// Whether a byte is lost, or is given up behind the lost ones in front of it. `FF` is not given up: a marker may begin with it.
fn is_written(byte: u8, is_lost: &[bool], at: usize, is_second: bool) -> bool
    ensures kept { get_or is_lost.now at false ≡ false → (0 < at → get_or is_lost.now (at - 1) false ≡ false) → result ≡ false }
    ensures kept_marker { get_or is_lost.now at false ≡ false → byte ≡ 0xFF → result ≡ false }
{
    if is_marked(is_lost, at) {
        return true;
    }
    is_second && byte != 0xFF && at > 0 && is_marked(is_lost, at - 1)
}

/// One of the two bytes of a marker that has no place in scan data.
fn marker_byte(is_second: bool) -> u8 {
    if is_second { 0xD8 } else { 0xFF }
}

/// Writes one byte of such a marker, if one belongs there, and answers whether its second byte comes next.
fn write_fault(bytes: &mut Vec<u8>, is_lost: &[bool], at: usize, is_second: bool) -> bool
    requires { at < vec_len bytes.old }
    ensures size { vec_len bytes.new ≡ vec_len bytes.old }
    ensures kept { (k : ℕ) → get_or is_lost.now k false ≡ false → (0 < k → get_or is_lost.now (k - 1) false ≡ false)
        → get_or bytes.new.items k 0 ≡ get_or bytes.old.items k 0 }
    ensures kept_markers { (k : ℕ) → get_or is_lost.now k false ≡ false → get_or bytes.old.items k 0 ≡ 0xFF
        → get_or bytes.new.items k 0 ≡ 0xFF }
{
    if !is_written(bytes[at], is_lost, at, is_second) {
        return false;
    }
    bytes[at] = marker_byte(is_second);
    !is_second
}

/// Writes such markers over lost bytes, so that a reader finds a fault there.
///
/// If lost bytes in a row are odd, the byte behind them is given up, unless it is `FF`. Then the last lost one is a fill byte before it
/// (T.81 B.1.1.2), so that a restart marker or the end of the picture stays.
fn write_faults(bytes: &mut Vec<u8>, is_lost: &[bool])
    ensures size { vec_len bytes.new ≡ vec_len bytes.old }
    ensures kept { (k : ℕ) → get_or is_lost.now k false ≡ false → (0 < k → get_or is_lost.now (k - 1) false ≡ false)
        → get_or bytes.new.items k 0 ≡ get_or bytes.old.items k 0 }
    ensures kept_markers { (k : ℕ) → get_or is_lost.now k false ≡ false → get_or bytes.old.items k 0 ≡ 0xFF
        → get_or bytes.new.items k 0 ≡ 0xFF }
{
    let mut is_second = false;
    for at in 0..bytes.len() {
        is_second = write_fault(bytes, is_lost, at, is_second);
    }
}

/// Bytes up to a lost one, or all.
fn cut_off(mut bytes: Vec<u8>, is_lost: &[bool], is_read_to_end: bool) -> Vec<u8>
    ensures front { result.items ≡ take (vec_len result) bytes.items }
    ensures size { vec_len result ≤ vec_len bytes }
    ensures cut { vec_len result < vec_len bytes → get_or is_lost.now (vec_len result) false ≡ true }
{
    let cut = cut_of(&bytes, is_lost, is_read_to_end);
    if cut >= bytes.len() || !is_marked(is_lost, cut) {
        return bytes;
    }
    bytes.truncate(cut);
    bytes
}

/// What stands for a copy, of which these bytes are known.
fn chosen(known: Filled, is_read_to_end: bool) -> Vec<u8>
    ensures { IsChosen known.bytes.items known.is_lost.items result.items }
{
    let Filled { bytes, is_lost } = known;
    if is_lost.is_empty() {
        return bytes;
    }
    let mut front = cut_off(bytes, &is_lost, is_read_to_end);
    write_faults(&mut front, &is_lost);
    front
}

/// What stands for each copy: its bytes that aren't bad, and else those of the first copy as long that has one which isn't.
///
/// A copy of another length gives none: it lost or gained bytes, or is another coding. In scan data, bytes that no copy as long has are
/// replaced by markers, so that a reader goes on at the next restart marker. Behind an odd run of them one byte more is given up, unless it
/// is `FF`, with which a marker may begin. A copy is cut before the first such byte elsewhere, and before the first of its last restart
/// interval if all copies are as long. `Err` comes if memory is refused.
pub fn known_copies(alloc: Global, copies: &[Listed<'_>]) -> Result<Vec<Vec<u8>>, AllocError>
    ensures { IfOk result (λ known. AreKnownCopies (copies_of copies.now) (bytes_in known.items)) }
{
    let marked = all_marked(alloc, copies)?;
    let is_read_to_end = !are_as_long(&marked);
    let mut known = Vec::with_capacity(alloc, marked.len())?;
    for copy in &marked {
        known.push(chosen(fill(alloc, &marked, copy)?, is_read_to_end))?;
    }
    Ok(known)
}
