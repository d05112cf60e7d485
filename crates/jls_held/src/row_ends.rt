//! In which byte of a piece the code of each row by sample ends.
//!
//! A decoder of first bytes says how many rows stand whole in them. A row ends in the first byte with which one row more does.

ghost use Rattle.std.specs.Prelude.{◌≡◌, ◌<◌, ◌≤◌, take, length, IfOk, IfSome, OnOk, Some};
ghost use Rattle.jls_pixel.specs.Pixels.{pixel_shape};
ghost use Rattle.jls_pixel.specs.PixelBytes.{pixels_asked};
ghost use Rattle.jls_piece.specs.Lines.{pixel_piece};
ghost use Rattle.jls_held.specs.RowEnds.{HasWholeRows, HasAtMost, HasMore, EndsInByte, AreRowEnds};

use jls_pixel::{PixelCutEnd, PixelDecoder, PixelFault};
use jls_values::Params;
use std::alloc::{AllocError, Global};

/// How many rows stand whole in the bytes that a decoder was given, of so many rows.
fn whole_rows(decoder: &PixelDecoder, rows: u32) -> Result<usize, AllocError>
    requires some { 0 < decoder.now.components }
    requires rows { rows ≡ decoder.now.rows }
    ensures { IfOk result (λ count. IfSome decoder.now.bytes
        (λ bytes. HasWholeRows (pixel_piece (pixels_asked decoder.now)) bytes count)) }
{
    let clone = decoder.try_clone()?;
    match clone.finish_cut()? {
        PixelCutEnd::Whole(found) => Ok(found.len()),
        PixelCutEnd::Head(found, PixelFault::Broken) => Ok(found.len()),
        PixelCutEnd::Head(_, PixelFault::Long) => Ok(rows as usize),
        PixelCutEnd::Head(_, PixelFault::OutOfMemory) => Ok(0),
    }
}

/// The byte in which a row ends, between two places. The decoder was given the bytes up to the first place, and then up to that byte. The
/// row doesn't stand whole in those, and it does in the bytes up to the second place.
fn find_end(
    decoder: &mut PixelDecoder,
    bytes: &[u8],
    from: usize,
    to: usize,
    rows: u32,
    row: usize,
) -> Result<usize, AllocError>
    requires some { 0 < decoder.old.components }
    requires rows { rows ≡ decoder.old.rows }
    requires given { decoder.old.bytes ≡ Some (take from bytes.now) }
    requires order { from < to }
    requires within { to ≤ length bytes.now }
    requires before { HasAtMost (pixel_piece (pixels_asked decoder.old)) (take from bytes.now) row }
    requires behind { HasMore (pixel_piece (pixels_asked decoder.old)) (take to bytes.now) row }
    ensures end { IfOk result (λ place. EndsInByte (pixel_piece (pixels_asked decoder.old)) bytes.now row place) }
    ensures below { IfOk result (λ place. place < to) }
    ensures given { IfOk result (λ place. decoder.new ≡ record decoder.old { bytes = Some (take place bytes.now) }) }
{
    let mut low = from;
    let mut high = to;
    while high - low > 1 {
        let middle = low + (high - low) / 2;
        let mut next = decoder.try_clone()?;
        next.push_all(&bytes[low..middle])?;
        if whole_rows(&next, rows)? > row {
            high = middle;
        } else {
            *decoder = next;
            low = middle;
        }
    }
    Ok(low)
}

/// Adds the ends of rows that end between two places, so that there are `count`. The decoder was given the bytes up to the first place.
fn add_ends(
    decoder: &mut PixelDecoder,
    bytes: &[u8],
    from: usize,
    to: usize,
    rows: u32,
    count: usize,
    ends: &mut Vec<usize>,
) -> Result<(), AllocError>
    requires some { 0 < decoder.old.components }
    requires rows { rows ≡ decoder.old.rows }
    requires given { decoder.old.bytes ≡ Some (take from bytes.now) }
    requires order { from < to }
    requires within { to ≤ length bytes.now }
    requires before { HasAtMost (pixel_piece (pixels_asked decoder.old)) (take from bytes.now) (length ends.old.items) }
    requires behind { HasWholeRows (pixel_piece (pixels_asked decoder.old)) (take to bytes.now) count }
    requires known { AreRowEnds (pixel_piece (pixels_asked decoder.old)) bytes.now ends.old.items }
    ensures known { OnOk result (AreRowEnds (pixel_piece (pixels_asked decoder.old)) bytes.now ends.new.items) }
    ensures count { OnOk result (count ≤ length ends.new.items) }
{
    let mut at = from;
    while ends.len() < count {
        let place = find_end(decoder, bytes, at, to, rows, ends.len())?;
        ends.push(place)?;
        at = place;
    }
    Ok(())
}

/// The bytes in which the rows of a piece end. It can be those of the first rows only, where no more stand whole in the bytes.
pub(crate) fn row_ends(
    alloc: Global,
    params: &Params,
    width: u16,
    components: u8,
    rows: u32,
    bytes: &[u8],
) -> Result<Vec<usize>, AllocError>
    requires width { 0 < width }
    requires components_at_least { 0 < components }
    requires components_at_most { components ≤ 4 }
    ensures { IfOk result (λ ends. AreRowEnds (pixel_piece (pixel_shape params.now width components rows)) bytes.now ends.items) }
{
    let mut ends = Vec::new(alloc);
    let mut decoder = PixelDecoder::new(alloc, params, width, components, rows);
    if whole_rows(&decoder, rows)? > 0 {
        return Ok(ends);
    }
    let step = bytes.len() / (rows as usize + 1) + 1;
    let mut at = 0;
    while at < bytes.len() && ends.len() < rows as usize {
        let to = at + step.min(bytes.len() - at);
        let mut next = decoder.try_clone()?;
        next.push_all(&bytes[at..to])?;
        let count = whole_rows(&next, rows)?;
        add_ends(&mut decoder, bytes, at, to, rows, count, &mut ends)?;
        decoder = next;
        at = to;
    }
    Ok(ends)
}
