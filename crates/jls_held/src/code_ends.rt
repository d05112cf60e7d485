//! Where the code of a piece's lines ends: by line that of each line, by sample that of each row.

ghost use Rattle.std.specs.Prelude.{◌≡◌, ◌+◌, ◌<◌, ◌≤◌, ◌/◌, true, false, List, length, map, take, get_or, IfOk};
ghost use Rattle.std.specs.List.{AllByRecursion};
ghost use Rattle.jls_bits.specs.Bits.{is_whole};
ghost use Rattle.jls_marker.specs.Scan.{intervals};
ghost use Rattle.jls_interval.specs.Fronts.{AreFirstLines, LinesEndAt, nowhere};
ghost use Rattle.jls_copy.specs.IntervalOf.{interval_of};
ghost use Rattle.jls_held.specs.Mending.{file_of};
ghost use Rattle.jls_held.specs.FilePieces.{lines_of, IsPieceOf};
ghost use Rattle.jls_held.specs.Chains.{AreCodeEnds, AreHeldBetween, place_of, start_of, together};

use crate::mending::MendedCopy;
use crate::row_ends::row_ends;
use jls_bits::BitPlace;
use jls_copy::{PieceInHand, pieces_stand_at_their_offsets_under};
use jls_interval::{Front, encode_front, fronts_begin_pieces};
use jls_piece::broken_piece_begins_with_no_code;
use std::alloc::{AllocError, Global};

/// Where the code of the first lines of a piece ends, of each that are coded together.
#[derive(Drop)]
pub(crate) struct CodeEnds {
    /// How many lines are coded together: by line one, by sample those of a row.
    pub(crate) together: usize,
    pub(crate) ends: Vec<BitPlace>,
}

/// Whether the byte at a place of the piece at this offset is held.
fn is_held_at(held: &[bool], offset: u64, place: usize) -> bool
    ensures { result ≡ true → get_or held.now (offset + place) false ≡ true }
{
    let Some(at) = (offset as usize).checked_add(place) else {
        return false;
    };
    at < held.len() && held[at]
}

/// Whether all bytes are held that carry bits between two places of the piece at this offset.
fn is_code_held(held: &[bool], offset: u64, start: BitPlace, end: BitPlace) -> bool
    ensures { result ≡ true → AreHeldBetween held.now offset start end }
{
    for place in start.bytes..end.bytes {
        if !is_held_at(held, offset, place) {
            return false;
        }
    }
    end.bits == 0 || is_held_at(held, offset, end.bytes)
}

impl CodeEnds {
    /// Whether all bytes of the code are held that a line of the piece at this offset is in.
    pub(crate) fn is_held(&self, held: &[bool], offset: u64, line: usize) -> bool
        requires { 0 < self.now.together }
        ensures within { result ≡ true → line / self.now.together < length self.now.ends.items }
        ensures held { result ≡ true → AreHeldBetween held.now offset (start_of self.now.ends.items (line / self.now.together))
            (get_or self.now.ends.items (line / self.now.together) nowhere) }
    {
        let number = line / self.together;
        if number >= self.ends.len() {
            return false;
        }
        let start = if number == 0 {
            BitPlace { bytes: 0, bits: 0 }
        } else {
            self.ends[number - 1]
        };
        is_code_held(held, offset, start, self.ends[number])
    }
}

/// Where the code of each line of a piece by line ends.
fn line_ends(alloc: Global, piece: &PieceInHand) -> Result<Vec<BitPlace>, AllocError>
    requires { AreFirstLines piece.now.plan.params piece.now.plan.width (length piece.now.plan.components) (lines_of piece.now) }
    ensures { IfOk result (λ ends. LinesEndAt piece.now.plan.params piece.now.plan.width (length piece.now.plan.components)
        (lines_of piece.now) ends.items) }
{
    let mut lines = Vec::new(alloc);
    for line in &piece.lines {
        lines.push(line.as_slice())?;
    }
    let plan = &piece.plan;
    let components = plan.components().len() as u8;
    let Front { bytes: _, ends } = encode_front(
        alloc,
        &plan.params(),
        plan.width(),
        components,
        &lines,
    )?;
    Ok(ends)
}

/// How many first bytes are data bytes: those before the first byte of 0x80 or more that follows 0xFF (ITU-T T.87, A.1).
fn data_length(bytes: &[u8]) -> usize
    ensures within { result ≤ length bytes.now }
    ensures whole { is_whole (take result bytes.now) ≡ true }
    ensures bytes { AllByRecursion (λ b. b < 256) bytes.now }
{
    let mut before = 0;
    for place in 0..bytes.len() {
        let byte = bytes[place];
        if before == 0xFF && byte >= 0x80 {
            return place;
        }
        before = byte;
    }
    bytes.len()
}

/// Places in these bytes, behind some bits of each.
fn places_of(alloc: Global, bytes: &[usize]) -> Result<Vec<BitPlace>, AllocError>
    ensures { IfOk result (λ places. places.items ≡ map place_of bytes.now) }
{
    let mut places = Vec::new(alloc);
    for byte in bytes {
        places.push(BitPlace {
            bytes: *byte,
            bits: 1,
        })?;
    }
    Ok(places)
}

/// Where the code of each row of a piece by sample ends. It can be that of the first rows only.
fn places_of_rows(
    alloc: Global,
    file: &MendedCopy,
    piece: &PieceInHand,
) -> Result<Vec<BitPlace>, AllocError>
    requires piece { IsPieceOf (file_of file.now) piece.now }
    requires by_sample { piece.now.plan.by_sample ≡ true }
    ensures { IfOk result (λ ends. (is : IsPieceOf (file_of file.now) piece.now)
        → AreCodeEnds (interval_of piece.now.plan piece.now.interval) is.found.piece.bytes (lines_of piece.now) ends.items) }
{
    broken_piece_begins_with_no_code();
    pieces_stand_at_their_offsets_under();
    let plan = &piece.plan;
    let components = plan.components().len();
    let Ok(rows) = u32::try_from(piece.lines.len() / components) else {
        return Ok(Vec::new(alloc));
    };
    let Some(bytes) = file.bytes.get(piece.offset as usize..) else {
        return Ok(Vec::new(alloc));
    };
    let data = &bytes[..data_length(bytes)];
    let ends = row_ends(
        alloc,
        &plan.params(),
        plan.width(),
        components as u8,
        rows,
        data,
    )?;
    let places = places_of(alloc, &ends)?;
    Ok(places)
}

/// Where the code of a piece's lines ends.
pub(crate) fn code_ends(
    alloc: Global,
    file: &MendedCopy,
    piece: &PieceInHand,
) -> Result<CodeEnds, AllocError>
    requires { IsPieceOf (file_of file.now) piece.now }
    ensures together { IfOk result (λ codes. codes.together ≡ together (interval_of piece.now.plan piece.now.interval)) }
    ensures ends { IfOk result (λ codes. (is : IsPieceOf (file_of file.now) piece.now)
        → AreCodeEnds (interval_of piece.now.plan piece.now.interval) is.found.piece.bytes (lines_of piece.now) codes.ends.items) }
{
    if piece.plan.by_sample() {
        let ends = places_of_rows(alloc, file, piece)?;
        Ok(CodeEnds {
            together: piece.plan.components().len(),
            ends,
        })
    } else {
        fronts_begin_pieces();
        let ends = line_ends(alloc, piece)?;
        Ok(CodeEnds { together: 1, ends })
    }
}
