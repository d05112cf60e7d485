//! The code of first lines of an interval, and the lines that bytes begin with.
//!
//! First lines determine the first bytes of the interval's code, to the last whole byte. So a piece of which first lines are known is these
//! bytes, and then what its copy has.

use crate::interval::Interval;
use crate::line_ends::LineEnds;
use crate::pieces::Piece;
use crate::pixel_front::pixel_front;
use jls_bits::BitPlace;
use jls_copy::next_cut;
use jls_interval::{Front, encode_front, fits};
use jls_piece::{FinishedLines, PieceCutEnd, PieceDecoder};
use std::alloc::{AllocError, Global};

/// How many more codes of lines or rows fill the byte in which the last one ends: each has one bit at least.
pub(crate) const CODES_TO_FILL_BYTE: usize = 8;

/// How many bytes before the last one of a copy have to be those of a code. Then it ends as the code does.
const BYTES_AT_END: usize = 4;

/// The first bits of a byte. The others stand in the low bits.
#[derive(Clone, Copy)]
pub(crate) struct FirstBits {
    value: u8,
    /// The bits of the byte that are open.
    open: u8,
}

/// The code of some first lines.
#[derive(Drop)]
pub(crate) struct FirstCode {
    /// The bytes that it fills.
    pub(crate) bytes: Vec<u8>,
    /// The bits behind these bytes, if there are any.
    pub(crate) more: Option<FirstBits>,
    pub(crate) ends: LineEnds,
}

impl FirstBits {
    /// The byte with these bits, and the others of an own byte.
    pub(crate) fn completed(&self, own: u8) -> u8 {
        self.value | (own & self.open)
    }

    /// Whether a byte begins with these bits.
    pub(crate) fn begin(&self, byte: u8) -> bool {
        self.completed(byte) == byte
    }
}

impl FirstCode {
    /// The code of no line.
    fn empty(alloc: Global) -> FirstCode {
        FirstCode {
            bytes: Vec::new(alloc),
            more: None,
            ends: LineEnds::empty(alloc),
        }
    }

    /// The code of so many lines, from that of more. `None` comes where that has fewer.
    pub(crate) fn of(
        alloc: Global,
        front: &Front,
        count: usize,
    ) -> Result<Option<FirstCode>, AllocError> {
        let Some(last) = count.checked_sub(1) else {
            return Ok(Some(FirstCode::empty(alloc)));
        };
        let Some(place) = front.ends.get(last).copied() else {
            return Ok(None);
        };
        let Some(bytes) = front.bytes.get(..place.bytes) else {
            return Ok(None);
        };
        let mut ends = Vec::new(alloc);
        for end in front.ends.iter().take(count) {
            ends.push(end.bytes)?;
        }
        Ok(Some(FirstCode {
            bytes: Vec::from_slice(alloc, bytes)?,
            more: bits_before(&front.bytes, place),
            ends: LineEnds::new(ends, place.bytes),
        }))
    }

    /// The byte that ends a piece behind the bytes that its code fills, if there is one. The bits behind the code are free: they are those
    /// of the copy's own last byte, if it carries the same code, and else zeros. Behind FF a byte is needed (T.87 A.1).
    pub(crate) fn last_byte(&self, own: &[u8]) -> Option<u8> {
        let own = self.own_last_byte(own);
        match self.more {
            Some(bits) => match own {
                Some(byte) if bits.begin(byte) => Some(byte),
                _ => Some(bits.completed(0)),
            },
            None => {
                if self.bytes.last().copied() != Some(0xFF) {
                    return None;
                }
                match own {
                    Some(byte) if byte < 0x80 => Some(byte),
                    _ => Some(0),
                }
            }
        }
    }

    /// The last of a copy's bytes, if those before it end as the bytes do that the code fills. The end of the copy can be cut off.
    fn own_last_byte(&self, own: &[u8]) -> Option<u8> {
        let (last, before) = own.split_last()?;
        let begin = self.bytes.len().saturating_sub(BYTES_AT_END);
        let ending = self.bytes.get(begin..)?;
        if before.ends_with(ending) {
            Some(*last)
        } else {
            None
        }
    }

    /// Whether these bytes of a copy can stand behind the bytes that the code fills: the first begins with its last bits.
    pub(crate) fn goes_on_with(&self, rest: &[u8]) -> bool {
        match (self.more, rest) {
            (Some(bits), [own, ..]) => bits.begin(*own),
            _ => true,
        }
    }

    /// The bytes, and then these of the copy, the first of which completes the last bits of the code.
    pub(crate) fn followed_by(&self, alloc: Global, rest: &[u8]) -> Result<Vec<u8>, AllocError> {
        let mut all = Vec::from_slice(alloc, &self.bytes)?;
        match (self.more, rest) {
            (Some(bits), [own, others @ ..]) => {
                all.push(bits.completed(*own))?;
                all.extend_from_slice(others)?;
            }
            _ => all.extend_from_slice(rest)?,
        }
        Ok(all)
    }
}

/// The bits of the byte that stands before a place in it. A byte behind FF has seven data bits (T.87 A.1).
fn bits_before(bytes: &[u8], place: BitPlace) -> Option<FirstBits> {
    if place.bits == 0 {
        return None;
    }
    let byte = *bytes.get(place.bytes)?;
    let before = match place.bytes.checked_sub(1) {
        None => 0,
        Some(before) => bytes.get(before).copied().unwrap_or(0),
    };
    let size = if before == 0xFF { 7u8 } else { 8 };
    let open = 0xFFu8.checked_shr(u32::from(8u8.saturating_sub(size.saturating_sub(place.bits))));
    let open = open.unwrap_or(0);
    Some(FirstBits {
        value: byte & !open,
        open,
    })
}

/// The code of these lines, which begin an interval; `None` where they can't be coded under its parameters.
pub(crate) fn front_of(
    alloc: Global,
    interval: &Interval,
    lines: &[&[u16]],
) -> Result<Option<Front>, AllocError> {
    if !fits(&interval.params, interval.width, interval.components, lines) {
        return Ok(None);
    }
    if interval.by_sample {
        return Ok(Some(pixel_front(alloc, interval, lines)?));
    }
    let front = encode_front(
        alloc,
        &interval.params,
        interval.width,
        interval.components,
        lines,
    )?;
    Ok(Some(front))
}

/// The lines that bytes begin with.
#[derive(Drop)]
pub(crate) struct ReadLines {
    pub(crate) lines: Vec<Vec<u16>>,
    /// Whether they are all lines of the piece, and its bytes end with them.
    pub(crate) closes: bool,
}

/// A decoder that was given the bytes before a place.
#[derive(Drop)]
pub(crate) struct Begun {
    decoder: PieceDecoder,
    at: usize,
}

/// How many lines of an interval are finished.
fn count_finished(decoder: &PieceDecoder, interval: &Interval) -> usize {
    match decoder
        .samples_read()
        .checked_div(u64::from(interval.width))
    {
        None => 0,
        Some(count) => interval.coded_lines(usize::try_from(count).unwrap_or(0)),
    }
}

/// The finished lines, if the bits so far can go on.
fn finished_lines(decoder: &PieceDecoder) -> Result<FinishedLines, AllocError> {
    match decoder.try_clone()?.finish_cut()? {
        PieceCutEnd::Whole(lines) => Ok(lines),
        PieceCutEnd::Head(lines, _) => Ok(lines),
    }
}

impl Begun {
    /// One that was given nothing.
    pub(crate) fn new(alloc: Global, interval: &Interval) -> Begun {
        Begun {
            decoder: PieceDecoder::new(alloc, interval.planned()),
            at: 0,
        }
    }

    /// Goes on to the end of these bytes, which begin with those that it was given. They have to be those of lines.
    pub(crate) fn go_to_end(&mut self, bytes: &[u8]) -> Result<(), AllocError> {
        if let Some(more) = bytes.get(self.at..) {
            self.decoder.push_all(more)?;
            self.at = bytes.len();
        }
        Ok(())
    }

    fn try_clone(&self) -> Result<Begun, AllocError> {
        Ok(Begun {
            decoder: self.decoder.try_clone()?,
            at: self.at,
        })
    }

    /// Goes on by so many bytes at a time, as long as they can be those of lines. Answers the last decoder but one.
    fn go_on(self, bytes: &[u8], step: usize) -> Result<Begun, AllocError> {
        let mut before = self.try_clone()?;
        let mut now = self;
        for _ in 0..bytes.len() {
            let end = now.at.saturating_add(step).min(bytes.len());
            let Some(more) = bytes.get(now.at..end) else {
                break;
            };
            let mut decoder = now.decoder.try_clone()?;
            decoder.push_all(more)?;
            if more.is_empty() || decoder.reads_no_more() {
                break;
            }
            before = now;
            now = Begun { decoder, at: end };
        }
        Ok(before)
    }

    /// Goes on byte by byte, and answers the most lines that the bytes begin with. Where the last bits can't go on, they are the lines of
    /// fewer bytes.
    fn last_lines(self, piece: &Piece, bytes: &[u8]) -> Result<ReadLines, AllocError> {
        let mut decoder = self.decoder;
        let mut lines = finished_lines(&decoder)?;
        for byte in bytes.iter().skip(self.at) {
            decoder.push_all(&[*byte])?;
            if decoder.reads_no_more() {
                return Ok(ReadLines {
                    lines: lines.into_vecs()?,
                    closes: false,
                });
            }
            if count_finished(&decoder, &piece.interval) > lines.len() {
                let more = finished_lines(&decoder)?;
                if more.len() > lines.len() {
                    lines = more;
                }
            }
        }
        // By sample the last rows are read where the bytes end.
        let (lines, closes) = match decoder.finish_cut()? {
            PieceCutEnd::Whole(all) => (all, piece.ends),
            PieceCutEnd::Head(all, _) if all.len() > lines.len() => (all, false),
            PieceCutEnd::Head(_, _) => (lines, false),
        };
        Ok(ReadLines {
            lines: lines.into_vecs()?,
            closes,
        })
    }
}

/// How many bytes a decoder is given at a time, first and then.
const STEPS: [usize; 2] = [4096, 64];

/// The lines of a piece that bytes begin with, up to the first place that can end one. They begin with those that a decoder was given.
pub(crate) fn read_lines_on(
    begun: &Begun,
    piece: &Piece,
    bytes: &[u8],
) -> Result<ReadLines, AllocError> {
    let end = next_cut(bytes, begun.at.saturating_sub(1)).unwrap_or(bytes.len());
    let bytes = bytes.get(..end).unwrap_or(bytes);
    let mut begun = begun.try_clone()?;
    for step in STEPS {
        begun = begun.go_on(bytes, step)?;
    }
    begun.last_lines(piece, bytes)
}

/// The lines of a piece that bytes begin with, up to the first place that can end one.
pub(crate) fn read_lines(
    alloc: Global,
    piece: &Piece,
    bytes: &[u8],
) -> Result<ReadLines, AllocError> {
    read_lines_on(&Begun::new(alloc, &piece.interval), piece, bytes)
}
