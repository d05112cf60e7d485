//! Copies of one picture in different codings mend each other.
//!
//! Two such copies have no bytes in common. But the code of JPEG-LS is a function of lines and parameters. Lines that one copy gives, coded
//! with the parameters of another, are the other's own bytes, also those that it lost. Behind them the other goes on with its own bytes,
//! and gives lines that mend the first. So they carry each other over their damaged places.
//!
//! The crate proposes. No contract speaks of what it finds. What is promised of a mended file rests on the bytes that a copy has outside of
//! its edits.
//!
//! - `pieces`, `interval`: where the scan data of each restart interval stand in a copy. Which lines it has
//! - `code`, `line_ends`: the code of first lines, and where each ends in it. The lines that bytes begin with
//! - `pixel_front`: the code of first rows by sample
//! - `codes`: the codes that were written last, which save writing them anew
//! - `picture`: what copies say of each line, and what is settled
//! - `claims`: what a copy says by itself, behind what is known
//! - `shifts`, `runs`, `coded`: by how much bytes of a copy are moved. Where the code of lines and a copy have the same bytes
//! - `chains`: lines of one copy in the code of another, and how many of them its bytes confirm
//! - `tested`: which lines of copies were compared with the bytes of others
//! - `settling`, `choosing`: which lines are settled. Which of several readings of a line is taken
//! - `between`, `closing`: lines between settled ones, and pieces that close by themselves
//! - `trials`: lines that are supposed, so that a copy reads on behind them
//! - `coded_lines`, `weighing`: pieces that close with a flipped bit, told by how many bytes are wrong either way
//! - `rounds`: all of that, until nothing more is decided
//! - `mending`, `codings`, `edits`: the mended file of each coding, and the edits that make it of each copy
//! - `rivals`: copies that read to their ends, and say otherwise
//! - `strangers`: copies that agree with no other
//! - `layouts`: the headers that are believed of each copy
//! - `first_lines`, `lost_headers`: headers that a copy lost, found by the code of the first lines that others give
//!
//! # The rule
//!
//! In each round every copy is read on behind the lines that are known. For each ordered pair of copies, the lines that one gives are coded
//! with the parameters of the other, and compared with its bytes.
//!
//! 1. A run counts from 8 equal bytes on that no period up to 16 foretells, with a whole line of each component in it. What stands
//!    behind one flipped bit is a run too, if the whole code and the copy end alike there.
//! 2. One gap a round: lines are taken to the end of the first run behind a gap of the other copy. Then that copy is mended, and speaks
//!    itself.
//! 3. Where two readings of a line are confirmed, it is disputed. One is taken if it alone stands unbroken in two copies. It is also taken
//!    if it leaves under a quarter of the other's unmatched bytes, or is confirmed for four times as many rows. Bytes that a copy has too
//!    many count too.
//! 4. Lines are taken in order. A chain ends at the first that is not.
//! 5. Behind a dispute each copy goes on with its own reading, and a later line wants both.
//! 6. A reading that another copy has, and nobody tested, holds the line back. A sample that a coding can't say refutes it there. A reading
//!    is refuted too if another copy says otherwise, and its piece goes on for two rows as a copy of another coding says. The copy that
//!    denies a line has tested those behind it only as far as they are of the same piece. Where that piece closes, the line in question is
//!    the one in which both part again, if they part near it.
//! 7. Where nothing else goes on, lines that a copy reads in one piece between settled ones are taken. It is all of them, or none if one is
//!    held back. Two rows behind them have to be settled as it says.
//! 8. 24 such bytes without a whole line in them are a hint. It ends a gap too, if a line ends there. Where nothing else goes on, lines up
//!    to a hint are taken, four rows behind the known ones at most. 12 bytes do for one row, where closed pieces settle nothing either.
//! 9. Pieces that close by themselves count only where nothing else goes on, and in copies that agree with another somewhere. No such piece
//!    may say otherwise. One that says otherwise of a settled line doesn't count, nor one with a disputed line.
//! 10. Where nothing at all goes on, up to two rows that one copy says are supposed to be true. Another, which is damaged there, is read on
//!     behind them at each place near. What it says is taken up to a run of the first copy behind its own damage. A disputed line is
//!     settled so only if the other copy, by its own reading of it, breaks off before. Nothing is supposed if a copy says a disputed line
//!     in a piece that closes.
//! 11. Where a piece closes, and another copy says otherwise, wrong bytes are counted either way: those of each, in which the lines of the
//!     other are coded. If they are two of the piece at most, and else 8 or more, and four times as many, its bits are flipped. What the
//!     other says is taken then, unless a third copy denies it in a piece that closes.
//!
//! Where two copies have the same code, that code anew says nothing of its truth: garbage, coded anew, is the same garbage. There only what
//! agrees from the start of an interval on is taken. Nothing else may go on, and no copy of another coding may say otherwise. It gives way
//! to what copies of several codings have. The two can be copies of one damaged file, or of another picture. A copy that has the bytes of
//! one before it confirms nothing.
//!
//! Flipped bits can change lines of a copy that reads to its end all the same. If it has another picture than what is settled, the wrong
//! bytes of all copies are counted by either picture. What is settled is doubtful if it leaves no fewer.
//!
//! Copies by sample speak as others do, and whole rows of theirs have one code. They are mended too.
//!
//! A copy agrees with no other if no line is settled, or if it has scan data and no run of its mended file. It is left out of that file.
#![tactic(auto)]

mod between;
mod chains;
mod choosing;
mod claims;
mod closing;
mod code;
mod coded;
mod coded_lines;
mod codes;
mod codings;
mod edits;
mod first_lines;
mod interval;
mod layouts;
mod line_ends;
mod lost_headers;
mod mending;
mod picture;
mod pieces;
mod pixel_front;
mod rivals;
mod rounds;
mod runs;
mod settling;
mod shifts;
mod strangers;
mod tested;
mod trials;
mod weighing;

use crate::claims::{CopyState, Speaker};
use crate::closing::has_contradiction;
use crate::codes::Codes;
use crate::codings::{CodedCopies, MendedCodings, mend_codings};
use crate::layouts::{Layouts, layouts_of};
use crate::lost_headers::{FoundCopy, with_lost_headers};
use crate::picture::Picture;
use crate::pieces::Layout;
use crate::rivals::{has_rival, reads_whole};
use crate::rounds::carry_on;
pub use codings::MendedCoding;
pub use edits::Edit;
use std::alloc::{AllocError, Global};

/// The copies of which headers are believed, by their indices.
fn with_headers(alloc: Global, states: &[CopyState<'_>]) -> Result<Vec<usize>, AllocError> {
    let mut numbers = Vec::new(alloc);
    for (number, state) in states.iter().enumerate() {
        if state.has_eoi.is_some() {
            numbers.push(number)?;
        }
    }
    Ok(numbers)
}

/// Whether a copy has the bytes of one before it.
fn is_repeated(copies: &[&[u8]], number: usize) -> bool {
    match copies.get(number) {
        Some(bytes) => copies.iter().take(number).any(|copy| **copy == **bytes),
        None => false,
    }
}

/// The copies, those that were found with more headers in place of what these copies have.
fn with_found<'a>(
    alloc: Global,
    copies: &[&'a [u8]],
    found: &'a [Option<FoundCopy>],
) -> Result<Vec<&'a [u8]>, AllocError> {
    let mut read: Vec<&'a [u8]> = Vec::new(alloc);
    for (copy, found) in copies.iter().zip(found) {
        match found {
            None => read.push(copy)?,
            Some(found) => read.push(&found.bytes)?,
        }
    }
    Ok(read)
}

/// Notes in each layout before which headers that were put in other bytes can stand than those of the scan.
fn open_ends(layouts: &mut [Option<Layout>], found: &[Option<FoundCopy>]) {
    for (layout, found) in layouts.iter_mut().zip(found) {
        if let (Some(layout), Some(found)) = (layout, found) {
            for place in found.places.iter() {
                layout.open_end(*place);
            }
        }
    }
}

/// The copies, before anything is said. They are read with the headers that they lost.
fn states_of<'a>(
    alloc: Global,
    copies: &[&[u8]],
    read: &[&'a [u8]],
    codings: &[usize],
    own: usize,
    layouts: Vec<Option<Layout>>,
    lines: usize,
) -> Result<Vec<CopyState<'a>>, AllocError> {
    let mut states = Vec::new(alloc);
    for (number, (bytes, layout)) in read.iter().zip(layouts).enumerate() {
        let speaker = Speaker {
            number,
            coding: codings.get(number).copied().unwrap_or(number),
            is_echo: number >= own || is_repeated(copies, number),
        };
        states.push(CopyState::new(alloc, speaker, bytes, layout, lines)?)?;
    }
    Ok(states)
}

/// What copies bring back of each other.
#[derive(Drop)]
pub struct Carried {
    /// The mended files, in the order of the first copies of their codings. Each has a copy at least.
    pub codings: Vec<MendedCoding>,
    /// The copies that agree with no other, by their indices.
    pub strangers: Vec<usize>,
    /// The lines of the picture that are settled, row by row, and in a row by component.
    pub lines: Vec<Option<Vec<u16>>>,
    /// Whether a line isn't settled because copies confirm several readings of it. Or because copies of different codings read to their
    /// ends and say several things of it. Or a copy that reads to its end has another picture, by which no more bytes are wrong in all.
    pub is_doubtful: bool,
}

/// Lets each copy say what it does by itself. Answers for each whether it reads to its end.
fn read_alone(
    alloc: Global,
    picture: &mut Picture,
    codes: &mut Codes,
    states: &mut [CopyState<'_>],
) -> Result<Vec<bool>, AllocError> {
    let mut whole = Vec::new(alloc);
    for state in states.iter_mut() {
        state.read_on(alloc, picture, codes)?;
        whole.push(reads_whole(state))?;
    }
    Ok(whole)
}

/// What copies in different codings bring back of each other: the lines that are settled, and a mended file of each coding. `codings` has a
/// number for each copy, the same for those of one coding. A coding has no mended file if no copy of it has headers that read, or if these
/// are of a picture of another shape. The shape is that of the first copy whose headers read, but for the precision. Nor has it one if its
/// copies agree with no other. Those behind the first `own` ones are no copies, but splices of copies of their coding: they confirm nothing
/// that these say. Nor does a copy that has the bytes of one before it. `Err` comes where memory is refused.
///
/// No contract speaks of what is found.
pub fn carry(
    alloc: Global,
    copies: &[&[u8]],
    codings: &[usize],
    own: usize,
) -> Result<Carried, AllocError> {
    let found = with_lost_headers(alloc, copies)?;
    let read = with_found(alloc, copies, &found)?;
    let Layouts {
        lines,
        mut layouts,
        are_own,
    } = layouts_of(alloc, &read, codings)?;
    open_ends(&mut layouts, &found);
    let coded = CodedCopies {
        copies,
        codings,
        are_own: &are_own,
    };
    let mut picture = Picture::new(alloc, lines)?;
    let mut states = states_of(alloc, copies, &read, codings, own, layouts, lines)?;
    let mut codes = Codes::new(alloc, &states)?;
    let whole = read_alone(alloc, &mut picture, &mut codes, &mut states)?;
    carry_on(alloc, &mut picture, &mut codes, &mut states)?;
    let is_disputed = picture.has_disputed() || has_contradiction(&picture, &states);
    let mended = if picture.has_settled() {
        mend_codings(alloc, &picture, &mut codes, &states, coded)?
    } else {
        MendedCodings {
            codings: Vec::new(alloc),
            strangers: with_headers(alloc, &states)?,
        }
    };
    let has_rival = has_rival(alloc, &picture, &mended, &states, &whole, coded)?;
    Ok(Carried {
        codings: mended.codings,
        strangers: mended.strangers,
        is_doubtful: is_disputed || has_rival,
        lines: picture.into_lines()?,
    })
}
