//! Lists of bad places.

ghost use Rattle.std.specs.Prelude.{◌≡◌, ◌==◌, map, IfOk, IfErr};
ghost use Rattle.std.specs.List.{slice_split};
ghost use Rattle.jls_bad.specs.ListText.{AreNamed, IsFirstFault};

use crate::lines::{Line, line_of_words};
use crate::place::Place;
use crate::words::words_of;
use std::alloc::{AllocError, Global};

/// The first line of a list that isn't understood.
#[derive(Clone, Copy, Debug, PartialEq, Eq, Drop)]
pub struct BadLine {
    /// Its number, from 1 on.
    pub number: usize,
}

/// The lines of a text. `Err` comes if memory is refused.
fn lines_of(alloc: Global, text: &[u8]) -> Result<Vec<&[u8]>, AllocError>
    ensures { IfOk result (λ lines. map (λ line. line.now) lines.items ≡ slice_split (λ byte. byte == 10) text.now) }
{
    text.split(|byte| *byte == b'\n').collect(alloc)
}

/// The bad places that a list names, or its first line that isn't understood. `Err` comes if memory is refused.
///
/// A list is a mapfile of GNU ddrescue, of which all that was not read is bad, or has lines of an offset and a length. Numbers are decimal
/// or hexadecimal (0x..). What follows `#` in a line is not read. The first line with words can tell how far a run of ddrescue came.
pub fn places_in(alloc: Global, text: &[u8]) -> Result<Result<Vec<Place>, BadLine>, AllocError>
    ensures places { IfOk result (λ outcome. IfOk outcome (λ places. AreNamed text.now places.items)) }
    ensures fault { IfOk result (λ outcome. IfErr outcome (λ line. IsFirstFault text.now line.number)) }
{
    let mut places = Vec::new(alloc);
    let lines = lines_of(alloc, text)?;
    let mut is_first = true;
    for (at, line) in lines.iter().enumerate() {
        let words = words_of(alloc, line)?;
        match line_of_words(is_first, &words) {
            Line::Bad(place) => places.push(place)?,
            Line::Nothing => {}
            Line::Fault => return Ok(Err(BadLine { number: at + 1 })),
        }
        is_first = is_first && words.is_empty();
    }
    Ok(Ok(places))
}
