//! What a line of a list says.

ghost use Rattle.std.specs.Prelude.{◌≡◌, map};
ghost use Rattle.jls_bad.specs.ListText.{has_one_of, meaning, meaning_of_two, meaning_of_three, place_of};

use crate::numbers::number_of;
use crate::place::Place;

/// What a line of a list says.
#[derive(Clone, Copy, Debug, PartialEq, Eq, Drop)]
pub enum Line {
    /// A place is bad.
    Bad(Place),
    /// No place is bad: the line is empty, or names a good place, or tells how far a run of ddrescue came.
    Nothing,
    /// It isn't a line of a list.
    Fault,
}

/// Whether a word is one of some characters.
fn is_one_of(characters: &[u8], word: &[u8]) -> bool
    ensures { result ≡ has_one_of characters.now word.now }
{
    match word {
        [character] => characters.contains(character),
        _ => false,
    }
}

/// A place, if both are numbers.
fn bad_place(offset: Option<u64>, length: Option<u64>) -> Line
    ensures { result ≡ place_of offset length }
{
    match (offset, length) {
        (Some(offset), Some(length)) => Line::Bad(Place { offset, length }),
        _ => Line::Fault,
    }
}

/// What two words say, in the first line with words or in a later one.
fn line_of_two(is_first: bool, first: &[u8], second: &[u8]) -> Line
    ensures { result ≡ meaning_of_two is_first first.now second.now }
{
    let offset = number_of(first);
    if is_first && offset.is_some() && is_one_of(b"?*/-FG+", second) {
        return Line::Nothing;
    }
    bad_place(offset, number_of(second))
}

/// What three words say, in the first line with words or in a later one.
fn line_of_three(is_first: bool, first: &[u8], second: &[u8], third: &[u8]) -> Line
    ensures { result ≡ meaning_of_three is_first first.now second.now third.now }
{
    let offset = number_of(first);
    let length = number_of(second);
    if is_one_of(b"?*/-", third) {
        return bad_place(offset, length);
    }
    let is_good_place = length.is_some() && is_one_of(b"+", third);
    let is_run = is_first && is_one_of(b"?*/-FG+", second) && number_of(third).is_some();
    if offset.is_some() && (is_good_place || is_run) {
        Line::Nothing
    } else {
        Line::Fault
    }
}

/// What the words of a line say. Only the first line with words can tell how far a run of ddrescue came.
pub(crate) fn line_of_words(is_first: bool, words: &[&[u8]]) -> Line
    ensures { result ≡ meaning is_first (map (λ word. word.now) words.now) }
{
    match words {
        [] => Line::Nothing,
        [first, second] => line_of_two(is_first, first, second),
        [first, second, third] => line_of_three(is_first, first, second, third),
        _ => Line::Fault,
    }
}
