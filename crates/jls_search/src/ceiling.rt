//! Files whose samples are at most a ceiling.

ghost use Rattle.std.specs.Prelude.{◌≡◌, ◌<◌, ◌≤◌, ◌↔◌, [], true, length, get_or, IsTrue, IfOk, IfSome};
ghost use Rattle.std.specs.List.{AllByRecursion};
ghost use Rattle.jls_partial.specs.Partial.{readings_at};
ghost use Rattle.jls_search.specs.Faultless.{IsComponentWithin, IsDead, IsLineWithin, IsPictureWithin, IsReadWithin, IsSought};

use jls_copy::{CopyFault, WideReader, prefixes_keep_readings_under};
use jls_partial::Partial;
use std::alloc::AllocError;

/// Whether each of these samples is at most the ceiling.
fn are_within(ceiling: u16, samples: &[u16]) -> bool
    ensures { IsTrue result ↔ AllByRecursion (λ sample. sample ≤ ceiling) samples.now }
{
    samples.iter().all(|sample| *sample <= ceiling)
}

/// Whether each sample of this reading of a line is at most the ceiling.
fn is_reading_within(ceiling: u16, partial: &Partial, component: u8, line: u16, i: usize) -> bool
    requires component_in { component < length partial.now.shape.ids }
    requires line_in { line < partial.now.shape.height }
    requires i_in { i < length (readings_at partial.now component line) }
    ensures { IsTrue result
        ↔ AllByRecursion (λ sample. sample ≤ ceiling) (get_or (readings_at partial.now component line) i []) }
{
    are_within(ceiling, partial.reading(component, line, i))
}

/// Whether each sample of each reading of a line is at most the ceiling.
fn is_line_within(ceiling: u16, partial: &Partial, component: u8, line: u16) -> bool
    requires component_in { component < length partial.now.shape.ids }
    requires line_in { line < partial.now.shape.height }
    ensures { IsTrue result ↔ IsLineWithin ceiling partial.now component line }
{
    for i in 0..partial.count(component, line) {
        let within = is_reading_within(ceiling, partial, component, line, i);
        if !within {
            return false;
        }
    }
    true
}

/// Whether each sample of each reading of a component is at most the ceiling.
fn is_component_within(ceiling: u16, partial: &Partial, component: u8) -> bool
    requires { component < length partial.now.shape.ids }
    ensures { IsTrue result ↔ IsComponentWithin ceiling partial.now component }
{
    for line in 0..partial.shape().height() {
        let within = is_line_within(ceiling, partial, component, line);
        if !within {
            return false;
        }
    }
    true
}

/// Whether each sample of each reading of a picture is at most the ceiling.
fn is_picture_within(ceiling: u16, partial: &Partial) -> bool
    ensures { IsTrue result ↔ IsPictureWithin ceiling partial.now }
{
    for component in 0..partial.shape().ids().len() as u8 {
        let within = is_component_within(ceiling, partial, component);
        if !within {
            return false;
        }
    }
    true
}

/// Whether each sample of each reading is at most the ceiling, if there is one.
pub(crate) fn is_read_within(ceiling: Option<u16>, partial: &Partial) -> bool
    ensures { IsTrue result ↔ IsReadWithin ceiling partial.now }
{
    match ceiling {
        None => true,
        Some(ceiling) => is_picture_within(ceiling, partial),
    }
}

/// Whether what was fed gives a sample above the ceiling already. Then no file that is sought begins with it. The only refusal is out of
/// memory.
pub(crate) fn is_above(ceiling: Option<u16>, reader: &WideReader) -> Result<bool, AllocError>
    ensures { IfOk result (λ above. above ≡ true → IfSome reader.now (λ prefix. IsDead (IsSought ceiling) prefix)) }
{
    prefixes_keep_readings_under();
    if ceiling.is_none() {
        return Ok(false);
    }
    let fed = reader.try_clone()?;
    match fed.finish() {
        Ok(read) => {
            let within = is_read_within(ceiling, read.partial());
            Ok(!within)
        }
        Err(CopyFault::NoPicture(_, _)) => Ok(false),
        Err(CopyFault::OutOfMemory) => Err(AllocError),
    }
}
