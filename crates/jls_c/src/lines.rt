//! The lines of a partial picture.

ghost use Rattle.jls_c.specs.Info.{line_count, sample_count};
ghost use Rattle.jls_c.specs.Lines as reported;
ghost use Rattle.jls_c.specs.PartialAnswers.{AreLinesShown, AreLinesMore, AreLinesOfText, AreLinesOfTextMore, HasNoPartial};
ghost use Rattle.std.specs.Prelude.{◌≡◌, ◌≢◌, ◌≤◌, ◌<◌, ◌++◌, [], ◌∷◌, length, Contains, IfOk, OnOk};

use crate::answer::{DONE, NO_PARTIAL, OUT_OF_MEMORY, SHORT_ROOM};
use crate::info::{JlsInfo, info_of_partial};
use crate::samples::put_samples;
use crate::statuses::{status_number, statuses_of};
use crate::text::refuse_text;
use jls_partial::Partial;
use std::alloc::{AllocError, Global};

/// A line of a partial picture: how many readings it has, and its status.
#[repr(C)]
#[derive(Clone, Copy)]
pub struct JlsLine {
    pub readings: u64,
    pub status: u8,
}

/// What is reported of a line.
fn line_of(partial: &Partial, component: u8, line: u16) -> JlsLine
    requires component_in { component < length partial.now.shape.ids }
    requires line_in { line < partial.now.shape.height }
    ensures { result ≡ reported.line_of partial.now component line }
{
    JlsLine {
        readings: partial.count(component, line) as u64,
        status: status_number(partial.status(component, line)),
    }
}

/// Appends what is reported of the lines of a component.
fn push_lines(partial: &Partial, component: u8, lines: &mut Vec<JlsLine>) -> Result<(), AllocError>
    requires { component < length partial.now.shape.ids }
    ensures { OnOk result (lines.new.items ≡ lines.old.items ++ reported.lines_of_component partial.now component) }
{
    for line in 0..partial.shape().height() {
        lines.push(line_of(partial, component, line))?;
    }
    Ok(())
}

/// What is reported of all lines.
#[tactic(auto, using(jls_values::proofs::Lists::flat_map_more))]
fn lines_of(alloc: Global, partial: &Partial) -> Result<Vec<JlsLine>, AllocError>
    ensures { IfOk result (λ lines. lines.items ≡ reported.lines_of partial.now) }
{
    let mut lines = Vec::new(alloc);
    for component in 0..partial.shape().ids().len() as u8 {
        push_lines(partial, component, &mut lines)?;
    }
    Ok(lines)
}

/// Shows the lines of a partial picture.
#[tactic(auto, using(crate::proofs::Shown::length_lines))]
fn show_lines(
    alloc: Global,
    partial: &Partial,
    info: &mut JlsInfo,
    samples: &mut [u16],
    lines: &mut [JlsLine],
) -> u32
    ensures known { result ≤ 3 }
    ensures answers { result ≢ 2 }
    ensures done { result ≡ DONE → AreLinesShown partial.now info.new samples.old samples.new lines.old lines.new }
    ensures short_room { result ≡ SHORT_ROOM → AreLinesMore partial.now info.new (length samples.old) (length lines.old) }
    ensures out_of_memory { result ≡ OUT_OF_MEMORY → info.new ≡ info.old }
    ensures samples_kept { result ≢ DONE → samples.new ≡ samples.old }
    ensures lines_kept { result ≢ DONE → lines.new ≡ lines.old }
{
    let Ok(statuses) = statuses_of(alloc, partial) else {
        return OUT_OF_MEMORY;
    };
    let Ok(found) = lines_of(alloc, partial) else {
        return OUT_OF_MEMORY;
    };
    *info = info_of_partial(partial, &statuses);
    let many = found.len();
    if many > lines.len() || info.samples > samples.len() as u64 {
        return SHORT_ROOM;
    }
    let count = info.samples as usize;
    put_samples(partial, &mut samples[..count]);
    lines[..many].copy_from_slice(&found);
    DONE
}

/// Shows the lines of a partial picture. At `DONE` and `SHORT_ROOM` `info` tells of it, and so how much room is needed: `samples` numbers
/// of 16 bits, and `lines` structures. At `NO_PARTIAL` it says why the bytes are none. At any answer but `DONE` nothing is written beside
/// `info`, and at `OUT_OF_MEMORY` nothing at all.
#[unsafe(no_mangle)]
pub extern "C" fn jls_lines(
    alloc: Global,
    partial: &[u8],
    info: &mut JlsInfo,
    samples: &mut [u16],
    lines: &mut [JlsLine],
) -> u32
    ensures answers { Contains (DONE ∷ SHORT_ROOM ∷ NO_PARTIAL ∷ OUT_OF_MEMORY ∷ []) result }
    ensures done { result ≡ DONE → AreLinesOfText partial.now info.new samples.old samples.new lines.old lines.new }
    ensures short_room { result ≡ SHORT_ROOM → AreLinesOfTextMore partial.now info.new (length samples.old) (length lines.old) }
    ensures no_partial { result ≡ NO_PARTIAL → HasNoPartial partial.now info.new }
    ensures out_of_memory { result ≡ OUT_OF_MEMORY → info.new ≡ info.old }
    ensures samples_kept { result ≢ DONE → samples.new ≡ samples.old }
    ensures lines_kept { result ≢ DONE → lines.new ≡ lines.old }
{
    match Partial::from_bytes(alloc, partial) {
        Ok(held) => show_lines(alloc, &held, info, samples, lines),
        Err(fault) => refuse_text(fault, NO_PARTIAL, info),
    }
}
