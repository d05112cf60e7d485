//! Reading one event, a few bits at a time: a sample of regular mode, or a run with what ends it.

ghost use Rattle.std.specs.Prelude.{◌≡◌, ℕ, ◌<◌, ◌≤◌, ◌++◌, Bool, true, List, length, replicate, IfOk};
ghost use Rattle.jls_context.specs.Mode.{is_run_mode};
ghost use Rattle.jls_interval.specs.Events.{Event, Above};
ghost use Rattle.jls_interval.specs.OpenEvents.{now_at, EventPushed};
ghost use Rattle.jls_interval.specs.RunState.{IsRunState};
ghost use Rattle.jls_interval.specs.SampleCodes.{parameters_of, IsAboveInRange, IsModeAt, IsRegularOpen, regular_fed};
ghost use Rattle.jls_interval.specs.LinesInWork.{columns_left, near, ComesAfter, HoldsAt, HoldsRun, HoldsInterruption, IsOpenAfterRun};
ghost use Rattle.jls_interval.specs.LinesInWork.{PushedAt};

use crate::coder::RegularMode;
use crate::line_reader::{EventStep, Interruption, LineReader, OpenEvent};
use crate::place::Place;
use crate::push_sample::{SampleStep, push_to_interruption, push_to_sample};
use crate::run_index::{lowered, run_order};
use crate::run_reader::{Run, RunState, RunStep};
use jls_bits::{Chunk, CodeState};
use jls_context::{Mode, Neighbours};
use std::alloc::AllocError;

/// Takes bits of a sample in regular mode.
#[inline(always)]
fn push_to_regular(
    reader: &mut LineReader,
    neighbours: Neighbours,
    mode: RegularMode,
    code: CodeState,
    chunk: &mut Chunk,
) -> Result<EventStep, AllocError>
    requires mode { IsModeAt reader.old.coder neighbours mode }
    requires opened { IsRegularOpen reader.old.coder mode code }
    ensures step { IfOk result (λ s. (component : ℕ) (up : Above) (fed : List Bool) (earlier : List Event)
        → neighbours ≡ now_at reader.old.width up reader.old.line.items → ComesAfter reader.old earlier
        → fed ≡ regular_fed reader.old.coder code → EventPushed component up reader.old reader.new fed chunk.old chunk.new earlier s) }
    ensures width { reader.new.width ≡ reader.old.width }
    ensures parameters { parameters_of reader.new.coder ≡ parameters_of reader.old.coder }
{
    match push_to_sample(&reader.coder, neighbours, mode, code, chunk) {
        SampleStep::More(next) => {
            reader.open_event = OpenEvent::Sample(next);
            Ok(EventStep::More)
        }
        SampleStep::Refused => Ok(EventStep::Refused),
        SampleStep::Done(sample) => {
            reader.line.push(sample.value)?;
            reader
                .coder
                .cells
                .update_regular(mode.context, sample.error);
            reader.open_event = OpenEvent::NotBegun;
            Ok(EventStep::Moved)
        }
    }
}

/// Adds the samples of a run to its line.
fn push_run(line: &mut Vec<u16>, value: u16, count: u32) -> Result<(), AllocError>
    ensures { IfOk result (λ _. line.new.items ≡ line.old.items ++ replicate count value) }
{
    line.resize(line.len() + count as usize, value)
}

/// Takes bits of the sample that interrupts a run of this value.
fn push_to_interrupted(
    reader: &mut LineReader,
    place: &Place<'_>,
    value: u16,
    interruption: Interruption,
    chunk: &mut Chunk,
) -> Result<EventStep, AllocError>
    requires above { IsAboveInRange reader.old.coder place.now }
    requires run { is_run_mode (near reader.old place.now) ≡ true }
    requires value { value ≡ (near reader.old place.now).ra }
    requires columns { interruption.count < columns_left reader.old }
    requires run_index { interruption.run_index ≤ 31 }
    requires opened { IsOpenAfterRun place.now reader.old interruption }
    ensures step { IfOk result (λ s. (fed : List Bool) (earlier : List Event) → ComesAfter reader.old earlier
        → HoldsInterruption place.now reader.old interruption fed
        → PushedAt place.now reader.old reader.new fed chunk.old chunk.new earlier s) }
    ensures width { reader.new.width ≡ reader.old.width }
    ensures parameters { parameters_of reader.new.coder ≡ parameters_of reader.old.coder }
{
    let Interruption {
        count,
        run_index,
        code,
    } = interruption;
    let column = reader.line.len() + count as usize;
    let next = place.neighbours(reader.width, &reader.line, column);
    let Neighbours { rb, rc, rd, .. } = next;
    let there = Neighbours {
        ra: value,
        rb,
        rc,
        rd,
    };
    match push_to_interruption(&reader.coder, there, run_order(run_index), code, chunk) {
        SampleStep::More(code) => {
            reader.open_event = OpenEvent::Interruption(Interruption {
                count,
                run_index,
                code,
            });
            Ok(EventStep::More)
        }
        SampleStep::Refused => Ok(EventStep::Refused),
        SampleStep::Done(sample) => {
            push_run(&mut reader.line, value, count)?;
            reader.line.push(sample.value)?;
            reader.coder.cells.update_run(value == rb, sample.error);
            reader
                .coder
                .set_run_index(place.component, lowered(run_index));
            reader.open_event = OpenEvent::NotBegun;
            Ok(EventStep::Moved)
        }
    }
}

/// Takes bits of a run of this value, and of what ends it.
fn push_to_run(
    reader: &mut LineReader,
    place: &Place<'_>,
    value: u16,
    state: RunState,
    chunk: &mut Chunk,
) -> Result<EventStep, AllocError>
    requires above { IsAboveInRange reader.old.coder place.now }
    requires columns { length reader.old.line.items < reader.old.width }
    requires run { is_run_mode (near reader.old place.now) ≡ true }
    requires value { value ≡ (near reader.old place.now).ra }
    requires state { IsRunState (columns_left reader.old) state }
    ensures step { IfOk result (λ s. (fed : List Bool) (earlier : List Event) → ComesAfter reader.old earlier
        → HoldsRun place.now reader.old state fed → PushedAt place.now reader.old reader.new fed chunk.old chunk.new earlier s) }
    ensures width { reader.new.width ≡ reader.old.width }
    ensures parameters { parameters_of reader.new.coder ≡ parameters_of reader.old.coder }
{
    let columns = (reader.width - reader.line.len()) as u32;
    match state.push_chunk(columns, chunk) {
        RunStep::More(next) => {
            reader.open_event = OpenEvent::InRun(next);
            Ok(EventStep::More)
        }
        RunStep::Refused => Ok(EventStep::Refused),
        RunStep::Done(Run::ToEnd { run_index }) => {
            push_run(&mut reader.line, value, columns)?;
            reader.coder.set_run_index(place.component, run_index);
            reader.open_event = OpenEvent::NotBegun;
            Ok(EventStep::Moved)
        }
        RunStep::Done(Run::Interrupted { count, run_index }) => {
            let code = CodeState::START;
            let interruption = Interruption {
                count,
                run_index,
                code,
            };
            push_to_interrupted(reader, place, value, interruption, chunk)
        }
    }
}

/// Takes bits of the next event, in a line that goes on.
pub(crate) fn push_to_event(
    reader: &mut LineReader,
    place: &Place<'_>,
    chunk: &mut Chunk,
) -> Result<EventStep, AllocError>
    requires above { IsAboveInRange reader.old.coder place.now }
    requires columns { length reader.old.line.items < reader.old.width }
    requires open_event { (fed : List Bool) × HoldsAt place.now reader.old fed }
    ensures step { IfOk result (λ s. (fed : List Bool) (earlier : List Event) → ComesAfter reader.old earlier
        → HoldsAt place.now reader.old fed → PushedAt place.now reader.old reader.new fed chunk.old chunk.new earlier s) }
    ensures width { reader.new.width ≡ reader.old.width }
    ensures parameters { parameters_of reader.new.coder ≡ parameters_of reader.old.coder }
{
    let column = reader.line.len();
    let columns = (reader.width - column) as u32;
    let neighbours = place.neighbours(reader.width, &reader.line, column);
    match reader
        .coder
        .cells
        .mode(neighbours.ra, neighbours.rb, neighbours.rc, neighbours.rd)
    {
        Mode::Run => match reader.open_event {
            OpenEvent::NotBegun => {
                let run_index = reader.coder.run_index(place.component);
                let state = RunState::Blocks { run_index, columns };
                push_to_run(reader, place, neighbours.ra, state, chunk)
            }
            OpenEvent::InRun(state) => push_to_run(reader, place, neighbours.ra, state, chunk),
            OpenEvent::Interruption(interruption) => {
                push_to_interrupted(reader, place, neighbours.ra, interruption, chunk)
            }
            OpenEvent::Sample(_) => unreachable!(),
        },
        Mode::Regular { cell, negative } => {
            let mode = RegularMode {
                context: cell,
                negative,
            };
            match reader.open_event {
                OpenEvent::NotBegun => push_to_regular(
                    reader,
                    neighbours,
                    mode,
                    CodeState::START,
                    chunk,
                ),
                OpenEvent::Sample(code) => push_to_regular(reader, neighbours, mode, code, chunk),
                OpenEvent::InRun(_) => unreachable!(),
                OpenEvent::Interruption(_) => unreachable!(),
            }
        }
    }
}
