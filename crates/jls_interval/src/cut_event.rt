//! Whether the bits of an event that breaks off can go on to an event that can come next (ITU-T T.87, A.5.3 and A.7).

ghost use Rattle.std.specs.Prelude.{◌≡◌, ◌-◌, ◌*◌, ◌^◌, ◌<◌, ◌≤◌, ◌++◌, ℕ, true, false, Bool, List, [], length};
ghost use Rattle.jls_context.specs.Mode.{is_run_mode};
ghost use Rattle.jls_context.specs.Regular.{regular_k};
ghost use Rattle.jls_values.specs.Params.{limit, qbpp};
ghost use Rattle.jls_bits.specs.CodeState.{IsOpen};
ghost use Rattle.jls_interval.specs.Events.{Event};
ghost use Rattle.jls_interval.specs.Code.{event_bits};
ghost use Rattle.jls_interval.specs.Runs;
ghost use Rattle.jls_interval.specs.RunState.{IsRunState, RunAt};
ghost use Rattle.jls_interval.specs.Growth.{Fits};
ghost use Rattle.jls_interval.specs.Reading.{NoRun, NoSample};
ghost use Rattle.jls_interval.specs.Place.{above_of};
ghost use Rattle.jls_interval.specs.CutEventsOpen.{BeginsSample, BeginsRun};
ghost use Rattle.jls_interval.specs.SampleCodes.{parameters_of, IsAboveInRange, regular_fed, BeginsInterrupting, NoInterrupting};
ghost use Rattle.jls_interval.specs.SampleCodes.{interrupting_fed};
ghost use Rattle.jls_interval.specs.LinesInWork.{columns_left, near, near_after, next_cell, ComesAfter, HoldsAt, IsOpenAfterRun, BeginsNext};
ghost use Rattle.jls_interval.specs.LinesInWork.{NoNext};

use crate::coder::RegularMode;
use crate::cut_sample::{interruption_goes_on, sample_goes_on};
use crate::line_reader::{Interruption, LineReader, OpenEvent};
use crate::place::Place;
use crate::run_index::run_order;
use crate::run_reader::RunState;
use jls_bits::CodeState;
use jls_context::{Mode, Neighbours};

/// The least count of J bits that begins with these bits of it.
fn least_count(value: u32, bits: u8, order: u8) -> u32
    requires bits { bits ≤ order }
    requires order { order ≤ 15 }
    requires value { value < 2 ^ bits }
    ensures { result ≡ value * 2 ^ (order - bits) }
{
    value << (order - bits)
}

/// Whether the bits of a run that isn't whole can go on to a run. Ones for full blocks always can. The first bits of a count can if the
/// least count that begins so is below the columns left.
fn run_goes_on(state: RunState) -> bool
    requires { (w0 : ℕ) × IsRunState w0 state }
    ensures yes { result ≡ true → (r0 w0 : ℕ) (fed : List Bool) → IsRunState w0 state → RunAt r0 w0 fed state → BeginsRun r0 w0 fed }
    ensures no { result ≡ false → (r0 w0 : ℕ) (fed : List Bool) → IsRunState w0 state → RunAt r0 w0 fed state → (more : List Bool)
        → NoRun r0 w0 (fed ++ more) }
{
    match state {
        RunState::Blocks { .. } => true,
        RunState::Count {
            run_index,
            columns,
            bits,
            value,
        } => least_count(value, bits, run_order(run_index)) < columns,
    }
}

/// Whether the first bits of a sample can go on, where the next column is one of regular mode.
fn regular_goes_on(reader: &LineReader, place: &Place<'_>, code: CodeState) -> bool
    requires columns { length reader.now.line.items < reader.now.width }
    requires mode { is_run_mode (near reader.now place.now) ≡ false }
    requires opened { IsOpen (regular_k (next_cell reader.now place.now)) (limit (parameters_of reader.now.coder))
        (qbpp (parameters_of reader.now.coder)) code }
    ensures yes { result ≡ true → BeginsSample (parameters_of reader.now.coder) (next_cell reader.now place.now)
        (near reader.now place.now) (regular_fed reader.now.coder code) }
    ensures no { result ≡ false → (more : List Bool) → NoSample (parameters_of reader.now.coder) (next_cell reader.now place.now)
        (near reader.now place.now) (regular_fed reader.now.coder code ++ more) }
{
    let near = place.neighbours(reader.width, &reader.line, reader.line.len());
    match reader.coder.cells.mode(near.ra, near.rb, near.rc, near.rd) {
        Mode::Run => unreachable!(),
        Mode::Regular { cell, negative } => {
            let mode = RegularMode {
                context: cell,
                negative,
            };
            sample_goes_on(&reader.coder, near, mode, code)
        }
    }
}

/// Whether the first bits of the sample that interrupts a run can go on.
fn interrupted_goes_on(reader: &LineReader, place: &Place<'_>, interruption: Interruption) -> bool
    requires above { IsAboveInRange reader.now.coder place.now }
    requires columns { interruption.count < columns_left reader.now }
    requires run_index { interruption.run_index ≤ 31 }
    requires opened { IsOpenAfterRun place.now reader.now interruption }
    ensures yes { result ≡ true → BeginsInterrupting reader.now.coder (near_after reader.now place.now interruption.count)
        (Runs.run_order interruption.run_index) interruption.code }
    ensures no { result ≡ false → (more : List Bool)
        → NoInterrupting reader.now.coder (near_after reader.now place.now interruption.count) (Runs.run_order interruption.run_index)
        (interrupting_fed reader.now.coder (Runs.run_order interruption.run_index) interruption.code ++ more) }
{
    let Interruption {
        count,
        run_index,
        code,
    } = interruption;
    let column = reader.line.len();
    let first = place.neighbours(reader.width, &reader.line, column);
    let next = place.neighbours(reader.width, &reader.line, column + count as usize);
    let there = Neighbours {
        ra: first.ra,
        rb: next.rb,
        rc: next.rc,
        rd: next.rd,
    };
    interruption_goes_on(&reader.coder, there, run_order(run_index), code)
}

/// Whether the bits of the event in hand can go on to an event that can come next, in a line that goes on.
pub(crate) fn event_goes_on(reader: &LineReader, place: &Place<'_>) -> bool
    requires above { IsAboveInRange reader.now.coder place.now }
    requires columns { length reader.now.line.items < reader.now.width }
    requires open_event { (fed : List Bool) × HoldsAt place.now reader.now fed }
    ensures yes { result ≡ true → (fed : List Bool) (earlier : List Event) → ComesAfter reader.now earlier
        → ((e : Event) → Fits (parameters_of reader.now.coder) reader.now.width place.now.component
        (above_of place.now) reader.now.line.items (near reader.now place.now) e
        → event_bits (parameters_of reader.now.coder) earlier e ≡ [] → ⊥)
        → HoldsAt place.now reader.now fed → BeginsNext place.now reader.now fed earlier }
    ensures no { result ≡ false → (fed : List Bool) (earlier : List Event) → ComesAfter reader.now earlier
        → HoldsAt place.now reader.now fed → (more : List Bool) → NoNext place.now reader.now (fed ++ more) earlier }
{
    match reader.open_event {
        OpenEvent::NotBegun => true,
        OpenEvent::Sample(code) => regular_goes_on(reader, place, code),
        OpenEvent::InRun(state) => run_goes_on(state),
        OpenEvent::Interruption(interruption) => interrupted_goes_on(reader, place, interruption),
    }
}
