//! Reading a run, a few bits at a time (ITU-T T.87, A.7.1).

ghost use Rattle.std.specs.Prelude.{◌≡◌, ℕ, ◌<◌, Bool, true, List, [], ◌∷◌, ◌++◌, IfSome, IfNone};
ghost use Rattle.jls_interval.specs.RunState.{IsRunState, IsRunStep, RunAt, RunStepIs};
ghost use Rattle.jls_interval.specs.RunChunks.{RunPushed};
ghost use Rattle.jls_interval.specs.declared.run_reader.RunState.TheVariants.{Blocks, Count};

use crate::run_index::{block_columns, raised, run_order};
use jls_bits::Chunk;

/// A run that was read, without the sample that interrupts it, and RUNindex after its full blocks.
#[derive(Clone, Copy)]
pub(crate) enum Run {
    /// It goes to the end of its line.
    ToEnd { run_index: u8 },
    /// It has so many columns, and another sample follows.
    Interrupted { count: u32, run_index: u8 },
}

/// Where the bits of a run that isn't whole have come to.
#[derive(Clone, Copy)]
pub(crate) enum RunState {
    /// Full blocks and nothing else: RUNindex after them, and the columns of the line after them.
    Blocks {
        run_index: u8,
        columns: u32,
    },
    /// After the blocks the zero, and the first bits of the count of columns that remain.
    Count {
        run_index: u8,
        columns: u32,
        bits: u8,
        value: u32,
    },
}

/// What one more bit makes of a run.
#[derive(Clone, Copy)]
pub(crate) enum RunStep {
    /// The bits are no whole run.
    More(RunState),
    /// The bits are this run's.
    Done(Run),
    /// The bits begin with no run, however they go on.
    Refused,
}

impl RunState {
    /// Takes as many bits of a chunk as the run wants, where the line had `width` columns left when the run
    /// began.
    pub(crate) fn push_chunk(self, width: u32, chunk: &mut Chunk) -> RunStep
        requires { IsRunState width self }
        ensures state { IsRunStep width result }
        ensures step { RunPushed width self chunk.old chunk.new result }
    {
        let mut state = self;
        while let Some(bit) = chunk.take_bit() {
            match state.push(width, bit) {
                RunStep::More(next) => match next.take_count(width, chunk) {
                    None => state = next,
                    Some(step) => return step,
                },
                step => return step,
            }
        }
        RunStep::More(state)
    }

    /// Takes the whole count of columns that remain, where the chunk has all its bits. Else it takes nothing.
    fn take_count(self, width: u32, chunk: &mut Chunk) -> Option<RunStep>
        requires { IsRunState width self }
        ensures state { IfSome result (IsRunStep width) }
        ensures step { IfSome result (RunPushed width self chunk.old chunk.new) }
        ensures none { IfNone result (chunk.new ≡ chunk.old) }
    {
        let RunState::Count {
            run_index,
            columns,
            bits: 0,
            ..
        } = self
        else {
            return None;
        };
        match chunk.take_bits(run_order(run_index)) {
            None => None,
            Some(value) => {
                // After its full blocks the run has `value` columns, and the line has `columns`.
                if value < columns {
                    let count = width - columns + value;
                    Some(RunStep::Done(Run::Interrupted { count, run_index }))
                } else {
                    Some(RunStep::Refused)
                }
            }
        }
    }

    /// Takes the next bit, where the line had `width` columns left when the run began.
    pub(crate) fn push(self, width: u32, bit: bool) -> RunStep
        requires { IsRunState width self }
        ensures state { IsRunStep width result }
        ensures step { (r0 : ℕ) (given : List Bool) → RunAt r0 width given self → RunStepIs r0 width (given ++ bit ∷ []) result }
    {
        match self {
            RunState::Blocks { run_index, columns } => {
                push_to_blocks(run_index, columns, width, bit)
            }
            RunState::Count {
                run_index,
                columns,
                bits,
                value,
            } => {
                let count = FirstBits { bits, value };
                push_to_count(run_index, columns, count, width, bit)
            }
        }
    }
}

/// Takes a bit after full blocks.
fn push_to_blocks(run_index: u8, columns: u32, width: u32, bit: bool) -> RunStep
    requires { IsRunState width (Blocks run_index columns) }
    ensures state { IsRunStep width result }
    ensures step { (r0 : ℕ) (given : List Bool) → RunAt r0 width given (Blocks run_index columns) → RunStepIs r0 width (given
        ++ bit ∷ []) result }
{
    if bit {
        push_one(run_index, columns, width)
    } else if run_order(run_index) == 0 {
        let count = width - columns;
        RunStep::Done(Run::Interrupted { count, run_index })
    } else {
        RunStep::More(RunState::Count {
            run_index,
            columns,
            bits: 0,
            value: 0,
        })
    }
}

/// Takes a one after full blocks: one block more, or the end of the line.
fn push_one(run_index: u8, columns: u32, width: u32) -> RunStep
    requires { IsRunState width (Blocks run_index columns) }
    ensures state { IsRunStep width result }
    ensures step { (r0 : ℕ) (given : List Bool) → RunAt r0 width given (Blocks run_index columns) → RunStepIs r0 width (given
        ++ true ∷ []) result }
{
    let block = block_columns(run_index);
    if columns < block {
        return RunStep::Done(Run::ToEnd { run_index });
    }
    let run_index = raised(run_index);
    if columns == block {
        RunStep::Done(Run::ToEnd { run_index })
    } else {
        RunStep::More(RunState::Blocks {
            run_index,
            columns: columns - block,
        })
    }
}

/// The first bits of a count: how many, and the number that they are.
#[derive(Clone, Copy)]
struct FirstBits {
    bits: u8,
    value: u32,
}

/// Takes a bit of the count.
fn push_to_count(run_index: u8, columns: u32, count: FirstBits, width: u32, bit: bool) -> RunStep
    requires { IsRunState width (Count run_index columns count.bits count.value) }
    ensures state { IsRunStep width result }
    ensures step { (r0 : ℕ) (given : List Bool) → RunAt r0 width given (Count run_index columns count.bits count.value)
        → RunStepIs r0 width (given ++ bit ∷ []) result }
{
    let value = 2 * count.value + bit as u32;
    let bits = count.bits + 1;
    if bits < run_order(run_index) {
        RunStep::More(RunState::Count {
            run_index,
            columns,
            bits,
            value,
        })
    } else if value < columns {
        let count = width - columns + value;
        RunStep::Done(Run::Interrupted { count, run_index })
    } else {
        RunStep::Refused
    }
}
