//! Reading the columns of a run (ITU-T T.87, A.7.1).

ghost use Rattle.std.specs.Prelude.{◌≡◌, ℕ, ◌^◌, ◌<◌, ◌≤◌, ◌++◌, Bool, List, IfSome, IfNone};
ghost use Rattle.jls_bits.specs.Bits.{bits};
ghost use Rattle.jls_interval.specs.Reading.{NoRun};
ghost use Rattle.jls_pixel.specs.RunRead.{RunIs, IsRun, RunStarts};

use crate::pending_bits::PendingBits;
use crate::run_index::{block_columns, raised, run_order};

/// A run that was read, and RUNindex after its full blocks.
#[derive(Clone, Copy)]
pub(crate) enum Run {
    ToEnd { run_index: u8 },
    Interrupted { count: u32, run_index: u8 },
}

/// Reads a number of so many bits. None where fewer are left; then none is left.
fn read_number(pending: &mut PendingBits, count: u8) -> Option<u32>
    requires { count ≤ 15 }
    ensures below { IfSome result (λ value. value < 2 ^ count) }
    ensures bits { IfSome result (λ value. pending.old ≡ bits count value ++ pending.new) }
    ensures none { IfNone result ((value : ℕ) (rest : List Bool) → pending.old ≡ bits count value ++ rest → ⊥) }
{
    let mut value = 0;
    for _place in 0..count {
        match pending.read_bit() {
            None => return None,
            Some(bit) => value = 2 * value + bit as u32,
        }
    }
    Some(value)
}

/// Reads the rest of an interrupted run after its zero: the columns that remain, in J bits, where so many of `width` columns are left.
fn read_count(pending: &mut PendingBits, run_index: u8, columns: u32, width: u32) -> Option<Run>
    requires run_index { run_index ≤ 31 }
    requires columns { columns ≤ width }
    requires some { 0 < columns }
    ensures run { (r0 : ℕ) (given : List Bool) → RunStarts r0 width given run_index columns pending.old → IfSome result
        (RunIs r0 width given pending.new) }
    ensures within { IfSome result (IsRun width) }
    ensures none { (r0 : ℕ) (given : List Bool) → RunStarts r0 width given run_index columns pending.old → IfNone result
        (NoRun r0 width given) }
{
    match read_number(pending, run_order(run_index)) {
        None => None,
        Some(value) => {
            if value < columns {
                let count = width - columns + value;
                Some(Run::Interrupted { count, run_index })
            } else {
                None
            }
        }
    }
}

/// Reads a run that begins at this RUNindex, where the row has `width` columns left. None where none stands at the start of what is
/// left.
pub(crate) fn read_run(pending: &mut PendingBits, run_index: u8, width: u32) -> Option<Run>
    requires run_index { run_index ≤ 31 }
    requires width { 0 < width }
    ensures some { IfSome result (RunIs run_index width pending.old pending.new) }
    ensures run { IfSome result (IsRun width) }
    ensures none { IfNone result (NoRun run_index width pending.old) }
{
    let mut now = run_index;
    let mut columns = width;
    while let Some(bit) = pending.read_bit() {
        if !bit {
            return read_count(pending, now, columns, width);
        }
        let block = block_columns(now);
        if columns < block {
            return Some(Run::ToEnd { run_index: now });
        }
        now = raised(now);
        columns -= block;
        if columns == 0 {
            return Some(Run::ToEnd { run_index: now });
        }
    }
    None
}
