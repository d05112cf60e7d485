//! A run whose bits may break off (ITU-T T.87, A.7.1).

ghost use Rattle.std.specs.Prelude.{◌≡◌, ℕ, ◌-◌, ◌*◌, ◌^◌, ◌<◌, ◌≤◌, Bool, List};
ghost use Rattle.jls_pixel.specs.RunRead.{RunStarts};
ghost use Rattle.jls_pixel.specs.OpenEvents.{NumberEndIs, RunEndIs, IsRunEnd};

use crate::pending_bits::PendingBits;
use crate::run::Run;
use crate::run_index::{block_columns, raised, run_order};

/// What the first bits of a run come to.
#[derive(Clone, Copy)]
pub(crate) enum RunEnd {
    /// They are a whole run, before the pixel that interrupts it.
    Whole(Run),
    /// They are ones for full blocks, and columns are left.
    InBlocks,
    /// They end inside the count of the columns that remain, and the count can be small enough.
    InCount,
    /// They begin no run, whatever comes.
    Refused,
}

/// A number whose bits may break off.
#[derive(Clone, Copy)]
pub(crate) enum NumberEnd {
    Whole(u32),
    /// So many of its bits are there, and are this number.
    Open { bits: u8, value: u32 },
}

/// Reads a number of so many bits, as far as they go.
fn read_number_end(pending: &mut PendingBits, count: u8) -> NumberEnd
    requires { count ≤ 15 }
    ensures { NumberEndIs count pending.old pending.new result }
{
    let mut value = 0;
    for place in 0..count {
        match pending.read_bit() {
            None => return NumberEnd::Open { bits: place, value },
            Some(bit) => value = 2 * value + bit as u32,
        }
    }
    NumberEnd::Whole(value)
}

/// The least number of J bits that begins with these bits.
fn least_count(value: u32, bits: u8, order: u8) -> u32
    requires bits { bits ≤ order }
    requires order { order ≤ 15 }
    requires value { value < 2 ^ bits }
    ensures { result ≡ value * 2 ^ (order - bits) }
{
    value << (order - bits)
}

/// Reads the rest of an interrupted run after its zero, where so many of `width` columns are left.
fn read_count_end(pending: &mut PendingBits, run_index: u8, columns: u32, width: u32) -> RunEnd
    requires run_index { run_index ≤ 31 }
    requires columns { columns ≤ width }
    requires some { 0 < columns }
    ensures end { (r0 : ℕ) (given : List Bool) → RunStarts r0 width given run_index columns pending.old
        → RunEndIs r0 width given pending.new result }
    ensures within { IsRunEnd width result }
{
    let order = run_order(run_index);
    match read_number_end(pending, order) {
        NumberEnd::Open { bits, value } => {
            let least = least_count(value, bits, order);
            if least < columns {
                RunEnd::InCount
            } else {
                RunEnd::Refused
            }
        }
        NumberEnd::Whole(value) => {
            if value < columns {
                let count = width - columns + value;
                RunEnd::Whole(Run::Interrupted { count, run_index })
            } else {
                RunEnd::Refused
            }
        }
    }
}

/// Reads a run that begins at this RUNindex, where the row has `width` columns left, as far as its bits go.
pub(crate) fn read_run_end(pending: &mut PendingBits, run_index: u8, width: u32) -> RunEnd
    requires run_index { run_index ≤ 31 }
    requires width { 0 < width }
    ensures end { RunEndIs run_index width pending.old pending.new result }
    ensures within { IsRunEnd width result }
{
    let mut now = run_index;
    let mut columns = width;
    while let Some(bit) = pending.read_bit() {
        if !bit {
            return read_count_end(pending, now, columns, width);
        }
        let block = block_columns(now);
        if columns < block {
            return RunEnd::Whole(Run::ToEnd { run_index: now });
        }
        now = raised(now);
        columns -= block;
        if columns == 0 {
            return RunEnd::Whole(Run::ToEnd { run_index: now });
        }
    }
    RunEnd::InBlocks
}
