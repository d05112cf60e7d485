//! Writing the columns of a run (ITU-T T.87, A.7.1).

ghost use Rattle.std.specs.Prelude.{◌≡◌, ◌^◌, ◌<◌, ◌≤◌, ◌++◌, [], true, replicate, IfOk, OnOk};
ghost use Rattle.jls_interval.specs.Runs.{blocks};
ghost use Rattle.jls_interval.specs.Code.{run_to_end_bits, interrupted_run_bits};

use crate::run_index::{block_columns, raised, run_order};
use jls_bits::BitWriter;
use std::alloc::AllocError;

/// What the full blocks of a run leave.
#[derive(Clone, Copy)]
struct Rest {
    /// RUNindex.
    run_index: u8,
    /// The columns that are fewer than a block has.
    remaining: u32,
}

/// Writes a one for each full block of a run.
fn write_full_blocks(writer: &mut BitWriter, run_index: u8, count: u32) -> Result<Rest, AllocError>
    requires { run_index ≤ 31 }
    ensures written { OnOk result (writer.new ≡ writer.old ++ replicate (blocks run_index count).full_blocks true) }
    ensures run_index { IfOk result (λ rest. rest.run_index ≡ (blocks run_index count).run_index) }
    ensures remaining { IfOk result (λ rest. rest.remaining ≡ (blocks run_index count).remaining) }
    ensures at_most { IfOk result (λ rest. rest.run_index ≤ 31) }
    ensures below { IfOk result (λ rest. rest.remaining < 2 ^ Rattle.jls_interval.specs.Runs.run_order rest.run_index) }
{
    let mut now = run_index;
    let mut remaining = count;
    while remaining >= block_columns(now) {
        writer.push_bit(true)?;
        remaining -= block_columns(now);
        now = raised(now);
    }
    Ok(Rest {
        run_index: now,
        remaining,
    })
}

/// Writes a run of so many columns to the end of its line, and gives RUNindex after it.
pub(crate) fn write_run_to_end(
    writer: &mut BitWriter,
    run_index: u8,
    count: u32,
) -> Result<u8, AllocError>
    requires { run_index ≤ 31 }
    ensures written { OnOk result (writer.new ≡ writer.old ++ run_to_end_bits (blocks run_index count)) }
    ensures run_index { IfOk result (λ after. after ≡ (blocks run_index count).run_index) }
    ensures at_most { IfOk result (λ after. after ≤ 31) }
{
    let rest = write_full_blocks(writer, run_index, count)?;
    if rest.remaining > 0 {
        writer.push_bit(true)?;
    }
    Ok(rest.run_index)
}

/// Writes the columns of an interrupted run, without the sample that interrupts it, and gives
/// RUNindex after its full blocks.
pub(crate) fn write_interrupted_run(
    writer: &mut BitWriter,
    run_index: u8,
    count: u32,
) -> Result<u8, AllocError>
    requires { run_index ≤ 31 }
    ensures written { OnOk result (writer.new ≡ writer.old ++ interrupted_run_bits (blocks run_index count) []) }
    ensures run_index { IfOk result (λ after. after ≡ (blocks run_index count).run_index) }
    ensures at_most { IfOk result (λ after. after ≤ 31) }
{
    let rest = write_full_blocks(writer, run_index, count)?;
    writer.push_bit(false)?;
    writer.push_bits(rest.remaining, run_order(rest.run_index))?;
    Ok(rest.run_index)
}
