//! Whether the first bits of a sample's code can go on to a sample that can come (ITU-T T.87, A.5.3 and A.7.2).

ghost use Rattle.std.specs.Prelude.{◌≡◌, ◌+◌, ◌^◌, ◌≤◌, ◌++◌, true, false, Bool, List};
ghost use Rattle.jls_values.specs.Params.{qbpp};
ghost use Rattle.jls_interval.specs.SampleCodes.{parameters_of, IsModeAt, IsRegularOpen, BeginsRegular, BeginsRegularCode, NoRegular};
ghost use Rattle.jls_interval.specs.SampleCodes.{regular_code, regular_fed, IsInterruptingOpen, BeginsInterrupting};
ghost use Rattle.jls_interval.specs.SampleCodes.{BeginsInterruptingCode, NoInterrupting, interrupting_code, interrupting_fed};

use crate::coder::{Coder, RegularMode};
use crate::push_sample::{interruption_of, sample_of};
use jls_bits::CodeState;
use jls_context::Neighbours;

/// How many numbers have to be tried: no error is mapped to one above 2^qbpp.
fn numbers(qbpp: u8) -> u32
    requires { qbpp ≤ 16 }
    ensures { result ≡ 2 ^ qbpp + 1 }
{
    (1 << qbpp) + 1
}

/// Whether the first bits of a code are those of the sample of regular mode whose error is mapped to this number.
fn sample_begins(
    coder: &Coder,
    neighbours: Neighbours,
    mode: RegularMode,
    code: CodeState,
    mapped: u32,
) -> bool
    requires mode { IsModeAt coder.now neighbours mode }
    requires opened { IsRegularOpen coder.now mode code }
    requires mapped { mapped ≤ 2 ^ qbpp (parameters_of coder.now) }
    ensures yes { result ≡ true → BeginsRegular coder.now mode neighbours code }
    ensures no { result ≡ false → BeginsRegularCode coder.now mode (regular_fed coder.now code) mapped
        → (given unread : List Bool) → given ≡ regular_code coder.now mode mapped ++ unread → NoRegular coder.now mode neighbours given }
{
    let k = coder.cells.regular_k(mode.context);
    if !code.allows(k, coder.lengths.limit, coder.lengths.qbpp, mapped) {
        return false;
    }
    match sample_of(coder, neighbours, mode, mapped) {
        None => false,
        Some(_) => true,
    }
}

/// Whether the first bits of a code are those of a sample of regular mode that can come.
pub(crate) fn sample_goes_on(
    coder: &Coder,
    neighbours: Neighbours,
    mode: RegularMode,
    code: CodeState,
) -> bool
    requires mode { IsModeAt coder.now neighbours mode }
    requires opened { IsRegularOpen coder.now mode code }
    ensures yes { result ≡ true → BeginsRegular coder.now mode neighbours code }
    ensures no { result ≡ false → (more : List Bool) → NoRegular coder.now mode neighbours (regular_fed coder.now code ++ more) }
{
    for mapped in 0..numbers(coder.lengths.qbpp) {
        if sample_begins(coder, neighbours, mode, code, mapped) {
            return true;
        }
    }
    false
}

/// Whether the first bits of a code, after J bits of a run's count, are those of a sample that can interrupt the run. Its error is mapped
/// to this number.
fn interruption_begins(
    coder: &Coder,
    neighbours: Neighbours,
    order: u8,
    code: CodeState,
    mapped: u32,
) -> bool
    requires order { order ≤ 15 }
    requires above { neighbours.rb ≤ (parameters_of coder.now).maxval }
    requires opened { IsInterruptingOpen coder.now neighbours order code }
    requires mapped { mapped ≤ 2 ^ qbpp (parameters_of coder.now) }
    ensures yes { result ≡ true → BeginsInterrupting coder.now neighbours order code }
    ensures no { result ≡ false → BeginsInterruptingCode coder.now neighbours order (interrupting_fed coder.now order code) mapped
        → (given unread : List Bool) → given ≡ interrupting_code coder.now neighbours order mapped ++ unread
        → NoInterrupting coder.now neighbours order given }
{
    let k = coder.cells.run_k(neighbours.ra == neighbours.rb);
    let limit = coder.lengths.limit - order - 1;
    if !code.allows(k, limit, coder.lengths.qbpp, mapped) {
        return false;
    }
    match interruption_of(coder, neighbours, order, mapped) {
        None => false,
        Some(_) => true,
    }
}

/// Whether the first bits of a code are those of a sample that can interrupt a run, after J bits of its count.
pub(crate) fn interruption_goes_on(
    coder: &Coder,
    neighbours: Neighbours,
    order: u8,
    code: CodeState,
) -> bool
    requires order { order ≤ 15 }
    requires above { neighbours.rb ≤ (parameters_of coder.now).maxval }
    requires opened { IsInterruptingOpen coder.now neighbours order code }
    ensures yes { result ≡ true → BeginsInterrupting coder.now neighbours order code }
    ensures no { result ≡ false → (more : List Bool)
        → NoInterrupting coder.now neighbours order (interrupting_fed coder.now order code ++ more) }
{
    for mapped in 0..numbers(coder.lengths.qbpp) {
        if interruption_begins(coder, neighbours, order, code, mapped) {
            return true;
        }
    }
    false
}
