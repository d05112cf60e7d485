//! RUNindex, and the blocks that it stands for (ITU-T T.87, A.7.1).

ghost use Rattle.std.specs.Prelude.{◌≡◌, ◌^◌, ◌≤◌};
ghost use Rattle.jls_interval.specs.Runs.{run_index_raised, run_index_lowered};

/// J by RUNindex.
const RUN_ORDERS: [u8; 32] = [
    0, 0, 0, 0, 1, 1, 1, 1, 2, 2, 2, 2, 3, 3, 3, 3, 4, 4, 5, 5, 6, 6, 7, 7, 8, 9, 10, 11, 12, 13,
    14, 15,
];

/// J: a full block has 2^J columns.
pub(crate) fn run_order(run_index: u8) -> u8
    requires { run_index ≤ 31 }
    ensures value { result ≡ Rattle.jls_interval.specs.Runs.run_order run_index }
    ensures at_most { result ≤ 15 }
{
    RUN_ORDERS[usize::from(run_index)]
}

/// The columns of a full block.
pub(crate) fn block_columns(run_index: u8) -> u32
    requires { run_index ≤ 31 }
    ensures { result ≡ 2 ^ Rattle.jls_interval.specs.Runs.run_order run_index }
{
    1 << run_order(run_index)
}

/// RUNindex after one more full block.
pub(crate) fn raised(run_index: u8) -> u8
    requires { run_index ≤ 31 }
    ensures value { result ≡ run_index_raised run_index 1 }
    ensures at_most { result ≤ 31 }
{
    (run_index + 1).min(31)
}

/// RUNindex after an interruption.
pub(crate) fn lowered(run_index: u8) -> u8
    ensures { result ≡ run_index_lowered run_index }
{
    run_index.saturating_sub(1)
}
