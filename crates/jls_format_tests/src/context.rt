//! What no clause says: that the calls succeed, and values of the formulas that were found by hand or by a
//! program of another language.

ghost use Rattle.std.specs.Prelude.{◌≡◌, ◌≢◌, ◌≤◌, true, pos, negsuc, ◌≤ℤ◌, IfOk};

use jls_context::*;
use jls_values::{ParamFault, Params};
use std::process::Abort;
use std::test::Fail;

/// Cells of 8 bits with the default thresholds.
fn eight_bits(rt: &impl Abort, reset: u16) -> Result<Cells, ParamFault>
    ensures { IfOk result (λ cells. cells.parameters.maxval ≡ 255) }
{
    let params = Params::new(8, 0, 0, 0, 0, reset)?;
    assert!(rt; params.maxval() == 255);
    Ok(Cells::new(&params))
}

/// Ra, Rb, Rc and Rd, and the cell of their regular mode, which is negated or not.
const MODES: [([u16; 4], u16, bool); 12] = [
    ([90, 0, 0, 0], 4, true),
    ([68, 0, 0, 90], 320, false),
    // The first gradient is 0 and the second decides: 9 * 2 - 3.
    ([0, 1, 6, 1], 16, true),
    ([100, 50, 75, 0], 364, true),
    // Each threshold on both sides.
    ([100, 100, 100, 102], 81, false),
    ([100, 100, 100, 103], 162, false),
    ([100, 100, 100, 106], 162, false),
    ([100, 100, 100, 107], 243, false),
    ([100, 100, 100, 120], 243, false),
    ([100, 100, 100, 121], 324, false),
    ([100, 100, 100, 80], 243, true),
    ([100, 100, 100, 79], 324, true),
];

#[test]
fn modes(rt: HostRuntime) -> Result<(), Fail> {
    let cells = eight_bits(&rt, 0)?;
    assert!(rt; cells.mode(0, 0, 0, 0) == Mode::Run);
    for &([ra, rb, rc, rd], cell, negative) in &MODES {
        let mode = Mode::Regular { cell, negative };
        assert!(rt;
            cells.mode(ra, rb, rc, rd) == mode,
            "at {ra} {rb} {rc} {rd}"
        );
    }
    Ok(())
}

/// Whether the cell is negated, Ra, Rb and Rc, and the prediction, where C is -1.
const PREDICTIONS: [(bool, [u16; 3], u16); 7] = [
    (false, [68, 0, 0], 67),
    (true, [68, 0, 0], 69),
    (false, [10, 20, 15], 14),
    (false, [10, 20, 20], 9),
    (false, [10, 20, 10], 19),
    (false, [0, 0, 0], 0),
    (true, [255, 255, 255], 255),
];

fn check_predictions(rt: &impl Abort, cells: &Cells) {
    for &(negative, [ra, rb, rc], predicted) in &PREDICTIONS {
        assert!(rt;
            cells.predict(320, negative, ra, rb, rc) == predicted,
            "at {ra} {rb} {rc}"
        );
    }
}

#[test]
fn predictions_follow_the_correction(rt: HostRuntime) -> Result<(), Fail> {
    let mut cells = eight_bits(&rt, 0)?;
    assert!(rt; cells.regular_k(320) == 2);
    cells.update_regular(320, -18);
    assert!(rt; cells.regular_k(320) == 4);
    check_predictions(&rt, &cells);
    Ok(())
}

/// Differences, and the errors that they are modulo RANGE.
const ERRORS: [(i32, i32); 6] = [
    (255, -1),
    (-255, 1),
    (128, -128),
    (127, 127),
    (-128, -128),
    (-129, 127),
];

#[test]
fn errors_modulo_range(rt: HostRuntime) -> Result<(), Fail> {
    let cells = eight_bits(&rt, 0)?;
    for &(difference, error) in &ERRORS {
        assert!(rt; cells.reduce(difference) == error, "at {difference}");
    }
    assert!(rt; cells.restore(250, false, 10) == 4);
    assert!(rt; cells.restore(4, true, 10) == 250);
    Ok(())
}

#[test]
fn errors_of_numbers(rt: HostRuntime) -> Result<(), Fail> {
    let cells = eight_bits(&rt, 0)?;
    for (mapped, error) in [(35, Some(-18)), (255, Some(-128)), (256, None)] {
        assert!(rt; cells.regular_error(1, mapped) == error, "at {mapped}");
    }
    for (mapped, error) in [(0, Some(-1)), (1, Some(1)), (254, Some(-128)), (255, None)] {
        assert!(rt; cells.run_error(true, mapped) == error, "at {mapped}");
    }
    Ok(())
}

/// The codes of an error of 16 bits, in regular mode and of a run with RItype 0.
fn codes(cells: &Cells, error: i32) -> [(u8, u32); 2]
    requires maxval { cells.now.parameters.maxval ≡ 65535 }
    requires at_least { negsuc 32767 ≤ℤ error }
    requires at_most { error ≤ℤ pos 32767 }
{
    [cells.regular_code(364, error), cells.run_code(false, error)]
}

#[test]
fn codes_of_16_bits(rt: HostRuntime) -> Result<(), Fail> {
    let params = Params::new(16, 0, 0, 0, 0, 65535)?;
    assert!(rt; params.maxval() == 65535);
    let cells = Cells::new(&params);
    assert!(rt; codes(&cells, -32768) == [(10, 65535), (10, 65535)]);
    assert!(rt; codes(&cells, 32767) == [(10, 65534), (10, 65534)]);
    Ok(())
}

/// Takes in an error that interrupts runs so many times.
fn interrupt_often(cells: &mut Cells, same: bool, error: i32, times: u8)
    requires maxval { cells.old.parameters.maxval ≡ 255 }
    requires at_least { negsuc 127 ≤ℤ error }
    requires at_most { error ≤ℤ pos 127 }
    requires another { same ≡ true → error ≢ pos 0 }
    ensures { cells.new.parameters.maxval ≡ 255 }
{
    for turn in 0..times {
        cells.update_run(same, error);
    }
}

/// The numbers of -2, -1, 1 and 2.
fn numbers(cells: &Cells, same: bool) -> [u32; 4]
    requires maxval { cells.now.parameters.maxval ≡ 255 }
{
    [
        cells.run_code(same, -2).1,
        cells.run_code(same, -1).1,
        cells.run_code(same, 1).1,
        cells.run_code(same, 2).1,
    ]
}

#[test]
fn interruptions_at_k_0(rt: HostRuntime) -> Result<(), Fail> {
    // N is 8 or 9, and 2 * Nn is below N, N or above N. The numbers are those of a coder in another language.
    for (same, [minus, plus, none], wanted) in [
        (false, [3, 1, 3], [4, 2, 1, 3]),
        (false, [4, 0, 3], [3, 1, 2, 4]),
        (false, [5, 0, 3], [3, 1, 2, 4]),
        (true, [3, 4, 0], [3, 1, 0, 2]),
        (true, [4, 3, 0], [2, 0, 1, 3]),
        (true, [5, 2, 0], [2, 0, 1, 3]),
    ] {
        let mut cells = eight_bits(&rt, 0)?;
        interrupt_often(&mut cells, same, -1, minus);
        interrupt_often(&mut cells, same, 1, plus);
        interrupt_often(&mut cells, false, 0, none);
        assert!(rt;
            cells.run_k(same) == 0 && numbers(&cells, same) == wanted,
            "RItype 1: {same}, Nn is {minus}"
        );
    }
    Ok(())
}
