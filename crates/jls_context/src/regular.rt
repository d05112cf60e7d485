//! Cells of regular mode.

ghost use Rattle.std.specs.Prelude.{◌≡◌, ℕ, ◌+◌, ◌*◌, ◌^◌, ◌<◌, ◌≤◌, pos, negsuc, neg_ℤ, ◌+ℤ◌, ◌-ℤ◌, ◌≤ℤ◌, ◌<ℤ◌};
ghost use Rattle.std.specs.Int.{int_max, int_min};
ghost use Rattle.jls_values.specs.Params.{AreCodingParameters};
ghost use Rattle.jls_context.specs.BiasSteps;
ghost use Rattle.jls_context.specs.Regular.{initial_cell, regular_k, code_of, updated, IsGolombK};
ghost use Rattle.jls_context.specs.Bounds.{IsCell};

use crate::golomb::{golomb_k, is_zero_k};
use jls_values::Params;

/// The variables of one context of regular mode (ITU-T T.87, A.2).
#[derive(Clone, Copy)]
pub struct Cell {
    /// A: the sizes of its errors, added up.
    pub magnitudes: u32,
    /// N: how often it occurred.
    pub occurrences: u32,
    /// B: the bias.
    pub bias: i32,
    /// C: the correction of its predictions.
    pub correction: i32,
}

/// What a cell says of the next code: k, and whether errors are mapped by the special mapping (ITU-T T.87, A.5.1, A.5.2).
#[derive(Clone, Copy)]
pub struct CellCode {
    pub k: u8,
    pub special: bool,
}

/// A at the start of an interval.
pub(crate) fn initial_magnitudes(params: &Params) -> u32
    ensures value { result ≡ Rattle.jls_context.specs.Regular.initial_magnitudes params.now }
    ensures at_most { result ≤ 2 ^ 16 }
    ensures ranges { AreCodingParameters params.now }
{
    ((params.range() + 32) / 64).max(2)
}

/// B brought to above -N and at most 0.
fn computed_bias(occurrences: u32, bias: i32) -> i32
    requires some { 1 ≤ occurrences }
    requires few { occurrences ≤ 2 ^ 16 }
    requires bias_at_least { negsuc (2 ^ 18) ≤ℤ bias }
    requires bias_at_most { bias ≤ℤ pos (2 ^ 18) }
    ensures value { result ≡ BiasSteps.computed_bias occurrences bias }
    ensures above { neg_ℤ (pos occurrences) <ℤ result }
    ensures at_most { result ≤ℤ pos 0 }
{
    // No jump for each case: of noisy samples a processor guesses every second one wrong.
    let count = occurrences as i32;
    let raised = if bias <= -count { bias + count } else { bias };
    let moved = if bias > 0 { raised - count } else { raised };
    moved.max(1 - count).min(0)
}

/// C after a step, or as it was where the step leads out of its range.
fn bounded(correction: i32, moved: i32) -> i32
    requires correction_at_least { negsuc 127 ≤ℤ correction }
    requires correction_at_most { correction ≤ℤ pos 127 }
    requires moved_at_least { (correction -ℤ pos 1) ≤ℤ moved }
    requires moved_at_most { moved ≤ℤ (correction +ℤ pos 1) }
    ensures { result ≡ int_min (int_max moved (negsuc 127)) (pos 127) }
{
    if moved < -128 {
        return correction;
    }
    if moved > 127 {
        return correction;
    }
    moved
}

/// C after a bias.
fn computed_correction(occurrences: u32, bias: i32, correction: i32) -> i32
    requires few { occurrences ≤ 2 ^ 16 }
    requires correction_at_least { negsuc 127 ≤ℤ correction }
    requires correction_at_most { correction ≤ℤ pos 127 }
    ensures value { result ≡ BiasSteps.computed_correction occurrences bias correction }
    ensures at_least { negsuc 127 ≤ℤ result }
    ensures at_most { result ≤ℤ pos 127 }
{
    let count = occurrences as i32;
    let lowered = if bias <= -count {
        correction - 1
    } else {
        correction
    };
    let moved = if bias > 0 { lowered + 1 } else { lowered };
    bounded(correction, moved)
}

impl Cell {
    /// The cell at the start of an interval.
    pub(crate) fn initial(params: &Params) -> Cell
        ensures value { result ≡ initial_cell params.now }
        ensures cell { IsCell params.now.reset result }
        ensures ranges { AreCodingParameters params.now }
    {
        Cell {
            magnitudes: initial_magnitudes(params),
            occurrences: 1,
            bias: 0,
            correction: 0,
        }
    }

    /// The k of its codes.
    pub(crate) fn k(self) -> u8
        requires cell { (reset : ℕ) × IsCell reset self }
        ensures value { result ≡ regular_k self }
        ensures least { IsGolombK self.occurrences self.magnitudes result }
        ensures at_most { result ≤ 16 }
    {
        golomb_k(self.occurrences, self.magnitudes)
    }

    /// Whether its errors are mapped by the special mapping.
    pub(crate) fn uses_special_mapping(self) -> bool
        requires cell { (reset : ℕ) × (reset < 2 ^ 16) × IsCell reset self }
        ensures { result ≡ Rattle.jls_context.specs.Regular.uses_special_mapping self }
    {
        is_zero_k(self.occurrences, self.magnitudes) && 2 * self.bias + self.occurrences as i32 <= 0
    }

    /// Its k, and whether its errors are mapped by the special mapping.
    pub(crate) fn code(self) -> CellCode
        requires cell { (reset : ℕ) × (reset < 2 ^ 16) × IsCell reset self }
        ensures value { result ≡ code_of self }
        ensures least { IsGolombK self.occurrences self.magnitudes result.k }
        ensures at_most { result.k ≤ 16 }
    {
        CellCode {
            k: self.k(),
            special: self.uses_special_mapping(),
        }
    }

    /// The cell with its bias brought back into its range.
    fn bias_computed(self) -> Cell
        requires some { 1 ≤ self.occurrences }
        requires few { self.occurrences ≤ 2 ^ 16 }
        requires bias_at_least { negsuc (2 ^ 18) ≤ℤ self.bias }
        requires bias_at_most { self.bias ≤ℤ pos (2 ^ 18) }
        requires correction_at_least { negsuc 127 ≤ℤ self.correction }
        requires correction_at_most { self.correction ≤ℤ pos 127 }
        ensures value { result ≡ record self {
          bias = BiasSteps.computed_bias self.occurrences self.bias;
          correction = BiasSteps.computed_correction self.occurrences self.bias self.correction;
        } }
        ensures cell { (reset : ℕ) → self.occurrences ≤ reset → self.magnitudes ≤ 2 ^ 15 * (self.occurrences + 1) → IsCell reset result }
    {
        Cell {
            bias: computed_bias(self.occurrences, self.bias),
            correction: computed_correction(self.occurrences, self.bias, self.correction),
            ..self
        }
    }

    /// The cell after an error.
    pub(crate) fn updated(self, reset: u32, error: i32) -> Cell
        requires reset_at_least { 3 ≤ reset }
        requires reset_below { reset < 2 ^ 16 }
        requires cell { IsCell reset self }
        requires error_at_least { negsuc (2 ^ 15) <ℤ error }
        requires error_at_most { error ≤ℤ pos (2 ^ 15) }
        ensures value { result ≡ updated reset self error }
        ensures cell { IsCell reset result }
    {
        let magnitudes = self.magnitudes + error.unsigned_abs();
        let bias = self.bias + error;
        if self.occurrences == reset {
            let aged = Cell {
                magnitudes: magnitudes / 2,
                occurrences: self.occurrences / 2 + 1,
                bias: bias.div_euclid(2),
                correction: self.correction,
            };
            aged.bias_computed()
        } else {
            let grown = Cell {
                magnitudes,
                occurrences: self.occurrences + 1,
                bias,
                correction: self.correction,
            };
            grown.bias_computed()
        }
    }
}
