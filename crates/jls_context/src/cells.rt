//! The cells of all contexts.

ghost use Rattle.std.specs.Prelude.{◌≡◌, ◌≢◌, ℕ, ◌*◌, ◌^◌, ◌<◌, ◌≤◌, Bool, not, true, ℤ, pos, neg_ℤ, ◌-ℤ◌, ◌<ℤ◌, IfSome, IfNone};
ghost use Rattle.jls_values.specs.Params.{range, qbpp};
ghost use Rattle.jls_context.specs.declared.mode.Neighbours.{Neighbours};
ghost use Rattle.jls_context.specs.Mode.{IsMode, IsQuantizedGradient, AreGradients};
ghost use Rattle.jls_context.specs.Prediction.{edge_detecting_predictor, corrected_prediction};
ghost use Rattle.jls_context.specs.Errors.{IsError, IsModuloReduced, modulo_reduced, prediction_error};
ghost use Rattle.jls_context.specs.Regular.{initial_cell, regular_k, regular_mapped, code_of, updated, IsGolombK};
ghost use Rattle.jls_context.specs.Interruption.{initial_run_cell, interruption_magnitudes, run_k, interruption_mapped, run_updated};
ghost use Rattle.jls_context.specs.Variables.{initial_variables, cell_at, run_cell_at};
ghost use Rattle.jls_context.specs.Bounds.{IsCell, IsRunCell, AreVariables};

use crate::errors::{error_mapped, error_unmapped, is_error, is_error_of, reduced, restored};
use crate::interruption::RunCell;
use crate::mode::{Mode, quantized_gradient};
use crate::prediction::{corrected_prediction, edge_detecting_predictor};
use crate::regular::{Cell, CellCode};
use jls_values::Params;
use std::marker::Model;

/// The parameters of a scan, and the variables of all contexts between two samples of an interval
/// (ITU-T T.87, annex A, at NEAR 0).
///
/// Samples are from 0 to MAXVAL. `cell` is the number of a context, as `mode` gives it, and `negative`
/// says that SIGN is -1. `same` says that RItype is 1: Ra and Rb of an interrupting sample are the same. An
/// error is from -floor(RANGE/2) to ceil(RANGE/2) - 1, and not 0 where `same`. No call takes memory.
#[derive(Drop)]
pub struct Cells {
    params: Params,
    regular: [Cell; 365],
    /// What each cell of regular mode says of its next code, as its last update left it.
    codes: [CellCode; 365],
    run_other: RunCell,
    run_same: RunCell,
}

impl Model for Cells {
    ghost use Rattle.jls_context.specs.Bounds.{AreCells};
    ghost use Rattle.jls_context.specs.Variables.{Variables};

    ghost Value = { Variables };

    ghost view = { λ a. record { parameters = a.params; regular = a.regular; run_other = a.run_other; run_same = a.run_same } };

    ghost invariant = { λ a. AreCells (record {
      parameters = a.params;
      regular = a.regular;
      run_other = a.run_other;
      run_same = a.run_same;
    }) a.codes };
}

impl Cells {
    /// The cells at the start of an interval, where all contexts are the same (A.2).
    pub fn new(params: &Params) -> Cells
        ensures value { result ≡ initial_variables params.now }
        ensures cells { (cell : ℕ) → cell_at result cell ≡ initial_cell params.now }
        ensures run_cells { (same : Bool) → run_cell_at result same ≡ initial_run_cell params.now }
    {
        let cell = Cell::initial(params);
        Cells {
            params: *params,
            regular: [cell; 365],
            codes: [cell.code(); 365],
            run_other: RunCell::initial(params),
            run_same: RunCell::initial(params),
        }
    }

    /// The same cells once more.
    pub fn to_owned(&self) -> Cells
        ensures { result ≡ self.now }
    {
        Cells {
            params: self.params,
            regular: self.regular,
            codes: self.codes,
            run_other: self.run_other,
            run_same: self.run_same,
        }
    }

    /// The mode of a sample with Ra to its left, Rb above, Rc above to the left and Rd above to the right (A.3).
    #[inline(always)]
    pub fn mode(&self, ra: u16, rb: u16, rc: u16, rd: u16) -> Mode
        ensures { let near : Neighbours = record { ra = ra; rb = rb; rc = rc; rd = rd } in IsMode self.now.parameters near result }
    {
        let first = self.gradient(rd, rb);
        let second = self.gradient(rb, rc);
        let third = self.gradient(rc, ra);
        self.mode_of(first, second, third)
    }

    /// The quantized gradient from one sample to another (A.3.1, A.3.3).
    #[inline(always)]
    pub fn gradient(&self, to: u16, from: u16) -> i32
        ensures value { result ≡ Rattle.jls_context.specs.Mode.quantized_gradient self.now.parameters (pos to -ℤ pos from) }
        ensures step { IsQuantizedGradient result }
    {
        quantized_gradient(&self.params, to, from)
    }

    /// The mode of a sample with these quantized gradients (A.3.2 to A.3.4). `gradient` gives them, of Rd and Rb, of Rb and Rc, and of Rc
    /// and Ra.
    #[inline(always)]
    pub fn mode_of(&self, first: i32, second: i32, third: i32) -> Mode
        requires first { IsQuantizedGradient first }
        requires second { IsQuantizedGradient second }
        requires third { IsQuantizedGradient third }
        ensures { (near : Neighbours) → AreGradients self.now.parameters near first second third → IsMode self.now.parameters near result }
    {
        Mode::of(first, second, third)
    }

    /// The cell of a context of regular mode.
    fn regular_cell(&self, cell: u16) -> Cell
        requires { cell ≤ 364 }
        ensures value { result ≡ cell_at self.now cell }
        ensures cell { IsCell self.now.parameters.reset result }
        ensures variables { AreVariables self.now }
    {
        self.regular[usize::from(cell)]
    }

    /// What a context says of its next code.
    fn code(&self, cell: u16) -> &CellCode
        requires { cell ≤ 364 }
        ensures value { result.now ≡ code_of (cell_at self.now cell) }
        ensures least { let at = cell_at self.now cell in IsGolombK at.occurrences at.magnitudes result.now.k }
        ensures at_most { result.now.k ≤ 16 }
    {
        // Each part is read by itself, since they were written one by one.
        &self.codes[usize::from(cell)]
    }

    /// The cell of run interruption for this RItype.
    fn run_cell(&self, same: bool) -> RunCell
        ensures value { result ≡ run_cell_at self.now same }
        ensures cell { IsRunCell self.now.parameters.reset result }
        ensures variables { AreVariables self.now }
    {
        if same { self.run_same } else { self.run_other }
    }

    /// The predicted sample of regular mode, with the correction of its context and clamped to 0 to MAXVAL
    /// (A.4.1, A.4.2).
    #[inline(always)]
    pub fn predict(&self, cell: u16, negative: bool, ra: u16, rb: u16, rc: u16) -> u16
        requires { cell ≤ 364 }
        ensures value { result ≡ corrected_prediction self.now.parameters negative (cell_at self.now cell).correction
            (edge_detecting_predictor ra rb rc) }
        ensures sample { result ≤ self.now.parameters.maxval }
    {
        let correction = self.regular_cell(cell).correction;
        corrected_prediction(
            &self.params,
            negative,
            correction,
            edge_detecting_predictor(ra, rb, rc),
        )
    }

    /// The error that the difference of two samples becomes modulo RANGE (A.4.5).
    pub fn reduce(&self, difference: i32) -> i32
        requires above { neg_ℤ (pos (range self.now.parameters)) <ℤ difference }
        requires below { difference <ℤ pos (range self.now.parameters) }
        ensures value { result ≡ modulo_reduced self.now.parameters difference }
        ensures reduced { IsModuloReduced self.now.parameters difference result }
    {
        reduced(&self.params, difference)
    }

    /// The sample that has this error against its prediction: no other has it (A.4.3 to A.4.5).
    #[inline(always)]
    pub fn restore(&self, predicted: u16, negative: bool, error: i32) -> u16
        requires predicted { predicted ≤ self.now.parameters.maxval }
        requires error { IsError self.now.parameters error }
        ensures sample { result ≤ self.now.parameters.maxval }
        ensures error { prediction_error self.now.parameters negative result predicted ≡ error }
        ensures only { (other : ℕ) → other ≤ self.now.parameters.maxval
            → prediction_error self.now.parameters negative other predicted ≡ error → other ≡ result }
    {
        restored(&self.params, predicted, negative, error)
    }

    /// The k of the Golomb code of the context's next error (A.5.1).
    pub fn regular_k(&self, cell: u16) -> u8
        requires { cell ≤ 364 }
        ensures value { result ≡ regular_k (cell_at self.now cell) }
        ensures least { let at = cell_at self.now cell in IsGolombK at.occurrences at.magnitudes result }
        ensures at_most { result ≤ 16 }
    {
        self.code(cell).k
    }

    /// k, and the number that an error is mapped to, which is what the Golomb code stands for (A.5.1, A.5.2).
    #[tactic(auto, using(std::proofs::lemmas::Int::ints))]
    pub fn regular_code(&self, cell: u16, error: i32) -> (u8, u32)
        requires cell { cell ≤ 364 }
        requires error { IsError self.now.parameters error }
        ensures k { result.0 ≡ regular_k (cell_at self.now cell) }
        ensures mapped { result.1 ≡ regular_mapped (cell_at self.now cell) error }
        ensures k_at_most { result.0 ≤ 16 }
        ensures mapped_at_most { result.1 ≤ 2 ^ qbpp self.now.parameters }
    {
        let _cell = self.regular_cell(cell);
        let code = self.code(cell);
        (code.k, error_mapped(code.special, error))
    }

    /// The error that `regular_code` maps to this number (A.5.2). None where it maps none to it.
    #[inline(always)]
    pub fn regular_error(&self, cell: u16, mapped: u32) -> Option<i32>
        requires { cell ≤ 364 }
        ensures error { IfSome result (IsError self.now.parameters) }
        ensures mapped { IfSome result (λ e. regular_mapped (cell_at self.now cell) e ≡ mapped) }
        ensures only { IfSome result (λ e. (other : ℤ) → regular_mapped (cell_at self.now cell) other ≡ mapped → other ≡ e) }
        ensures none { IfNone result ((e : ℤ) → IsError self.now.parameters e → regular_mapped (cell_at self.now cell) e ≢ mapped) }
    {
        let special = self.code(cell).special;
        let error = error_unmapped(special, mapped);
        if is_error_of(&self.params, special, mapped, error) {
            Some(error)
        } else {
            None
        }
    }

    /// Updates a context by the error of a sample in regular mode (A.6). All other contexts stay.
    #[inline(always)]
    pub fn update_regular(&mut self, cell: u16, error: i32)
        requires cell { cell ≤ 364 }
        requires error { IsError self.old.parameters error }
        ensures updated { cell_at self.new cell ≡ updated self.old.parameters.reset (cell_at self.old cell) error }
        ensures others { (other : ℕ) → other ≢ cell → cell_at self.new other ≡ cell_at self.old other }
        ensures run_cells { (same : Bool) → run_cell_at self.new same ≡ run_cell_at self.old same }
        ensures parameters { self.new.parameters ≡ self.old.parameters }
    {
        let old = self.regular_cell(cell);
        let reset = u32::from(self.params.reset());
        let new = old.updated(reset, error);
        self.regular[usize::from(cell)] = new;
        self.codes[usize::from(cell)] = new.code();
    }

    /// The k of the Golomb code of the next sample that interrupts a run (A.7.2).
    pub fn run_k(&self, same: bool) -> u8
        ensures value { result ≡ run_k same (run_cell_at self.now same) }
        ensures least { let at = run_cell_at self.now same in IsGolombK at.occurrences (interruption_magnitudes same at) result }
        ensures at_most { result ≤ 16 }
    {
        self.run_cell(same).k(same)
    }

    /// k, and the number that the error of an interrupting sample is mapped to (A.7.2).
    #[tactic(auto, using(std::proofs::lemmas::Int::ints))]
    pub fn run_code(&self, same: bool, error: i32) -> (u8, u32)
        requires error { IsError self.now.parameters error }
        requires another { same ≡ true → error ≢ pos 0 }
        ensures k { result.0 ≡ run_k same (run_cell_at self.now same) }
        ensures mapped { result.1 ≡ interruption_mapped same (run_cell_at self.now same) error }
        ensures k_at_most { result.0 ≤ 16 }
        ensures mapped_at_most { result.1 ≤ 2 ^ qbpp self.now.parameters }
    {
        let cell = self.run_cell(same);
        (cell.k(same), cell.error_mapped(same, error))
    }

    /// The error that `run_code` maps to this number (A.7.2). None where it maps none to it.
    pub fn run_error(&self, same: bool, mapped: u32) -> Option<i32>
        ensures error { IfSome result (IsError self.now.parameters) }
        ensures another { IfSome result (λ e. same ≡ true → e ≢ pos 0) }
        ensures mapped { IfSome result (λ e. interruption_mapped same (run_cell_at self.now same) e ≡ mapped) }
        ensures only { IfSome result (λ e. (other : ℤ) → (same ≡ true → other ≢ pos 0)
            → interruption_mapped same (run_cell_at self.now same) other ≡ mapped → other ≡ e) }
        ensures none { IfNone result ((e : ℤ) → IsError self.now.parameters e → (same ≡ true → e ≢ pos 0)
            → interruption_mapped same (run_cell_at self.now same) e ≢ mapped) }
    {
        let cell = self.run_cell(same);
        // No error of 16 bits is mapped to more.
        if mapped > 65536 {
            return None;
        }
        let error = cell.error_unmapped(same, mapped);
        if is_error(&self.params, error) {
            Some(error)
        } else {
            None
        }
    }

    /// Updates a context of run interruption by the error of its sample (A.7.2). All other contexts stay.
    pub fn update_run(&mut self, same: bool, error: i32)
        requires error { IsError self.old.parameters error }
        requires another { same ≡ true → error ≢ pos 0 }
        ensures updated { run_cell_at self.new same ≡ run_updated self.old.parameters.reset same (run_cell_at self.old same) error }
        ensures other { run_cell_at self.new (not same) ≡ run_cell_at self.old (not same) }
        ensures regular { self.new.regular ≡ self.old.regular }
        ensures parameters { self.new.parameters ≡ self.old.parameters }
    {
        let reset = u32::from(self.params.reset());
        if same {
            self.run_same = self.run_same.updated(reset, true, error);
        } else {
            self.run_other = self.run_other.updated(reset, false, error);
        }
    }
}
