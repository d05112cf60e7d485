//! Cells of run interruption.

ghost use Rattle.std.specs.Prelude.{◌≡◌, ◌≢◌, ℕ, ◌+◌, ◌*◌, ◌^◌, ◌<◌, ◌≤◌, true, pos, negsuc, ◌≤ℤ◌, ◌<ℤ◌};
ghost use Rattle.jls_context.specs.Regular.{IsGolombK};
ghost use Rattle.jls_context.specs.Interruption.{initial_run_cell, interruption_magnitudes, run_k, interruption_mapped, run_updated};
ghost use Rattle.jls_context.specs.Bounds.{IsRunCell};

use crate::golomb::{golomb_k, is_zero_k};
use crate::regular::initial_magnitudes;
use jls_values::Params;

/// The variables of one of the two contexts of run interruption (ITU-T T.87, A.2).
#[derive(Clone, Copy)]
pub struct RunCell {
    /// A: the sizes of its errors, added up as A.7.2 says.
    pub magnitudes: u32,
    /// N: how often it occurred.
    pub occurrences: u32,
    /// Nn: how many of its errors were negative.
    pub negative_errors: u32,
}

/// The mapped error EM (ITU-T T.87, A.7.2). If `first` is true, `map` is 1 for errors above 0, and else for those below.
fn mapped_by_sign(same: bool, first: bool, error: i32) -> u32
    requires error_at_least { negsuc (2 ^ 17) ≤ℤ error }
    requires error_at_most { error ≤ℤ pos (2 ^ 17) }
    requires another { same ≡ true → error ≢ pos 0 }
    ensures { result ≡ Rattle.jls_context.specs.Interruption.mapped_by_sign same first error }
{
    let map = if error > 0 {
        first
    } else {
        error < 0 && !first
    };
    2 * error.unsigned_abs() - u32::from(same) - u32::from(map)
}

/// The error whose EM is this number; `first` is as for `mapped_by_sign`.
fn unmapped_by_sign(same: bool, first: bool, mapped: u32) -> i32
    requires { mapped < 2 ^ 31 }
    ensures value { Rattle.jls_context.specs.Interruption.mapped_by_sign same first result ≡ mapped }
    ensures another { same ≡ true → result ≢ pos 0 }
{
    let sum = mapped + u32::from(same);
    if sum == 0 {
        return 0;
    }
    let size = ((sum + 1) / 2) as i32;
    if (sum % 2 == 1) == first { size } else { -size }
}

impl RunCell {
    /// The cell at the start of an interval.
    pub(crate) fn initial(params: &Params) -> RunCell
        ensures value { result ≡ initial_run_cell params.now }
        ensures cell { IsRunCell params.now.reset result }
    {
        RunCell {
            magnitudes: initial_magnitudes(params),
            occurrences: 1,
            negative_errors: 0,
        }
    }

    /// TEMP, from which k follows, where `same` says that RItype is 1.
    fn interruption_magnitudes(self, same: bool) -> u32
        requires cell { (reset : ℕ) × (reset < 2 ^ 16) × IsRunCell reset self }
        ensures value { result ≡ interruption_magnitudes same self }
    {
        if same {
            self.magnitudes + self.occurrences / 2
        } else {
            self.magnitudes
        }
    }

    /// The k of its codes, where `same` says that RItype is 1.
    pub(crate) fn k(self, same: bool) -> u8
        requires cell { (reset : ℕ) × (reset < 2 ^ 16) × IsRunCell reset self }
        ensures value { result ≡ run_k same self }
        ensures least { IsGolombK self.occurrences (interruption_magnitudes same self) result }
        ensures at_most { result ≤ 16 }
    {
        golomb_k(self.occurrences, self.interruption_magnitudes(same))
    }

    /// Whether `map` is 1 for errors above 0. Else it is 1 for errors below 0.
    fn maps_positive(self, same: bool) -> bool
        requires cell { (reset : ℕ) × (reset < 2 ^ 16) × IsRunCell reset self }
        ensures { result ≡ Rattle.jls_context.specs.Interruption.maps_positive same self }
    {
        is_zero_k(self.occurrences, self.interruption_magnitudes(same))
            && 2 * self.negative_errors < self.occurrences
    }

    /// The number that an error is mapped to.
    pub(crate) fn error_mapped(self, same: bool, error: i32) -> u32
        requires cell { (reset : ℕ) × (reset < 2 ^ 16) × IsRunCell reset self }
        requires error_at_least { negsuc (2 ^ 17) ≤ℤ error }
        requires error_at_most { error ≤ℤ pos (2 ^ 17) }
        requires another { same ≡ true → error ≢ pos 0 }
        ensures { result ≡ interruption_mapped same self error }
    {
        mapped_by_sign(same, self.maps_positive(same), error)
    }

    /// The error that is mapped to a number.
    pub(crate) fn error_unmapped(self, same: bool, mapped: u32) -> i32
        requires cell { (reset : ℕ) × (reset < 2 ^ 16) × IsRunCell reset self }
        requires mapped { mapped < 2 ^ 31 }
        ensures value { interruption_mapped same self result ≡ mapped }
        ensures another { same ≡ true → result ≢ pos 0 }
    {
        unmapped_by_sign(same, self.maps_positive(same), mapped)
    }

    /// The cell after an error.
    #[tactic(auto, unfolding(crate::specs::Interruption::run_updated))]
    pub(crate) fn updated(self, reset: u32, same: bool, error: i32) -> RunCell
        requires reset_at_least { 3 ≤ reset }
        requires reset_below { reset < 2 ^ 16 }
        requires cell { IsRunCell reset self }
        requires error_at_least { negsuc (2 ^ 15) <ℤ error }
        requires error_at_most { error ≤ℤ pos (2 ^ 15) }
        requires another { same ≡ true → error ≢ pos 0 }
        ensures value { result ≡ run_updated reset same self error }
        ensures cell { IsRunCell reset result }
    {
        let mapped = self.error_mapped(same, error);
        let magnitudes = self.magnitudes + (mapped + 1 - u32::from(same)) / 2;
        let negative_errors = self.negative_errors + u32::from(error < 0);
        if self.occurrences == reset {
            RunCell {
                magnitudes: magnitudes / 2,
                occurrences: self.occurrences / 2 + 1,
                negative_errors: negative_errors / 2,
            }
        } else {
            RunCell {
                magnitudes,
                occurrences: self.occurrences + 1,
                negative_errors,
            }
        }
    }
}
