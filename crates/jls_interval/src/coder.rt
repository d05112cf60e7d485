//! What a coder of an interval carries from event to event.

ghost use Rattle.std.specs.Prelude.{◌≡◌, ℕ, ◌<◌, ◌≤◌, length, get_or, slice_set};
ghost use Rattle.jls_values.specs.Params.{AreCodingParameters};
ghost use Rattle.jls_interval.specs.CodeLengths.{AreLengths};

use crate::code_lengths::CodeLengths;
use jls_context::Cells;
use jls_values::Params;

/// The context of a sample in regular mode, and whether SIGN is -1 (ITU-T T.87, A.3.4).
#[derive(Clone, Copy)]
pub(crate) struct RegularMode {
    pub context: u16,
    pub negative: bool,
}

/// What a coder of an interval carries from event to event (ITU-T T.87, A.2, A.5 and A.7).
#[derive(Drop)]
pub(crate) struct Coder {
    /// The parameters of the scan, and the variables of all contexts.
    pub cells: Cells,
    pub lengths: CodeLengths,
    /// RUNindex of each component.
    pub run_indices: [u8; 4],
    ghost in_range: { AreCodingParameters cells.parameters },
    ghost lengths_are: { AreLengths cells.parameters lengths },
    ghost four: { length run_indices ≡ 4 },
    ghost run_indices_at_most: { (component : ℕ) → get_or run_indices component 0 ≤ 31 },
}

impl Coder {
    ghost use Rattle.jls_context.specs.Variables.{initial_variables};

    /// Before the first event.
    pub(crate) fn new(params: &Params) -> Coder
        ensures cells { result.cells ≡ initial_variables params.now }
        ensures run_indices { (component : ℕ) → get_or result.run_indices component 0 ≡ 0 }
    {
        let _maxval = params.maxval();
        Coder {
            cells: Cells::new(params),
            lengths: CodeLengths::of(params),
            run_indices: [0; 4],
        }
    }

    /// The same values once more.
    pub(crate) fn to_owned(&self) -> Coder
        ensures cells { result.cells ≡ self.now.cells }
        ensures lengths { result.lengths ≡ self.now.lengths }
        ensures run_indices { result.run_indices ≡ self.now.run_indices }
    {
        Coder {
            cells: self.cells.to_owned(),
            lengths: self.lengths,
            run_indices: self.run_indices,
        }
    }

    /// RUNindex of a component.
    pub(crate) fn run_index(&self, component: usize) -> u8
        requires { component < 4 }
        ensures value { result ≡ get_or self.now.run_indices component 0 }
        ensures at_most { result ≤ 31 }
    {
        self.run_indices[component]
    }

    /// Sets RUNindex of a component.
    pub(crate) fn set_run_index(&mut self, component: usize, run_index: u8)
        requires component { component < 4 }
        requires run_index { run_index ≤ 31 }
        ensures run_indices { self.new.run_indices ≡ slice_set self.old.run_indices component run_index }
        ensures cells { self.new.cells ≡ self.old.cells }
    {
        self.run_indices[component] = run_index;
    }
}
