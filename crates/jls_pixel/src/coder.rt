//! What a coder carries from event to event.

ghost use Rattle.std.specs.Prelude.{◌≡◌, ◌≤◌};
ghost use Rattle.jls_values.specs.Params.{AreCodingParameters};
ghost use Rattle.jls_context.specs.Mode.{context, is_negative};
ghost use Rattle.jls_pixel.specs.CodeLengths.{AreLengths};

use crate::code_lengths::CodeLengths;
use jls_context::{Cells, Mode, Neighbours};
use jls_values::Params;

/// The context of a sample in regular mode, and whether SIGN is -1 (ITU-T T.87, A.3.4).
#[derive(Clone, Copy)]
pub(crate) struct RegularMode {
    pub context: u16,
    pub negative: bool,
}

/// What a coder carries from sample to sample (ITU-T T.87, A.2, A.5).
#[derive(Drop)]
pub(crate) struct Coder {
    /// The parameters of the scan, and the variables of all contexts.
    pub cells: Cells,
    pub lengths: CodeLengths,
    ghost in_range: { AreCodingParameters cells.parameters },
    ghost lengths_are: { AreLengths cells.parameters lengths },
}

impl Coder {
    ghost use Rattle.jls_context.specs.Variables.{initial_variables};

    /// Before the first sample.
    pub(crate) fn new(params: &Params) -> Coder
        ensures { result.cells ≡ initial_variables params.now }
    {
        let _maxval = params.maxval();
        Coder {
            cells: Cells::new(params),
            lengths: CodeLengths::of(params),
        }
    }

    /// The same values once more.
    pub(crate) fn to_owned(&self) -> Coder
        ensures { result.cells ≡ self.now.cells }
    {
        Coder {
            cells: self.cells.to_owned(),
            lengths: self.lengths,
        }
    }

    /// The context and the SIGN of a sample that is coded in regular mode, whatever its gradients. Where all are 0, they are context 0
    /// and +1.
    #[tactic(auto, using(crate::proofs::ContextZero::zero_context))]
    pub(crate) fn regular_mode(&self, near: Neighbours) -> RegularMode
        ensures context { result.context ≡ context self.now.cells.parameters near }
        ensures sign { result.negative ≡ is_negative self.now.cells.parameters near }
        ensures at_most { result.context ≤ 364 }
    {
        match self.cells.mode(near.ra, near.rb, near.rc, near.rd) {
            Mode::Run => RegularMode {
                context: 0,
                negative: false,
            },
            Mode::Regular { cell, negative } => RegularMode {
                context: cell,
                negative,
            },
        }
    }
}
