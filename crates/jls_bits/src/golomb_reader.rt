//! A Golomb code whose bits come one after another.

ghost use Rattle.std.specs.Prelude.{◌≡◌, ◌↔◌, ℕ, ◌+◌, ◌^◌, ◌≤◌, [], ◌∷◌, ◌++◌, IsTrue};
ghost use Rattle.jls_bits.specs.Golomb.{IsCodeOf, BeginsCodeOf, BeginsNoGolombCode};
ghost use Rattle.jls_bits.specs.CodeState.{BeginsCode};

use crate::code_state::{CodeState, CodeStep};
use std::marker::Model;

/// What the bits are that were pushed to a `GolombReader`.
#[derive(Clone, Copy, Debug, PartialEq, Eq)]
pub enum GolombStep {
    /// The first bits of some number's code, and not all of it.
    More,
    /// This number's code.
    Done(u32),
    /// The first bits of no number's code.
    Refused,
}

/// Where the bits have come to.
#[derive(Clone, Copy)]
enum Progress {
    Open(CodeState),
    Done(u32),
    /// The last bit is of no code after those before it.
    Refused(CodeState, bool),
}

/// Reads one Golomb code LG(k, g) of a limited length, with `qbpp` bits in an escape (ITU-T T.87, A.5.3), bit by bit. A
/// contract sees k, g, `qbpp` and the list of the bits pushed.
#[derive(Drop)]
pub struct GolombReader {
    k: u8,
    g: u8,
    qbpp: u8,
    progress: Progress,
}

impl Model for GolombReader {
    ghost use Rattle.jls_bits.specs.GolombBits.{GolombBits};

    ghost Value = { GolombBits };

    ghost use Rattle.jls_bits.specs.GolombReading.{bits_of, IsReadingCode};

    ghost view = { λ r. record { k = r.k; g = r.g; qbpp = r.qbpp; pushed = bits_of r.k r.g r.qbpp r.progress } };

    ghost invariant = { λ r. IsReadingCode r.k r.g r.qbpp r.progress };
}

impl GolombReader {
    /// No bit yet.
    pub fn new(k: u8, g: u8, qbpp: u8) -> GolombReader
        requires k { k ≤ 16 }
        requires qbpp { (1 ≤ qbpp) × (qbpp ≤ 16) }
        requires g { (qbpp + 2 ≤ g) × (g ≤ 64) }
        ensures value { result ≡ record { k = k; g = g; qbpp = qbpp; pushed = [] } }
        ensures begins { BeginsCode k g qbpp [] }
    {
        GolombReader {
            k,
            g,
            qbpp,
            progress: Progress::Open(CodeState::START),
        }
    }

    /// Takes the next bit. It may be called as long as every answer was `More`.
    pub fn push(&mut self, bit: bool) -> GolombStep
        requires { BeginsCode self.old.k self.old.g self.old.qbpp self.old.pushed }
        ensures value { self.new ≡ record self.old { pushed = self.old.pushed ++ bit ∷ [] } }
        ensures more { (result ≡ GolombStep.More) ↔ BeginsCode self.new.k self.new.g self.new.qbpp self.new.pushed }
        ensures done { (m : ℕ) → (result ≡ GolombStep.Done m) ↔ IsCodeOf self.new.k self.new.g self.new.qbpp self.new.pushed m }
        ensures refused { (result ≡ GolombStep.Refused) ↔ BeginsNoGolombCode self.new.k self.new.g self.new.qbpp self.new.pushed }
    {
        let Progress::Open(state) = self.progress else {
            unreachable!()
        };
        match state.push(self.k, self.g, self.qbpp, bit) {
            CodeStep::More(next) => {
                self.progress = Progress::Open(next);
                GolombStep::More
            }
            CodeStep::Done(number) => {
                self.progress = Progress::Done(number);
                GolombStep::Done(number)
            }
            CodeStep::Refused => {
                self.progress = Progress::Refused(state, bit);
                GolombStep::Refused
            }
        }
    }

    /// Whether the bits pushed begin the code of this number, or are all of it.
    pub fn allows(&self, mapped: u32) -> bool
        requires { mapped ≤ 2 ^ self.now.qbpp }
        ensures { IsTrue result ↔ BeginsCodeOf self.now.k self.now.g self.now.qbpp self.now.pushed mapped }
    {
        match self.progress {
            Progress::Open(state) => state.allows(self.k, self.g, self.qbpp, mapped),
            Progress::Done(number) => number == mapped,
            Progress::Refused(_, _) => false,
        }
    }
}
