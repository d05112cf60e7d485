//! A pixel.

ghost use Rattle.std.specs.Prelude.{◌≡◌, ◌<◌, ◌≤◌, [], ◌∷◌, ◌++◌, length, get_or, nat_eq};
ghost use Rattle.std.specs.Cmp.Lexicographic.{pointwise};

use arrayvec::ArrayVec;
use std::marker::Model;

/// A pixel: a sample of each component, in the order of the scan. A contract sees the list of its samples, of which there are at most
/// four.
#[derive(Drop)]
pub struct Pixel {
    samples: ArrayVec<u16, 4>,
}

impl Model for Pixel {
    ghost use Rattle.std.specs.Prelude.{ℕ, List};

    ghost Value = { List ℕ };

    ghost view = { λ a. a.samples.items };
}

impl Pixel {
    /// A pixel of no component.
    pub fn new() -> Pixel
        ensures { result ≡ [] }
    {
        Pixel {
            samples: ArrayVec::new(),
        }
    }

    /// Adds the sample of the next component.
    pub fn push(&mut self, sample: u16)
        requires { length self.old < 4 }
        ensures { self.new ≡ self.old ++ sample ∷ [] }
    {
        self.samples.push(sample);
    }

    /// The sample of a component, or 0 where the pixel has none.
    pub fn sample(&self, component: usize) -> u16
        ensures { result ≡ get_or self.now component 0 }
    {
        match self.samples.get(component) {
            None => 0,
            Some(sample) => *sample,
        }
    }

    /// The same samples once more. It takes no memory.
    pub fn to_owned(&self) -> Pixel
        ensures { result ≡ self.now }
    {
        Pixel {
            samples: ArrayVec::try_from(self.samples.as_slice()).unwrap(),
        }
    }

    /// Whether both have the same samples.
    pub fn is_same(&self, other: &Pixel) -> bool
        ensures { result ≡ pointwise nat_eq self.now other.now }
    {
        self.samples.as_slice() == other.samples.as_slice()
    }
}
