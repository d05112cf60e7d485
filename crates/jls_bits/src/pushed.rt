//! The bytes that were pushed, as a value that clauses read.

ghost use Rattle.std.specs.Prelude.{◌≡◌, ℕ, List, [], ◌∷◌, ◌++◌};
ghost use Rattle.std.specs.Borrow.{ftrue};

use std::marker::Model;

/// The bytes that come next.
#[derive(Clone, Copy, Drop)]
pub(crate) struct NextBytes<'a> {
    pub bytes: &'a [u8],
}

/// The bytes so far, which only clauses read. They take no memory, and the methods do nothing when the program runs.
#[derive(Drop)]
pub struct PushedBytes {
    pub ghost list: { List ℕ },
}

impl Model for PushedBytes {
    ghost also_owns = { λ _. ftrue };
}

impl PushedBytes {
    /// No byte.
    pub fn new() -> PushedBytes
        ensures { result.list ≡ [] }
    {
        PushedBytes {}
    }

    /// The bytes so far and the next ones.
    fn then(&self, _next: &NextBytes<'_>) -> PushedBytes
        ensures { result.list ≡ self.now.list ++ _next.now.bytes.now }
    {
        PushedBytes {}
    }

    /// The same bytes once more.
    pub fn to_owned(&self) -> PushedBytes
        ensures { result.list ≡ self.now.list }
    {
        PushedBytes::then(self, &NextBytes { bytes: &[] })
    }

    /// Notes bytes.
    pub fn note_all(&mut self, bytes: &[u8])
        ensures { self.new.list ≡ self.old.list ++ bytes.now }
    {
        let next = PushedBytes::then(self, &NextBytes { bytes });
        *self = next;
    }

    /// Notes a byte.
    pub fn note(&mut self, byte: u8)
        ensures { self.new.list ≡ self.old.list ++ byte ∷ [] }
    {
        self.note_all(&[byte]);
    }
}
