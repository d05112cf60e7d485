//! The parts of some copies, as one value.

ghost use Rattle.std.specs.Prelude.{◌≡◌, ◌<◌, ◌↔◌, [], IsTrue, get_or, length};
ghost use Rattle.jls_diff.specs.Parts.{Differs, Same};
ghost use Rattle.jls_diff.specs.Parts as spec;
ghost use Rattle.jls_diff.specs.PartsOf.{part_of, parts_of};

use crate::part::Part;
use std::marker::Model;

/// The parts of some copies of one file, in the order of the file. Contracts see them as a list, in bytes.
#[derive(Drop)]
pub struct Parts<'a> {
    list: Vec<Part<'a>>,
}

impl<'a> Model for Parts<'a> {
    ghost use Rattle.std.specs.Prelude.{List};
    ghost use Rattle.jls_diff.specs.Parts as spec;
    ghost use Rattle.jls_diff.specs.PartsOf.{parts_of};

    ghost Value = { List spec.Part };

    ghost view = { λ p. parts_of p.list.items };
}

impl<'a> Parts<'a> {
    /// These parts, in their order.
    pub fn of(list: Vec<Part<'a>>) -> Parts<'a>
        ensures { result ≡ parts_of list.entry.items }
    {
        Parts { list }
    }

    /// How many parts there are.
    pub fn len(&self) -> usize
        ensures { result ≡ length self.now }
    {
        self.list.len()
    }

    /// The part of this number.
    pub fn part(&self, place: usize) -> &Part<'a>
        requires { place < length self.now }
        ensures { part_of result.now ≡ get_or self.now place (Same []) }
    {
        &self.list[place]
    }

    /// Whether copies differ in the part of this number.
    pub fn is_differ(&self, place: usize) -> bool
        requires { place < length self.now }
        ensures { IsTrue result ↔ Differs (get_or self.now place (Same [])) }
    {
        self.part(place).is_differ()
    }

    /// What the copy of this number has at the part of that number; nothing if it has no way there.
    pub fn way(&self, place: usize, copy: usize) -> &'a [u8]
        requires { place < length self.now }
        ensures { result.now ≡ spec.way copy (get_or self.now place (Same [])) }
    {
        self.part(place).way(copy)
    }

    /// All of them.
    pub(crate) fn list(&self) -> &[Part<'a>]
        ensures { parts_of result.now ≡ self.now }
    {
        &self.list
    }
}
