//! Groups of parts.

ghost use Rattle.std.specs.Prelude.{◌↔◌, IsTrue};
ghost use Rattle.jls_diff.specs.Groups.{IsInside};

use crate::border::Border;

/// The parts between two borders, and the head: those before the first SOS, which belong to every group.
#[derive(Clone, Copy, Debug, PartialEq, Eq)]
pub struct Group {
    /// How many parts stand before the part with the first SOS.
    pub head: usize,
    /// Where the group begins.
    pub begin: Border,
    /// Where it ends, unless it goes on to the end of the parts.
    pub end: Option<Border>,
}

impl Group {
    /// Whether the part of this number is one of the group.
    pub fn is_inside(self, place: usize) -> bool
        ensures { IsTrue result ↔ IsInside self place }
    {
        if place < self.head {
            return true;
        }
        match self.end {
            Some(border) => self.begin.part < place && place < border.part,
            None => self.begin.part < place,
        }
    }
}
