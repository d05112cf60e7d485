//! What a search goes through.

ghost use Rattle.std.specs.Prelude.{◌↔◌, IsTrue};
ghost use Rattle.jls_search.specs.Tried.{IsTried};

use jls_diff::Group;

/// A group that is searched, and the copy whose ways are taken outside of it.
#[derive(Clone, Copy)]
pub struct Setting {
    pub group: Group,
    /// Its number among the copies. The first copy's is 0.
    pub copy: usize,
}

/// What a search is after: of which parts it tries the ways.
#[derive(Clone, Copy)]
pub enum Goal {
    /// Whole files: those of all parts.
    Whole,
    /// Files that read in a group: those of the group. Elsewhere it takes one copy's.
    Group(Setting),
}

impl Goal {
    /// Whether the ways of the part at this place are tried.
    pub(crate) fn is_tried(self, place: usize) -> bool
        ensures { IsTrue result ↔ IsTried self place }
    {
        match self {
            Goal::Whole => true,
            Goal::Group(setting) => setting.group.is_inside(place),
        }
    }
}
