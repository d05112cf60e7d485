//! A place of a copy.

/// A place of a copy, as a list names it. It may be empty, and lie past the copy's end.
#[derive(Clone, Copy, Debug, PartialEq, Eq, Drop)]
pub struct Place {
    /// How many bytes of the copy stand before it.
    pub offset: u64,
    /// How many bytes it has.
    pub length: u64,
}
