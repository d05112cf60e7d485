//! The versions of the texts of partial pictures.

/// The version of a text.
#[derive(Clone, Copy, Debug, PartialEq, Eq)]
pub enum Version {
    /// It has no sources.
    One,
    /// It has the sources of each reading after its samples.
    Two,
}
