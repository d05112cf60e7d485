//! How a search is made.

/// How a search is made.
#[derive(Clone, Copy)]
pub struct SearchOptions {
    /// The greatest sample that a file may have that is sought, if there is a ceiling.
    pub ceiling: Option<u16>,
    /// How many prefixes and files are tried at most.
    pub tries: u32,
    /// Whether it tells how far it is.
    pub tells: bool,
}
