//! A part of some copies of one file.

ghost use Rattle.std.specs.Prelude.{◌≡◌, ◌↔◌, IsTrue};
ghost use Rattle.jls_diff.specs.Parts.{Differs};
ghost use Rattle.jls_diff.specs.Parts as spec;
ghost use Rattle.jls_diff.specs.PartsOf.{part_of};

/// What copies of one file have at one place: contracts see it as `part_of`, in bytes.
#[derive(Drop)]
pub enum Part<'a> {
    /// Bytes that all copies have.
    Same(&'a [u8]),
    /// What each copy has, in the order of the copies.
    Differ(Vec<&'a [u8]>),
}

impl<'a> Part<'a> {
    /// Whether copies differ in it.
    pub fn is_differ(&self) -> bool
        ensures { IsTrue result ↔ Differs (part_of self.now) }
    {
        match self {
            Part::Same(_) => false,
            Part::Differ(_) => true,
        }
    }

    /// What the copy of this number has there; nothing if it has no way.
    pub fn way(&self, copy: usize) -> &'a [u8]
        ensures { result.now ≡ spec.way copy (part_of self.now) }
    {
        match self {
            Part::Same(bytes) => bytes,
            Part::Differ(ways) => { if copy < ways.len() { ways[copy] } else { &[] } }
        }
    }
}
