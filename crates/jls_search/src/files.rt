//! The files that are taken.

use crate::kept::KeptReader;
use jls_diff::Parts;

/// The copies of a picture, and the splices of them that a search found. The files taken are the copies, in their order, and then the
/// splices.
#[derive(Clone, Copy)]
pub struct Files<'f, 'a> {
    /// The copies, in their order.
    pub copies: &'f [&'a [u8]],
    /// The parts of the copies.
    pub parts: &'f Parts<'a>,
    /// Each splice as its choices, one for each part.
    pub splices: &'f [Vec<usize>],
    /// A reader that was fed what its choices make, if one is kept. A splice that begins so is read on from there.
    pub reader: &'f Option<KeptReader>,
}
