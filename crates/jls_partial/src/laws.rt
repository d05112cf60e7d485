//! The laws of partial pictures and their texts. Each is a function that does nothing and whose contract is the law.

ghost use Rattle.jls_partial.specs.Parts.{JoinsHoldExactly, JoinsHoldAllMarks, PartsGiveThePicture};
ghost use Rattle.jls_partial.specs.Partial.{PartialPicture};
ghost use Rattle.jls_partial.specs.Text.{IsTextOf};
ghost use Rattle.jls_partial.specs.TextReading.{read_text};
ghost use Rattle.std.specs.Prelude.{◌≡◌, ℕ, List, Ok};

/// Each text of a partial picture reads as that picture, and so pictures that have one text are one.
pub fn texts_are_apart()
    ensures read { (bytes : List ℕ) (p : PartialPicture) → IsTextOf bytes p → read_text bytes ≡ Ok p }
    ensures apart { (bytes : List ℕ) (p q : PartialPicture) → IsTextOf bytes p → IsTextOf bytes q → p ≡ q }
{}

/// A join holds the readings that any of its members holds, and no others: none is lost, and none is made up. Its marks are
/// those of its members.
pub fn joins_hold_exactly()
    ensures readings { JoinsHoldExactly }
    ensures marks { JoinsHoldAllMarks }
{}

/// Parts of one picture say of each line nothing, or what the picture says. If one of them holds each line, they join to that picture,
/// with the sources of all of them.
pub fn parts_give_the_picture()
    ensures { PartsGiveThePicture }
{}
