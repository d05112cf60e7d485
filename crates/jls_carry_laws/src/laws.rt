//! The laws of held lines. Each is a function that changes nothing and whose contract is the law.

ghost use Rattle.jls_carry_laws.specs.Laws.{BytesAreHeldByEither, HeldLinesAreThePicture, JudgedFilesHaveTrueBytes};
ghost use Rattle.jls_carry_laws.specs.Laws.{RefilledEditsKeepHeldBytes};
ghost use Rattle.jls_carry_laws.specs.Laws.{SettledHeldLinesAreThePicture, SettledStrictlyHeldLinesAreThePicture};
ghost use Rattle.jls_carry_laws.specs.Laws.{StrictlyHeldLinesAreThePicture};

use jls_copy::pieces_stand_at_their_offsets_under;

/// A law: an undamaged file has the held bytes of a mended one, and its length, if the copy was damaged nowhere but in its edits, and the
/// true bytes there are as many as those of the edits. What two copies hold, such a file has together.
pub fn refilled_edits_keep_held_bytes()
    ensures one { RefilledEditsKeepHeldBytes }
    ensures either { BytesAreHeldByEither }
{}

/// A law: let a file be mended of copies of one coding, each of which was damaged nowhere but in its edits. Then the true file of which all
/// are copies has the held bytes of the mended one, and its length.
pub fn judged_files_have_true_bytes()
    ensures { JudgedFilesHaveTrueBytes }
{}

/// A law: if each mended file has a true file of one picture with its skeleton, each held line is that picture's.
pub fn held_lines_are_the_picture()
    ensures { HeldLinesAreThePicture }
{
    pieces_stand_at_their_offsets_under();
}

/// A law: if each mended file has a true file of one picture that is at least as long, each strictly held line is that picture's.
pub fn strictly_held_lines_are_the_picture()
    ensures { StrictlyHeldLinesAreThePicture }
{
    pieces_stand_at_their_offsets_under();
}

/// A law: if each line of a partial picture is settled and held, its lines are those of the picture of which each mended file has a true
/// file. `held` speaks of true files with the skeletons, `strictly` of true files that are as long.
pub fn settled_held_lines_are_the_picture()
    ensures held { SettledHeldLinesAreThePicture }
    ensures strictly { SettledStrictlyHeldLinesAreThePicture }
{
    held_lines_are_the_picture();
    strictly_held_lines_are_the_picture();
}
