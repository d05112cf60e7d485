//! The laws of whole runs of `join`. Each is a function that does nothing and whose contract is the law.

ghost use Rattle.jls_salvage_run.specs.CommandLaws.{SameInputsSameOutput, SurvivingLinesGiveThePicture};

use jls_copy::bytes_decide;
use jls_partial::{Partial, parts_give_the_picture, texts_are_apart};
use jls_values::same_members_same_join;

/// The inputs are texts and damaged copies. If two runs of `join` are done and their inputs gave the same bytes, both join them to the
/// same picture. They hand the same bytes to their outputs. Order, repeats and file names make no difference, nor does how the reading of
/// a copy stopped.
pub fn same_inputs_same_output(one: &Partial)
    ensures { SameInputsSameOutput }
{
    texts_are_apart();
    bytes_decide();
    same_members_same_join(one);
}

/// The inputs are texts and damaged copies that give parts of one picture, and each line of the picture survives in one of them. If such a
/// run of `join` is done, it hands out the text of that picture and nothing else.
pub fn surviving_lines_give_the_picture()
    ensures { SurvivingLinesGiveThePicture }
{
    texts_are_apart();
    bytes_decide();
    parts_give_the_picture();
}
