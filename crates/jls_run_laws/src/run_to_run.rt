//! Laws from run to run of the program. Each is a function that changes nothing and whose contract is the law.

ghost use Rattle.jls_run_laws.specs.RunToRun.{JoinsAndWritesGiveThePicture, SettledRunsAreThePicture};
ghost use Rattle.jls_run_laws.specs.RunToRun.{JoinsAndWritesReadAsThePicture, WrittenRunsAreThePicture};

use crate::no_other::{settled_joins_are_the_picture, written_inputs_are_the_picture};
use crate::runs::{joined_copies_give_the_picture, written_joins_read_as_the_picture};
use jls_salvage_run::{done_joins_ran, done_writes_ran};

/// A law: the words of a run ask for a join, and it ends with status 0 or 1. Its inputs gave damaged copies of one picture in which every
/// line survives. The words of another run ask for a file, and it ends with status 0. Its one input gave the bytes that the first run
/// handed to its output. Then the first ended with status 0, and the second handed exactly the file of that picture to its output. As
/// JPEG-LS, with any restart interval, this file reads as that picture and no other.
pub fn joins_and_writes_give_the_picture()
    ensures written { JoinsAndWritesGiveThePicture }
    ensures reads { JoinsAndWritesReadAsThePicture }
{
    done_joins_ran();
    done_writes_ran();
    joined_copies_give_the_picture();
    written_joins_read_as_the_picture();
}

/// A law: the words of a run ask for a join, and it ends with status 0. Each line of a picture survives in some copy among its inputs, or
/// stands in some text of the picture's shape. Then what it joined is that picture, whatever its other inputs are or read as. It handed
/// the text of that to its output. Now let the words ask for a file, let the one input be such, and let the run end with status 0. Then it
/// handed exactly the file of that picture to its output.
pub fn settled_runs_give_no_other_picture()
    ensures joined { SettledRunsAreThePicture }
    ensures written { WrittenRunsAreThePicture }
{
    done_joins_ran();
    done_writes_ran();
    settled_joins_are_the_picture();
    written_inputs_are_the_picture();
}
