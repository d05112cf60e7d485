//! The headline for whole runs of `join`, and of `write` after it. Each law is a function that does nothing and whose contract is the law.

ghost use Rattle.jls_run_laws.specs.RunLaws.{RunsHoldExactly, RunsSayTheSame, RunsGiveThePicture};
ghost use Rattle.jls_run_laws.specs.RunLaws.{RunsWithTextsHoldExactly, RunsWithTextsSayTheSame, RunsWithTextsGiveThePicture};
ghost use Rattle.jls_run_laws.specs.RunLaws.{RunsHoldExactlyUnder, RunsUnderSourcesHandOutTheSame, RunsAreCollected, RunsAreCollectedUnder};
ghost use Rattle.jls_run_laws.specs.RunLaws.{RunsTellOfLines};
ghost use Rattle.jls_run_laws.specs.JoinThenWrite.{JoinsDamagedCopies, JoinsForDamagedCopies};
ghost use Rattle.jls_run_laws.specs.JoinThenWrite.{WritesThePictureAfter, ReadsAsThePictureAfter, IsSettledAfter};

/// A law: a run of `join` is done, and its inputs are copies and no texts. Then what it joined holds exactly the readings that these
/// copies give. Let the inputs of two such runs be the same copies, in any order and with any repeats. Then what they join holds and says
/// the same. Under the same source, or none, it has the same text. Now let the inputs be damaged copies of one picture, and let every line
/// survive in some input. Then each line of what is joined is settled, and they are that picture. The JPEG-LS file that is written of it,
/// under any options that fit, reads as that picture and no other.
pub fn joined_copies_give_the_picture()
    ensures exactly { RunsHoldExactly }
    ensures same { RunsSayTheSame }
    ensures damaged { RunsGiveThePicture }
{}

/// A law: the same where texts are among the inputs. The text of what public calls made of copies stands for these copies. What a run of
/// `join` joined that is done was then made of the copies that its inputs stand for. So stations that hand on what they hold as texts come
/// to what all their copies give. Two such runs of one shape, over the same copies from whatever sources, join what holds and says the
/// same. For what follows, each copy for which memory ran out was read again under the same source. Each reading has exactly the sources of
/// the copies that give it. Two such runs of one shape, over the same copies under the same sources, hand the same bytes to their outputs.
pub fn joined_texts_give_the_picture()
    ensures collected { RunsAreCollected }
    ensures collected_under { RunsAreCollectedUnder }
    ensures exactly { RunsWithTextsHoldExactly }
    ensures sources { RunsHoldExactlyUnder }
    ensures same { RunsUnderSourcesHandOutTheSame }
    ensures say_the_same { RunsWithTextsSayTheSame }
    ensures damaged { RunsWithTextsGiveThePicture }
{}

/// A law: the inputs of a run of `join` that is done are damaged copies of one picture in which every line survives. The one input of a
/// run of `write` gave the bytes that the `join` handed to its output. Then a `write` that is done handed exactly the file of that picture
/// to its own output. As JPEG-LS, with any restart interval, this file reads as that picture and no other. And such a `write` isn't
/// refused for a line that isn't settled.
pub fn written_joins_read_as_the_picture()
    ensures written { WritesThePictureAfter JoinsDamagedCopies }
    ensures reads { ReadsAsThePictureAfter JoinsDamagedCopies }
    ensures settled { IsSettledAfter JoinsDamagedCopies }
{}

/// A law: the same where texts are among the inputs of the `join`. The text of what public calls made of copies stands for these copies.
/// The damaged copies in which every line survives are then those that the inputs stand for.
pub fn written_text_joins_read_as_the_picture()
    ensures written { WritesThePictureAfter JoinsForDamagedCopies }
    ensures reads { ReadsAsThePictureAfter JoinsForDamagedCopies }
    ensures settled { IsSettledAfter JoinsForDamagedCopies }
{}

/// A law: what a run of `join` that is done tells of one line of a picture, with any status. It is what a station tells that took the
/// copies for which the run's inputs stand (`lines_are_reported` of jls_headline).
pub fn joined_lines_are_reported()
    ensures { RunsTellOfLines }
{}
