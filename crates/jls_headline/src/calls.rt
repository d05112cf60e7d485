//! What public calls come to that read copies. Each law is a function that does nothing and whose contract is the law.

ghost use Rattle.jls_headline.specs.CollectedLaws.{CollectedHoldsExactly, CollectedHoldsExactlyUnder, CutTextsAreHeld};
ghost use Rattle.jls_headline.specs.CollectedLaws.{MarksKeepTheCopies, MarksReadAgain, InsertsKeepTheCopies};
ghost use Rattle.jls_headline.specs.TookFiles.{StrictFilesAreCollected};

/// A law: whatever public calls made of copies holds exactly the readings that these copies give. Each reading has exactly the sources
/// under which a copy was read that gives it. The calls are those of `Collected`, in any number and order. A copy for which memory ran out
/// must have been read again; for what is said of sources, under the same source.
pub fn collected_copies_are_held()
    ensures exactly { CollectedHoldsExactly }
    ensures sources { CollectedHoldsExactlyUnder }
{}

/// A law: what calls made of copies can be marked later, and readings that the copies give can be inserted. It is then known to hold the
/// readings of the same copies. To mark it is to read each of its copies once more under that source.
pub fn marked_copies_are_held()
    ensures marked { MarksKeepTheCopies }
    ensures read_again { MarksReadAgain }
    ensures inserted { InsertsKeepTheCopies }
{}

/// A law: each reading that stands in the prefix of a text is one of the whole text, with the sources that stand there. So a station that
/// refuses a text that was cut short gains nothing but what the whole text holds, and its history goes on (`text_cut_short`).
pub fn cut_texts_are_held()
    ensures { CutTextsAreHeld }
{}

/// A law: a station that took files which were read under the strict profile is one that public calls made of copies. So all that is said
/// of such calls holds of it.
pub fn strict_files_are_collected()
    ensures { StrictFilesAreCollected }
{}
