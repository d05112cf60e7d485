//! What is printed of a search.

ghost use Rattle.std.specs.Prelude.{◌≡◌};
ghost use Rattle.jls_splice_run.specs.Making as spec;

/// What the search by groups came to.
#[derive(Clone, Copy, Debug, PartialEq, Eq)]
pub struct GroupSearch {
    /// How many groups were searched.
    pub groups: usize,
    /// Whether it was cut off.
    pub is_used_up: bool,
}

/// Where the cut file ends. All other choices up to there are dead.
#[derive(Clone, Copy, Debug, PartialEq, Eq)]
pub struct CutFileEnd {
    /// The offset in the first copy.
    pub offset: u64,
    /// The ceiling of the files that were sought, if there was one.
    pub ceiling: Option<u16>,
}

/// Which promise holds of OUT.
#[derive(Clone, Copy, Debug, PartialEq, Eq)]
pub enum Promise {
    /// Each line of OUT is settled. All are the picture's, if the true file is a splice of the copies with no sample above the ceiling.
    /// There may be no ceiling.
    Picture(Option<u16>),
    /// Each line of OUT is settled, and held. All are the picture's, if the copies of each coding are of one file of it. That file has the
    /// bytes that they have outside of their edits. At the edits it has as many bytes as the mended file, and the same marker segments.
    Held,
    /// Only what holds of each line of a `join`, and of lines that mended files hold.
    Lines,
}

impl Promise {
    /// Whether it is of the picture. A run that promises less does not end with status 0.
    pub fn is_of_picture(self) -> bool
        ensures { result ≡ spec.is_of_picture self }
    {
        match self {
            Promise::Picture(_) | Promise::Held => true,
            Promise::Lines => false,
        }
    }
}

/// What a search came to, as its lines tell it.
#[derive(Clone, Copy, Debug, PartialEq, Eq)]
pub struct SearchReport {
    /// How many files were taken that are no copies.
    pub splices: usize,
    /// Whether the search of all splices that counts was cut off.
    pub is_used_up: bool,
    /// The ceiling of the search that counts, where none was given and it has one.
    pub ceiling: Option<u16>,
    /// What the search by groups came to, if there was one.
    pub by_groups: Option<GroupSearch>,
    /// Where the cut file ends, if one was taken.
    pub before: Option<CutFileEnd>,
    /// How many files get a number, if these were asked for: those without a fault, or the mended files of copies in several codings.
    pub files: Option<usize>,
    /// Whether EOI was added to a file that is handed out.
    pub is_eoi_added: bool,
    /// Whether a single file was asked for, and none is handed out.
    pub lacks_single_file: bool,
    /// Whether there are lists of bad places, so that a promise is of copies without these.
    pub has_lists: bool,
    /// Which promise holds.
    pub promise: Promise,
}
