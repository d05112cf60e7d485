//! How an output is made, and what becomes of it and of the file that had its name.

ghost use Rattle.std.specs.Prelude.{◌≡◌};
ghost use Rattle.jls_host.specs.Choices as spec;
ghost use Rattle.jls_host.specs.Choices.{ending_of, kind_of, protects, way_of};

/// The exit status that says that memory ran out.
const OUT_OF_MEMORY: u8 = 5;

/// The byte with which a marker begins, and the fill byte before one (T.81 B.1.1.2).
const MARKER_PREFIX: u8 = 0xFF;

/// The code of SOI (T.81 B.1.1.3).
const SOI: u8 = 0xD8;

/// The first bytes of a partial picture: `JLSP` (docs/FORMAT.md).
const MAGIC: [u8; 4] = [0x4A, 0x4C, 0x53, 0x50];

/// What a run does not replace.
#[derive(Clone, Copy, Debug, PartialEq, Eq)]
pub enum Guard {
    /// It replaces every file that it may read and write.
    Nothing,
    /// It replaces no JPEG file.
    Jpeg,
}

/// What a name stands for, by first bytes, where a link is followed.
#[derive(Clone, Copy, Debug, PartialEq, Eq)]
pub enum Kind {
    /// No regular file: nothing, a directory, a pipe or a device.
    NoFile,
    /// A regular file whose first bytes can't be read; or it isn't known what it is.
    Unknown,
    /// A JPEG file.
    Jpeg,
    /// A partial picture.
    Partial,
    /// Another regular file.
    Other,
}

/// What stands at a name, where a link is not followed.
#[derive(Clone, Copy, Debug, PartialEq, Eq)]
pub enum Standing {
    /// Nothing does.
    Absent,
    /// A regular file with these permission bits.
    Regular(u32),
    /// A link, a directory, a pipe or a device; or it isn't known.
    Other,
}

/// How an output is made.
#[derive(Clone, Copy, Debug, PartialEq, Eq)]
pub enum Way {
    /// It is written to a file of its own beside its name, which takes the name at the end.
    Beside,
    /// It is written at its name.
    InPlace,
    /// It is written to a file of its own beside its name, which is copied to the name at the end.
    Over,
    /// It is not made.
    Refused,
}

/// What becomes of a file beside an output when the run has ended.
#[derive(Clone, Copy, Debug, PartialEq, Eq)]
pub enum Ending {
    /// It takes the output's name.
    Keep,
    /// It is removed.
    Drop,
}

/// The way of an output, by what stands at its name and whether that opens for writing. Whether it opens counts only for a regular file,
/// and for what leads to a precious one. A file that is protected is never replaced, whatever stands at the name. One that is precious
/// stays until the output is whole.
pub fn way_to_make(standing: Standing, opens: bool, is_protected: bool, is_precious: bool) -> Way
    ensures { result ≡ way_of standing opens is_protected is_precious }
{
    if is_protected {
        return Way::Refused;
    }
    match standing {
        Standing::Absent => Way::Beside,
        Standing::Regular(_) if opens => Way::Beside,
        Standing::Regular(_) => Way::Refused,
        Standing::Other if !is_precious => Way::InPlace,
        Standing::Other if opens => Way::Over,
        Standing::Other => Way::Refused,
    }
}

/// Whether no output replaces a file of this kind. That is a JPEG file, if these are guarded, or a file of which it isn't known what it is.
pub fn is_protected(guard: Guard, kind: Kind) -> bool
    ensures { result ≡ protects guard kind }
{
    match kind {
        Kind::Unknown => true,
        Kind::Jpeg => guard == Guard::Jpeg,
        Kind::NoFile | Kind::Partial | Kind::Other => false,
    }
}

/// Whether an older file is kept, under another name, when an output with other bytes gets its name. Such a file is a partial picture, and
/// none of the inputs.
pub fn is_precious(kind: Kind, is_input: bool) -> bool
    ensures { result ≡ spec.is_precious kind is_input }
{
    kind == Kind::Partial && !is_input
}

/// Whether what stands at the name for an older file may go. That is nothing, or a regular file that is a partial picture and no input.
pub fn can_go(standing: Standing, kind: Kind, is_input: bool) -> bool
    ensures { result ≡ spec.can_go standing kind is_input }
{
    match standing {
        Standing::Absent => true,
        Standing::Regular(_) => is_precious(kind, is_input),
        Standing::Other => false,
    }
}

/// What becomes of a file beside an output, by the exit status of the run and the number of its writes that failed.
pub fn ending_of_run(status: u8, write_failures: u64) -> Ending
    ensures { result ≡ ending_of status write_failures }
{
    if write_failures == 0 && status != OUT_OF_MEMORY {
        Ending::Keep
    } else {
        Ending::Drop
    }
}

/// The kind of a regular file by its first four bytes, with zeros for those that it doesn't have. A JPEG file begins with SOI, or with a
/// fill byte before a marker (T.81 B.1.1.2).
pub fn kind_of_file(first: u8, second: u8, third: u8, fourth: u8) -> Kind
    ensures { result ≡ kind_of first second third fourth }
{
    if first == MARKER_PREFIX && (second == SOI || second == MARKER_PREFIX) {
        return Kind::Jpeg;
    }
    if first == MAGIC[0] && second == MAGIC[1] && third == MAGIC[2] && fourth == MAGIC[3] {
        return Kind::Partial;
    }
    Kind::Other
}
