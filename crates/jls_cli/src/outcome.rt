//! What comes of a command of `jls-salvage`, or of a run of `jls-splice`.

ghost use Rattle.std.specs.Prelude.{◌≡◌};
ghost use Rattle.jls_cli.specs.Outcomes as spec;
ghost use Rattle.jls_cli.specs.Outcomes.{status_of_cause, status_of_done};

use jls_marker::MarkerFault;
use jls_station::InputFault;

/// What is said of a command that is done.
#[derive(Clone, Copy, Debug, PartialEq, Eq)]
pub struct Done {
    /// Of `jls-salvage`, true if and only if every line of what the command made is settled. Of `jls-splice`, true if and only if the
    /// picture is promised.
    pub settled: bool,
    /// True if and only if every input was read whole (`ReadStop::Whole`).
    pub whole: bool,
}

impl Done {
    /// The exit status: 4 if an input was not read whole. Else it is 0 if `settled`, and 1 if not.
    pub fn status(self) -> u8
        ensures { result ≡ status_of_done self.settled self.whole }
    {
        match self {
            Done { whole: false, .. } => 4,
            Done { settled: true, .. } => 0,
            Done { .. } => 1,
        }
    }
}

/// Why a command stopped.
#[derive(Clone, Copy, Debug, PartialEq, Eq)]
pub enum Cause {
    /// The input can't be opened.
    NotOpened,
    /// The input could not be read to its end, is neither a text nor a copy with a frame, or memory ran out for it.
    Input(InputFault),
    /// A copy begins as the text of a partial picture.
    PartialPicture,
    /// No file that was taken has a picture: the fault of the first copy, and its offset.
    NoPicture(MarkerFault, u64),
    /// No file that was taken has a picture, and the first copy was not read to its end. Or a list of bad places was not.
    NotRead,
    /// It is no list of bad places: this line of it, from 1 on, is the first that isn't understood.
    NoList(u64),
    /// The input has another shape than the first, or two files without a fault differ in shape.
    ShapeDiffers,
    /// This line of the component with this identifier is the first of the input's picture that isn't settled: it is disputed, or
    /// missing.
    Unsettled { id: u8, line: u16, disputed: bool },
    /// The options of the written file don't fit its picture: an interval would have more than 2^28 samples.
    TooLarge,
    /// The output can't be created.
    NotCreated,
    /// A write failed when so many bytes had gone out.
    NotWritten(u64),
    /// The output of this number, under the name with `-` and the number after it, can't be created.
    FileNotCreated(u64),
    /// A write to the output of this number failed when so many bytes had gone out.
    FileNotWritten(u64, u64),
    /// Memory ran out.
    OutOfMemory,
}

impl Cause {
    /// The exit status. It is 1 if a line isn't settled, and 2 if an interval is too large. It is 3 if inputs are refused for what they
    /// say, or if shapes differ. It is 4 if a device failed or the reads of an input were used up, and 5 if memory ran out.
    pub fn status(self) -> u8
        ensures { result ≡ status_of_cause self }
    {
        match self {
            Cause::Unsettled { .. } => 1,
            Cause::TooLarge => 2,
            Cause::Input(InputFault::Text(_) | InputFault::NoPicture(_, _)) => 3,
            Cause::PartialPicture | Cause::NoPicture(_, _) | Cause::ShapeDiffers => 3,
            Cause::NoList(_) => 3,
            Cause::NotOpened | Cause::NotRead | Cause::NotCreated | Cause::NotWritten(_) => 4,
            Cause::FileNotCreated(_) | Cause::FileNotWritten(_, _) => 4,
            Cause::Input(InputFault::Read(_, _)) => 4,
            Cause::Input(InputFault::OutOfMemory) | Cause::OutOfMemory => 5,
        }
    }
}

/// Why a command stopped, and the name of the input or output at which it did.
#[derive(Clone, Copy, Debug, PartialEq, Eq)]
pub struct Refusal<'a> {
    pub name: &'a str,
    pub cause: Cause,
}

/// The exit status of what came of a command. For a refusal it is that of its cause.
pub fn exit_status(outcome: Result<Done, Refusal<'_>>) -> u8
    ensures { result ≡ spec.exit_status outcome.entry }
{
    match outcome {
        Ok(done) => done.status(),
        Err(refusal) => refusal.cause.status(),
    }
}
