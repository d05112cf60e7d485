//! The inputs of a command, opened and read in turn.

ghost use Rattle.std.specs.Prelude.{◌≡◌, ◌++◌, ◌∷◌, [], List, OnOk, OnErr, IfOk, IfErr, None};
ghost use Rattle.jls_io.specs.Event.{GrewBy, opened, not_opened};
ghost use Rattle.jls_station.specs.Given.{Given};
ghost use Rattle.jls_cli.specs.Outcomes.{refusal_at};
ghost use Rattle.jls_salvage_run.specs.AllInputs.{names_of, partials, IsHeld, IsTaken, JoinsInput, JoinsText, JoinsWith, CantJoin};
ghost use Rattle.jls_salvage_run.specs.AllInputs.{CantJoinText, TakesUnion, StopsAt, StopsAtInput};

use jls_cli::{Cause, Refusal};
use jls_io::Desk;
use jls_partial::{MergeTextFault, Partial};
use jls_station::{InputForm, InputRead, Station, input_fault, read_form, read_input};
use jls_values::MergeFault;
use std::alloc::Global;

/// The inputs of `join`: copies and texts by their names, of which there is a first. The readings of the copies are taken under the number
/// of a source, if there is one; a text keeps the sources that it has.
#[derive(Clone, Copy)]
pub struct JoinInputs<'m, 'a> {
    pub source: Option<u32>,
    pub first: &'a str,
    pub others: &'m [&'a str],
}

/// Inputs of one shape that were taken into one station.
#[derive(Drop)]
pub(crate) struct Taken {
    pub station: Station,
    /// Whether each input was read whole.
    pub whole: bool,
}

/// Opens the input of this name.
fn open<'a, D: Desk>(desk: &mut D, name: &'a str) -> Result<(), Refusal<'a>>
    ensures opened { OnOk result (D.history desk.new ≡ D.history desk.old ++ opened name.now ∷ []) }
    ensures not_opened { OnErr result (D.history desk.new ≡ D.history desk.old ++ not_opened name.now ∷ []) }
    ensures refusal { IfErr result (λ refusal. refusal ≡ refusal_at name.entry Cause.NotOpened) }
{
    desk.open_input(name).map_err(|_| Refusal {
        name,
        cause: Cause::NotOpened,
    })
}

/// Opens one input and reads it. A copy has no source.
pub(crate) fn open_and_read<'a, D: Desk>(
    alloc: Global,
    desk: &mut D,
    name: &'a str,
) -> Result<InputRead, Refusal<'a>>
    ensures taken { IfOk result (λ given. GrewBy (IsTaken None name.now given) (D.history desk.old) (D.history desk.new)) }
    ensures stopped { IfErr result (λ refusal. GrewBy (StopsAt None [] refusal) (D.history desk.old) (D.history desk.new)) }
    ensures named { IfErr result (λ refusal. refusal.name.now ≡ name.now) }
{
    open(desk, name)?;
    read_input(alloc, None, desk).map_err(|fault| Refusal {
        name,
        cause: Cause::Input(fault),
    })
}

/// Joins what the text of an input says to what is held: to nothing at first.
fn join_text<'a>(
    alloc: Global,
    held: Option<Station>,
    text: &[u8],
    name: &'a str,
) -> Result<Station, Refusal<'a>>
    ensures joined { IfOk result (λ station. JoinsText held text.now station) }
    ensures refused { IfErr result (λ refusal. CantJoinText held text.now refusal) }
    ensures named { IfErr result (λ refusal. refusal.name.now ≡ name.now) }
{
    match held {
        None => {
            let partial = Partial::from_bytes(alloc, text).map_err(|fault| Refusal {
                name,
                cause: Cause::Input(input_fault(fault)),
            })?;
            Ok(Station::holding(alloc, partial))
        }
        Some(mut station) => match station.take_text(text) {
            Ok(()) => Ok(station),
            Err(MergeTextFault::Text(fault)) => Err(Refusal {
                name,
                cause: Cause::Input(input_fault(fault)),
            }),
            Err(MergeTextFault::ShapeDiffers) => Err(Refusal {
                name,
                cause: Cause::ShapeDiffers,
            }),
        },
    }
}

/// Joins what a copy gives to what is held: to nothing at first.
fn join_copy<'a>(
    alloc: Global,
    held: Option<Station>,
    read: InputRead,
    name: &'a str,
) -> Result<Station, Refusal<'a>>
    ensures joined { IfOk result (λ station. JoinsWith held read.partial station) }
    ensures refused { IfErr result (λ refusal. CantJoin held read.partial refusal) }
    ensures named { IfErr result (λ refusal. refusal.name.now ≡ name.now) }
{
    match held {
        None => Ok(Station::holding(alloc, read.into_partial())),
        Some(mut station) => match station.take(read.partial()) {
            Ok(()) => Ok(station),
            Err(MergeFault::ShapeDiffers) => Err(Refusal {
                name,
                cause: Cause::ShapeDiffers,
            }),
            Err(MergeFault::OutOfMemory) => Err(Refusal {
                name,
                cause: Cause::OutOfMemory,
            }),
        },
    }
}

/// What the inputs of one command share: the number of a source, if there is one, and the room that their texts are read into.
#[derive(Drop)]
struct Room {
    alloc: Global,
    source: Option<u32>,
    text: Vec<u8>,
}

/// Opens one input, reads it, and joins what it gives to what is held: to nothing at first.
fn take_input<'a, D: Desk>(
    desk: &mut D,
    room: &mut Room,
    held: Option<Station>,
    name: &'a str,
) -> Result<Taken, Refusal<'a>>
    ensures joined { IfOk result (λ taken. GrewBy (JoinsInput room.old.source name.now held taken.station taken.whole)
        (D.history desk.old) (D.history desk.new)) }
    // Whatever the inputs before it gave, of which the union is held.
    ensures stopped { (before : List Given) → IsHeld (partials before) held → IfErr result (λ refusal.
        GrewBy (StopsAt room.old.source before refusal) (D.history desk.old) (D.history desk.new)) }
    ensures named { IfErr result (λ refusal. refusal.name.now ≡ name.now) }
    ensures source { room.new.source ≡ room.old.source }
{
    open(desk, name)?;
    let form = read_form(room.alloc, room.source, desk, &mut room.text).map_err(|fault| Refusal {
        name,
        cause: Cause::Input(fault),
    })?;
    match form {
        InputForm::Text => {
            let station = join_text(room.alloc, held, &room.text, name)?;
            Ok(Taken {
                station,
                whole: true,
            })
        }
        InputForm::Copy(read) => {
            let whole = read.is_whole();
            let station = join_copy(room.alloc, held, read, name)?;
            Ok(Taken { station, whole })
        }
    }
}

/// Takes the inputs of these names, in turn, into a station. It stops at the first that is refused. A copy that can't be read to its
/// end is taken as far as it was read, if a frame was. All texts are read into one room, which comes back.
pub(crate) fn take_inputs<'a, D: Desk>(
    alloc: Global,
    desk: &mut D,
    inputs: JoinInputs<'_, 'a>,
) -> Result<(Taken, Vec<u8>), Refusal<'a>>
    ensures taken { IfOk result (λ taken.
        GrewBy (TakesUnion inputs.entry.source (names_of inputs.entry) taken.0.station taken.0.whole) (D.history desk.old)
        (D.history desk.new)) }
    ensures stopped { IfErr result (λ refusal.
        GrewBy (StopsAtInput inputs.entry.source (names_of inputs.entry) refusal) (D.history desk.old) (D.history desk.new)) }
{
    let JoinInputs {
        source,
        first,
        others,
    } = inputs;
    let text = Vec::new(alloc);
    let mut room = Room {
        alloc,
        source,
        text,
    };
    let begun = take_input(desk, &mut room, None, first)?;
    let Taken {
        mut station,
        mut whole,
    } = begun;
    for name in others {
        let taken = take_input(desk, &mut room, Some(station), name)?;
        station = taken.station;
        whole &= taken.whole;
    }
    Ok((Taken { station, whole }, room.text))
}
