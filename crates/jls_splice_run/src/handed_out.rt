//! What is handed out of what copies in several codings gave each other, and whether something is.

ghost use Rattle.std.specs.Prelude.{◌≡◌, ◌↔◌, IfOk, IfSome, IsTrue, OnOk, map};
ghost use Rattle.jls_held.specs.Judging.{codings_of};
ghost use Rattle.jls_held.specs.Mending.{file_of};
ghost use Rattle.jls_partial.specs.Partial.{union};
ghost use Rattle.jls_partial.specs.Status.{IsSettled};
ghost use Rattle.jls_splice_run.specs.Carrying as spec;
ghost use Rattle.jls_splice_run.specs.ReadsAs.{EachReadsAs};
ghost use Rattle.jls_station.specs.Given.{marked};

use crate::found::Promise;
use crate::plain_edits::{are_flips_in_whole_copies, are_plain_edits};
use crate::reading_as::{are_one_picture, each_reads_as};
use jls_carried::{Between, are_all_printed};
use jls_held::{EditedCopy, Judged, MendedCopy};
use jls_partial::Partial;
use jls_values::Merge;
use std::alloc::{AllocError, Global};

/// The promise that holds.
fn carried_promise(
    codings: &[Vec<EditedCopy>],
    strangers: &[usize],
    is_held: bool,
    are_read: bool,
) -> Promise
    ensures { result ≡ spec.promise_for (codings_of codings.now) strangers.now is_held are_read }
{
    if is_held && are_read && are_all_printed(codings) && strangers.is_empty() {
        Promise::Held
    } else {
        Promise::Lines
    }
}

/// Adds the source to each reading, if there is one.
fn mark(picture: &mut Partial, source: Option<u32>) -> Result<(), AllocError>
    ensures { OnOk result (picture.new ≡ marked source picture.old) }
{
    match source {
        Some(number) => picture.mark(number),
        None => Ok(()),
    }
}

/// Takes what files give to what is held. `Err` comes where memory is refused, and where their shapes differ.
fn join(held: &mut Partial, given: &Partial) -> Result<(), AllocError>
    ensures { OnOk result (held.new ≡ union held.old given.now) }
{
    match held.merge(given) {
        Ok(()) => Ok(()),
        Err(_) => Err(AllocError),
    }
}

/// What is handed out: the held lines under the source, if the picture is promised. Else it is these and what the files taken give.
fn handed(
    held: Partial,
    given: &Partial,
    promise: Promise,
    source: Option<u32>,
) -> Result<Partial, AllocError>
    ensures { IfOk result (λ picture. picture ≡ spec.handed_by promise source held given.now) }
{
    let mut picture = held;
    match promise {
        Promise::Held => mark(&mut picture, source)?,
        Promise::Picture(_) | Promise::Lines => join(&mut picture, given)?,
    }
    Ok(picture)
}

/// Whether each line is held, and the mended files were found to read so.
fn are_read_as(
    alloc: Global,
    files: &[MendedCopy],
    held: &Partial,
    is_held: bool,
) -> Result<bool, AllocError>
    ensures { IfOk result (λ are. IsTrue are → EachReadsAs held.now (map file_of files.now)) }
{
    if !is_held {
        return Ok(false);
    }
    each_reads_as(alloc, files, held)
}

/// Whether the edits of what is not doubtful are believed. If the files without a fault are one picture, these edits may flip bits of such
/// copies, and no more.
fn are_believed(
    copies: &[&[u8]],
    codings: &[Vec<EditedCopy>],
    faultless: &[bool],
    given: &Partial,
    is_alone: bool,
) -> bool {
    is_alone || !given.is_settled() || are_flips_in_whole_copies(copies, codings, faultless)
}

/// What is handed out of what copies in several codings gave each other, and the files that it rests on.
#[derive(Drop)]
pub(crate) struct HandedOut {
    /// Of each coding its copies, with the edits of each.
    pub(crate) codings: Vec<Vec<EditedCopy>>,
    /// The mended file of each coding.
    pub(crate) mended: Vec<MendedCopy>,
    /// The copies that agree with no other, by their indices.
    pub(crate) strangers: Vec<usize>,
    /// Whether the mended files hold each line.
    pub(crate) is_held: bool,
    /// Whether each mended file was found to read as the lines that are held.
    pub(crate) are_read: bool,
    /// The promise that holds.
    pub(crate) promise: Promise,
    /// The picture.
    pub(crate) picture: Partial,
    /// Whether each line of it is settled.
    pub(crate) is_settled: bool,
}

/// What is handed out of what copies in several codings gave each other. If a file taken may be without a fault, `None` comes unless that
/// speaks against it. It does if a promised picture is another one, or a line has several readings, or was left open before one that is
/// settled. If such files differ, `None` comes unless a picture is promised, and its edits say plainly which are wrong (`plain_edits`). If
/// they are one picture, none is promised whose edits change more of such a copy than flipped bits. Nor is one promised that is doubtful.
pub(crate) fn handed_out(
    alloc: Global,
    copies: &[&[u8]],
    faultless: &[bool],
    given: &Partial,
    source: Option<u32>,
    between: Between,
    is_alone: bool,
) -> Result<Option<HandedOut>, AllocError>
    ensures codings { IfOk result (λ out. IfSome out (λ h. h.codings ≡ between.judged.codings)) }
    ensures mended { IfOk result (λ out. IfSome out (λ h. h.mended ≡ between.judged.files)) }
    ensures strangers { IfOk result (λ out. IfSome out (λ h. h.strangers ≡ between.strangers)) }
    ensures held { IfOk result (λ out. IfSome out (λ h. IsTrue h.is_held ↔ IsSettled between.judged.held)) }
    ensures read { IfOk result (λ out. IfSome out (λ h. IsTrue h.are_read
        → EachReadsAs between.judged.held (map file_of between.judged.files.items))) }
    ensures promise { IfOk result (λ out. IfSome out (λ h. h.promise
        ≡ spec.promise_for (codings_of between.judged.codings.items) between.strangers.items h.is_held h.are_read)) }
    ensures picture { IfOk result (λ out. IfSome out (λ h. h.picture ≡ spec.handed_by h.promise source between.judged.held given.now)) }
    ensures settled { IfOk result (λ out. IfSome out (λ h. IsTrue h.is_settled ↔ IsSettled h.picture)) }
{
    let Between {
        judged,
        strangers,
        is_doubtful,
    } = between;
    let Judged {
        codings,
        files: mended,
        held,
    } = judged;
    let is_held = held.is_settled();
    let is_believed = are_believed(copies, &codings, faultless, given, is_alone);
    let is_asked = is_held & is_believed & !is_doubtful;
    let are_read = are_read_as(alloc, &mended, &held, is_asked)?;
    let promise = carried_promise(&codings, &strangers, is_held, are_read);
    if !is_alone && promise == Promise::Held && are_one_picture(&held, given) {
        return Ok(None);
    }
    let is_told = promise == Promise::Held && are_plain_edits(copies, &codings);
    if !is_alone && !given.is_settled() && !is_told {
        return Ok(None);
    }
    let picture = handed(held, given, promise, source)?;
    let is_settled = picture.is_settled();
    let is_unopposed = is_settled && !is_doubtful;
    if !is_alone && promise == Promise::Lines && is_unopposed {
        return Ok(None);
    }
    Ok(Some(HandedOut {
        codings,
        mended,
        strangers,
        is_held,
        are_read,
        promise,
        picture,
        is_settled,
    }))
}
