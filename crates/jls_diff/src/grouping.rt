//! The groups of some parts.

ghost use Rattle.std.specs.Prelude.{◌≡◌, ◌+◌, ◌<◌, ◌↔◌, [], length, get_or, IsTrue, IfOk, IfSome, OnOk};
ghost use Rattle.std.specs.List.{AllByRecursion};
ghost use Rattle.jls_diff.specs.Parts.{Differs, Same};
ghost use Rattle.jls_diff.specs.PartsOf.{parts_of};
ghost use Rattle.jls_diff.specs.Borders.{IsBorder};
ghost use Rattle.jls_diff.specs.Groups.{IsGroup, CoverParts, IsClosed, AreGroupsFound};

use crate::border::{Border, borders_at, scan_in};
use crate::group::Group;
use crate::part::Part;
use crate::parts::Parts;
use std::alloc::{AllocError, Global};

/// What is found of the first parts.
#[derive(Drop)]
pub(crate) struct Found {
    /// How many parts stand before the one with the first SOS.
    head: usize,
    /// The last border.
    begin: Border,
    /// Whether copies differ after it.
    is_open: bool,
    /// The groups before it.
    groups: Vec<Group>,
}

/// Whether copies differ in the part at this place.
fn differs_at(parts: &[Part<'_>], place: usize) -> bool
    requires { place < length parts.now }
    ensures { IsTrue result ↔ Differs (get_or (parts_of parts.now) place (Same [])) }
{
    parts[place].is_differ()
}

/// The last border in the first part that has SOS.
fn first_border(parts: &[Part<'_>]) -> Option<Border>
    ensures { IfSome result (λ border. IsBorder (parts_of parts.now) border) }
{
    for part in 0..parts.len() {
        if let Some(scan) = scan_in(&parts[part]) {
            let (_, last) = borders_at(parts, part, scan)?;
            return Some(last);
        }
    }
    None
}

/// Adds the group that is open, if one is, and that ends there.
#[tactic(auto, using(crate::proofs::GroupSteps::closed_before, crate::proofs::GroupSteps::closed_now))]
fn close(found: &mut Found, end: Option<Border>) -> Result<(), AllocError>
    ensures { OnOk result (IsClosed found.old end found.new) }
{
    if !found.is_open {
        return Ok(());
    }
    let group = Group {
        head: found.head,
        begin: found.begin,
        end,
    };
    found.groups.push(group)?;
    found.is_open = false;
    Ok(())
}

/// Goes on over one part.
#[tactic(auto, using(crate::proofs::GroupSteps::pass_differ, crate::proofs::GroupSteps::pass_same, crate::proofs::GroupSteps::pass_border))]
fn pass(found: &mut Found, parts: &[Part<'_>], part: usize) -> Result<(), AllocError>
    requires within { part < length parts.now }
    requires found { AreGroupsFound (parts_of parts.now) part found.old }
    ensures { OnOk result (AreGroupsFound (parts_of parts.now) (part + 1) found.new) }
{
    if differs_at(parts, part) {
        found.is_open = true;
        return Ok(());
    }
    let Some((end, next)) = borders_at(parts, part, 0) else {
        return Ok(());
    };
    close(found, Some(end))?;
    found.begin = next;
    Ok(())
}

/// What is found in all parts, from the first border on.
#[tactic(auto, using(crate::proofs::GroupSteps::found_first, crate::proofs::GroupSteps::is_before, crate::proofs::GroupSteps::found_all))]
fn found_in(alloc: Global, parts: &[Part<'_>], first: Border) -> Result<Found, AllocError>
    requires { IsBorder (parts_of parts.now) first }
    ensures { IfOk result (λ found. AreGroupsFound (parts_of parts.now) (length parts.now) found) }
{
    let mut found = Found {
        head: first.part,
        begin: first,
        is_open: false,
        groups: Vec::new(alloc),
    };
    for part in first.part + 1..parts.len() {
        pass(&mut found, parts, part)?;
    }
    Ok(found)
}

/// The groups of these parts, as `find_groups` finds them.
#[tactic(auto, using(crate::proofs::GroupSteps::are_groups, crate::proofs::GroupSteps::groups_cover))]
fn groups_of(alloc: Global, parts: &[Part<'_>]) -> Result<Vec<Group>, AllocError>
    ensures groups { IfOk result (λ groups. AllByRecursion (IsGroup (parts_of parts.now)) groups.items) }
    ensures cover { IfOk result (λ groups. CoverParts (parts_of parts.now) groups.items) }
{
    let Some(first) = first_border(parts) else {
        return Ok(Vec::new(alloc));
    };
    let mut found = found_in(alloc, parts, first)?;
    close(&mut found, None)?;
    let Found { groups, .. } = found;
    Ok(groups)
}

/// The groups of some parts, in the order of the file. A group goes over parts in which copies differ, from one marker to the next. Both
/// stand whole in parts that all copies have alike. The last group can end with the parts. There is no group where copies differ nowhere
/// after SOS, or where SOS stands in no such part. `Err` comes where memory is refused.
///
/// Which markers are taken is a proposal, as bytes that look like one can stand in a segment. SOS is taken where a scan header follows.
pub fn find_groups(alloc: Global, parts: &Parts<'_>) -> Result<Vec<Group>, AllocError>
    ensures groups { IfOk result (λ groups. AllByRecursion (IsGroup parts.now) groups.items) }
    ensures cover { IfOk result (λ groups. CoverParts parts.now groups.items) }
{
    groups_of(alloc, parts.list())
}
