//! Inputs joined and inputs refused.

use super::memory::{GOOD, Manners, find};
use super::pictures::FILES;
use super::{Ending, run_words};
use std::alloc::{AllocError, Global};
use std::process::Abort;
use std::test::Fail;

/// The words, the status, and the file that OUT is the same as, or the line on the fault output.
const ROWS: &str = "\
join OUT T => 1 T
join OUT S => 0 S
join - - => 0 S
join OUT N => 1 N
join OUT first => 1 T
join OUT first S => 1 both
join OUT T T => 1 T
join OUT T S => 1 both
join OUT S T => 1 both
join OUT S T S => 1 both
join OUT N S N => 0 S
join OUT T U => 3 U: shape differs
join OUT T A => 4 A: cannot be opened
join OUT swapped => 3 swapped: bad text, order at 29
join OUT twice => 3 twice: bad text, order at 29
join OUT longer => 3 longer: bad text, trailing at 31
join OUT large => 3 large: bad text, sample at 29
join OUT cut => 3 cut: bad text, truncated at 30
join OUT version => 3 version: bad text, truncated at 31
join OUT third => 3 third: bad text, magic at 4
join OUT precision => 3 precision: bad text, shape at 5
join OUT none => 3 none: bad text, count at 19
join OUT below => 3 below: bad text, place at 16
join OUT empty => 3 empty: no picture, fault 19 at 0
join OUT copy => 3 copy: no picture, fault 4 at 2
join OUT T dot A => 3 dot: no picture, fault 18 at 0
join OUT lost struck => 0 ten
join OUT struck lost => 0 ten
join OUT lost struck lost => 0 ten
join OUT ten beyond => 0 ten
join OUT single => 0 plain
join OUT single single => 0 plain
join --source 2 OUT single => 0 by_2
join --source=7 OUT single => 0 by_7
join OUT single --source 4294967295 => 0 by_greatest
join OUT by_2 by_7 => 0 by_2_and_7
join OUT by_7 by_2 => 0 by_2_and_7
join OUT by_7 by_2 by_7 => 0 by_2_and_7
join --source 7 OUT by_2 single => 0 by_2_and_7
join --source 7 OUT single by_2 single => 0 by_2_and_7
join --source 9 OUT by_7 => 0 by_7
join OUT single by_7 => 0 by_7
join OUT T by_7 => 1 T_by_7
join --source 7 OUT T single => 1 T_by_7
join OUT by_7_and_2 => 3 by_7_and_2: bad text, order at 41
join OUT by_7_twice => 3 by_7_twice: bad text, order at 41
join OUT source_cut => 3 source_cut: bad text, truncated at 44
join OUT source_more => 3 source_more: bad text, trailing at 45
join OUT T whole => 3 whole: shape differs
join OUT A dot => 4 A: cannot be opened
join OUT T S U => 3 U: shape differs";

/// Whether OUT was created once and is the same as this file, and nothing was printed.
fn is_joined(found: &Ending, file: &str) -> bool {
    let created = found.created.as_str();
    let is_same = match (&found.output, find(&FILES, file)) {
        (Some(output), Some(want)) => output.as_slice() == want,
        _ => false,
    };
    is_same
        && (created == "OUT " || created == "- ")
        && found.report.is_empty()
        && found.faults.is_empty()
}

/// Whether this line was printed on the fault output, and nothing else, and nothing was created.
fn is_refused(alloc: Global, found: &Ending, line: &str) -> Result<bool, AllocError> {
    let printed = format!(in alloc; "jls-salvage: {line}\n")?;
    Ok(
        found.faults.as_slice() == printed.as_bytes()
            && found.report.is_empty()
            && found.created.is_empty()
            && found.output.is_none(),
    )
}

fn check_row(rt: &impl Abort, alloc: Global, row: &str, manners: Manners) -> Result<(), Fail> {
    let (words, end) = row.split_once(" => ").ok_or("no end")?;
    let (status, reported) = end.split_once(' ').ok_or("no status")?;
    let found = run_words(alloc, words, manners)?;
    let is_right = if found.status <= 1 {
        is_joined(&found, reported)
    } else {
        is_refused(alloc, &found, reported)?
    };
    assert!(rt; is_right, "{row}");
    assert!(rt; Ok(found.status) == status.parse::<u8>(), "{row}");
    Ok(())
}

fn check_rows(rt: &impl Abort, alloc: Global, manners: Manners) -> Result<(), Fail> {
    for row in ROWS.lines() {
        check_row(rt, alloc, row, manners)?;
    }
    Ok(())
}

#[test]
fn joins_texts(rt: HostRuntime) -> Result<(), Fail> {
    check_rows(&rt, rt.alloc(), GOOD)
}

#[test]
fn joins_in_parts(rt: HostRuntime) -> Result<(), Fail> {
    check_rows(&rt, rt.alloc(), Manners { most: 1, ..GOOD })?;
    let parted = Manners {
        parts_at_ff: true,
        ..GOOD
    };
    check_rows(&rt, rt.alloc(), parted)
}
