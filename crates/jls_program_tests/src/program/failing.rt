//! Devices that fail.

ghost use Rattle.std.specs.Prelude.{◌≤◌};

use super::memory::{GOOD, Manners};
use super::pictures::{DISPUTED, TEN};
use super::run_words;
use std::alloc::Global;
use std::fmt::Write;
use std::process::Abort;
use std::test::Fail;

#[test]
fn stops_where_a_read_fails(rt: HostRuntime) -> Result<(), Fail> {
    for n in 0..32 {
        let manners = Manners {
            reads_fail_at: Some(n),
            ..GOOD
        };
        let found = run_words(rt.alloc(), "join OUT T", manners)?;
        let line = b"jls-salvage: T: read failed\n".as_slice();
        assert!(rt; found.status == 4 && found.output.is_none(), "at {n}");
        assert!(rt; found.faults.as_slice() == line, "at {n}");
    }
    Ok(())
}

/// How many lines of the copy `whole` stand in its first so many bytes.
pub(super) fn lines_in(count: usize) -> usize
    ensures { result ≤ 10 }
{
    if count < 31 {
        0
    } else {
        ((count - 29) / 3).min(10)
    }
}

/// What `check` reports of the first so many bytes of `whole`, with the frame among them and the end of the image not: where a read fails
/// after them, and where they are all.
pub(super) fn report_of_prefix(
    alloc: Global,
    count: usize,
    has_failed: bool,
) -> Result<String, Fail> {
    let mut out = String::new(alloc);
    if 31 <= count && count <= 58 && count % 3 == 1 {
        write!(out, "piece 0 {} {count} broken\n", (count - 31) / 3)?;
    }
    if count == 15 || count == 21 || 31 <= count {
        write!(out, "end input {count}\n")?;
    } else {
        write!(out, "end fault 19 {count}\n")?;
    }
    let lines = lines_in(count);
    let missing = 10usize.saturating_sub(lines);
    if has_failed {
        write!(out, "read failed {count}\n")?;
    }
    out.push_str("picture 1x10, 8 bits, components 1\n")?;
    write!(out, "settled {lines}, missing {missing}, disputed 0\n")?;
    if lines < 10 {
        write!(out, "missing 1 {lines}-9\n")?;
    }
    Ok(out)
}

/// The text of the first so many lines of the picture of ten.
fn text_of_prefix(alloc: Global, lines: usize) -> Result<Vec<u8>, Fail>
    requires { lines ≤ 10 }
{
    let mut text = Vec::from_slice(alloc, &TEN[..15])?;
    text.push(lines as u8)?;
    text.extend_from_slice(&TEN[16..16 + 21 * lines])?;
    Ok(text)
}

/// Devices whose reads fail after so many bytes.
fn failing_at(count: usize) -> Manners {
    Manners {
        reads_fail_at: Some(count),
        ..GOOD
    }
}

/// The line on the fault output if no picture was read.
const UNREAD: &[u8] = b"jls-salvage: whole: read failed\n";

/// `check` says what was read of a copy whose reads fail after so many bytes.
fn check_checked(rt: &impl Abort, alloc: Global, count: usize) -> Result<(), Fail> {
    let found = run_words(alloc, "check whole", failing_at(count))?;
    assert!(rt; found.status == 4, "at {count}");
    if count < 15 {
        assert!(rt;
            found.faults.as_slice() == UNREAD && found.report.is_empty(),
            "at {count}"
        );
    } else {
        let report = report_of_prefix(alloc, count, true)?;
        assert!(rt;
            found.report.as_slice() == report.as_bytes() && found.faults.is_empty(),
            "at {count}"
        );
    }
    Ok(())
}

/// `join` keeps it.
fn check_joined(rt: &impl Abort, alloc: Global, count: usize) -> Result<(), Fail> {
    let found = run_words(alloc, "join OUT whole", failing_at(count))?;
    assert!(rt; found.status == 4, "at {count}");
    if count < 15 {
        assert!(rt;
            found.faults.as_slice() == UNREAD && found.output.is_none(),
            "at {count}"
        );
    } else {
        let text = text_of_prefix(alloc, lines_in(count))?;
        assert!(rt;
            found.output == Some(text) && found.faults.is_empty(),
            "at {count}"
        );
    }
    Ok(())
}

#[test]
fn keeps_what_was_read_of_a_copy(rt: HostRuntime) -> Result<(), Fail> {
    for count in 0..61usize {
        check_checked(&rt, rt.alloc(), count)?;
        check_joined(&rt, rt.alloc(), count)?;
    }
    Ok(())
}

/// OUT takes so many bytes, and the line says how many.
pub(super) fn check_write_failure(
    rt: &impl Abort,
    alloc: Global,
    words: &str,
    most: usize,
    taken: &[u8],
) -> Result<(), Fail> {
    let manners = Manners {
        most,
        writes_fail_at: Some(taken.len()),
        ..GOOD
    };
    let found = run_words(alloc, words, manners)?;
    let count = taken.len();
    let line = format!(in alloc; "jls-salvage: OUT: write failed after {count} bytes\n")?;
    assert!(rt;
        found.status == 4 && found.faults.as_slice() == line.as_bytes(),
        "{words}"
    );
    let output = found.output.ok_or("no output")?;
    assert!(rt; output.as_slice() == taken, "{words}");
    Ok(())
}

#[test]
fn stops_where_a_write_fails(rt: HostRuntime) -> Result<(), Fail> {
    for n in 0..47 {
        for most in [1, 7, usize::MAX] {
            check_write_failure(&rt, rt.alloc(), "join OUT T", most, &DISPUTED[..n])?;
        }
    }
    for n in 0..12 {
        let taken = &b"P5\n1 1\n255\n\0"[..n];
        check_write_failure(&rt, rt.alloc(), "write --as pnm OUT S", 1, taken)?;
    }
    Ok(())
}

#[test]
fn names_an_output_that_cannot_be_created(rt: HostRuntime) -> Result<(), Fail> {
    let manners = Manners {
        can_create: false,
        ..GOOD
    };
    let found = run_words(rt.alloc(), "join OUT T", manners)?;
    assert!(rt; found.status == 4 && found.output.is_none());
    assert!(rt; found.faults.as_slice() == b"jls-salvage: OUT: cannot be created\n".as_slice());
    Ok(())
}
