//! Copies in memory, mended by a call: it gives what the program gives of the same copies, and of the same lists of bad places.

use crate::damage::copies_of;
use crate::files::file_of;
use crate::memory::{MemoryFiles, list_named};
use crate::program::run_line;
use jls_cli::splice::BadList;
use jls_cli::{Cause, Done};
use jls_mend::{BadPlaces, MendOptions, Mended, are_mendable, mend};
use std::alloc::{AllocError, Global};
use std::process::Abort;
use std::test::Fail;

/// What stands in a row after its name: the file; what is damaged in each copy; how much each search tries; the ceiling, or `-`; how many
/// outputs there are; the status; and values of `--bad`, if there are any.
const ROWS: &str = "\
one place: eight: 100+8=0 / 400+8=0: 4096: -: 3: 0
cut off after the damage: eight: 500+999=lost / 100+8=0: 4096: -: 3: 0
a ceiling: eight: 100+8=0 / 400+8=0: 4096: 255: 3: 0
by groups: eight: 100+8=0 / 400+8=0: 4096: 254: 3: 1
few tries: eight: 100+8=0 / 400+8=0: 2: -: 1: 1
a place in all: eight: 100+8=0 300+8=0 / 200+8=0 300+8=85: 4096: -: 1: 1
two pictures: eight: whole / other: 4096: -: 3: 1
three copies: eight: 100+8=0 / 300+8=0 / 500+8=0: 4096: -: 3: 0
without EOI: eight: 100+8=0 684+2=lost / 400+8=0 684+2=lost: 4096: -: 3: 0
two codings: fives: 445+8=0 / tens 355+8=0: 4096: -: 4: 0
an undamaged copy of another coding: narrow: reset / 70+8=0: 4096: -: 3: 0
a cut file: deep: 50+3=85 98+3=85 146+3=85 194+3=85 242+3=85 206+4=0 / \
74+3=85 122+3=85 170+3=85 218+3=85 266+3=85 206+4=51: 40: -: 1: 1
two shapes: eight: whole / restarts: 4096: -: 0: 3
a partial picture: eight: whole / text: 4096: -: 0: 3
no copy begins: eight: 0+999=lost / 0+999=lost: 4096: -: 0: 3
bad places of both copies: eight: 100+8=0 300+8=0 / 200+8=0: 4096: -: 3: 0: 1:two 2:map
bad places of the second copy: eight: 200+8=85 / 100+8=0 300+8=0: 4096: -: 3: 0: 2:two
bad places in two lists of one copy: eight: 200+8=0 300+8=0 / 100+8=85: 4096: -: 3: 0: 1:map 1:place
bad places of both copies, where a search mends none: eight: 300+1=1 / 300+1=2 100+8=0: 4096: -: 1: 1: 1:byte 2:two
no bad place: eight: 100+8=0 / 400+8=0: 4096: -: 3: 0: 1:none
one copy, and nothing bad: eight: whole: 4096: -: 3: 0: 1:none
one copy, and a bad place: restarts: 70+3=0: 4096: -: 1: 1: 1:interval
a list that is none: eight: whole / whole: 4096: -: 0: 3: 1:none 2:words
a header that is bad in all: eight: whole / whole: 4096: -: 0: 3: 1:header 2:header";

#[derive(Clone, Copy)]
struct Row<'a> {
    name: &'a str,
    file: &'a str,
    copies: &'a str,
    tries: &'a str,
    ceiling: &'a str,
    outputs: &'a str,
    status: &'a str,
    bad: &'a str,
}

fn row_of(text: &str) -> Option<Row<'_>> {
    let (name, rest) = text.split_once(": ")?;
    let (file, rest) = rest.split_once(": ")?;
    let (copies, rest) = rest.split_once(": ")?;
    let (tries, rest) = rest.split_once(": ")?;
    let (ceiling, rest) = rest.split_once(": ")?;
    let (outputs, rest) = rest.split_once(": ")?;
    let (status, bad) = rest.split_once(": ").unwrap_or((rest, ""));
    Some(Row {
        name,
        file,
        copies,
        tries,
        ceiling,
        outputs,
        status,
        bad,
    })
}

/// The words after the name of the program that ask for what a row asks for.
fn line_of(alloc: Global, row: Row<'_>, count: usize) -> Result<String, AllocError> {
    let tries = row.tries;
    let mut line = match row.ceiling {
        "-" => format!(in alloc; "--file FILE --files ALL --tries {tries}")?,
        max => format!(in alloc; "--file FILE --files ALL --tries {tries} --max {max}")?,
    };
    for value in row.bad.split_whitespace() {
        line.push_str(" --bad ")?;
        line.push_str(value)?;
    }
    let names = match count {
        1 => format!(in alloc; " OUT 1")?,
        _ => format!(in alloc; " OUT 1..{count}")?,
    };
    line.push_str(&names)?;
    Ok(line)
}

/// The lists of bad places that a row names.
fn lists_of<'a>(alloc: Global, row: Row<'a>) -> Result<Vec<BadPlaces<'a>>, Fail> {
    let mut lists = Vec::new(alloc);
    for value in row.bad.split_whitespace() {
        let list = BadList::of(value).ok_or("no list")?;
        let copy = (list.copy as usize).checked_sub(1).ok_or("no copy")?;
        let text = list_named(list.name).ok_or("no such list")?;
        lists.push(BadPlaces { copy, text })?;
    }
    Ok(lists)
}

/// The line of a list that is none, if a cause is that.
fn line_of_cause(cause: Cause) -> Option<u64> {
    match cause {
        Cause::NoList(line) => Some(line),
        _ => None,
    }
}

fn slices_of(alloc: Global, copies: &[Vec<u8>]) -> Result<Vec<&[u8]>, AllocError> {
    let mut slices = Vec::new(alloc);
    for copy in copies {
        slices.push(copy.as_slice())?;
    }
    Ok(slices)
}

/// Whether the outputs are those of the program: as many, and each with the same name and bytes.
fn are_outputs(mended: &Mended, files: &MemoryFiles<'_>) -> bool {
    for output in &mended.outputs {
        match files.output(&output.name) {
            Some(bytes) if *bytes == *output.bytes => {}
            _ => return false,
        }
    }
    mended.outputs.len() == files.count()
}

fn status_of(mended: &Mended) -> u8 {
    Done {
        settled: mended.is_promised,
        whole: mended.is_whole,
    }
    .status()
}

fn check_row(rt: &impl Abort, alloc: Global, text: &str) -> Result<(), Fail> {
    let row = row_of(text).ok_or("no row")?;
    let file = file_of(alloc, row.file)?.ok_or("no file")?;
    let copies = copies_of(alloc, &file, row.copies)?;
    let mut files = MemoryFiles::new(alloc, &copies);
    let line = line_of(alloc, row, copies.len())?;
    let ending = run_line(alloc, &line, &mut files)?;
    assert_eq!(rt; Ok(ending.status), row.status.parse::<u8>(), "{}", row.name);
    assert_eq!(rt;
        Ok(files.count()),
        row.outputs.parse::<usize>(),
        "{}",
        row.name
    );
    let slices = slices_of(alloc, &copies)?;
    let lists = lists_of(alloc, row)?;
    if !are_mendable(&slices, &lists) {
        return Err("they can't be mended".into());
    }
    let options = MendOptions {
        source: None,
        tries: row.tries.parse::<u32>().ok().ok_or("no tries")?,
        ceiling: row.ceiling.parse::<u16>().ok(),
        files: true,
    };
    match mend(alloc, &slices, &lists, &options) {
        Ok(mended) => {
            assert!(rt; are_outputs(&mended, &files), "{}", row.name);
            assert_eq!(rt; status_of(&mended), ending.status, "{}", row.name);
            assert!(rt; *mended.lines == *ending.report, "{}", row.name);
        }
        Err(refusal) => {
            assert_eq!(rt; refusal.cause.status(), ending.status, "{}", row.name);
            assert!(rt; !files.has_output(), "{}", row.name);
            let is_list = line_of_cause(refusal.cause).is_some();
            assert_eq!(rt; refusal.list.is_some(), is_list, "{}", row.name);
            assert_eq!(rt; refusal.copy.is_some(), !is_list, "{}", row.name);
        }
    }
    Ok(())
}

#[test]
fn mends_as_the_program_does(rt: HostRuntime) -> Result<(), Fail> {
    for row in ROWS.lines() {
        check_row(&rt, rt.alloc(), row)?;
    }
    Ok(())
}

/// A refusal names the list, and the line at which it is none.
#[test]
fn a_refusal_names_the_list(rt: HostRuntime) -> Result<(), Fail> {
    let alloc = rt.alloc();
    let lists = [
        BadPlaces {
            copy: 0,
            text: b"# nothing is bad\n",
        },
        BadPlaces {
            copy: 1,
            text: b"100 8\nat 300\n",
        },
    ];
    let copies: [&[u8]; 2] = [b"x", b"y"];
    let options = MendOptions {
        source: None,
        tries: 1,
        ceiling: None,
        files: false,
    };
    if !are_mendable(&copies, &lists) {
        return Err("they can't be mended".into());
    }
    let refusal = mend(alloc, &copies, &lists, &options)
        .err()
        .ok_or("mended")?;
    assert_eq!(&rt; line_of_cause(refusal.cause), Some(2));
    assert_eq!(&rt; refusal.list, Some(1));
    assert_eq!(&rt; refusal.copy, None);
    Ok(())
}

/// Two copies can be mended, and one with a list. A list has to be of one of them.
#[test]
fn some_can_be_mended(rt: HostRuntime) {
    let copies: [&[u8]; 2] = [b"x", b"y"];
    let list = |copy: usize| BadPlaces { copy, text: b"" };
    let rows: [(usize, &[BadPlaces<'_>], bool); 6] = [
        (2, &[], true),
        (1, &[], false),
        (1, &[list(0)], true),
        (0, &[list(0)], false),
        (1, &[list(0), list(1)], false),
        (2, &[list(1), list(0), list(1)], true),
    ];
    for (count, lists, can) in rows {
        assert_eq!(&rt; are_mendable(&copies[..count], lists), can, "{count}");
    }
}
