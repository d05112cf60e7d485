//! Runs with `--files`: which files get a name, and in which order.

use crate::damage::copies_of;
use crate::files::file_of;
use crate::memory::MemoryFiles;
use crate::program::{Ending, has_line, run_line};
use std::alloc::{AllocError, Global};
use std::process::Abort;
use std::test::Fail;

/// What is damaged in each copy of a file; the words after the program's name; and what is to come of it.
struct Row {
    file: &'static str,
    copies: &'static str,
    words: &'static str,
    /// What the names begin with.
    prefix: &'static str,
    status: u8,
    /// The files of the first names.
    numbered: &'static [&'static str],
    /// How many names there are.
    count: usize,
    reported: &'static str,
}

const ROWS: [Row; 20] = [
    Row {
        file: "eight",
        copies: "100+8=0 / 400+8=0",
        words: "--files NAME OUT 1 2",
        prefix: "NAME",
        status: 0,
        numbered: &["eight"],
        count: 1,
        reported: "files 1",
    },
    Row {
        file: "eight",
        copies: "whole / other",
        words: "--files NAME OUT 1 2",
        prefix: "NAME",
        status: 1,
        numbered: &["eight", "other"],
        count: 2,
        reported: "files 2",
    },
    Row {
        file: "narrow",
        copies: "300+8=0 / reset",
        words: "--files NAME --witness 2 OUT 1",
        prefix: "NAME",
        status: 1,
        numbered: &["narrow"],
        count: 1,
        reported: "coding 1, copies 1",
    },
    Row {
        file: "scans",
        copies: "60+8=85 / pixels 200+8=85",
        words: "--files NAME OUT 1 2",
        prefix: "NAME",
        status: 0,
        numbered: &["scans", "pixels"],
        count: 2,
        reported: "copy 2 differs 200 8 8",
    },
    // The header of its third scan stands at 269.
    Row {
        file: "scans",
        copies: "263+18=0 / pixels 200+8=85",
        words: "--files NAME OUT 1 2",
        prefix: "NAME",
        status: 0,
        numbered: &["scans", "pixels"],
        count: 2,
        reported: "copy 1 differs 263 12 12",
    },
    Row {
        file: "scans",
        copies: "0+40=0 / pixels 300+8=85",
        words: "--files NAME OUT 1 2",
        prefix: "NAME",
        status: 0,
        numbered: &["scans", "pixels"],
        count: 2,
        reported: "copy 1 differs 0 40 40",
    },
    Row {
        file: "eight",
        copies: "other / 300+8=0 / whole",
        words: "--files NAME --file SINGLE OUT 1 2 3",
        prefix: "NAME",
        status: 1,
        numbered: &["other", "eight"],
        count: 2,
        reported: "no single file",
    },
    Row {
        file: "eight",
        copies: "100+8=0 684+2=lost / 400+8=0 684+2=lost",
        words: "--files NAME OUT 1 2",
        prefix: "NAME",
        status: 0,
        numbered: &["eight"],
        count: 1,
        reported: "eoi added",
    },
    Row {
        file: "eight",
        copies: "684+2=lost / 685+1=lost / whole",
        words: "--files NAME OUT 1 2 3",
        prefix: "NAME",
        status: 0,
        numbered: &["eight"],
        count: 1,
        reported: "files 1",
    },
    Row {
        file: "eight",
        copies: "685+1=lost / other",
        words: "--files NAME OUT 1 2",
        prefix: "NAME",
        status: 1,
        numbered: &["eight", "other"],
        count: 2,
        reported: "files 2",
    },
    Row {
        file: "eight",
        copies: "whole / whole",
        words: "--files NAME OUT 1 2",
        prefix: "NAME",
        status: 0,
        numbered: &["eight"],
        count: 1,
        reported: "splices 0",
    },
    Row {
        file: "eight",
        copies: "300+8=0 / 300+8=85",
        words: "--files NAME OUT 1 2",
        prefix: "NAME",
        status: 1,
        numbered: &[],
        count: 0,
        reported: "files 0",
    },
    Row {
        file: "eight",
        copies: "whole / other",
        words: "--files STANDS OUT 1 2",
        prefix: "STANDS",
        status: 4,
        numbered: &["eight"],
        count: 1,
        reported: "jls-splice: STANDS-2: cannot be created",
    },
    Row {
        file: "eight",
        copies: "100+8=0 / 400+8=0",
        words: "--files OUT OUT-64 1 2",
        prefix: "OUT",
        status: 2,
        numbered: &[],
        count: 0,
        reported: "jls-splice: OUT-64: is named as OUT and by --files",
    },
    Row {
        file: "eight",
        copies: "100+8=0 / 400+8=0",
        words: "--files OUT OUT-0 1 2",
        prefix: "OUT",
        status: 0,
        numbered: &["eight"],
        count: 1,
        reported: "files 1",
    },
    Row {
        file: "eight",
        copies: "100+8=0 / 400+8=0",
        words: "--files=- - 1 2",
        prefix: "-",
        status: 0,
        numbered: &["eight"],
        count: 1,
        reported: "jls-splice: files 1",
    },
    Row {
        file: "fives",
        copies: "445+8=0 / tens 355+8=0",
        words: "--files NAME OUT 1 2",
        prefix: "NAME",
        status: 0,
        numbered: &["fives", "tens"],
        count: 2,
        reported: "files 2",
    },
    Row {
        file: "fives",
        copies: "other 60+8=0 / tens 355+8=0 / 445+8=0",
        words: "--files NAME OUT 1 2 3",
        prefix: "NAME",
        status: 1,
        numbered: &["tens", "fives"],
        count: 2,
        reported: "copy 1 agrees with no other",
    },
    Row {
        file: "narrow",
        copies: "373+1=233 / reset 300+8=0",
        words: "--files NAME OUT 1 2",
        prefix: "NAME",
        status: 0,
        numbered: &["narrow", "reset"],
        count: 3,
        reported: "files 3",
    },
    Row {
        file: "sixteen",
        copies: "40+1=165 112+1=165 184+1=165 256+1=165 328+1=165 400+1=165 472+1=165 / 76+1=165 148+1=165 220+1=165 292+1=165 \
364+1=165 436+1=165",
        words: "--files NAME OUT 1 2",
        prefix: "NAME",
        status: 1,
        numbered: &[],
        count: 64,
        reported: "files 64",
    },
];

/// What the output of a number took, if it was created.
fn numbered<'f>(
    alloc: Global,
    files: &'f MemoryFiles<'_>,
    prefix: &str,
    number: usize,
) -> Result<Option<&'f [u8]>, AllocError> {
    let name = format!(in alloc; "{prefix}-{number}")?;
    Ok(files.output(&name))
}

/// Whether the first names have these files.
fn are_first(alloc: Global, row: &Row, files: &MemoryFiles<'_>) -> Result<bool, AllocError> {
    let mut number = 0usize;
    for name in row.numbered {
        number = number.saturating_add(1);
        let found = numbered(alloc, files, row.prefix, number)?;
        let is_wanted = match (file_of(alloc, name)?, found) {
            (Some(wanted), Some(found)) => wanted.as_slice() == found,
            _ => false,
        };
        if !is_wanted {
            return Ok(false);
        }
    }
    Ok(true)
}

/// Whether there are as many names as the row says.
fn are_all(alloc: Global, row: &Row, files: &MemoryFiles<'_>) -> Result<bool, AllocError> {
    for number in 1..=65 {
        let found = numbered(alloc, files, row.prefix, number)?;
        if found.is_some() != (number <= row.count) {
            return Ok(false);
        }
    }
    Ok(true)
}

/// Whether the line of a row is printed.
fn is_reported(row: &Row, ending: &Ending) -> bool {
    has_line(&ending.report, row.reported) || has_line(&ending.faults, row.reported)
}

fn check_row(rt: &impl Abort, alloc: Global, row: &Row) -> Result<(), Fail> {
    let file = file_of(alloc, row.file)?.ok_or("no file")?;
    let copies = copies_of(alloc, &file, row.copies)?;
    let mut files = MemoryFiles::new(alloc, &copies);
    let ending = run_line(alloc, row.words, &mut files)?;
    assert_eq!(rt; ending.status, row.status, "{}", row.words);
    let are_first = are_first(alloc, row, &files)?;
    assert!(rt; are_first, "{}: {}", row.copies, row.words);
    let are_all = are_all(alloc, row, &files)?;
    assert!(rt; are_all, "{}: {}", row.copies, row.words);
    assert!(rt; is_reported(row, &ending), "{}: {}", row.copies, row.words);
    Ok(())
}

#[test]
fn numbers_files(rt: HostRuntime) -> Result<(), Fail> {
    for row in &ROWS {
        check_row(&rt, rt.alloc(), row)?;
    }
    Ok(())
}
