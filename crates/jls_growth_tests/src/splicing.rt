//! Runs of `jls-splice` over two damaged copies.

use crate::coded::CODED_LINES;
use crate::four::FOUR_LINES;
use crate::met::{Met, Stopped, Tally};
use crate::pairs::{Which, pair_of};
use crate::running::{Wanted, run_one};
use jls_partial::Partial;
use jls_values::Shape;
use std::alloc::Global;
use std::process::Abort;

/// A run over the copies of a pair, and what comes of it.
#[derive(Clone, Copy)]
pub struct Row {
    line: &'static str,
    pair: Which,
    status: u8,
    source: Option<u32>,
    /// The lines of OUT, and the number of the first.
    lines: &'static [&'static [u16]],
    begin: u16,
    /// Whether the file is written after OUT.
    has_file: bool,
    report: &'static str,
    faults: &'static str,
}

/// Four lines come back.
pub const FOUR_BACK: Row = Row {
    line: "jls-splice OUT 1 2",
    pair: Which::Mended,
    status: 0,
    source: None,
    lines: FOUR_LINES,
    begin: 0,
    has_file: false,
    report: "differ 25 1\ndiffer 53 1\nsplices 1\n\
        promise picture if the true file has what one copy has at each differ, and what all have elsewhere\n\
        picture 4x4, 8 bits, components 1\n\
        settled 4, missing 0, disputed 0\n",
    faults: "",
};

/// What OUT holds.
pub fn lines_of(alloc: Global, row: &Row) -> Result<Partial, Stopped> {
    let (width, height) = match row.pair {
        Which::Mended => (4, 4),
        Which::HalfLost => (1, 2),
        Which::Coded | Which::Headless => (10, 10),
    };
    let mut partial = Partial::empty(alloc, Shape::new(8, width, height, &[1])?);
    let mut number = row.begin;
    for line in row.lines {
        partial.insert(0, number, line)?;
        number = number.saturating_add(1);
    }
    if let Some(source) = row.source {
        partial.mark(source)?;
    }
    Ok(partial)
}

fn run_over(rt: &impl Abort, alloc: Global, row: &Row) -> Result<Met, Stopped> {
    let pair = pair_of(alloc, row.pair)?;
    let mut output = lines_of(alloc, row)?.to_bytes(alloc)?;
    if row.has_file {
        output.extend_from_slice(&pair.file)?;
    }
    let wanted = Wanted {
        status: row.status,
        created: if row.has_file { 2 } else { 1 },
        output,
        report: Some(String::from_str(alloc, row.report)?),
        faults: row.faults,
    };
    let files: [(&str, &[u8]); 4] = [
        ("1", &pair.first),
        ("2", &pair.second),
        ("place", b"25 1\n"),
        ("map", b"0x00 ?\n0x00 0x35 +\n0x35 0x01 -\n"),
    ];
    run_one(rt, alloc, row.line, &files, &wanted)
}

fn run_row(rt: &(impl Abort + Print), alloc: Global, call: &'static str, row: &Row) {
    let mut tally = Tally::of(call);
    tally.note(rt, run_over(rt, alloc, row));
    assert!(rt; tally.is_single());
}

#[test]
fn splice(rt: HostRuntime) {
    run_row(&rt, rt.alloc(), "run of jls-splice", &FOUR_BACK);
}

/// The lines come back under a source, and the file does.
#[test]
fn splice_with_options(rt: HostRuntime) {
    let row = Row {
        line: "jls-splice --source 7 --file NAME OUT 1 2",
        source: Some(7),
        has_file: true,
        ..FOUR_BACK
    };
    run_row(&rt, rt.alloc(), "run of jls-splice --source --file", &row);
}

/// The file comes back under a number.
#[test]
fn splice_without_bad_places(rt: HostRuntime) {
    let row = Row {
        line: "jls-splice --bad 1:place --bad 2:map OUT 1 2",
        report: "splices 0\n\
            promise picture if the true file has what one copy has at each differ, and what all have elsewhere \
            (copies are without their bad places)\n\
            picture 4x4, 8 bits, components 1\n\
            settled 4, missing 0, disputed 0\n",
        ..FOUR_BACK
    };
    run_row(&rt, rt.alloc(), "run of jls-splice --bad", &row);
}

#[test]
fn splice_with_numbered_files(rt: HostRuntime) {
    let row = Row {
        line: "jls-splice --files NAME OUT 1 2",
        has_file: true,
        report: "differ 25 1\ndiffer 53 1\nsplices 1\nfiles 1\n\
            promise picture if the true file has what one copy has at each differ, and what all have elsewhere\n\
            picture 4x4, 8 bits, components 1\n\
            settled 4, missing 0, disputed 0\n",
        ..FOUR_BACK
    };
    run_row(&rt, rt.alloc(), "run of jls-splice --files", &row);
}

/// The search of all is cut off before it comes to a file, and so are that within a first limit and that by groups.
#[test]
fn splice_cut_off(rt: HostRuntime) {
    let row = Row {
        line: "jls-splice --tries 2 --progress OUT 1 2",
        status: 1,
        lines: &[],
        report: "differ 25 1\ndiffer 53 1\nsplices 0\ntries used up\nby groups 1, tries used up\n\
            before 25\npromise lines\npicture 4x4, 8 bits, components 1\nsettled 0, missing 4, disputed 0\nmissing 1 0-3\n",
        faults: "2 tries, 0 files\n2 tries, 0 files\n",
        ..FOUR_BACK
    };
    run_row(&rt, rt.alloc(), "run of jls-splice --progress", &row);
}

/// One line of two comes back.
#[test]
fn splice_by_groups(rt: HostRuntime) {
    let row = Row {
        pair: Which::HalfLost,
        status: 1,
        lines: &[&[1]],
        begin: 1,
        report: "differ 31 1\ndiffer 34 1\nsplices 1\nby groups 2\nbefore 31\npromise lines\n\
            picture 1x2, 8 bits, components 1\nsettled 1, missing 1, disputed 0\nmissing 1 0-0\n",
        ..FOUR_BACK
    };
    run_row(&rt, rt.alloc(), "run of jls-splice by groups", &row);
}

/// Copies in two codings give each other what they lost, and the first file comes back.
#[test]
fn splice_two_codings(rt: HostRuntime) {
    let row = Row {
        line: "jls-splice --file NAME --witness 2 OUT 1 2",
        pair: Which::Coded,
        lines: CODED_LINES,
        has_file: true,
        report: "differ 16 0\ndiffer 41 63\ndiffer 104 1\nsplices 0\nby groups 0\ncoding 1, copies 1\ncoding 2, copies 2\n\
            copy 1 differs 45 1 1\ncopy 2 differs 80 1 1\n\
            promise picture if copies of one coding are of one file of it, true outside of their differs, there as long as printed, \
            with the marker segments of the mended file\n\
            picture 10x10, 8 bits, components 1\nsettled 10, missing 0, disputed 0\n",
        ..FOUR_BACK
    };
    run_row(
        &rt,
        rt.alloc(),
        "run of jls-splice over two codings, with a witness",
        &row,
    );
}

/// A copy without its frame header comes back by one in another coding.
#[test]
fn splice_after_a_lost_header(rt: HostRuntime) {
    let row = Row {
        pair: Which::Headless,
        lines: CODED_LINES,
        report: "differ 2 13\ndiffer 41 63\ndiffer 104 1\nsplices 0\nby groups 1\ncoding 1, copies 1\ncoding 2, copies 2\n\
            copy 1 differs 2 2 2\ncopy 2 differs 80 1 1\n\
            promise picture if copies of one coding are of one file of it, true outside of their differs, there as long as printed, \
            with the marker segments of the mended file\n\
            picture 10x10, 8 bits, components 1\nsettled 10, missing 0, disputed 0\n",
        ..FOUR_BACK
    };
    run_row(
        &rt,
        rt.alloc(),
        "run of jls-splice after a lost header",
        &row,
    );
}
