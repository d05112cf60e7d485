//! The programs over a desk in memory.

use crate::files::{File, Files};
use crate::met::{Met, Stopped, Tally};
use crate::room::Room;
use crate::ten::{copy_of, lines_of, samples_of};
use jls_io::Counted;
use std::alloc::{AllocError, Global};
use std::fmt::Write;
use std::process::Abort;

/// How a run ended.
#[derive(Drop)]
struct Ending {
    status: u8,
    /// How many outputs were created.
    created: u8,
    output: Vec<u8>,
    report: Room,
    faults: Room,
}

/// What a run with ample memory leaves: its status, what all outputs that it creates have, and what is printed, if that is known.
#[derive(Drop)]
pub struct Wanted {
    pub status: u8,
    pub created: u8,
    pub output: Vec<u8>,
    pub report: Option<String>,
    pub faults: &'static str,
}

fn words_of(alloc: Global, line: &str) -> Result<Vec<String>, AllocError> {
    let mut words = Vec::new(alloc);
    for word in line.split_whitespace() {
        words.push(String::from_str(alloc, word)?)?;
    }
    Ok(words)
}

/// Whether the words of a line are those of `jls-splice`.
fn is_splice(line: &str) -> bool {
    line.starts_with("jls-splice ")
}

/// Runs the program that a line begins with, with the words of the line.
fn run_line(alloc: Global, line: &str, files: &[File<'_>]) -> Result<Ending, AllocError> {
    let words = words_of(alloc, line)?;
    let mut report = Room::of(alloc, 10_000)?;
    let mut faults = Room::of(alloc, 10_000)?;
    let mut files = Files::new(alloc, files)?;
    let desk = &mut Counted::closed(&mut files);
    let printed = &mut Counted::new(&mut report);
    let reported = &mut Counted::new(&mut faults);
    let status = if is_splice(line) {
        jls_splice_run::run(alloc, &words, desk, printed, reported)
    } else {
        jls_salvage_run::run(alloc, &words, desk, printed, reported)
    };
    Ok(Ending {
        status,
        created: files.created(),
        output: Vec::from_slice(alloc, files.output())?,
        report,
        faults,
    })
}

/// Whether a run ended as it does with ample memory.
fn is_done(found: &Ending, wanted: &Wanted) -> bool {
    let is_printed = match &wanted.report {
        Some(text) => {
            found.report.held() == text.as_bytes()
                && found.faults.held() == wanted.faults.as_bytes()
        }
        None => !(found.report.held().is_empty() && found.faults.held().is_empty()),
    };
    found.status == wanted.status
        && found.created == wanted.created
        && found.output == wanted.output
        && is_printed
}

/// Whether it is said last that memory ran out, and before that what is said with ample memory, or a prefix of it.
fn says_refused(faults: &[u8], wanted: &Wanted, line: &str) -> bool {
    let refusal = if is_splice(line) {
        "jls-splice: out of memory\n"
    } else {
        "jls-salvage: out of memory\n"
    };
    match std::str::from_utf8(faults) {
        Ok(text) => match text.strip_suffix(refusal) {
            Some(before) => wanted.faults.starts_with(before),
            None => false,
        },
        Err(_) => false,
    }
}

/// Whether a run ended for want of memory, and said and left nothing else than the first bytes of a file.
fn is_refused(found: &Ending, wanted: &Wanted, line: &str) -> bool {
    let is_prefix = line.contains(" jls ") && wanted.output.starts_with(&found.output);
    says_refused(found.faults.held(), wanted, line)
        && found.report.held().is_empty()
        && (found.created == 0 || is_prefix)
}

/// Runs the program, and again where memory ran out.
pub fn run_one(
    rt: &impl Abort,
    alloc: Global,
    line: &str,
    files: &[File<'_>],
    wanted: &Wanted,
) -> Result<Met, Stopped> {
    let mut met = Met::Done;
    let mut found = run_line(alloc, line, files)?;
    if found.status == 5 {
        met = Met::Refused;
        assert!(rt; is_refused(&found, wanted, line), "{line}");
        found = run_line(alloc, line, files)?;
    }
    assert!(rt; is_done(&found, wanted), "{line}: status {}", found.status);
    Ok(met)
}

/// The report of a picture of so many lines, all of which are settled.
fn put_report(text: &mut String, height: u16) -> Result<(), AllocError> {
    write!(
        text,
        "picture 1x{height}, 8 bits, components 1\nsettled {height}, missing 0, disputed 0\n"
    )
}

/// What stands on the report output: the trace and the report of `check`, or the report of `show`.
fn report_of(alloc: Global, height: u16, gives: Gives) -> Result<Option<String>, AllocError> {
    let mut report = String::new(alloc);
    if let Gives::Nothing = gives {
        return Ok(None);
    }
    if let Gives::Trace = gives {
        let end = height.saturating_mul(3).saturating_add(29);
        write!(report, "end eoi {end}\n")?;
    }
    if let Gives::Trace | Gives::Report = gives {
        put_report(&mut report, height)?;
    }
    Ok(Some(report))
}

/// The PNM file of so many lines.
fn pnm_of(alloc: Global, height: u16) -> Result<Vec<u8>, Stopped> {
    let head = format!(in alloc; "P5\n1 {height}\n255\n")?;
    let mut pnm = Vec::from_slice(alloc, head.as_bytes())?;
    pnm.extend_from_slice(&samples_of(alloc, height)?)?;
    Ok(pnm)
}

/// What stands in OUT.
fn output_of(alloc: Global, height: u16, gives: Gives) -> Result<Option<Vec<u8>>, Stopped> {
    let mut lines = lines_of(alloc, height)?;
    Ok(match gives {
        Gives::Nothing | Gives::Trace | Gives::Report => None,
        Gives::Text => Some(lines.to_bytes(alloc)?),
        Gives::MarkedText => {
            lines.mark(7)?;
            Some(lines.to_bytes(alloc)?)
        }
        Gives::Jls => Some(copy_of(alloc, height)?),
        Gives::Pnm => Some(pnm_of(alloc, height)?),
    })
}

/// Files of so many lines, and what a command gives for them.
fn run_on(rt: &impl Abort, alloc: Global, height: u16, row: &Row) -> Result<Met, Stopped> {
    let copy = copy_of(alloc, height)?;
    let text = lines_of(alloc, height)?.to_bytes(alloc)?;
    let output = output_of(alloc, height, row.gives)?;
    let wanted = Wanted {
        status: row.status,
        created: if output.is_some() { 1 } else { 0 },
        output: output.unwrap_or(Vec::new(alloc)),
        report: report_of(alloc, height, row.gives)?,
        faults: "",
    };
    let files: [(&str, &[u8]); 2] = [("copy", &copy), ("text", &text)];
    run_one(rt, alloc, row.line, &files, &wanted)
}

/// What a run writes or prints.
#[derive(Clone, Copy)]
enum Gives {
    /// Help or usage.
    Nothing,
    Trace,
    Report,
    Text,
    /// The text of the lines under the source 7.
    MarkedText,
    Jls,
    Pnm,
}

/// The words of a run, its status with ample memory, and what it writes or prints.
#[derive(Clone, Copy)]
struct Row {
    line: &'static str,
    status: u8,
    gives: Gives,
}

const fn reported(line: &'static str, status: u8, gives: Gives) -> Row {
    Row {
        line,
        status,
        gives,
    }
}

/// Runs each line over files of one line and of many.
fn run_rows(rt: &(impl Abort + Print), alloc: Global, call: &'static str, rows: &[Row]) {
    let mut tally = Tally::of(call);
    for row in rows {
        for height in [1, 40] {
            tally.note(rt, run_on(rt, alloc, height, row));
        }
    }
    assert!(rt; tally.is_single());
}

#[test]
fn check(rt: HostRuntime) {
    let rows = [reported("jls-salvage check copy", 0, Gives::Trace)];
    run_rows(&rt, rt.alloc(), "run with check", &rows);
}

#[test]
fn show(rt: HostRuntime) {
    let rows = [
        reported("jls-salvage show text", 0, Gives::Report),
        reported("jls-salvage show copy", 0, Gives::Report),
    ];
    run_rows(&rt, rt.alloc(), "run with show", &rows);
}

#[test]
fn join(rt: HostRuntime) {
    let rows = [
        reported("jls-salvage join OUT text copy", 0, Gives::Text),
        reported("jls-salvage join OUT copy text", 0, Gives::Text),
    ];
    run_rows(&rt, rt.alloc(), "run with join", &rows);
}

#[test]
fn join_under_a_source(rt: HostRuntime) {
    let rows = [reported(
        "jls-salvage join --source 7 OUT text copy",
        0,
        Gives::MarkedText,
    )];
    run_rows(&rt, rt.alloc(), "run with join --source", &rows);
}

#[test]
fn write_as_jls(rt: HostRuntime) {
    let rows = [reported("jls-salvage write --as jls --ri 1 OUT text", 0, Gives::Jls)];
    run_rows(&rt, rt.alloc(), "run with write --as jls", &rows);
}

#[test]
fn write_as_pnm(rt: HostRuntime) {
    let rows = [reported("jls-salvage write --as pnm OUT copy", 0, Gives::Pnm)];
    run_rows(&rt, rt.alloc(), "run with write --as pnm", &rows);
}

#[test]
fn help_and_usage(rt: HostRuntime) {
    let rows = [
        reported("jls-salvage --help", 0, Gives::Nothing),
        reported("jls-salvage join", 2, Gives::Nothing),
        reported("jls-splice --help", 0, Gives::Nothing),
        reported("jls-splice OUT", 2, Gives::Nothing),
    ];
    run_rows(&rt, rt.alloc(), "run with help and usage", &rows);
}
