//! The program over a desk in memory: what it writes and prints, and how it ends.

mod checking;
mod copies;
mod cutting;
mod failing;
mod joining;
mod memory;
mod pictures;
mod telling;
mod words;

use jls_io::{Counted, Sink};
use jls_salvage_run::run;
use memory::{Manners, MemoryFiles};
use pictures::FILES;
use std::alloc::{AllocError, Global};

/// How a run ended.
#[derive(Drop)]
struct Ending {
    status: u8,
    /// The names of the outputs that were created, each with a blank after it.
    created: String,
    output: Option<Vec<u8>>,
    report: Vec<u8>,
    faults: Vec<u8>,
}

/// Runs the program with the words of a line after its name. The answer is the status and what is on the fault output.
fn run_line<W: Sink>(
    alloc: Global,
    line: &str,
    files: &mut MemoryFiles<'_>,
    report: &mut W,
) -> Result<(u8, Vec<u8>), AllocError> {
    let mut words = Vec::new(alloc);
    words.push(String::from_str(alloc, "jls-salvage")?)?;
    for word in line.split_whitespace() {
        words.push(String::from_str(alloc, word)?)?;
    }
    let mut faults = Vec::new(alloc);
    let mut desk = Counted::closed(files);
    let status = run(
        alloc,
        &words,
        &mut desk,
        report,
        &mut Counted::new(&mut faults),
    );
    Ok((status, faults))
}

/// Runs the program with these words, over the files of `pictures`.
fn run_words(alloc: Global, line: &str, manners: Manners) -> Result<Ending, AllocError> {
    let mut report = Vec::new(alloc);
    let mut files = MemoryFiles::new(alloc, &FILES, manners);
    let (status, faults) = run_line(alloc, line, &mut files, &mut Counted::new(&mut report))?;
    let output = match files.output() {
        Some(bytes) => Some(Vec::from_slice(alloc, bytes)?),
        None => None,
    };
    Ok(Ending {
        status,
        created: String::from_str(alloc, files.created())?,
        output,
        report,
        faults,
    })
}
