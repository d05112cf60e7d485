//! A program over the files and standard streams of the machine.

use crate::choice::{Guard, ending_of_run};
use crate::host::{HostFiles, hold_streams};
use crate::name::name_kept;
use crate::output::{Unmade, Why};
use jls_io::{Counted, Desk, Sink, print_about, print_plain};
use std::alloc::Global;
use std::io;
use std::process::ExitCode;

/// What is said of an output that is there and can't be read.
const UNREADABLE: &str = " cannot be read, and is not replaced";

/// What is said of a file that has the name for an older output.
const TAKEN: &str = " is in the way of the older file, and is not replaced";

/// What is peculiar to a program.
pub trait Program {
    /// Its name, with which each of its lines on the fault output begins.
    fn name() -> &'static str;

    /// What it does not replace, by its words.
    fn guard(words: &[String]) -> Guard;

    /// What it does, from its words to its exit status.
    fn run<D: Desk, W: Sink, E: Sink>(
        alloc: Global,
        words: &[String],
        desk: &mut D,
        report: &mut W,
        faults: &mut E,
    ) -> u8;

    /// Prints why an output was not created: it would replace a JPEG file.
    fn print_not_replaced<E: Sink>(faults: &mut E, name: &str);

    /// Prints that an output was not created, or could not be kept.
    fn print_not_created<E: Sink>(faults: &mut E, name: &str);
}

/// The words of the command line, the program's own name first. A word that is not UTF-8 is an error, and so is want of
/// memory.
fn words(rt: &HostRuntime) -> io::Result<Vec<String>> {
    let words = std::env::args(rt)?.collect(rt.alloc())?;
    Ok(words)
}

/// Says why the words were not taken, and gives the exit status: 5 for want of memory, else 2.
fn refuse_words<P: Program>(rt: &HostRuntime, error: &io::Error) -> u8 {
    let (status, why) = match error.kind() {
        io::ErrorKind::OutOfMemory => (5, "out of memory"),
        _ => (2, "a word is not UTF-8"),
    };
    print_plain(&mut Counted::new(rt.stderr()), P::name(), why);
    status
}

/// Says why an output did not get its name, where more can be said than that it was not created.
fn print_why<P: Program, E: Sink>(faults: &mut E, unmade: &Unmade) {
    let name = unmade.name.as_str();
    let kept = name_kept(name).unwrap_or_default();
    match unmade.why {
        Why::Failed => {}
        Why::Jpeg => P::print_not_replaced(faults, name),
        Why::Unreadable => print_about(faults, P::name(), name, UNREADABLE),
        Why::Taken => print_about(faults, P::name(), kept.as_str(), TAKEN),
        Why::NotKept => P::print_not_created(faults, kept.as_str()),
    }
}

/// Ends the output after a run with this status, and gives the exit status: 4 where the output could not be kept. Says why an output
/// was not created, if more is known.
fn end_output<P: Program, E: Sink>(
    files: &mut HostFiles<'_>,
    faults: &mut E,
    status: u8,
    failures: u64,
) -> u8 {
    if let Some(unmade) = files.not_created() {
        print_why::<P, E>(faults, unmade);
    }
    match files.end(ending_of_run(status, failures)) {
        Ok(()) => status,
        Err(unmade) => {
            P::print_not_created(faults, unmade.name.as_str());
            print_why::<P, E>(faults, &unmade);
            4
        }
    }
}

/// Runs a program. It gets its words, a desk over files and standard streams, standard output as its report and standard error for its
/// faults. Then its output is ended, and the exit status is what the program answered, or 4 where the output could not be kept. No
/// contract says this, so read it.
pub fn run_program<P: Program>(rt: HostRuntime) -> ExitCode {
    let _streams = hold_streams(&rt);
    let words = match words(&rt) {
        Ok(words) => words,
        Err(error) => return ExitCode::from(refuse_words::<P>(&rt, &error)),
    };
    let files = HostFiles::new(&rt, P::guard(&words));
    let mut report = Counted::new(rt.stdout());
    let mut faults = Counted::new(rt.stderr());
    let mut desk = Counted::closed(files);
    let status = P::run(rt.alloc(), &words, &mut desk, &mut report, &mut faults);
    let failures = desk.write_failures();
    let mut files = desk.into_inner();
    ExitCode::from(end_output::<P, _>(&mut files, &mut faults, status, failures))
}
