//! What was made, handed out.

ghost use Rattle.std.specs.Prelude.{IfErr, OnOk, option_map};
ghost use Rattle.std.specs.String.{string_bytes};
ghost use Rattle.jls_io.specs.Event.{GrewBy};
ghost use Rattle.jls_io.specs.Writing.{Printed, Wrote};
ghost use Rattle.jls_io.specs.Outputs.{HandsOut};
ghost use Rattle.jls_splice_run.specs.Handing.{HandsFile, HandsFiles, StopsAtSingleFile, StopsAtFiles, StopsAtNumber};
ghost use Rattle.jls_splice_run.specs.Handing.{StopsAtReport};
ghost use Rattle.jls_splice_run.specs.Listing.{named_file, named_files};

use crate::listing::NumberedFile;
use jls_cli::{Cause, Refusal, write_output};
use jls_io::{Desk, Sink, write_all};

/// Prints lines to the report output.
pub(crate) fn print_lines<'a, W: Sink>(report: &mut W, lines: &[u8]) -> Result<(), Refusal<'a>>
    ensures printed { OnOk result (GrewBy (Wrote lines.now) (W.history report.old) (W.history report.new)) }
    ensures stopped { IfErr result (λ refusal.
        GrewBy (StopsAtReport lines.now refusal) (W.history report.old) (W.history report.new)) }
{
    match write_all(report, lines) {
        Ok(()) => Ok(()),
        Err(count) => Err(Refusal {
            name: "-",
            cause: Cause::NotWritten(count),
        }),
    }
}

/// Prints notes to the fault output. A write that fails ends them, and is ignored.
pub(crate) fn print_notes<E: Sink>(faults: &mut E, notes: &[u8])
    ensures { GrewBy (Printed notes.now) (E.history faults.old) (E.history faults.new) }
{
    let _ = write_all(faults, notes);
}

/// Creates the output for the single file and hands that to it, if there are both.
pub(crate) fn write_file<'a, D: Desk>(
    desk: &mut D,
    name: Option<&'a str>,
    file: Option<&[u8]>,
) -> Result<(), Refusal<'a>>
    ensures written { OnOk result (GrewBy (HandsFile (option_map (λ s. s.now) name.entry) (option_map (λ s. s.now) file.entry))
        (D.history desk.old) (D.history desk.new)) }
    ensures stopped { IfErr result (λ refusal. GrewBy (StopsAtSingleFile (option_map (λ s. s.now) name.entry)
        (option_map (λ s. s.now) file.entry) refusal) (D.history desk.old) (D.history desk.new)) }
{
    let Some(name) = name else {
        return Ok(());
    };
    let Some(file) = file else {
        return Ok(());
    };
    write_output(desk, name, file)
}

/// Creates the output of a number, and hands its file to it.
fn write_numbered<'a, D: Desk>(
    desk: &mut D,
    prefix: &'a str,
    number: u64,
    file: &NumberedFile,
) -> Result<(), Refusal<'a>>
    ensures written { OnOk result
        (GrewBy (HandsOut (string_bytes file.now.name) file.now.bytes.items) (D.history desk.old) (D.history desk.new)) }
    ensures stopped { IfErr result (λ refusal. GrewBy (StopsAtNumber prefix.entry.now number (named_file file.now) refusal)
        (D.history desk.old) (D.history desk.new)) }
{
    match desk.create_output(&file.name) {
        Ok(()) => {}
        Err(_) => {
            let cause = Cause::FileNotCreated(number);
            return Err(Refusal {
                name: prefix,
                cause,
            });
        }
    }
    match write_all(desk, &file.bytes) {
        Ok(()) => Ok(()),
        Err(count) => {
            let cause = Cause::FileNotWritten(number, count);
            Err(Refusal {
                name: prefix,
                cause,
            })
        }
    }
}

/// Creates the outputs that have numbers, one after the other, and hands each its file.
pub(crate) fn write_files<'a, D: Desk>(
    desk: &mut D,
    prefix: &'a str,
    files: &[NumberedFile],
) -> Result<(), Refusal<'a>>
    ensures written { OnOk result (GrewBy (HandsFiles (named_files files.now)) (D.history desk.old) (D.history desk.new)) }
    ensures stopped { IfErr result (λ refusal. GrewBy (StopsAtFiles prefix.entry.now (named_files files.now) refusal)
        (D.history desk.old) (D.history desk.new)) }
{
    for place in 0..files.len() {
        match write_numbered(desk, prefix, place as u64 + 1, &files[place]) {
            Ok(()) => {}
            Err(refusal) => return Err(refusal),
        }
    }
    Ok(())
}
