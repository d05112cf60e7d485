//! Finding the longest ranges of missing lines, and the disputed lines.

ghost use Rattle.jls_report.specs.Lines.{is_missing};
ghost use Rattle.jls_report.specs.Report.{missing_from, entries_at, component_entries, report_entries};
ghost use Rattle.std.specs.Option.{option_to_list};
ghost use Rattle.std.specs.Prelude.{◌≡◌, ◌+◌, ◌-◌, ◌<◌, ◌++◌, true, length, IfOk, OnOk};

use crate::entry::ReportEntry;
use jls_partial::Partial;
use std::alloc::{AllocError, Global};

/// Whether a line is missing, and is the first of its component or below a line that isn't.
fn begins_range(partial: &Partial, component: u8, line: u16) -> bool
    requires component_in { component < length partial.now.shape.ids }
    requires line_in { line < partial.now.shape.height }
    ensures { result ≡ Rattle.jls_report.specs.Report.begins_range partial.now component line }
{
    partial.count(component, line) == 0 && (line == 0 || partial.count(component, line - 1) != 0)
}

/// The last of the missing lines that follow one another from the line `first` on, which is missing.
fn end_of_range(partial: &Partial, component: u8, first: u16) -> u16
    requires component_in { component < length partial.now.shape.ids }
    requires first_in { first < partial.now.shape.height }
    requires first_missing { is_missing partial.now component first ≡ true }
    ensures { result ≡ first + missing_from partial.now component first - 1 }
{
    let height = partial.shape().height();
    for line in first + 1..height {
        if partial.count(component, line) != 0 {
            return line - 1;
        }
    }
    height - 1
}

/// The entry that begins with a line, where one does.
fn entry_at(partial: &Partial, component: u8, line: u16) -> Option<ReportEntry>
    requires component_in { component < length partial.now.shape.ids }
    requires line_in { line < partial.now.shape.height }
    ensures { option_to_list result ≡ entries_at partial.now component line }
{
    if begins_range(partial, component, line) {
        let last = end_of_range(partial, component, line);
        return Some(ReportEntry::Missing {
            component,
            first: line,
            last,
        });
    }
    match partial.count(component, line) {
        0 | 1 => None,
        readings => Some(ReportEntry::Disputed {
            component,
            line,
            readings,
        }),
    }
}

/// Appends the entry that begins with a line, where one does.
fn push_line(
    found: &mut Vec<ReportEntry>,
    partial: &Partial,
    component: u8,
    line: u16,
) -> Result<(), AllocError>
    requires component_in { component < length partial.now.shape.ids }
    requires line_in { line < partial.now.shape.height }
    ensures { OnOk result (found.new.items ≡ found.old.items ++ entries_at partial.now component line) }
{
    match entry_at(partial, component, line) {
        Some(entry) => {
            found.push(entry)?;
            Ok(())
        }
        None => Ok(()),
    }
}

/// Appends the entries of a component.
fn push_component(
    found: &mut Vec<ReportEntry>,
    partial: &Partial,
    component: u8,
) -> Result<(), AllocError>
    requires { component < length partial.now.shape.ids }
    ensures { OnOk result (found.new.items ≡ found.old.items ++ component_entries partial.now component) }
{
    for line in 0..partial.shape().height() {
        push_line(found, partial, component, line)?;
    }
    Ok(())
}

/// The entries of all components.
#[tactic(auto, using(jls_values::proofs::Lists::flat_map_more))]
pub(crate) fn find_entries(alloc: Global, partial: &Partial) -> Result<Vec<ReportEntry>, AllocError>
    ensures { IfOk result (λ found. found.items ≡ report_entries partial.now) }
{
    let mut found = Vec::new(alloc);
    for component in 0..partial.shape().ids().len() as u8 {
        push_component(&mut found, partial, component)?;
    }
    Ok(found)
}
