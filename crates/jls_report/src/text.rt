//! The text of a report.

ghost use Rattle.jls_report.specs.Report.{component_of};
ghost use Rattle.jls_report.specs.ReportText.{size_text, precision_text, shape_line, counts_line, entry_line, report_text};
ghost use Rattle.std.specs.List.{flat_map, join_by, AllByRecursion};
ghost use Rattle.std.specs.Prelude.{◌≡◌, ◌<◌, ◌++◌, length, codes, decimal, IfOk, OnOk, OnErr};

use crate::entry::ReportEntry;
use crate::report::Report;
use itoa::Buffer;
use jls_values::Shape;
use std::alloc::{AllocError, Global};

/// Appends a number in decimal.
pub fn put_number(out: &mut Vec<u8>, n: u64) -> Result<(), AllocError>
    ensures appended { OnOk result (out.new.items ≡ out.old.items ++ decimal n) }
    ensures unchanged { OnErr result (out.new.items ≡ out.old.items) }
{
    let mut buffer = Buffer::new();
    out.extend_from_slice(buffer.format(n).as_bytes())?;
    Ok(())
}

/// Appends the identifiers, joined by commas.
fn put_ids(out: &mut Vec<u8>, ids: &[u8]) -> Result<(), AllocError>
    ensures { OnOk result (out.new.items ≡ out.old.items ++ join_by decimal (codes ",") ids.now) }
{
    let [first, others @ ..] = ids else {
        return Ok(());
    };
    put_number(out, u64::from(*first))?;
    for id in others {
        out.extend_from_slice(b",")?;
        put_number(out, u64::from(*id))?;
    }
    Ok(())
}

/// Appends the width and the height, with the word before them.
fn put_size(out: &mut Vec<u8>, shape: &Shape) -> Result<(), AllocError>
    ensures { OnOk result (out.new.items ≡ out.old.items ++ size_text shape.now) }
{
    out.extend_from_slice(b"picture ")?;
    put_number(out, u64::from(shape.width()))?;
    out.extend_from_slice(b"x")?;
    put_number(out, u64::from(shape.height()))?;
    Ok(())
}

/// Appends the precision, with the words around it.
fn put_precision(out: &mut Vec<u8>, shape: &Shape) -> Result<(), AllocError>
    ensures { OnOk result (out.new.items ≡ out.old.items ++ precision_text shape.now) }
{
    out.extend_from_slice(b", ")?;
    put_number(out, u64::from(shape.precision()))?;
    out.extend_from_slice(b" bits, components ")?;
    Ok(())
}

/// Appends the line that tells the shape.
fn put_shape(out: &mut Vec<u8>, shape: &Shape) -> Result<(), AllocError>
    ensures { OnOk result (out.new.items ≡ out.old.items ++ shape_line shape.now) }
{
    put_size(out, shape)?;
    put_precision(out, shape)?;
    put_ids(out, shape.ids())?;
    out.extend_from_slice(b"\n")?;
    Ok(())
}

/// Appends the line that tells the numbers of lines.
fn put_counts(out: &mut Vec<u8>, report: &Report) -> Result<(), AllocError>
    ensures { OnOk result (out.new.items ≡ out.old.items ++ counts_line report.now) }
{
    out.extend_from_slice(b"settled ")?;
    put_number(out, u64::from(report.settled()))?;
    out.extend_from_slice(b", missing ")?;
    put_number(out, u64::from(report.missing()))?;
    out.extend_from_slice(b", disputed ")?;
    put_number(out, u64::from(report.disputed()))?;
    out.extend_from_slice(b"\n")?;
    Ok(())
}

/// Appends a word, two numbers, and what stands between them: the identifier is that of the component.
fn put_entry(out: &mut Vec<u8>, ids: &[u8], entry: ReportEntry) -> Result<(), AllocError>
    requires { component_of entry < length ids.now }
    ensures { OnOk result (out.new.items ≡ out.old.items ++ entry_line ids.now entry) }
{
    match entry {
        ReportEntry::Missing {
            component,
            first,
            last,
        } => {
            out.extend_from_slice(b"missing ")?;
            put_number(out, u64::from(ids[component as usize]))?;
            out.extend_from_slice(b" ")?;
            put_number(out, u64::from(first))?;
            out.extend_from_slice(b"-")?;
            put_number(out, u64::from(last))?;
        }
        ReportEntry::Disputed {
            component,
            line,
            readings,
        } => {
            out.extend_from_slice(b"disputed ")?;
            put_number(out, u64::from(ids[component as usize]))?;
            out.extend_from_slice(b" ")?;
            put_number(out, u64::from(line))?;
            out.extend_from_slice(b" ")?;
            put_number(out, readings as u64)?;
        }
    }
    out.extend_from_slice(b"\n")?;
    Ok(())
}

/// Appends the lines of the entries.
#[tactic(auto, using(crate::proofs::OneMore::flat_map_take_more))]
fn put_entries(out: &mut Vec<u8>, ids: &[u8], entries: &[ReportEntry]) -> Result<(), AllocError>
    requires { AllByRecursion (λ entry. component_of entry < length ids.now) entries.now }
    ensures { OnOk result (out.new.items ≡ out.old.items ++ flat_map (entry_line ids.now) entries.now) }
{
    for entry in entries {
        put_entry(out, ids, *entry)?;
    }
    Ok(())
}

impl Report {
    /// The one text of the report, in ASCII. It has the shape, the three numbers, and a line for each entry, each ended by a newline.
    /// Components are named by their identifiers.
    pub fn to_text(&self, alloc: Global) -> Result<Vec<u8>, AllocError>
        ensures { IfOk result (λ text. text.items ≡ report_text self.now) }
    {
        let mut out = Vec::new(alloc);
        put_shape(&mut out, self.shape())?;
        put_counts(&mut out, self)?;
        put_entries(&mut out, self.shape().ids(), self.entries())?;
        Ok(out)
    }
}
