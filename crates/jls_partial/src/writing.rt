//! Partial pictures as text, version 2.

ghost use Rattle.jls_partial.specs.LineSet.{kept_lines};
ghost use Rattle.jls_partial.specs.Text.{head_text, samples_text, sources_text, reading_text, entry_text, text, entries};
ghost use Rattle.jls_partial.specs.declared.version.Version.TheVariants.{Two};
ghost use Rattle.std.specs.Int.{w16, w32, w64, to_be_bytes};
ghost use Rattle.std.specs.List.{flat_map};
ghost use Rattle.std.specs.Prelude.{◌≡◌, ◌∷◌, ◌++◌, IfOk, OnOk};

use crate::line_place::LinePlace;
use crate::lines::Lines;
use crate::partial::Partial;
use jls_values::Shape;
use std::alloc::{AllocError, Global};

/// The first bytes of each text that is written, with the version at the end.
const MAGIC: [u8; 5] = [b'J', b'L', b'S', b'P', 2];

fn put_samples(out: &mut Vec<u8>, samples: &[u16]) -> Result<(), AllocError>
    ensures { OnOk result (out.new.items ≡ out.old.items ++ samples_text samples.now) }
{
    out.reserve(samples.len() * 2)?;
    for sample in samples {
        let [high, low] = sample.to_be_bytes();
        out.push_reserved(high);
        out.push_reserved(low);
    }
    Ok(())
}

fn put_numbers(out: &mut Vec<u8>, sources: &[u32]) -> Result<(), AllocError>
    ensures { OnOk result (out.new.items ≡ out.old.items ++ flat_map (to_be_bytes w32) sources.now) }
{
    for source in sources {
        out.extend_from_slice(&source.to_be_bytes())?;
    }
    Ok(())
}

/// Writes the number of sources, and the sources.
fn put_sources(out: &mut Vec<u8>, sources: &[u32]) -> Result<(), AllocError>
    ensures { OnOk result (out.new.items ≡ out.old.items ++ sources_text Two sources.now) }
{
    let count = sources.len() as u64;
    out.extend_from_slice(&count.to_be_bytes())?;
    put_numbers(out, sources)?;
    Ok(())
}

fn put_reading(out: &mut Vec<u8>, samples: &[u16], sources: &[u32]) -> Result<(), AllocError>
    ensures { OnOk result (out.new.items ≡ out.old.items ++ reading_text Two (samples.now, sources.now)) }
{
    put_samples(out, samples)?;
    put_sources(out, sources)?;
    Ok(())
}

fn put_readings(out: &mut Vec<u8>, lines: &Lines<'_>) -> Result<(), AllocError>
    ensures { OnOk result (out.new.items ≡ out.old.items ++ flat_map (reading_text Two) (kept_lines lines.now)) }
{
    for i in 0..lines.len() {
        put_reading(out, lines.get(i), lines.sources(i))?;
    }
    Ok(())
}

/// Writes the fields of an entry that stand before its readings.
fn put_entry_head(out: &mut Vec<u8>, at: LinePlace, count: u64) -> Result<(), AllocError>
    ensures { OnOk result (out.new.items ≡ out.old.items ++ (at.component ∷ to_be_bytes w16 at.line ++ to_be_bytes w64 count)) }
{
    let [high, low] = at.line.to_be_bytes();
    out.extend_from_slice(&[at.component, high, low])?;
    out.extend_from_slice(&count.to_be_bytes())?;
    Ok(())
}

/// Writes the entry of a line.
fn put_entry(out: &mut Vec<u8>, at: LinePlace, lines: &Lines<'_>) -> Result<(), AllocError>
    ensures { OnOk result (out.new.items ≡ out.old.items ++ entry_text Two (at, kept_lines lines.now)) }
{
    put_entry_head(out, at, lines.len() as u64)?;
    put_readings(out, lines)?;
    Ok(())
}

fn put_entries(out: &mut Vec<u8>, partial: &Partial) -> Result<(), AllocError>
    ensures { OnOk result (out.new.items ≡ out.old.items ++ flat_map (entry_text Two) (entries partial.now)) }
{
    for (at, lines) in partial.entries() {
        put_entry(out, at, &lines)?;
    }
    Ok(())
}

/// Writes the magic, the version and the shape.
fn put_head(out: &mut Vec<u8>, shape: &Shape) -> Result<(), AllocError>
    ensures { OnOk result (out.new.items ≡ out.old.items ++ head_text Two shape.now) }
{
    let [width_high, width_low] = shape.width().to_be_bytes();
    let [height_high, height_low] = shape.height().to_be_bytes();
    let count = shape.ids().len() as u8;
    out.extend_from_slice(&MAGIC)?;
    out.extend_from_slice(&[
        shape.precision(),
        width_high,
        width_low,
        height_high,
        height_low,
        count,
    ])?;
    out.extend_from_slice(shape.ids())?;
    Ok(())
}

/// How many bytes the entry of a line takes. Room is made for them.
fn entry_size(lines: &Lines<'_>) -> usize {
    let mut size = 11usize;
    for i in 0..lines.len() {
        let samples = lines.get(i).len().saturating_mul(2);
        let sources = lines.sources(i).len().saturating_mul(4);
        size = size
            .saturating_add(samples)
            .saturating_add(sources)
            .saturating_add(8);
    }
    size
}

/// How many bytes all entries take.
fn entries_size(partial: &Partial) -> usize {
    let mut size = 0usize;
    for (_, lines) in partial.entries() {
        size = size.saturating_add(entry_size(&lines));
    }
    size
}

impl Partial {
    /// The text of the partial picture, in version 2, which alone is written. It takes time in proportion to the bytes of the
    /// text.
    pub fn to_bytes(&self, alloc: Global) -> Result<Vec<u8>, AllocError>
        ensures { IfOk result (λ bytes. bytes.items ≡ text self.now) }
    {
        self.to_bytes_in(Vec::new(alloc))
    }

    /// The same text in the room of a vector that is given up for it. Where the room is too small, it is made larger for the whole
    /// text at once.
    pub fn to_bytes_in(&self, room: Vec<u8>) -> Result<Vec<u8>, AllocError>
        ensures { IfOk result (λ bytes. bytes.items ≡ text self.now) }
    {
        let mut out = room;
        out.clear();
        put_head(&mut out, self.shape())?;
        out.extend_from_slice(&self.entry_count().to_be_bytes())?;
        out.reserve(entries_size(self))?;
        put_entries(&mut out, self)?;
        Ok(out)
    }
}
