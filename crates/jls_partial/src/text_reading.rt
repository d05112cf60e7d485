//! Partial pictures from their texts.

ghost use Rattle.jls_partial.specs.Entries.{kept_at_place};
ghost use Rattle.jls_partial.specs.Merging.{TakesPrefix};
ghost use Rattle.jls_partial.specs.Partial.{PartialPicture, nothing_known};
ghost use Rattle.jls_partial.specs.Text.{IsTextOf};
ghost use Rattle.jls_partial.specs.TextPrefix.{readings_prefix, entry_prefix, entries_prefix};
ghost use Rattle.jls_partial.specs.TextInto.{with_readings, with_entry, with_entries, with_rest, head_fields};
ghost use Rattle.jls_partial.specs.TextReading.{GivesText, reading_fields, sources_fields, own_sources_fields, kept_fields};
ghost use Rattle.jls_partial.specs.TextReading.{readings_fields, entry_fields, entries_fields, read_text};
ghost use Rattle.std.specs.Option.{option_map};
ghost use Rattle.std.specs.Prelude.{◌≡◌, ◌<◌, length, map, None, Ok, IfOk, OnErr};

use crate::line_place::LinePlace;
use crate::partial::Partial;
use crate::text_fault::TextFault;
use crate::text_fields::{
    offset, read_count, read_magic, read_place, read_shape, read_source, read_u32, read_u64,
    read_version,
};
use crate::text_samples::read_samples;
use crate::version::Version;
use jls_values::Shape;
use std::alloc::Global;

/// Whether a reading is above the one before.
fn is_above(before: &Option<Vec<u16>>, samples: &[u16]) -> bool
    ensures { result ≡ Rattle.jls_partial.specs.TextReading.is_above (option_map (λ v. v.items) before.now) samples.now }
{
    match before {
        None => true,
        Some(before) => before.as_slice().cmp(samples).is_lt(),
    }
}

/// A reading that is above the one before.
#[tactic(auto, unfolding(crate::specs::TextReading::reading_fields))]
fn read_reading<'a>(
    alloc: Global,
    size: u64,
    shape: &Shape,
    before: &Option<Vec<u16>>,
    bytes: &'a [u8],
) -> Result<(Vec<u16>, &'a [u8]), TextFault>
    ensures { GivesText (λ x. (x.0.items, x.1.now)) result
        (reading_fields size shape.now (option_map (λ v. v.items) before.now) bytes.now) }
{
    let limit = 2u32.pow(shape.precision() as u32);
    let (samples, rest) = read_samples(alloc, size, limit, shape.width(), bytes)?;
    if !is_above(before, &samples) {
        return Err(TextFault::Order(offset(size, bytes)));
    }
    Ok((samples, rest))
}

/// As many sources as `count` says. The vector grows with the bytes that are there.
fn read_sources(
    alloc: Global,
    size: u64,
    count: u64,
    bytes: &[u8],
) -> Result<(Vec<u32>, &[u8]), TextFault>
    ensures { GivesText (λ x. (x.0.items, x.1.now)) result (sources_fields size None count bytes.now) }
{
    let mut sources = Vec::new(alloc);
    let mut before = None;
    let mut rest = bytes;
    for _ in 0..count {
        let (source, after) = read_source(size, before, rest)?;
        sources.push(source)?;
        before = Some(source);
        rest = after;
    }
    Ok((sources, rest))
}

/// The sources of a reading, which version 1 does not have.
#[tactic(auto, unfolding(crate::specs::TextReading::own_sources_fields))]
fn read_own_sources(
    alloc: Global,
    size: u64,
    version: Version,
    bytes: &[u8],
) -> Result<(Vec<u32>, &[u8]), TextFault>
    ensures { GivesText (λ x. (x.0.items, x.1.now)) result (own_sources_fields size version bytes.now) }
{
    match version {
        Version::One => Ok((Vec::new(alloc), bytes)),
        Version::Two => {
            let (count, rest) = read_u64(size, bytes)?;
            read_sources(alloc, size, count, rest)
        }
    }
}

/// What a text is read with: its length in bytes, its version, and the allocator.
#[derive(Clone, Copy)]
pub(crate) struct Form {
    size: u64,
    version: Version,
    alloc: Global,
}

/// A reading that is above the one before, with its sources.
#[tactic(auto, unfolding(crate::specs::TextReading::kept_fields))]
fn read_kept<'a>(
    form: Form,
    shape: &Shape,
    before: &Option<Vec<u16>>,
    bytes: &'a [u8],
) -> Result<(Vec<u16>, Vec<u32>, &'a [u8]), TextFault>
    ensures { GivesText (λ x. ((x.0.items, x.1.items), x.2.now)) result
        (kept_fields form.size form.version shape.now (option_map (λ v. v.items) before.now) bytes.now) }
{
    let (samples, following) = read_reading(form.alloc, form.size, shape, before, bytes)?;
    let (sources, rest) = read_own_sources(form.alloc, form.size, form.version, following)?;
    Ok((samples, sources, rest))
}

/// Takes the readings of one line, as many as `count` says.
fn read_readings<'a>(
    form: Form,
    partial: &mut Partial,
    at: LinePlace,
    count: u64,
    bytes: &'a [u8],
) -> Result<&'a [u8], TextFault>
    requires component_in { at.component < length partial.now.shape.ids }
    requires line_in { at.line < partial.now.shape.height }
    ensures read { GivesText (λ x. (partial.new, x.now)) result
        (with_readings partial.old at (readings_fields form.size form.version partial.old.shape None count bytes.now)) }
    ensures prefix { OnErr result (TakesPrefix partial.old partial.new
        (map (kept_at_place at) (readings_prefix form.size form.version partial.old.shape None count bytes.now))) }
{
    let mut before = None;
    let mut rest = bytes;
    for _ in 0..count {
        let (samples, sources, after) = read_kept(form, partial.shape(), &before, rest)?;
        partial.take(at, &samples, &sources)?;
        before = Some(samples);
        rest = after;
    }
    Ok(rest)
}

/// Takes the readings of one entry.
#[tactic(auto, unfolding(crate::specs::TextReading::entry_fields))]
fn read_entry<'a>(
    form: Form,
    partial: &mut Partial,
    before: Option<LinePlace>,
    bytes: &'a [u8],
) -> Result<(LinePlace, &'a [u8]), TextFault>
    ensures read { GivesText (λ x. (partial.new, x.0, x.1.now)) result
        (with_entry partial.old (entry_fields form.size form.version partial.old.shape before bytes.now)) }
    ensures prefix { OnErr result (TakesPrefix partial.old partial.new
        (entry_prefix form.size form.version partial.old.shape before bytes.now)) }
{
    let (at, rest) = read_place(form.size, partial.shape(), before, bytes)?;
    let (count, rest) = read_count(form.size, rest)?;
    let rest = read_readings(form, partial, at, count, rest)?;
    Ok((at, rest))
}

/// Takes the readings of as many entries as `count` says.
fn read_entries<'a>(
    form: Form,
    partial: &mut Partial,
    count: u32,
    bytes: &'a [u8],
) -> Result<&'a [u8], TextFault>
    ensures read { GivesText (λ x. (partial.new, x.now)) result
        (with_entries partial.old (entries_fields form.size form.version partial.old.shape None count bytes.now)) }
    ensures prefix { OnErr result (TakesPrefix partial.old partial.new
        (entries_prefix form.size form.version partial.old.shape None count bytes.now)) }
{
    let mut before = None;
    let mut rest = bytes;
    for _ in 0..count {
        let (at, after) = read_entry(form, partial, before, rest)?;
        before = Some(at);
        rest = after;
    }
    Ok(rest)
}

/// What stands before the entries of a text, and the bytes after it.
#[derive(Drop)]
pub(crate) struct Head<'a> {
    pub form: Form,
    pub shape: Shape,
    pub count: u32,
    pub rest: &'a [u8],
}

/// Reads the fields before the entries, from the start of a text.
#[tactic(auto, unfolding(crate::specs::TextInto::head_fields))]
pub(crate) fn read_head(alloc: Global, bytes: &[u8]) -> Result<Head<'_>, TextFault>
    ensures { GivesText (λ h. (h.form.size, h.form.version, h.shape, h.count, h.rest.now)) result (head_fields bytes.now) }
{
    let size = bytes.len() as u64;
    let version_bytes = read_magic(size, b"JLSP", bytes)?;
    let (version, shape_bytes) = read_version(size, version_bytes)?;
    let (shape, count_bytes) = read_shape(size, shape_bytes)?;
    let (count, rest) = read_u32(size, count_bytes)?;
    let form = Form {
        size,
        version,
        alloc,
    };
    Ok(Head {
        form,
        shape,
        count,
        rest,
    })
}

/// Takes the readings of all entries, after which nothing may stand.
pub(crate) fn read_rest(
    form: Form,
    partial: &mut Partial,
    count: u32,
    bytes: &[u8],
) -> Result<(), TextFault>
    ensures read { GivesText (λ _. partial.new) result
        (with_rest form.size partial.old (entries_fields form.size form.version partial.old.shape None count bytes.now)) }
    ensures prefix { OnErr result (TakesPrefix partial.old partial.new
        (entries_prefix form.size form.version partial.old.shape None count bytes.now)) }
{
    let rest = read_entries(form, partial, count, bytes)?;
    if !rest.is_empty() {
        return Err(TextFault::Trailing(offset(form.size, rest)));
    }
    Ok(())
}

/// The partial picture of a text of which the head was read.
pub(crate) fn read_after(head: Head<'_>) -> Result<Partial, TextFault>
    ensures { GivesText (λ p. p) result (with_rest head.entry.form.size (nothing_known head.entry.shape)
        (entries_fields head.entry.form.size head.entry.form.version head.entry.shape None head.entry.count head.entry.rest.now)) }
{
    let Head {
        form,
        shape,
        count,
        rest,
    } = head;
    let mut partial = Partial::empty(form.alloc, shape);
    read_rest(form, &mut partial, count, rest)?;
    Ok(partial)
}

fn read_partial(alloc: Global, bytes: &[u8]) -> Result<Partial, TextFault>
    ensures { GivesText (λ p. p) result (read_text bytes.now) }
{
    read_after(read_head(alloc, bytes)?)
}

impl Partial {
    /// The partial picture whose text the bytes are, in version 1 or 2, or the first fault with its offset. Each field is judged as
    /// soon as all its bytes are there. Readings of a text of version 1 have no source. Memory grows with the readings and the sources
    /// that are there, not with the numbers that the text claims.
    pub fn from_bytes(alloc: Global, bytes: &[u8]) -> Result<Partial, TextFault>
        // What is read has these bytes as a text.
        ensures found { IfOk result (λ p. IsTextOf bytes.now p) }
        // Each text is read, unless memory runs out.
        ensures only { (p : PartialPicture) → IsTextOf bytes.now p → GivesText (λ q. q) result (Ok p) }
        // Which fault it is.
        ensures exact { GivesText (λ q. q) result (read_text bytes.now) }
    {
        read_partial(alloc, bytes)
    }
}
