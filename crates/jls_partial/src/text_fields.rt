//! The fields of a text, read from the start. `size` is the length of the whole text in bytes, so that
//! what is left of it tells the offset.

ghost use Rattle.jls_partial.specs.TextReading.{GivesText, byte_field, bytes_field, number_field, magic_field, version_field};
ghost use Rattle.jls_partial.specs.TextReading.{unless_bad_shape, shape_fields, sample_field, source_field, place_fields, count_field};
ghost use Rattle.std.specs.Int.{w16, w32, w64};
ghost use Rattle.std.specs.Prelude.{◌≡◌};

use crate::line_place::LinePlace;
use crate::text_fault::TextFault;
use crate::version::Version;
use jls_values::{Shape, ShapeFault};

/// Where the fields of the shape begin, after the magic and the version.
const SHAPE_OFFSET: u64 = 5;

/// The offset of what is left.
pub(crate) fn offset(size: u64, rest: &[u8]) -> u64
    ensures { result ≡ Rattle.jls_partial.specs.TextReading.offset size rest.now }
{
    size.saturating_sub(rest.len() as u64)
}

/// The next byte.
#[tactic(auto, unfolding(crate::specs::TextReading::byte_field))]
fn read_byte(size: u64, bytes: &[u8]) -> Result<(u8, &[u8]), TextFault>
    ensures { GivesText (λ x. (x.0, x.1.now)) result (byte_field size bytes.now) }
{
    match bytes {
        [] => Err(TextFault::Truncated(size)),
        [byte, rest @ ..] => Ok((*byte, rest)),
    }
}

/// A number of two bytes.
fn read_u16(size: u64, bytes: &[u8]) -> Result<(u16, &[u8]), TextFault>
    ensures { GivesText (λ x. (x.0, x.1.now)) result (number_field size w16 bytes.now) }
{
    if bytes.len() < 2 {
        return Err(TextFault::Truncated(size));
    }
    let (prefix, rest) = bytes.split_at(2);
    Ok((u16::from_be_bytes([prefix[0], prefix[1]]), rest))
}

/// A number of four bytes.
pub(crate) fn read_u32(size: u64, bytes: &[u8]) -> Result<(u32, &[u8]), TextFault>
    ensures { GivesText (λ x. (x.0, x.1.now)) result (number_field size w32 bytes.now) }
{
    if bytes.len() < 4 {
        return Err(TextFault::Truncated(size));
    }
    let (prefix, rest) = bytes.split_at(4);
    let number = u32::from_be_bytes([prefix[0], prefix[1], prefix[2], prefix[3]]);
    Ok((number, rest))
}

/// A number of eight bytes.
pub(crate) fn read_u64(size: u64, bytes: &[u8]) -> Result<(u64, &[u8]), TextFault>
    ensures { GivesText (λ x. (x.0, x.1.now)) result (number_field size w64 bytes.now) }
{
    if bytes.len() < 8 {
        return Err(TextFault::Truncated(size));
    }
    let (prefix, rest) = bytes.split_at(8);
    let number = u64::from_be_bytes([
        prefix[0], prefix[1], prefix[2], prefix[3], prefix[4], prefix[5], prefix[6], prefix[7],
    ]);
    Ok((number, rest))
}

/// The next `count` bytes.
#[tactic(auto, unfolding(crate::specs::TextReading::bytes_field))]
fn read_bytes(size: u64, count: usize, bytes: &[u8]) -> Result<(&[u8], &[u8]), TextFault>
    ensures { GivesText (λ x. (x.0.now, x.1.now)) result (bytes_field size count bytes.now) }
{
    if bytes.len() < count {
        return Err(TextFault::Truncated(size));
    }
    Ok(bytes.split_at(count))
}

/// The bytes after the magic, whose bytes are `wanted`.
pub(crate) fn read_magic<'a>(
    size: u64,
    wanted: &[u8],
    bytes: &'a [u8],
) -> Result<&'a [u8], TextFault>
    ensures { GivesText (λ x. x.now) result (magic_field size wanted.now bytes.now) }
{
    let mut rest = bytes;
    for want in wanted {
        let (byte, after) = read_byte(size, rest)?;
        if byte != *want {
            return Err(TextFault::Magic(offset(size, rest)));
        }
        rest = after;
    }
    Ok(rest)
}

/// The version of the text.
#[tactic(auto, unfolding(crate::specs::TextReading::version_field))]
pub(crate) fn read_version(size: u64, bytes: &[u8]) -> Result<(Version, &[u8]), TextFault>
    ensures { GivesText (λ x. (x.0, x.1.now)) result (version_field size bytes.now) }
{
    let (byte, rest) = read_byte(size, bytes)?;
    match byte {
        1 => Ok((Version::One, rest)),
        2 => Ok((Version::Two, rest)),
        _ => Err(TextFault::Magic(offset(size, bytes))),
    }
}

/// `rest`, unless the fields of the shape have a fault.
fn without_fault(fault: Option<ShapeFault>, rest: &[u8]) -> Result<&[u8], TextFault>
    ensures { GivesText (λ x. x.now) result (unless_bad_shape fault rest.now) }
{
    match fault {
        None => Ok(rest),
        Some(_) => Err(TextFault::BadShape(SHAPE_OFFSET)),
    }
}

/// The shape, or its fault as one of the text.
fn shape_or_fault(shape: Result<Shape, ShapeFault>) -> Result<Shape, TextFault>
    ensures { GivesText (λ x. x) result (Rattle.jls_partial.specs.TextReading.shape_or_fault shape) }
{
    match shape {
        Ok(shape) => Ok(shape),
        Err(_) => Err(TextFault::BadShape(SHAPE_OFFSET)),
    }
}

/// The shape, which is judged once before its identifiers and once after them.
#[tactic(auto, unfolding(crate::specs::TextReading::shape_fields))]
pub(crate) fn read_shape(size: u64, bytes: &[u8]) -> Result<(Shape, &[u8]), TextFault>
    ensures { GivesText (λ x. (x.0, x.1.now)) result (shape_fields size bytes.now) }
{
    let (precision, rest) = read_byte(size, bytes)?;
    let (width, rest) = read_u16(size, rest)?;
    let (height, rest) = read_u16(size, rest)?;
    let (count, rest) = read_byte(size, rest)?;
    let fault = Shape::size_fault(precision, width, height, count as usize);
    let rest = without_fault(fault, rest)?;
    let (ids, rest) = read_bytes(size, count as usize, rest)?;
    let shape = shape_or_fault(Shape::new(precision, width, height, ids))?;
    Ok((shape, rest))
}

/// A sample that is below the limit.
#[tactic(auto, unfolding(crate::specs::TextReading::sample_field))]
pub(crate) fn read_sample(size: u64, limit: u32, bytes: &[u8]) -> Result<(u16, &[u8]), TextFault>
    ensures { GivesText (λ x. (x.0, x.1.now)) result (sample_field size limit bytes.now) }
{
    let (sample, rest) = read_u16(size, bytes)?;
    if limit <= sample as u32 {
        return Err(TextFault::Sample(offset(size, bytes)));
    }
    Ok((sample, rest))
}

/// Whether a source is above the one before.
fn is_source_above(before: Option<u32>, source: u32) -> bool
    ensures { result ≡ Rattle.jls_partial.specs.TextReading.is_source_above before source }
{
    match before {
        None => true,
        Some(before) => before < source,
    }
}

/// A source that is above the one before.
#[tactic(auto, unfolding(crate::specs::TextReading::source_field))]
pub(crate) fn read_source(
    size: u64,
    before: Option<u32>,
    bytes: &[u8],
) -> Result<(u32, &[u8]), TextFault>
    ensures { GivesText (λ x. (x.0, x.1.now)) result (source_field size before bytes.now) }
{
    let (source, rest) = read_u32(size, bytes)?;
    if !is_source_above(before, source) {
        return Err(TextFault::Order(offset(size, bytes)));
    }
    Ok((source, rest))
}

/// Whether an entry of this place may follow the entry before.
fn may_follow(shape: &Shape, before: Option<LinePlace>, at: LinePlace) -> bool
    ensures { result ≡ Rattle.jls_partial.specs.TextReading.may_follow shape.now before at }
{
    let inside = (at.component as usize) < shape.ids().len() && at.line < shape.height();
    match before {
        None => inside,
        Some(before) => before < at && inside,
    }
}

/// The place of an entry, which is after that of the entry before.
#[tactic(auto, unfolding(crate::specs::TextReading::place_fields))]
pub(crate) fn read_place<'a>(
    size: u64,
    shape: &Shape,
    before: Option<LinePlace>,
    bytes: &'a [u8],
) -> Result<(LinePlace, &'a [u8]), TextFault>
    ensures { GivesText (λ x. (x.0, x.1.now)) result (place_fields size shape.now before bytes.now) }
{
    let (component, rest) = read_byte(size, bytes)?;
    let (line, rest) = read_u16(size, rest)?;
    let at = LinePlace { component, line };
    if !may_follow(shape, before, at) {
        return Err(TextFault::Place(offset(size, bytes)));
    }
    Ok((at, rest))
}

/// The number of readings of an entry, which is 1 or more.
#[tactic(auto, unfolding(crate::specs::TextReading::count_field))]
pub(crate) fn read_count(size: u64, bytes: &[u8]) -> Result<(u64, &[u8]), TextFault>
    ensures { GivesText (λ x. (x.0, x.1.now)) result (count_field size bytes.now) }
{
    let (count, rest) = read_u64(size, bytes)?;
    if count == 0 {
        return Err(TextFault::Count(offset(size, bytes)));
    }
    Ok((count, rest))
}
