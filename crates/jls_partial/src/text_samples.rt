//! The samples of a reading, from a text.

ghost use Rattle.jls_partial.specs.Text.{samples_text};
ghost use Rattle.jls_partial.specs.TextReading.{GivesText, samples_fields};
ghost use Rattle.std.specs.Prelude.{◌≡◌, ◌≤◌, ◌*◌, ℕ, All, length, Ok, IfOk, IfSome};

use crate::text_fault::TextFault;
use crate::text_fields::read_sample;
use std::alloc::{AllocError, Global};

/// The samples whose text these bytes are.
fn samples_in(alloc: Global, count: usize, bytes: &[u8]) -> Result<Vec<u16>, AllocError>
    requires { length bytes.now ≡ count * 2 }
    ensures count { IfOk result (λ samples. length samples.items ≡ count) }
    ensures text { IfOk result (λ samples. samples_text samples.items ≡ bytes.now) }
{
    let mut samples = Vec::with_capacity(alloc, count)?;
    let mut rest = bytes;
    for _ in 0..count {
        let (prefix, after) = rest.split_at(2);
        samples.push_reserved(u16::from_be_bytes([prefix[0], prefix[1]]));
        rest = after;
    }
    Ok(samples)
}

/// A number that no sample is above.
fn largest(samples: &[u16]) -> u16
    ensures { All (λ x. x ≤ result) samples.now }
{
    let mut largest = 0;
    for sample in samples {
        largest = (*sample).max(largest);
    }
    largest
}

/// The samples that stand first, read at one go, where all are there and below the limit.
fn read_samples_below(
    alloc: Global,
    limit: u32,
    count: u16,
    bytes: &[u8],
) -> Result<Option<(Vec<u16>, &[u8])>, AllocError>
    ensures { IfOk result (λ read. IfSome read (λ x. (size : ℕ) → samples_fields size limit count bytes.now ≡ Ok (x.0.items, x.1.now))) }
{
    let count = count as usize;
    if bytes.len() < count * 2 {
        return Ok(None);
    }
    let (prefix, rest) = bytes.split_at(count * 2);
    let samples = samples_in(alloc, count, prefix)?;
    if limit <= largest(&samples) as u32 {
        return Ok(None);
    }
    Ok(Some((samples, rest)))
}

/// Reads sample after sample, up to the first fault. Room is made for those whose bytes are there.
fn read_each_sample(
    alloc: Global,
    size: u64,
    limit: u32,
    count: u16,
    bytes: &[u8],
) -> Result<(Vec<u16>, &[u8]), TextFault>
    ensures { GivesText (λ x. (x.0.items, x.1.now)) result (samples_fields size limit count bytes.now) }
{
    let mut samples = Vec::with_capacity(alloc, (bytes.len() / 2).min(count as usize))?;
    let mut rest = bytes;
    for _ in 0..count {
        let (sample, after) = read_sample(size, limit, rest)?;
        samples.push_reserved(sample);
        rest = after;
    }
    Ok((samples, rest))
}

/// As many samples as `count` says.
pub(crate) fn read_samples(
    alloc: Global,
    size: u64,
    limit: u32,
    count: u16,
    bytes: &[u8],
) -> Result<(Vec<u16>, &[u8]), TextFault>
    ensures { GivesText (λ x. (x.0.items, x.1.now)) result (samples_fields size limit count bytes.now) }
{
    match read_samples_below(alloc, limit, count, bytes)? {
        Some(read) => Ok(read),
        None => read_each_sample(alloc, size, limit, count, bytes),
    }
}
