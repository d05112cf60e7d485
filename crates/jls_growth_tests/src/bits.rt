//! Writers of bits.

use crate::met::{Met, Stopped, Tally};
use jls_bits::{BitWriter, write_golomb};
use std::alloc::{AllocError, Global};
use std::process::Abort;

/// Whether the bytes are these, so many times.
fn are_repeated(bytes: &[u8], part: &[u8], times: usize) -> bool {
    let mut count = 0usize;
    for chunk in bytes.chunks(part.len().max(1)) {
        if chunk != part {
            return false;
        }
        count = count.saturating_add(1);
    }
    count == times
}

/// The bits of the byte A5.
const A5: [bool; 8] = [true, false, true, false, false, true, false, true];

/// Writes the byte A5 so many times, bit by bit.
fn push_single_bits(rt: &impl Abort, alloc: Global, bytes: usize) -> Result<Met, Stopped> {
    let mut met = Met::Done;
    let mut writer = BitWriter::new(alloc);
    for _ in 0..bytes {
        for bit in A5 {
            if let Err(AllocError) = writer.push_bit(bit) {
                met = Met::Refused;
                assert!(rt; writer.push_bit(bit) == Ok(()));
            }
        }
    }
    assert!(rt; are_repeated(&writer.finish()?, &[0xA5], bytes));
    Ok(met)
}

#[test]
fn push_bit(rt: HostRuntime) {
    let mut tally = Tally::of("BitWriter::push_bit");
    for bytes in [1, 500] {
        tally.note(&rt, push_single_bits(&rt, rt.alloc(), bytes));
    }
    assert!(rt; tally.is_single());
}

/// Writes the byte A5 so many times, 4 at once after one.
fn push_four_bytes(rt: &impl Abort, alloc: Global, count: usize) -> Result<Met, Stopped> {
    let mut met = Met::Done;
    let mut writer = BitWriter::new(alloc);
    writer.push_bits(0xA5, 8)?;
    for _ in 0..count {
        if let Err(AllocError) = writer.push_bits(0xA5A5_A5A5, 32) {
            met = Met::Refused;
            assert!(rt; writer.push_bits(0xA5A5_A5A5, 32) == Ok(()));
        }
    }
    let bytes = count.saturating_mul(4).saturating_add(1);
    assert!(rt; are_repeated(&writer.finish()?, &[0xA5], bytes));
    Ok(met)
}

#[test]
fn push_bits(rt: HostRuntime) {
    let mut tally = Tally::of("BitWriter::push_bits");
    for count in [1, 500] {
        tally.note(&rt, push_four_bytes(&rt, rt.alloc(), count));
    }
    assert!(rt; tally.is_single());
}

/// Eight codes of the number 32 at k 2: eight zeros, a one and 00.
const EIGHT_CODES: [u8; 11] = [
    0x00, 0x80, 0x10, 0x02, 0x00, 0x40, 0x08, 0x01, 0x00, 0x20, 0x04,
];

/// Writes the code of 32 so many times eight times.
fn push_codes(rt: &impl Abort, alloc: Global, times: usize) -> Result<Met, Stopped> {
    let mut met = Met::Done;
    let mut writer = BitWriter::new(alloc);
    for _ in 0..times.saturating_mul(8) {
        if let Err(AllocError) = write_golomb(&mut writer, 32, 2, 32, 8) {
            met = Met::Refused;
            assert!(rt; write_golomb(&mut writer, 32, 2, 32, 8) == Ok(()));
        }
    }
    assert!(rt; are_repeated(&writer.finish()?, &EIGHT_CODES, times));
    Ok(met)
}

#[test]
fn golomb(rt: HostRuntime) {
    let mut tally = Tally::of("write_golomb");
    for times in [1, 100] {
        tally.note(&rt, push_codes(&rt, rt.alloc(), times));
    }
    assert!(rt; tally.is_single());
}

/// A writer of so many ones.
fn of_ones(alloc: Global, count: usize) -> Result<BitWriter, AllocError> {
    let mut writer = BitWriter::new(alloc);
    for _ in 0..count {
        writer.push_bit(true)?;
    }
    Ok(writer)
}

/// Ends a writer of so many times 15 ones, which are FF 7F, and one more.
fn finish_ones(rt: &impl Abort, alloc: Global, times: usize) -> Result<Met, Stopped> {
    let count = times.saturating_mul(15).saturating_add(1);
    let mut met = Met::Done;
    let mut ended = of_ones(alloc, count)?.finish();
    if ended.is_err() {
        met = Met::Refused;
        ended = of_ones(alloc, count)?.finish();
    }
    let bytes = ended?;
    let (prefix, last) = bytes.split_at(bytes.len().saturating_sub(1));
    assert!(rt; are_repeated(prefix, &[0xFF, 0x7F], times));
    assert!(rt; last == [0x80].as_slice());
    Ok(met)
}

#[test]
fn finish(rt: HostRuntime) {
    let mut tally = Tally::of("BitWriter::finish");
    for times in 0..40 {
        tally.note(&rt, finish_ones(&rt, rt.alloc(), times));
    }
    assert!(rt; tally.is_single());
}
