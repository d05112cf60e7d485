//! Texts that were written out by hand, and what is wrong with each change of them.

use crate::partial::{TWO_READINGS as TWO_READINGS_2, TWO_SOURCES, has_text};
use jls_partial::{Partial, TextFault};
use jls_values::Shape;
use std::alloc::Global;
use std::test::Fail;

/// One sample of 8 bits of the component with the identifier 1, in version 1: the readings 3 and 5.
const TWO_READINGS: &[u8] =
    b"JLSP\x01\x08\0\x01\0\x01\x01\x01\0\0\0\x01\0\0\0\0\0\0\0\0\0\0\x02\0\x03\0\x05";

/// The components with the identifiers R and G, one sample each, in version 1: 65 and 66, the bytes of A and B.
const TWO_COMPONENTS: &[u8] =
    b"JLSP\x01\x08\0\x01\0\x01\x02RG\0\0\0\x02\0\0\0\0\0\0\0\0\0\0\x01\0A\x01\0\0\0\0\0\0\0\0\0\x01\0B";

/// The same in version 2.
const TWO_COMPONENTS_2: &[u8] =
    b"JLSP\x02\x08\0\x01\0\x01\x02RG\0\0\0\x02\0\0\0\0\0\0\0\0\0\0\x01\0A\0\0\0\0\0\0\0\0\x01\0\0\0\0\0\0\0\0\0\x01\0B\0\0\0\0\0\0\0\0";

/// A line of two samples with the readings 3, 5 and 3, 6, in version 1.
const TWO_SAMPLES: &[u8] =
    b"JLSP\x01\x08\0\x02\0\x01\x01\x01\0\0\0\x01\0\0\0\0\0\0\0\0\0\0\x02\0\x03\0\x05\0\x03\0\x06";

fn fault_of(alloc: Global, text: &[u8]) -> Option<TextFault> {
    match Partial::from_bytes(alloc, text) {
        Ok(_) => None,
        Err(fault) => Some(fault),
    }
}

/// The fault of a text in which one byte is another.
fn fault_of_change(
    alloc: Global,
    text: &[u8],
    at: usize,
    byte: u8,
) -> Result<Option<TextFault>, Fail> {
    let mut text = Vec::from_slice(alloc, text)?;
    if let Some(old) = text.get_mut(at) {
        *old = byte;
    }
    Ok(fault_of(alloc, &text))
}

/// Texts of both versions, and the texts that are written of them.
const VERSIONS: [(&[u8], &[u8]); 4] = [
    (TWO_READINGS, TWO_READINGS_2),
    (TWO_READINGS_2, TWO_READINGS_2),
    (TWO_COMPONENTS, TWO_COMPONENTS_2),
    (TWO_SOURCES, TWO_SOURCES),
];

/// Whether what a text says is written as the other one.
fn is_written_as(alloc: Global, text: &[u8], written: &[u8]) -> Result<bool, Fail> {
    let read = Partial::from_bytes(alloc, text)?;
    has_text(alloc, &read, written)
}

#[test]
fn reads_both_versions(rt: HostRuntime) -> Result<(), Fail> {
    for &(text, written) in &VERSIONS {
        assert!(rt; is_written_as(rt.alloc(), text, written)?, "{written:?}");
    }
    Ok(())
}

/// The text of ten lines of one sample, 0 to 9.
fn ten_lines_text(alloc: Global) -> Result<Vec<u8>, Fail> {
    let mut text = Vec::from_slice(
        alloc,
        &[0x4A, 0x4C, 0x53, 0x50, 1, 8, 0, 1, 0, 10, 1, 1, 0, 0, 0, 10],
    )?;
    for line in 0..10u8 {
        text.extend_from_slice(&[0, 0, line, 0, 0, 0, 0, 0, 0, 0, 1, 0, line])?;
    }
    Ok(text)
}

/// The picture of these lines.
fn ten_lines(alloc: Global) -> Result<Partial, Fail> {
    let mut lines = Partial::empty(alloc, Shape::new(8, 1, 10, &[1])?);
    for line in 0..10u16 {
        lines.insert(0, line, &[line])?;
    }
    Ok(lines)
}

/// Whether a text gives this picture.
fn gives(alloc: Global, text: &[u8], wanted: &Partial) -> Result<bool, Fail> {
    Ok(Partial::from_bytes(alloc, text)? == *wanted)
}

#[test]
fn reads_a_text_of_ten_lines(rt: HostRuntime) -> Result<(), Fail> {
    let text = ten_lines_text(rt.alloc())?;
    assert!(rt; gives(rt.alloc(), &text, &ten_lines(rt.alloc())?)?);
    Ok(())
}

#[test]
fn a_text_that_ends_early_is_truncated_there(rt: HostRuntime) {
    for text in [TWO_READINGS, TWO_SOURCES] {
        for length in 0..text.len() {
            let fault = TextFault::Truncated(length as u64);
            assert!(rt;
                fault_of(rt.alloc(), &text[..length]) == Some(fault),
                "{length}"
            );
        }
    }
}

/// A byte that is changed, by its offset, what it becomes, and the fault of the text then.
const CHANGES: [(&[u8], usize, u8, TextFault); 42] = [
    (TWO_READINGS, 0, 0x4B, TextFault::Magic(0)),
    (TWO_READINGS, 1, 0x4A, TextFault::Magic(1)),
    (TWO_READINGS, 2, 0x4A, TextFault::Magic(2)),
    (TWO_READINGS, 3, 0x4A, TextFault::Magic(3)),
    (TWO_READINGS, 4, 2, TextFault::Truncated(31)),
    (TWO_READINGS, 4, 3, TextFault::Magic(4)),
    (TWO_READINGS, 5, 1, TextFault::BadShape(5)),
    (TWO_READINGS, 5, 17, TextFault::BadShape(5)),
    (TWO_READINGS, 7, 0, TextFault::BadShape(5)),
    (TWO_READINGS, 9, 0, TextFault::BadShape(5)),
    (TWO_READINGS, 10, 0, TextFault::BadShape(5)),
    (TWO_READINGS, 10, 5, TextFault::BadShape(5)),
    (TWO_READINGS, 15, 0, TextFault::Trailing(16)),
    (TWO_READINGS, 15, 2, TextFault::Truncated(31)),
    (TWO_READINGS, 12, 255, TextFault::Truncated(31)),
    (TWO_READINGS, 16, 1, TextFault::Place(16)),
    (TWO_READINGS, 18, 1, TextFault::Place(16)),
    (TWO_READINGS, 26, 0, TextFault::Count(19)),
    (TWO_READINGS, 26, 1, TextFault::Trailing(29)),
    (TWO_READINGS, 26, 3, TextFault::Truncated(31)),
    (TWO_READINGS, 19, 255, TextFault::Truncated(31)),
    (TWO_READINGS, 27, 1, TextFault::Sample(27)),
    (TWO_READINGS, 29, 1, TextFault::Sample(29)),
    (TWO_READINGS, 28, 5, TextFault::Order(29)),
    (TWO_READINGS, 30, 3, TextFault::Order(29)),
    (TWO_READINGS, 30, 2, TextFault::Order(29)),
    (TWO_COMPONENTS, 17, 1, TextFault::Place(30)),
    (TWO_COMPONENTS, 17, 2, TextFault::Place(17)),
    (TWO_COMPONENTS, 30, 0, TextFault::Place(30)),
    (TWO_COMPONENTS, 30, 2, TextFault::Place(30)),
    (TWO_SAMPLES, 29, 1, TextFault::Sample(29)),
    (TWO_SAMPLES, 33, 1, TextFault::Sample(33)),
    (TWO_SAMPLES, 32, 2, TextFault::Order(31)),
    (TWO_SAMPLES, 34, 5, TextFault::Order(31)),
    (TWO_SAMPLES, 34, 4, TextFault::Order(31)),
    (TWO_SOURCES, 4, 1, TextFault::Trailing(29)),
    (TWO_SOURCES, 4, 3, TextFault::Magic(4)),
    (TWO_SOURCES, 36, 0, TextFault::Trailing(37)),
    (TWO_SOURCES, 36, 3, TextFault::Truncated(45)),
    (TWO_SOURCES, 40, 7, TextFault::Order(41)),
    (TWO_SOURCES, 44, 2, TextFault::Order(41)),
    (TWO_SOURCES, 44, 1, TextFault::Order(41)),
];

#[test]
fn finds_the_fault_of_one_byte(rt: HostRuntime) -> Result<(), Fail> {
    for &(text, at, byte, fault) in &CHANGES {
        assert!(rt;
            fault_of_change(rt.alloc(), text, at, byte)? == Some(fault),
            "byte {at} is {byte}"
        );
    }
    Ok(())
}

/// Texts, and where a number stands in them that is not in its last byte.
const NUMBERS: [(&[u8], usize, usize); 5] = [
    (TWO_READINGS, 12, 15),
    (TWO_READINGS, 19, 26),
    (TWO_SOURCES, 12, 15),
    (TWO_SOURCES, 19, 26),
    (TWO_SOURCES, 29, 36),
];

/// Numbers of entries, readings and sources beyond what is there, up to 255 * 2^56: each by one byte of the number.
#[test]
fn a_number_that_claims_more_is_truncated_at_the_end(rt: HostRuntime) -> Result<(), Fail> {
    for &(text, first, end) in &NUMBERS {
        for at in first..end {
            for byte in [1, 255] {
                let fault = TextFault::Truncated(text.len() as u64);
                assert!(rt;
                    fault_of_change(rt.alloc(), text, at, byte)? == Some(fault),
                    "byte {at} is {byte}"
                );
            }
        }
    }
    Ok(())
}

/// Readings, and the fault of a text that ends in them.
const READINGS: [(&[u8], TextFault); 5] = [
    (&[0, 5, 0, 3], TextFault::Order(29)),
    (&[0, 3, 0, 3], TextFault::Order(29)),
    (&[0, 3, 1, 0], TextFault::Sample(29)),
    (&[0, 5, 1, 0], TextFault::Sample(29)),
    (&[0, 3, 0, 5, 0], TextFault::Trailing(31)),
];

/// The fault of the text that ends in these readings.
fn fault_of_readings(alloc: Global, readings: &[u8]) -> Result<Option<TextFault>, Fail> {
    let mut text = Vec::from_slice(alloc, &TWO_READINGS[..27])?;
    text.extend_from_slice(readings)?;
    Ok(fault_of(alloc, &text))
}

#[test]
fn finds_the_fault_of_several_bytes(rt: HostRuntime) -> Result<(), Fail> {
    for &(readings, fault) in &READINGS {
        assert!(rt;
            fault_of_readings(rt.alloc(), readings)? == Some(fault),
            "{readings:?}"
        );
    }
    Ok(())
}

/// The shape is judged after the number of components, and again after the identifiers.
#[test]
fn the_shape_is_judged_twice(rt: HostRuntime) {
    for (text, fault) in [
        (
            &b"JLSP\x01\x08\0\x01\0\x01\x02\x01"[..],
            TextFault::Truncated(12),
        ),
        (
            b"JLSP\x01\x08\0\x01\0\x01\x02\x01\x01",
            TextFault::BadShape(5),
        ),
        (b"JLSP\x01\x11\0\x01\0\x01", TextFault::Truncated(10)),
        (b"JLSP\x01\x11\0\x01\0\x01\x02", TextFault::BadShape(5)),
    ] {
        assert!(rt; fault_of(rt.alloc(), text) == Some(fault), "{text:?}");
    }
}
