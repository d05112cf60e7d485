//! Copies of every kind, checked: each is spelt in hexadecimal digits, and its report is known.

use super::failing::{lines_in, report_of_prefix};
use super::memory::{GOOD, Manners, MemoryFiles};
use super::{copies, run_line};
use jls_io::Counted;
use std::alloc::Global;
use std::fmt::Write;
use std::process::Abort;
use std::test::Fail;

/// A copy of four lines of four samples.
const FOUR_LINES: &str =
    "FF D8 FF F7 00 0B 08 00 04 00 04 01 01 11 00 FF DA 00 08 01 01 00 00 00 00 C0 00 00 6C 80 20 8E 01 C0 00 00 57 \
     40 00 00 6E E6 00 00 01 BC 18 00 00 05 D8 00 00 91 60 FF D9";

/// A copy, the status, and the report, whose lines are parted by ` / `.
const COPIES: [(&str, u8, &str); 20] = [
    // Four lines; with another interleave mode; and with a segment that is passed over.
    (
        FOUR_LINES,
        0,
        "end eoi 55 / picture 4x4, 8 bits, components 1 / settled 4, missing 0, disputed 0",
    ),
    (
        "FF D8 FF F7 00 0B 08 00 04 00 04 01 01 11 00 FF DA 00 08 01 01 00 00 01 00 C0 00 00 6C 80 20 8E 01 C0 00 00 57 \
         40 00 00 6E E6 00 00 01 BC 18 00 00 05 D8 00 00 91 60 FF D9",
        0,
        "end eoi 55 / picture 4x4, 8 bits, components 1 / settled 4, missing 0, disputed 0",
    ),
    (
        "FF D8 FF E8 00 04 AA BB FF F7 00 0B 08 00 04 00 04 01 01 11 00 FF DA 00 08 01 01 00 00 00 00 C0 00 00 6C 80 20 \
         8E 01 C0 00 00 57 40 00 00 6E E6 00 00 01 BC 18 00 00 05 D8 00 00 91 60 FF D9",
        0,
        "end eoi 61 / picture 4x4, 8 bits, components 1 / settled 4, missing 0, disputed 0",
    ),
    // A byte after its scan data.
    (
        "FF D8 FF F7 00 0B 08 00 04 00 04 01 01 11 00 FF DA 00 08 01 01 00 00 00 00 C0 00 00 6C 80 20 8E 01 C0 00 00 57 \
         40 00 00 6E E6 00 00 01 BC 18 00 00 05 D8 00 00 91 60 00 FF D9",
        1,
        "piece 0 0 25 long / end eoi 56 / picture 4x4, 8 bits, components 1 / settled 0, missing 4, disputed 0 / missing 1 0-3",
    ),
    // Two lines of one sample, without restart markers and with one.
    (
        "FF D8 FF F7 00 0B 08 00 02 00 01 01 01 11 00 FF DA 00 08 01 01 00 00 00 00 C0 FF D9",
        0,
        "end eoi 26 / picture 1x2, 8 bits, components 1 / settled 2, missing 0, disputed 0",
    ),
    (
        "FF D8 FF F7 00 0B 08 00 02 00 01 01 01 11 00 FF DD 00 04 00 01 FF DA 00 08 01 01 00 00 00 00 80 FF D0 80 FF D9",
        0,
        "end eoi 35 / picture 1x2, 8 bits, components 1 / settled 2, missing 0, disputed 0",
    ),
    // Three components by line.
    (
        "FF D8 FF F7 00 11 08 00 01 00 04 03 01 11 00 02 11 00 03 11 00 FF DA 00 0C 03 01 00 02 00 03 00 00 01 00 FF 78 \
         FF D9",
        0,
        "end eoi 37 / picture 4x1, 8 bits, components 1,2,3 / settled 3, missing 0, disputed 0",
    ),
    // Eight restart markers lost.
    (
        "FF D8 FF F7 00 0B 08 00 0A 00 01 01 01 11 00 FF DD 00 04 00 01 FF DA 00 08 01 01 00 00 00 00 80 FF D0 05 FF D9",
        1,
        "end eoi 35 / picture 1x10, 8 bits, components 1 / settled 2, missing 8, disputed 0 / missing 1 2-9",
    ),
    // A restart marker where there are no restart intervals.
    (
        "FF D8 FF F7 00 0B 08 00 01 00 01 01 01 11 00 FF DA 00 08 01 01 00 00 00 00 80 FF D0 80 FF D9",
        0,
        "piece 0 1 28 beyond / end eoi 29 / picture 1x1, 8 bits, components 1 / settled 1, missing 0, disputed 0",
    ),
    // A restart interval in three bytes.
    (
        "FF D8 FF F7 00 0B 08 00 02 00 01 01 01 11 00 FF DD 00 05 00 00 01 FF DA 00 08 01 01 00 00 00 00 80 FF D0 80 FF \
         D9",
        0,
        "end eoi 36 / picture 1x2, 8 bits, components 1 / settled 2, missing 0, disputed 0",
    ),
    // Two scans of one component that differ.
    (
        "FF D8 FF F7 00 0B 08 00 01 00 01 01 01 11 00 FF DA 00 08 01 01 00 00 00 00 50 FF DA 00 08 01 01 00 00 00 00 40 \
         FF D9",
        1,
        "end eoi 37 / picture 1x1, 8 bits, components 1 / settled 0, missing 0, disputed 1 / disputed 1 0 2",
    ),
    // An interval of more than 2^28 samples.
    (
        "FF D8 FF F7 00 0B 08 FF FF FF FF 01 01 11 00 FF DA 00 08 01 01 00 00 00 00 80 FF D9",
        1,
        "end fault 15 15 / picture 65535x65535, 8 bits, components 1 / settled 0, missing 65535, disputed 0 / missing 1 0-65534",
    ),
    // And of few enough.
    (
        "FF D8 FF F7 00 0B 08 FF FF FF FF 01 01 11 00 FF DD 00 04 10 00 FF DA 00 08 01 01 00 00 00 00",
        1,
        "piece 0 0 31 broken / end input 31 / picture 65535x65535, 8 bits, components 1 / \
         settled 0, missing 65535, disputed 0 / missing 1 0-65534",
    ),
    // A long run, at the end of the image and at that of the input.
    (
        "FF D8 FF F7 00 0B 08 10 00 FF FF 01 01 11 00 FF DA 00 08 01 01 00 00 00 00 FF 7F FF 7F FF 7F FF 7F FF 7F FF 7F \
         FF 7F FF 7F FF D9",
        1,
        "piece 0 0 25 broken / end eoi 41 / picture 65535x4096, 8 bits, components 1 / \
         settled 0, missing 4096, disputed 0 / missing 1 0-4095",
    ),
    (
        "FF D8 FF F7 00 0B 08 10 00 FF FF 01 01 11 00 FF DA 00 08 01 01 00 00 00 00 FF 7F FF 7F FF 7F FF 7F FF 7F FF 7F \
         FF 7F FF 7F",
        1,
        "piece 0 0 25 broken / end input 41 / picture 65535x4096, 8 bits, components 1 / \
         settled 45, missing 4051, disputed 0 / missing 1 45-4095",
    ),
    // Lines that stand before a cut, and lines that don't.
    (
        "FF D8 FF F7 00 0B 08 00 02 00 01 01 01 11 00 FF DA 00 08 01 01 00 00 00 00 50 00",
        1,
        "piece 0 0 25 broken / end input 27 / picture 1x2, 8 bits, components 1 / settled 1, missing 1, disputed 0 / missing 1 1-1",
    ),
    (
        "FF D8 FF F7 00 0B 08 00 02 00 01 01 01 11 00 FF DA 00 08 01 01 00 00 00 00 50 00 00 15",
        1,
        "piece 0 0 25 broken / end input 29 / picture 1x2, 8 bits, components 1 / settled 1, missing 1, disputed 0 / missing 1 1-1",
    ),
    (
        "FF D8 FF F7 00 0B 08 00 02 00 01 01 01 11 00 FF DA 00 08 01 01 00 00 00 00 50 00 00 10",
        1,
        "piece 0 0 25 broken / end input 29 / picture 1x2, 8 bits, components 1 / settled 0, missing 2, disputed 0 / missing 1 0-1",
    ),
    (
        "FF D8 FF F7 00 0B 08 00 02 00 01 01 01 11 00 FF DA 00 08 01 01 00 00 00 00 50 00 00 00 00",
        1,
        "piece 0 0 25 broken / end input 30 / picture 1x2, 8 bits, components 1 / settled 0, missing 2, disputed 0 / missing 1 0-1",
    ),
    (
        "FF D8 FF F7 00 0B 08 00 02 00 01 01 01 11 00 FF DA 00 08 01 01 00 00 00 00 50 00 FF D9",
        1,
        "piece 0 0 25 broken / end eoi 27 / picture 1x2, 8 bits, components 1 / settled 0, missing 2, disputed 0 / missing 1 0-1",
    ),
];

/// The bytes that pairs of hexadecimal digits spell.
fn bytes_of(alloc: Global, text: &str) -> Result<Vec<u8>, Fail> {
    let mut bytes = Vec::new(alloc);
    for digits in text.split_whitespace() {
        bytes.push(u8::from_str_radix(digits, 16)?)?;
    }
    Ok(bytes)
}

/// Checks this copy, by reads of every kind.
fn check_copy(
    rt: &impl Abort,
    alloc: Global,
    copy: &[u8],
    status: u8,
    report: &str,
) -> Result<(), Fail> {
    let parted = Manners {
        parts_at_ff: true,
        ..GOOD
    };
    for manners in [GOOD, Manners { most: 1, ..GOOD }, parted] {
        let files = [("copy", copy)];
        let mut reported = Vec::new(alloc);
        let mut desk = MemoryFiles::new(alloc, &files, manners);
        let (found, faults) = run_line(
            alloc,
            "check copy",
            &mut desk,
            &mut Counted::new(&mut reported),
        )?;
        assert!(rt;
            found == status && reported.as_slice() == report.as_bytes() && faults.is_empty(),
            "{report}"
        );
    }
    Ok(())
}

#[test]
fn checks_copies_of_every_kind(rt: HostRuntime) -> Result<(), Fail> {
    let alloc = rt.alloc();
    for &(text, status, lines) in &COPIES {
        let copy = bytes_of(alloc, text)?;
        let mut report = String::new(alloc);
        for line in lines.split(" / ") {
            write!(report, "{line}\n")?;
        }
        check_copy(&rt, alloc, &copy, status, &report)?;
    }
    Ok(())
}

#[test]
fn checks_the_prefix_of_a_copy(rt: HostRuntime) -> Result<(), Fail> {
    let alloc = rt.alloc();
    for count in 15..61usize {
        let report = report_of_prefix(alloc, count, false)?;
        let status = if lines_in(count) == 10 { 0 } else { 1 };
        check_copy(&rt, alloc, &copies::WHOLE[..count], status, &report)?;
    }
    Ok(())
}

/// How many of the four lines of the first copy stand in its first so many bytes of scan data.
fn lines_in_head(count: usize) -> usize {
    match count {
        0..=5 => 0,
        6..=16 => 1,
        17..=25 => 2,
        26..=29 => 3,
        _ => 4,
    }
}

fn report_of_head(alloc: Global, count: usize) -> Result<String, Fail> {
    let mut out = String::new(alloc);
    let lines = lines_in_head(count);
    let missing = 4usize.saturating_sub(lines);
    if missing > 0 {
        out.push_str("piece 0 0 25 broken\n")?;
    }
    let end = 25usize.saturating_add(count);
    write!(out, "end input {end}\npicture 4x4, 8 bits, components 1\n")?;
    write!(out, "settled {lines}, missing {missing}, disputed 0\n")?;
    if missing > 0 {
        write!(out, "missing 1 {lines}-3\n")?;
    }
    Ok(out)
}

#[test]
fn checks_the_prefix_of_an_interval(rt: HostRuntime) -> Result<(), Fail> {
    let alloc = rt.alloc();
    let copy = bytes_of(alloc, FOUR_LINES)?;
    for count in 0..32usize {
        let report = report_of_head(alloc, count)?;
        let status = if lines_in_head(count) == 4 { 0 } else { 1 };
        let Some(prefix) = copy.get(..25 + count) else {
            return Err(Fail::from("a shorter copy"));
        };
        check_copy(&rt, alloc, prefix, status, &report)?;
    }
    Ok(())
}
