//! Copies, and what each gives: worked out by hand from the formats or by another reader, not by this crate.

/// A copy of a picture of four lines.
pub const FOUR_LINES: &str =
    "FF D8 FF F7 00 0B 08 00 04 00 04 01 01 11 00 FF DA 00 08 01 01 00 00 00 00 C0 00 00 6C 80 20 8E 01 C0 00 00 \
     57 40 00 00 6E E6 00 00 01 BC 18 00 00 05 D8 00 00 91 60 FF D9";

/// A copy of ten lines, each an interval of its own.
pub const TEN_LINES: &str =
    "FF D8 FF F7 00 0B 08 00 0A 00 01 01 01 11 00 FF DD 00 04 00 01 FF DA 00 08 01 01 00 00 00 00 80 FF D0 50 FF \
     D1 70 FF D2 28 FF D3 38 FF D4 14 FF D5 1C FF D6 0A FF D7 0E FF D0 05 FF D9";

/// A copy of a large picture of which there are eight bytes FF 7F.
pub const LARGE_PICTURE: &str =
    "FF D8 FF F7 00 0B 08 10 00 FF FF 01 01 11 00 FF DA 00 08 01 01 00 00 00 00 FF 7F FF 7F FF 7F FF 7F FF 7F FF \
     7F FF 7F FF 7F FF D9";

/// The bytes of a copy, and what it gives: its readings as component, line and samples, then each faulty piece as scan, interval,
/// offset and kind, their number and the copy's end; or the fault for which it has no picture.
const COPIES: [(&str, &str); 42] = [
    // A picture of four lines.
    (
        FOUR_LINES,
        "0.0=[0, 0, 90, 74] 0.1=[68, 50, 43, 205] 0.2=[64, 145, 145, 145] 0.3=[100, 145, 145, 145] | 0 Eoi(55)",
    ),
    // The same with ILV 1 for its one component.
    (
        "FF D8 FF F7 00 0B 08 00 04 00 04 01 01 11 00 FF DA 00 08 01 01 00 00 01 00 C0 00 00 6C 80 20 8E 01 C0 00 00 \
         57 40 00 00 6E E6 00 00 01 BC 18 00 00 05 D8 00 00 91 60 FF D9",
        "0.0=[0, 0, 90, 74] 0.1=[68, 50, 43, 205] 0.2=[64, 145, 145, 145] 0.3=[100, 145, 145, 145] | 0 Eoi(55)",
    ),
    // The same after an application segment.
    (
        "FF D8 FF E8 00 04 AA BB FF F7 00 0B 08 00 04 00 04 01 01 11 00 FF DA 00 08 01 01 00 00 00 00 C0 00 00 6C 80 \
         20 8E 01 C0 00 00 57 40 00 00 6E E6 00 00 01 BC 18 00 00 05 D8 00 00 91 60 FF D9",
        "0.0=[0, 0, 90, 74] 0.1=[68, 50, 43, 205] 0.2=[64, 145, 145, 145] 0.3=[100, 145, 145, 145] | 0 Eoi(61)",
    ),
    // Ten lines, each an interval of its own.
    (
        TEN_LINES,
        "0.0=[0] 0.1=[1] 0.2=[2] 0.3=[3] 0.4=[4] 0.5=[5] 0.6=[6] 0.7=[7] 0.8=[8] 0.9=[9] | 0 Eoi(59)",
    ),
    // Seven markers lost.
    (
        "FF D8 FF F7 00 0B 08 00 0A 00 01 01 01 11 00 FF DD 00 04 00 01 FF DA 00 08 01 01 00 00 00 00 80 FF D7 0E FF \
         D0 05 FF D9",
        "0.0=[0] 0.8=[8] 0.9=[9] | 0 Eoi(38)",
    ),
    // Eight markers lost: the last piece gets number 1.
    (
        "FF D8 FF F7 00 0B 08 00 0A 00 01 01 01 11 00 FF DD 00 04 00 01 FF DA 00 08 01 01 00 00 00 00 80 FF D0 05 FF \
         D9",
        "0.0=[0] 0.1=[9] | 0 Eoi(35)",
    ),
    // One marker lost, so that two pieces are one.
    (
        "FF D8 FF F7 00 0B 08 00 0A 00 01 01 01 11 00 FF DD 00 04 00 01 FF DA 00 08 01 01 00 00 00 00 80 FF D0 50 FF \
         D1 70 FF D2 28 38 FF D4 14 FF D5 1C FF D6 0A FF D7 0E FF D0 05 FF D9",
        "0.0=[0] 0.1=[1] 0.2=[2] 0.5=[5] 0.6=[6] 0.7=[7] 0.8=[8] 0.9=[9] | 0 3 40 Long; 1 Eoi(57)",
    ),
    // FF A3, which no data bits hold, in a piece.
    (
        "FF D8 FF F7 00 0B 08 00 0A 00 01 01 01 11 00 FF DD 00 04 00 01 FF DA 00 08 01 01 00 00 00 00 80 FF D0 50 FF \
         D1 70 FF A3 FF D2 28 FF D3 38 FF D4 14 FF D5 1C FF D6 0A FF D7 0E FF D0 05 FF D9",
        "0.0=[0] 0.1=[1] 0.3=[3] 0.4=[4] 0.5=[5] 0.6=[6] 0.7=[7] 0.8=[8] 0.9=[9] | 0 2 37 Broken; 1 Eoi(61)",
    ),
    // A marker more than there are intervals.
    (
        "FF D8 FF F7 00 0B 08 00 0A 00 01 01 01 11 00 FF DD 00 04 00 01 FF DA 00 08 01 01 00 00 00 00 80 FF D0 50 FF \
         D1 70 FF D2 28 FF D3 38 FF D4 14 FF D5 1C FF D6 0A FF D7 0E FF D0 05 FF D5 FF D9",
        "0.0=[0] 0.1=[1] 0.2=[2] 0.3=[3] 0.4=[4] 0.5=[5] 0.6=[6] 0.7=[7] 0.8=[8] 0.9=[9] | 0 14 61 Beyond; 1 Eoi(61)",
    ),
    // A marker where there is one interval.
    (
        "FF D8 FF F7 00 0B 08 00 01 00 01 01 01 11 00 FF DA 00 08 01 01 00 00 00 00 80 FF D0 80 FF D9",
        "0.0=[0] | 0 1 28 Beyond; 1 Eoi(29)",
    ),
    // Ri in four bytes.
    (
        "FF D8 FF F7 00 0B 08 00 0A 00 01 01 01 11 00 FF DD 00 06 00 00 00 01 FF DA 00 08 01 01 00 00 00 00 80 FF D0 \
         50 FF D1 70 FF D2 28 FF D3 38 FF D4 14 FF D5 1C FF D6 0A FF D7 0E FF D0 05 FF D9",
        "0.0=[0] 0.1=[1] 0.2=[2] 0.3=[3] 0.4=[4] 0.5=[5] 0.6=[6] 0.7=[7] 0.8=[8] 0.9=[9] | 0 Eoi(61)",
    ),
    // Two lines and one marker.
    (
        "FF D8 FF F7 00 0B 08 00 02 00 01 01 01 11 00 FF DD 00 04 00 01 FF DA 00 08 01 01 00 00 00 00 80 FF D0 80 FF \
         D9",
        "0.0=[0] 0.1=[0] | 0 Eoi(35)",
    ),
    // Preset parameters before the scan.
    (
        "FF D8 FF F7 00 0B 08 00 01 00 01 01 01 11 00 FF F8 00 0D 01 00 0F 00 00 00 00 00 00 00 00 FF DA 00 08 01 01 \
         00 00 00 00 40 FF D9",
        "0.0=[15] | 0 Eoi(41)",
    ),
    // Two components by line.
    (
        "FF D8 FF F7 00 0E 08 00 01 00 01 02 01 11 00 02 11 00 FF DA 00 0A 02 01 00 02 00 00 01 00 07 16 FF D9",
        "0.0=[10] 1.0=[10] | 0 Eoi(32)",
    ),
    // Two components, a scan each.
    (
        "FF D8 FF F7 00 0E 08 00 01 00 01 02 01 11 00 02 11 00 FF DA 00 08 01 01 00 00 00 00 07 FF DA 00 08 01 02 00 \
         00 00 00 07 FF D9",
        "0.0=[10] 1.0=[10] | 0 Eoi(40)",
    ),
    // Two scans of two components, each under preset parameters of its own.
    (
        "FF D8 FF F7 00 0E 08 00 01 00 01 02 01 11 00 02 11 00 FF F8 00 0D 01 00 0F 00 00 00 00 00 00 00 00 FF DA 00 \
         08 01 01 00 00 00 00 40 FF F8 00 0D 01 00 00 00 00 00 00 00 00 00 00 FF DA 00 08 01 02 00 00 00 00 40 FF D9",
        "0.0=[15] 1.0=[255] | 0 Eoi(70)",
    ),
    // Two scans of one component that disagree.
    (
        "FF D8 FF F7 00 0B 08 00 01 00 01 01 01 11 00 FF DA 00 08 01 01 00 00 00 00 50 FF DA 00 08 01 01 00 00 00 00 \
         40 FF D9",
        "0.0=[1] 0.0=[255] | 0 Eoi(37)",
    ),
    // A scan that is not lossless ends the copy.
    (
        "FF D8 FF F7 00 0B 08 00 0A 00 01 01 01 11 00 FF DD 00 04 00 01 FF DA 00 08 01 01 00 01 00 00 80 FF D0 50 FF \
         D1 70 FF D2 28 FF D3 38 FF D4 14 FF D5 1C FF D6 0A FF D7 0E FF D0 05 FF D9",
        "| 0 Header(Lossy, 21)",
    ),
    // The input ends after FF.
    (
        "FF D8 FF F7 00 0B 08 00 0A 00 01 01 01 11 00 FF DD 00 04 00 01 FF DA 00 08 01 01 00 00 00 00 80 FF D0 50 FF \
         D1 70 FF D2 28 FF D3 38 FF",
        "0.0=[0] 0.1=[1] 0.2=[2] 0.3=[3] 0.4=[4] | 0 Input(45)",
    ),
    // No byte.
    ("", "NoPicture(Ended, 0)"),
    // A byte that begins no marker.
    ("00", "NoPicture(NoSoi, 0)"),
    // No frame before the end of the image.
    ("FF D8 FF D9", "NoPicture(NoFrame, 2)"),
    // A precision of 1.
    (
        "FF D8 FF F7 00 0B 01 00 04 00 04 01 01 11 00 FF DA 00 08 01 01 00 00 00 00 C0 00 00 6C 80 20 8E 01 C0 00 00 \
         57 40 00 00 6E E6 00 00 01 BC 18 00 00 05 D8 00 00 91 60 FF D9",
        "NoPicture(BadShape, 2)",
    ),
    // Bits left over.
    (
        "FF D8 FF F7 00 0B 08 00 04 00 04 01 01 11 00 FF DA 00 08 01 01 00 00 00 00 C0 00 00 6C 80 20 8E 01 C0 00 00 \
         57 40 00 00 6E E6 00 00 01 BC 18 00 00 05 D8 00 00 91 60 00 FF D9",
        "| 0 0 25 Long; 1 Eoi(56)",
    ),
    // Bytes after the end of the image change nothing.
    (
        "FF D8 FF F7 00 0B 08 00 01 00 01 01 01 11 00 FF DA 00 08 01 01 00 00 00 00 80 FF D9 FF DA 00",
        "0.0=[0] | 0 Eoi(26)",
    ),
    // The input ends before the first bit of two lines.
    (
        "FF D8 FF F7 00 0B 08 00 02 00 01 01 01 11 00 FF DA 00 08 01 01 00 00 00 00",
        "| 0 0 25 Broken; 1 Input(25)",
    ),
    // It ends in the zeros of line 1.
    (
        "FF D8 FF F7 00 0B 08 00 02 00 01 01 01 11 00 FF DA 00 08 01 01 00 00 00 00 50",
        "0.0=[1] | 0 0 25 Broken; 1 Input(26)",
    ),
    // It ends in an escape of line 1 that can still be a number.
    (
        "FF D8 FF F7 00 0B 08 00 02 00 01 01 01 11 00 FF DA 00 08 01 01 00 00 00 00 50 00 00 15",
        "0.0=[1] | 0 0 25 Broken; 1 Input(29)",
    ),
    // It ends in an escape that could only be a number which has a short code.
    (
        "FF D8 FF F7 00 0B 08 00 02 00 01 01 01 11 00 FF DA 00 08 01 01 00 00 00 00 50 00 00 10",
        "| 0 0 25 Broken; 1 Input(29)",
    ),
    // After so many zeros that no code begins with them.
    (
        "FF D8 FF F7 00 0B 08 00 02 00 01 01 01 11 00 FF DA 00 08 01 01 00 00 00 00 50 00 00 00 00",
        "| 0 0 25 Broken; 1 Input(30)",
    ),
    // FF bytes that end the input are dropped first.
    (
        "FF D8 FF F7 00 0B 08 00 02 00 01 01 01 11 00 FF DA 00 08 01 01 00 00 00 00 50 00 FF FF",
        "0.0=[1] | 0 0 25 Broken; 1 Input(29)",
    ),
    // A marker closes the piece, which has no head then.
    (
        "FF D8 FF F7 00 0B 08 00 02 00 01 01 01 11 00 FF DA 00 08 01 01 00 00 00 00 50 00 FF D9",
        "| 0 0 25 Broken; 1 Eoi(27)",
    ),
    // Three components by line.
    (
        "FF D8 FF F7 00 11 08 00 01 00 04 03 01 11 00 02 11 00 03 11 00 FF DA 00 0C 03 01 00 02 00 03 00 00 01 00 FF \
         78 FF D9",
        "0.0=[0, 0, 0, 0] 1.0=[0, 0, 0, 0] 2.0=[0, 0, 0, 0] | 0 Eoi(37)",
    ),
    // Ri in three bytes.
    (
        "FF D8 FF F7 00 0B 08 00 0A 00 01 01 01 11 00 FF DD 00 05 00 00 01 FF DA 00 08 01 01 00 00 00 00 80 FF D0 50 \
         FF D1 70 FF D2 28 FF D3 38 FF D4 14 FF D5 1C FF D6 0A FF D7 0E FF D0 05 FF D9",
        "0.0=[0] 0.1=[1] 0.2=[2] 0.3=[3] 0.4=[4] 0.5=[5] 0.6=[6] 0.7=[7] 0.8=[8] 0.9=[9] | 0 Eoi(60)",
    ),
    // An interval of too many samples.
    (
        "FF D8 FF F7 00 0B 08 FF FF FF FF 01 01 11 00 FF DA 00 08 01 01 00 00 00 00",
        "| 0 Header(IntervalTooLarge, 15)",
    ),
    // The same picture, with an interval of 268,431,360 samples.
    (
        "FF D8 FF F7 00 0B 08 FF FF FF FF 01 01 11 00 FF DD 00 04 10 00 FF DA 00 08 01 01 00 00 00 00",
        "| 0 0 31 Broken; 1 Input(31)",
    ),
    // A large picture of which there are eight bytes FF 7F.
    (LARGE_PICTURE, "| 0 0 25 Broken; 1 Eoi(41)"),
    // Two components by line, cut after the first line of the second row.
    (
        "FF D8 FF F7 00 0E 08 00 02 00 01 02 01 11 00 02 11 00 FF DA 00 0A 02 01 00 02 00 00 01 00 07 07 80 10",
        "0.0=[10] 0.1=[30] 1.0=[20] | 0 0 30 Broken; 1 Input(34)",
    ),
    // The same, cut after the first line of all.
    (
        "FF D8 FF F7 00 0E 08 00 02 00 01 02 01 11 00 02 11 00 FF DA 00 0A 02 01 00 02 00 00 01 00 07 07",
        "0.0=[10] | 0 0 30 Broken; 1 Input(32)",
    ),
    // Two components by line and two rows, whole.
    (
        "FF D8 FF F7 00 0E 08 00 02 00 01 02 01 11 00 02 11 00 FF DA 00 0A 02 01 00 02 00 00 01 00 07 07 80 10 B0 FF \
         D9",
        "0.0=[10] 0.1=[30] 1.0=[20] 1.1=[40] | 0 Eoi(35)",
    ),
    // Fill before every marker, and preset parameters that hold for the second scan too.
    (
        "FF FF D8 FF FF F7 00 0E 08 00 02 00 01 02 01 11 00 02 11 00 FF F8 00 0D 01 00 0F 00 00 00 00 00 00 00 00 FF \
         FF DD 00 04 00 01 FF DA 00 08 01 01 00 00 00 00 40 FF FF FF D0 40 FF FF DA 00 08 01 02 00 00 00 00 40 FF FF \
         D0 FF A3 FF FF FF D9",
        "0.0=[15] 0.1=[15] 1.0=[15] | 1 1 73 Broken; 1 Eoi(77)",
    ),
    // A length of 1 after fill.
    (
        "FF D8 FF F7 00 0B 08 00 01 00 01 01 01 11 00 FF FF E0 00 01",
        "| 0 Header(Length, 16)",
    ),
];

/// The copies. The checker reads the table in this function alone, and not in each test.
pub fn copies() -> &'static [(&'static str, &'static str)] {
    &COPIES
}

/// Precision, height and width of a picture of one component, the scan data before EOI, and what the copy gives.
pub const INTERVALS: [(&str, &str, &str); 26] = [
    ("08 00 01 00 01", "80", "0.0=[0] | 0 Eoi(26)"),
    ("08 00 01 00 01", "40", "0.0=[255] | 0 Eoi(26)"),
    ("08 00 01 00 01", "50", "0.0=[1] | 0 Eoi(26)"),
    ("08 00 01 00 01", "60", "0.0=[254] | 0 Eoi(26)"),
    ("08 00 01 00 01", "28", "0.0=[3] | 0 Eoi(26)"),
    ("02 00 01 00 01", "40", "0.0=[3] | 0 Eoi(26)"),
    ("02 00 01 00 01", "60", "0.0=[1] | 0 Eoi(26)"),
    ("02 00 01 00 01", "20", "0.0=[2] | 0 Eoi(26)"),
    ("10 00 01 00 01", "40 00", "0.0=[65535] | 0 Eoi(27)"),
    (
        "08 00 01 00 0C",
        "FF 00",
        "0.0=[0, 0, 0, 0, 0, 0, 0, 0, 0, 0, 0, 0] | 0 Eoi(27)",
    ),
    (
        "08 00 01 00 10",
        "FF 40",
        "0.0=[0, 0, 0, 0, 0, 0, 0, 0, 0, 0, 0, 0, 0, 0, 0, 0] | 0 Eoi(27)",
    ),
    (
        "08 00 01 00 0D",
        "FF 40",
        "0.0=[0, 0, 0, 0, 0, 0, 0, 0, 0, 0, 0, 0, 0] | 0 Eoi(27)",
    ),
    (
        "08 00 01 00 05",
        "F0 00 00 1B 20",
        "0.0=[0, 0, 0, 0, 90] | 0 Eoi(30)",
    ),
    ("08 00 01 00 05", "F8", "0.0=[0, 0, 0, 0, 0] | 0 Eoi(26)"),
    ("08 00 01 00 05", "F4", "| 0 0 25 Broken; 1 Eoi(26)"),
    ("08 00 01 00 01", "C0", "0.0=[0] | 0 Eoi(26)"),
    ("08 00 01 00 01", "80 00", "| 0 0 25 Long; 1 Eoi(27)"),
    ("08 00 01 00 01", "", "| 0 0 25 Broken; 1 Eoi(25)"),
    (
        "08 00 01 00 01",
        "00 00 01 00",
        "| 0 0 25 Broken; 1 Eoi(29)",
    ),
    (
        "08 00 01 00 01",
        "00 00 01 FF 00",
        "| 0 0 25 Broken; 1 Eoi(30)",
    ),
    (
        "08 00 02 00 03",
        "C5 D0",
        "0.0=[0, 0, 5] 0.1=[0, 0, 5] | 0 Eoi(27)",
    ),
    (
        "08 00 02 00 03",
        "C5 E0",
        "0.0=[0, 0, 5] 0.1=[0, 0, 0] | 0 Eoi(27)",
    ),
    ("08 00 02 00 03", "C5 C5", "| 0 0 25 Broken; 1 Eoi(27)"),
    ("08 00 02 00 01", "C0", "0.0=[0] 0.1=[0] | 0 Eoi(26)"),
    ("08 00 01 00 01", "80 00 FF 00", "| 0 0 25 Long; 1 Eoi(29)"),
    (
        "08 00 01 00 01",
        "80 00 FF 90",
        "| 0 0 25 Broken; 1 Eoi(29)",
    ),
];
