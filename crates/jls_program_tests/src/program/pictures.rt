//! Partial pictures as files: four of one shape, others of other shapes, and bytes that are no text of one; and copies.

use super::copies;
use super::memory::File;

/// A picture of one line with one sample: the line has the readings 3 and 5, under no source.
pub(super) const DISPUTED: &[u8] = b"\
JLSP\x02\x08\0\x01\0\x01\x01\x01\0\0\0\x01\0\0\0\0\0\0\0\0\0\0\x02\0\x03\0\0\0\0\0\0\0\0\0\x05\
\0\0\0\0\0\0\0\0";
/// The same line with the reading 0.
const SETTLED: &[u8] = b"\
JLSP\x02\x08\0\x01\0\x01\x01\x01\0\0\0\x01\0\0\0\0\0\0\0\0\0\0\x01\0\0\0\0\0\0\0\0\0\0";
/// All three readings.
const BOTH: &[u8] = b"\
JLSP\x02\x08\0\x01\0\x01\x01\x01\0\0\0\x01\0\0\0\0\0\0\0\0\0\0\x03\0\0\0\0\0\0\0\0\0\0\0\x03\
\0\0\0\0\0\0\0\0\0\x05\0\0\0\0\0\0\0\0";
/// No reading of that picture.
const BARE: &[u8] = b"JLSP\x02\x08\0\x01\0\x01\x01\x01\0\0\0\0";
/// No reading of a picture that has a component 2 in place of the component 1.
const OTHER: &[u8] = b"JLSP\x02\x08\0\x01\0\x01\x01\x02\0\0\0\0";
/// The readings 3 and 5 in version 1, as most pictures below are.
const FIRST_VERSION: &[u8] =
    b"JLSP\x01\x08\0\x01\0\x01\x01\x01\0\0\0\x01\0\0\0\0\0\0\0\0\0\0\x02\0\x03\0\x05";

/// A copy of a picture of one line with one sample, 3.
const SINGLE: &[u8] =
    b"\xff\xd8\xff\xf7\0\x0b\x08\0\x01\0\x01\x01\x01\x11\0\xff\xda\0\x08\x01\x01\0\0\0\0\x28\xff\xd9";
/// Its reading under no source.
const PLAIN: &[u8] = b"\
JLSP\x02\x08\0\x01\0\x01\x01\x01\0\0\0\x01\0\0\0\0\0\0\0\0\0\0\x01\0\x03\0\0\0\0\0\0\0\0";
/// Under the source 2.
const BY_2: &[u8] = b"\
JLSP\x02\x08\0\x01\0\x01\x01\x01\0\0\0\x01\0\0\0\0\0\0\0\0\0\0\x01\0\x03\0\0\0\0\0\0\0\x01\
\0\0\0\x02";
/// Under the source 7.
const BY_7: &[u8] = b"\
JLSP\x02\x08\0\x01\0\x01\x01\x01\0\0\0\x01\0\0\0\0\0\0\0\0\0\0\x01\0\x03\0\0\0\0\0\0\0\x01\
\0\0\0\x07";
/// Under both.
const BY_2_AND_7: &[u8] = b"\
JLSP\x02\x08\0\x01\0\x01\x01\x01\0\0\0\x01\0\0\0\0\0\0\0\0\0\0\x01\0\x03\0\0\0\0\0\0\0\x02\
\0\0\0\x02\0\0\0\x07";
/// Under the greatest source.
const BY_GREATEST: &[u8] = b"\
JLSP\x02\x08\0\x01\0\x01\x01\x01\0\0\0\x01\0\0\0\0\0\0\0\0\0\0\x01\0\x03\0\0\0\0\0\0\0\x01\
\xff\xff\xff\xff";
/// The reading 3 under the source 7, and the reading 5 under none.
const DISPUTED_BY_7: &[u8] = b"\
JLSP\x02\x08\0\x01\0\x01\x01\x01\0\0\0\x01\0\0\0\0\0\0\0\0\0\0\x02\0\x03\0\0\0\0\0\0\0\x01\
\0\0\0\x07\0\x05\0\0\0\0\0\0\0\0";

/// A picture of ten lines, each of one sample: its own number, in version 2.
pub(super) const TEN: &[u8] = b"\
JLSP\x02\x08\0\x01\0\x0a\x01\x01\0\0\0\x0a\0\0\0\0\0\0\0\0\0\0\x01\0\0\0\0\0\0\0\0\0\0\0\0\
\x01\0\0\0\0\0\0\0\x01\0\x01\0\0\0\0\0\0\0\0\0\0\x02\0\0\0\0\0\0\0\x01\0\x02\0\0\0\0\0\0\0\
\0\0\0\x03\0\0\0\0\0\0\0\x01\0\x03\0\0\0\0\0\0\0\0\0\0\x04\0\0\0\0\0\0\0\x01\0\x04\0\0\0\0\
\0\0\0\0\0\0\x05\0\0\0\0\0\0\0\x01\0\x05\0\0\0\0\0\0\0\0\0\0\x06\0\0\0\0\0\0\0\x01\0\x06\0\
\0\0\0\0\0\0\0\0\0\x07\0\0\0\0\0\0\0\x01\0\x07\0\0\0\0\0\0\0\0\0\0\x08\0\0\0\0\0\0\0\x01\0\
\x08\0\0\0\0\0\0\0\0\0\0\x09\0\0\0\0\0\0\0\x01\0\x09\0\0\0\0\0\0\0\0";
/// The same with a second reading of the line 6, which is 8.
const DOUBT: &[u8] = b"\
JLSP\x01\x08\0\x01\0\x0a\x01\x01\0\0\0\x0a\0\0\0\0\0\0\0\0\0\0\x01\0\0\0\0\x01\0\0\0\0\0\0\
\0\x01\0\x01\0\0\x02\0\0\0\0\0\0\0\x01\0\x02\0\0\x03\0\0\0\0\0\0\0\x01\0\x03\0\0\x04\0\0\0\
\0\0\0\0\x01\0\x04\0\0\x05\0\0\0\0\0\0\0\x01\0\x05\0\0\x06\0\0\0\0\0\0\0\x02\0\x06\0\x08\0\
\0\x07\0\0\0\0\0\0\0\x01\0\x07\0\0\x08\0\0\0\0\0\0\0\x01\0\x08\0\0\x09\0\0\0\0\0\0\0\x01\0\
\x09";
/// The same as the first without the lines 3 and 4.
const GAP: &[u8] = b"\
JLSP\x01\x08\0\x01\0\x0a\x01\x01\0\0\0\x08\0\0\0\0\0\0\0\0\0\0\x01\0\0\0\0\x01\0\0\0\0\0\0\
\0\x01\0\x01\0\0\x02\0\0\0\0\0\0\0\x01\0\x02\0\0\x05\0\0\0\0\0\0\0\x01\0\x05\0\0\x06\0\0\0\
\0\0\0\0\x01\0\x06\0\0\x07\0\0\0\0\0\0\0\x01\0\x07\0\0\x08\0\0\0\0\0\0\0\x01\0\x08\0\0\x09\
\0\0\0\0\0\0\0\x01\0\x09";
/// One sample of 16 bits: 65535.
const DEEP: &[u8] = b"JLSP\x01\x10\0\x01\0\x01\x01\x01\0\0\0\x01\0\0\0\0\0\0\0\0\0\0\x01\xff\xff";
/// Three components, each with a line of four zeros.
const THREE: &[u8] = b"\
JLSP\x01\x08\0\x04\0\x01\x03\x01\x02\x03\0\0\0\x03\0\0\0\0\0\0\0\0\0\0\x01\0\0\0\0\0\0\0\0\
\x01\0\0\0\0\0\0\0\0\0\x01\0\0\0\0\0\0\0\0\x02\0\0\0\0\0\0\0\0\0\x01\0\0\0\0\0\0\0\0";
/// Two components, each with one sample: 10.
const PAIR: &[u8] = b"\
JLSP\x01\x08\0\x01\0\x01\x02\x01\x02\0\0\0\x02\0\0\0\0\0\0\0\0\0\0\x01\0\x0a\x01\0\0\0\0\0\
\0\0\0\0\x01\0\x0a";

/// The files of the desk.
pub(super) const FILES: [File<'static>; 44] = [
    ("T", DISPUTED),
    ("S", SETTLED),
    ("N", BARE),
    ("U", OTHER),
    ("-", SETTLED),
    ("both", BOTH),
    ("first", FIRST_VERSION),
    ("ten", TEN),
    ("doubt", DOUBT),
    ("gap", GAP),
    ("deep", DEEP),
    ("three", THREE),
    ("pair", PAIR),
    (
        "swapped",
        b"JLSP\x01\x08\0\x01\0\x01\x01\x01\0\0\0\x01\0\0\0\0\0\0\0\0\0\0\x02\0\x05\0\x03",
    ),
    (
        "twice",
        b"JLSP\x01\x08\0\x01\0\x01\x01\x01\0\0\0\x01\0\0\0\0\0\0\0\0\0\0\x02\0\x03\0\x03",
    ),
    (
        "longer",
        b"JLSP\x01\x08\0\x01\0\x01\x01\x01\0\0\0\x01\0\0\0\0\0\0\0\0\0\0\x02\0\x03\0\x05\0",
    ),
    (
        "large",
        b"JLSP\x01\x08\0\x01\0\x01\x01\x01\0\0\0\x01\0\0\0\0\0\0\0\0\0\0\x02\0\x03\x01\0",
    ),
    (
        "cut",
        b"JLSP\x01\x08\0\x01\0\x01\x01\x01\0\0\0\x01\0\0\0\0\0\0\0\0\0\0\x02\0\x03\0",
    ),
    (
        "version",
        b"JLSP\x02\x08\0\x01\0\x01\x01\x01\0\0\0\x01\0\0\0\0\0\0\0\0\0\0\x02\0\x03\0\x05",
    ),
    ("single", SINGLE),
    ("plain", PLAIN),
    ("by_2", BY_2),
    ("by_7", BY_7),
    ("by_2_and_7", BY_2_AND_7),
    ("by_greatest", BY_GREATEST),
    ("T_by_7", DISPUTED_BY_7),
    (
        "by_7_and_2",
        b"JLSP\x02\x08\0\x01\0\x01\x01\x01\0\0\0\x01\0\0\0\0\0\0\0\0\0\0\x01\0\x03\0\0\0\0\0\0\0\x02\0\0\0\x07\0\0\0\x02",
    ),
    (
        "by_7_twice",
        b"JLSP\x02\x08\0\x01\0\x01\x01\x01\0\0\0\x01\0\0\0\0\0\0\0\0\0\0\x01\0\x03\0\0\0\0\0\0\0\x02\0\0\0\x07\0\0\0\x07",
    ),
    (
        "source_cut",
        b"JLSP\x02\x08\0\x01\0\x01\x01\x01\0\0\0\x01\0\0\0\0\0\0\0\0\0\0\x01\0\x03\0\0\0\0\0\0\0\x02\0\0\0\x02\0\0\0",
    ),
    (
        "source_more",
        b"JLSP\x02\x08\0\x01\0\x01\x01\x01\0\0\0\x01\0\0\0\0\0\0\0\0\0\0\x01\0\x03\0\0\0\0\0\0\0\x02\0\0\0\x02\0\0\0\x07\0",
    ),
    (
        "third",
        b"JLSP\x03\x08\0\x01\0\x01\x01\x01\0\0\0\x01\0\0\0\0\0\0\0\0\0\0\x02\0\x03\0\x05",
    ),
    (
        "precision",
        b"JLSP\x01\x01\0\x01\0\x01\x01\x01\0\0\0\x01\0\0\0\0\0\0\0\0\0\0\x02\0\x03\0\x05",
    ),
    (
        "none",
        b"JLSP\x01\x08\0\x01\0\x01\x01\x01\0\0\0\x01\0\0\0\0\0\0\0\0\0\0\0\0\x03\0\x05",
    ),
    (
        "below",
        b"JLSP\x01\x08\0\x01\0\x01\x01\x01\0\0\0\x01\0\0\x01\0\0\0\0\0\0\0\x02\0\x03\0\x05",
    ),
    ("whole", copies::WHOLE),
    ("lost", copies::LOST),
    ("struck", copies::STRUCK),
    ("beyond", copies::BEYOND),
    ("seven", copies::SEVEN),
    ("near", copies::NEAR),
    ("prefix", copies::PREFIX),
    ("empty", b""),
    ("copy", b"\xff\xd8\xff\xd9"),
    ("dot", b"."),
];
