//! The commands on one input: what they print, write and refuse.

use super::memory::{GOOD, Manners, MemoryFiles};
use super::{copies, run_line, run_words};
use jls_io::Counted;
use std::alloc::Global;
use std::fmt::Write;
use std::process::Abort;
use std::test::Fail;

/// The words and the report with its status.
const SHOWN: [(&str, u8, &str); 16] = [
    (
        "check whole",
        0,
        "end eoi 59\npicture 1x10, 8 bits, components 1\nsettled 10, missing 0, disputed 0\n",
    ),
    (
        "check lost",
        1,
        "piece 0 3 40 long\nend eoi 57\npicture 1x10, 8 bits, components 1\nsettled 8, missing 2, disputed 0\nmissing 1 3-4\n",
    ),
    (
        "check struck",
        1,
        "piece 0 2 37 broken\nend eoi 61\npicture 1x10, 8 bits, components 1\nsettled 9, missing 1, disputed 0\nmissing 1 2-2\n",
    ),
    (
        "check beyond",
        0,
        "piece 0 14 61 beyond\nend eoi 61\npicture 1x10, 8 bits, components 1\nsettled 10, missing 0, disputed 0\n",
    ),
    (
        "check seven",
        1,
        "end eoi 38\npicture 1x10, 8 bits, components 1\nsettled 3, missing 7, disputed 0\nmissing 1 1-7\n",
    ),
    (
        "check near",
        1,
        "end fault 6 21\npicture 1x10, 8 bits, components 1\nsettled 0, missing 10, disputed 0\nmissing 1 0-9\n",
    ),
    (
        "check prefix",
        1,
        "end input 45\npicture 1x10, 8 bits, components 1\nsettled 5, missing 5, disputed 0\nmissing 1 5-9\n",
    ),
    (
        "show lost",
        1,
        "picture 1x10, 8 bits, components 1\nsettled 8, missing 2, disputed 0\nmissing 1 3-4\n",
    ),
    (
        "check gap",
        1,
        "picture 1x10, 8 bits, components 1\nsettled 8, missing 2, disputed 0\nmissing 1 3-4\n",
    ),
    (
        "show T",
        1,
        "picture 1x1, 8 bits, components 1\nsettled 0, missing 0, disputed 1\ndisputed 1 0 2\n",
    ),
    (
        "show U",
        1,
        "picture 1x1, 8 bits, components 2\nsettled 0, missing 1, disputed 0\nmissing 2 0-0\n",
    ),
    (
        "show -",
        0,
        "picture 1x1, 8 bits, components 1\nsettled 1, missing 0, disputed 0\n",
    ),
    (
        "show doubt",
        1,
        "picture 1x10, 8 bits, components 1\nsettled 9, missing 0, disputed 1\ndisputed 1 6 2\n",
    ),
    (
        "show gap",
        1,
        "picture 1x10, 8 bits, components 1\nsettled 8, missing 2, disputed 0\nmissing 1 3-4\n",
    ),
    (
        "show deep",
        0,
        "picture 1x1, 16 bits, components 1\nsettled 1, missing 0, disputed 0\n",
    ),
    (
        "show pair",
        0,
        "picture 1x1, 8 bits, components 1,2\nsettled 2, missing 0, disputed 0\n",
    ),
];

/// The words and the file that OUT is; the status is 0.
const WRITTEN: [(&str, &[u8]); 11] = [
    ("write --as jls OUT S", SETTLED_AS_JLS),
    ("write --as jls --ri 1 OUT ten", copies::WHOLE),
    ("write --as jls --ilv line OUT pair", PAIR_BY_LINE),
    ("write --as jls OUT pair", PAIR_BY_NONE),
    ("write --as pnm OUT whole", TEN_AS_PNM),
    ("write --as pnm OUT S", b"P5\n1 1\n255\n\0"),
    ("write --as pnm - -", b"P5\n1 1\n255\n\0"),
    ("write OUT ten --as=pnm", TEN_AS_PNM),
    ("write --as pnm OUT deep", b"P5\n1 1\n65535\n\xff\xff"),
    (
        "write --as pnm OUT three",
        b"P6\n4 1\n255\n\0\0\0\0\0\0\0\0\0\0\0\0",
    ),
    (
        "write --as pnm OUT pair",
        b"P7\nWIDTH 1\nHEIGHT 1\nDEPTH 2\nMAXVAL 255\nENDHDR\n\n\n",
    ),
];

const SETTLED_AS_JLS: &[u8] =
    b"\xff\xd8\xff\xf7\0\x0b\x08\0\x01\0\x01\x01\x01\x11\0\xff\xda\0\x08\x01\x01\0\0\0\0\x80\xff\xd9";

const PAIR_BY_LINE: &[u8] = b"\xff\xd8\xff\xf7\0\x0e\x08\0\x01\0\x01\x02\x01\x11\0\x02\x11\0\
\xff\xda\0\x0a\x02\x01\0\x02\0\0\x01\0\x07\x16\xff\xd9";

const PAIR_BY_NONE: &[u8] = b"\xff\xd8\xff\xf7\0\x0e\x08\0\x01\0\x01\x02\x01\x11\0\x02\x11\0\
\xff\xda\0\x08\x01\x01\0\0\0\0\x07\xff\xda\0\x08\x01\x02\0\0\0\0\x07\xff\xd9";

const TEN_AS_PNM: &[u8] = b"P5\n1 10\n255\n\0\x01\x02\x03\x04\x05\x06\x07\x08\x09";

/// The words, the status, and the line on the fault output; nothing is created or reported.
const REFUSED: [(&str, u8, &str); 13] = [
    (
        "write --as jls OUT T",
        1,
        "line 0 of component 1 is disputed",
    ),
    (
        "write --as jls --ilv sample OUT S",
        2,
        "--ilv takes none or line",
    ),
    ("check copy", 3, "copy: no picture, fault 4 at 2"),
    ("check A", 4, "A: cannot be opened"),
    ("show cut", 3, "cut: bad text, truncated at 30"),
    ("show A", 4, "A: cannot be opened"),
    (
        "write --as pnm OUT T",
        1,
        "line 0 of component 1 is disputed",
    ),
    (
        "write --as pnm OUT U",
        1,
        "line 0 of component 2 is missing",
    ),
    (
        "write --as pnm OUT doubt",
        1,
        "line 6 of component 1 is disputed",
    ),
    (
        "write --as pnm OUT gap",
        1,
        "line 3 of component 1 is missing",
    ),
    (
        "write --as pnm OUT cut",
        3,
        "cut: bad text, truncated at 30",
    ),
    ("write --as pnm OUT A", 4, "A: cannot be opened"),
    ("write --as gif OUT S", 2, "--as takes jls or pnm"),
];

fn check_shown(rt: &impl Abort, alloc: Global, manners: Manners) -> Result<(), Fail> {
    for &(words, status, report) in &SHOWN {
        let found = run_words(alloc, words, manners)?;
        assert!(rt;
            found.status == status && found.report.as_slice() == report.as_bytes(),
            "{words}"
        );
        assert!(rt;
            found.faults.is_empty() && found.created.is_empty(),
            "{words}"
        );
    }
    Ok(())
}

fn check_written(rt: &impl Abort, alloc: Global, manners: Manners) -> Result<(), Fail> {
    for &(words, file) in &WRITTEN {
        let found = run_words(alloc, words, manners)?;
        assert!(rt;
            found.status == 0 && found.faults.is_empty() && found.report.is_empty(),
            "{words}"
        );
        let output = found.output.ok_or("no output")?;
        assert!(rt; output.as_slice() == file, "{words}");
    }
    Ok(())
}

#[test]
fn shows(rt: HostRuntime) -> Result<(), Fail> {
    check_shown(&rt, rt.alloc(), GOOD)?;
    check_shown(&rt, rt.alloc(), Manners { most: 1, ..GOOD })?;
    let parted = Manners {
        parts_at_ff: true,
        ..GOOD
    };
    check_shown(&rt, rt.alloc(), parted)
}

/// A copy of 4,100 lines of one sample, each in an interval of its own whose piece is one byte 00, which is no code.
fn broken_copy(alloc: Global) -> Result<Vec<u8>, Fail> {
    let mut copy = Vec::from_slice(alloc, b"\xff\xd8\xff\xf7\0\x0b\x08\x10\x04")?;
    copy.extend_from_slice(&copies::WHOLE[9..31])?;
    for line in 0..4099u16 {
        copy.extend_from_slice(&[0, 0xFF, 0xD0 | (line % 8) as u8])?;
    }
    copy.extend_from_slice(b"\0\xff\xd9")?;
    Ok(copy)
}

/// What `check` reports of it: a line for each of the first 4,096 pieces, and how many more there are.
fn broken_report(alloc: Global) -> Result<String, Fail> {
    let mut report = String::new(alloc);
    for line in 0..4096u32 {
        write!(report, "piece 0 {line} {} broken\n", 31 + 3 * line)?;
    }
    report.push_str("pieces more 4\nend eoi 12329\npicture 1x4100, 8 bits, components 1\n")?;
    report.push_str("settled 0, missing 4100, disputed 0\nmissing 1 0-4099\n")?;
    Ok(report)
}

#[test]
fn counts_the_pieces_that_are_not_kept(rt: HostRuntime) -> Result<(), Fail> {
    let alloc = rt.alloc();
    let copy = broken_copy(alloc)?;
    let wanted = broken_report(alloc)?;
    let parted = Manners {
        parts_at_ff: true,
        ..GOOD
    };
    for manners in [GOOD, Manners { most: 1, ..GOOD }, parted] {
        let files = [("many", copy.as_slice())];
        let mut report = Vec::new(alloc);
        let mut desk = MemoryFiles::new(alloc, &files, manners);
        let (status, faults) = run_line(
            alloc,
            "check many",
            &mut desk,
            &mut Counted::new(&mut report),
        )?;
        assert!(rt; status == 1 && report.as_slice() == wanted.as_bytes() && faults.is_empty());
    }
    Ok(())
}

#[test]
fn writes(rt: HostRuntime) -> Result<(), Fail> {
    check_written(&rt, rt.alloc(), GOOD)?;
    check_written(&rt, rt.alloc(), Manners { most: 1, ..GOOD })
}

#[test]
fn refuses(rt: HostRuntime) -> Result<(), Fail> {
    let alloc = rt.alloc();
    for &(words, status, line) in &REFUSED {
        let found = run_words(alloc, words, GOOD)?;
        let printed = format!(in alloc; "jls-salvage: {line}\n")?;
        assert!(rt;
            found.status == status && found.faults.as_slice() == printed.as_bytes(),
            "{words}"
        );
        assert!(rt;
            found.created.is_empty() && found.report.is_empty(),
            "{words}"
        );
    }
    Ok(())
}
