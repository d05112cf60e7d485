//! Files without a fault, and prefixes that no such file begins with.

use crate::damage::copy_of;
use crate::files::file_of;
use crate::searched::searched;
use jls_copy::WideReader;
use jls_search::{are_short, is_dead, is_faultless, is_sought};
use std::alloc::Global;
use std::process::Abort;
use std::test::Fail;

/// A file, what is damaged in it, and whether that is without a fault, and whether it is a dead prefix.
const PREFIXES: [(&str, &str, bool, bool); 12] = [
    ("eight", "whole", true, false),
    ("scans", "whole", true, false),
    ("restarts", "whole", true, false),
    // the scan data is cut off
    ("eight", "500+999=lost", false, false),
    // FF A0 in the scan data, which is cut off after that
    ("eight", "100+1=255 101+1=160 300+999=lost", false, true),
    // the frame header ends the file, or EOI stands after it
    ("eight", "15+999=lost", false, false),
    ("eight", "15+669=lost", false, true),
    // the second interval and the marker after it are lost
    ("restarts", "97+69=lost", false, true),
    // there is no third scan
    ("scans", "269+136=lost", false, true),
    // by sample: whole, cut off in its data, and without them
    ("pixels", "whole", true, false),
    ("pixels", "200+999=lost", false, false),
    ("pixels", "35+295=lost", false, true),
];

/// A reader that was fed the bytes.
fn reader_of(alloc: Global, bytes: &[u8]) -> Result<WideReader, Fail> {
    let mut reader = WideReader::new(alloc);
    if reader.feed(bytes).is_err() {
        return Err(Fail::from("out of memory"));
    }
    Ok(reader)
}

#[test]
fn judges_prefixes(rt: HostRuntime) -> Result<(), Fail> {
    for (name, damage, faultless, dead) in PREFIXES {
        let file = file_of(rt.alloc(), name)?.ok_or("no file")?;
        let prefix = copy_of(rt.alloc(), &file, damage, 0)?;
        let is_without_fault = is_faultless(reader_of(rt.alloc(), &prefix)?)?;
        assert_eq!(rt; is_without_fault, faultless, "{name} {damage}");
        let is_given_up = is_dead(reader_of(rt.alloc(), &prefix)?)?;
        assert_eq!(rt; is_given_up, dead, "{name} {damage}");
    }
    Ok(())
}

/// How many files without a fault and within the ceiling, if there is one, are found in so many tries of the first file, and whether the
/// tries are used up, where its copies are damaged at these offsets. Its greatest sample is 255. A name that stands first is that of
/// another file.
const SEARCHES: [(&str, &str, u32, Option<u16>, usize, bool); 11] = [
    ("100+8=0", "400+8=0", 4096, None, 1, false),
    ("100+8=0", "400+8=0", 5, None, 1, false),
    ("100+8=0", "400+8=0", 4, None, 1, true),
    ("100+8=0", "400+8=0", 1, None, 0, true),
    ("whole", "whole", 4096, None, 1, false),
    ("300+8=0", "300+8=85", 4096, None, 0, false),
    ("100+8=0", "400+8=0", 4096, Some(255), 1, false),
    ("100+8=0", "400+8=0", 4096, Some(254), 0, false),
    ("100+8=0", "400+8=0", 4096, Some(0), 0, false),
    ("whole", "whole", 4096, Some(254), 0, false),
    ("pixels 60+8=0", "pixels 200+8=0", 4096, None, 1, false),
];

fn check_search(
    rt: &impl Abort,
    alloc: Global,
    copies: &[&[u8]],
    row: (u32, Option<u16>, usize, bool),
) -> Result<(), Fail> {
    if copies.is_empty() || !are_short(copies) {
        return Err(Fail::from("no copy, or too many bytes"));
    }
    let (limit, ceiling, files, is_used_up) = row;
    let found = searched(alloc, copies, ceiling, limit)?;
    assert_eq!(rt; found.1.splices.len(), files);
    assert_eq!(rt; found.1.is_used_up, is_used_up);
    Ok(())
}

#[test]
fn searches(rt: HostRuntime) -> Result<(), Fail> {
    let file = file_of(rt.alloc(), "eight")?.ok_or("no file")?;
    for (first, second, limit, ceiling, files, is_used_up) in SEARCHES {
        let first = copy_of(rt.alloc(), &file, first, 0)?;
        let second = copy_of(rt.alloc(), &file, second, 0)?;
        let row = (limit, ceiling, files, is_used_up);
        check_search(&rt, rt.alloc(), &[first.as_slice(), second.as_slice()], row)?;
    }
    Ok(())
}

/// A file without a fault, and the greatest of its samples.
const GREATEST: [(&str, u16); 3] = [("eight", 255), ("sixteen", 65_407), ("flat", 0)];

#[test]
fn judges_samples(rt: HostRuntime) -> Result<(), Fail> {
    for (name, greatest) in GREATEST {
        let file = file_of(rt.alloc(), name)?.ok_or("no file")?;
        let within = is_sought(Some(greatest), reader_of(rt.alloc(), &file)?)?;
        assert!(rt; within, "{name}");
        let without_ceiling = is_sought(None, reader_of(rt.alloc(), &file)?)?;
        assert!(rt; without_ceiling, "{name}");
        if greatest > 0 {
            let above = is_sought(Some(greatest - 1), reader_of(rt.alloc(), &file)?)?;
            assert!(rt; !above, "{name}");
        }
    }
    Ok(())
}
