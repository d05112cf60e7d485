//! Lists of bad places, and lines that aren't understood.

use jls_bad::{Place, places_in};
use std::alloc::{AllocError, Global};
use std::test::Fail;

/// As GNU ddrescue 1.25 writes it.
const MAPFILE: &[u8] = b"# Mapfile. Created by GNU ddrescue version 1.25
# current_pos  current_status  current_pass
0x00002000     ?               1
#      pos        size  status
0x00000000  0x00000200  +
0x00000200  0x00000400  -
0x00000600  0x00001A00  +
0x00002000  0x00001000  ?
";

/// Whether these are the places that a text names, each as its offset and its length.
fn names(alloc: Global, text: &[u8], wanted: &[(u64, u64)]) -> Result<bool, AllocError> {
    let Ok(places) = places_in(alloc, text)? else {
        return Ok(false);
    };
    let are_same = places.iter().zip(wanted).all(|(place, (offset, length))| {
        *place
            == Place {
                offset: *offset,
                length: *length,
            }
    });
    Ok(are_same && places.len() == wanted.len())
}

/// The number of the first line that isn't understood, and 0 where there is none.
fn fault(alloc: Global, text: &[u8]) -> Result<usize, AllocError> {
    Ok(match places_in(alloc, text)? {
        Ok(_) => 0,
        Err(line) => line.number,
    })
}

/// Of a mapfile all that was not read is bad.
#[test]
fn mapfile(rt: HostRuntime) -> Result<(), Fail> {
    let alloc = rt.alloc();
    assert!(rt; names(alloc, MAPFILE, &[(0x200, 0x400), (0x2000, 0x1000)])?);
    Ok(())
}

/// Lines of an offset and a length, with blank lines, comments and carriage returns.
#[test]
fn offsets_and_lengths(rt: HostRuntime) -> Result<(), Fail> {
    let alloc = rt.alloc();
    assert!(rt;
        names(
            alloc,
            b"5 2 # two bytes\r\n\r\n\t0X1f\t 0\n3 18446744073709551615",
            &[(5, 2), (31, 0), (3, u64::MAX)]
        )?
    );
    assert!(rt; names(alloc, b"", &[])?);
    assert!(rt; names(alloc, b"0x10 +\n0x10 0x10 * # trimming\n", &[(16, 16)])?);
    Ok(())
}

/// The first line that isn't understood is named.
#[test]
fn faults(rt: HostRuntime) -> Result<(), Fail> {
    let alloc = rt.alloc();
    assert!(rt; fault(alloc, MAPFILE)? == 0);
    assert!(rt; fault(alloc, b"1 2\n\n1 two\n3")? == 3);
    assert!(rt; fault(alloc, b"18446744073709551616 2")? == 1);
    assert!(rt; fault(alloc, b"# \xFF\n1 2 F\n")? == 2);
    assert!(rt; fault(alloc, b"1 2\n\xFF\xFF 3\n")? == 2);
    assert!(rt; fault(alloc, b"# Mapfile\n0x10 +\n0x20 -\n")? == 3);
    assert!(rt; fault(alloc, b"0 2 ?\n5 ? 1\n")? == 2);
    Ok(())
}
