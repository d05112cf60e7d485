//! Which parts are found of copies that are damaged in known places.

use jls_diff::{Part, Parts, find_finer_parts, find_parts};
use std::alloc::{AllocError, Global};
use std::test::Fail;

/// What happened to a copy of a file. Places are those of the file; what is lost is named last.
#[derive(Clone, Copy)]
enum Damage {
    /// Another byte there.
    Other(usize),
    /// Zeros from there on, so many.
    Zeros(usize, usize),
    /// From there on so many bytes are lost.
    Lost(usize, usize),
}

use Damage::{Lost, Other, Zeros};

/// A file of so many bytes, none of which is 0.
fn file(alloc: Global, length: u32) -> Result<Vec<u8>, AllocError> {
    let mut bytes = Vec::new(alloc);
    let mut state = 1u32;
    for _ in 0..length {
        state = state.wrapping_mul(1_103_515_245).wrapping_add(12345);
        bytes.push(((state >> 16) % 255) as u8 + 1)?;
    }
    Ok(bytes)
}

/// The file without the bytes that are lost.
fn without(alloc: Global, bytes: &[u8], from: usize, count: usize) -> Result<Vec<u8>, AllocError> {
    let mut out = Vec::new(alloc);
    for (at, byte) in bytes.iter().enumerate() {
        if at < from || at - from >= count {
            out.push(*byte)?;
        }
    }
    Ok(out)
}

/// The file with zeros there.
fn zeroed(bytes: &mut Vec<u8>, from: usize, count: usize) {
    for byte in bytes.iter_mut().skip(from).take(count) {
        *byte = 0;
    }
}

/// A copy of the file with this damage.
fn damaged(alloc: Global, file: &[u8], damages: &[Damage]) -> Result<Vec<u8>, AllocError> {
    let mut copy = Vec::from_slice(alloc, file)?;
    for damage in damages {
        match damage {
            Other(at) => {
                if let Some(byte) = copy.get_mut(*at) {
                    *byte = byte.wrapping_add(1).max(1);
                }
            }
            Zeros(from, count) => zeroed(&mut copy, *from, *count),
            Lost(from, count) => copy = without(alloc, &copy, *from, *count)?,
        }
    }
    Ok(copy)
}

/// Parts as text: how many bytes all have alike, after `=`; or how many each copy has.
fn text(alloc: Global, parts: &Parts<'_>) -> Result<String, Fail> {
    let mut out = String::new(alloc);
    for place in 0..parts.len() {
        match parts.part(place) {
            Part::Same(bytes) => out.push_str(&format!(in alloc; "={}", bytes.len())?)?,
            Part::Differ(ways) => {
                for (copy, way) in ways.iter().enumerate() {
                    let comma = if copy > 0 { "," } else { "" };
                    out.push_str(&format!(in alloc; "{}{}", comma, way.len())?)?;
                }
            }
        }
        out.push_str(" ")?;
    }
    Ok(out)
}

/// The parts of copies of a file with these damages.
fn parts_of(alloc: Global, length: u32, copies: &[&[Damage]]) -> Result<String, Fail> {
    let file = file(alloc, length)?;
    let mut held = Vec::new(alloc);
    for damages in copies {
        held.push(damaged(alloc, &file, damages)?)?;
    }
    let mut slices = Vec::new(alloc);
    for copy in held.iter() {
        slices.push(copy.as_slice())?;
    }
    let parts = find_parts(alloc, &slices)?;
    text(alloc, &parts)
}

/// Damages of copies of a file of 400 bytes, and the parts that are wanted.
struct Case<'a> {
    name: &'a str,
    copies: &'a [&'a [Damage]],
    wanted: &'a str,
}

const CASES: [Case<'static>; 18] = [
    Case {
        name: "no copy",
        copies: &[],
        wanted: "",
    },
    Case {
        name: "one copy",
        copies: &[&[Other(3)]],
        wanted: "=400 ",
    },
    Case {
        name: "the same copy twice",
        copies: &[&[], &[]],
        wanted: "=400 ",
    },
    Case {
        name: "an empty copy",
        copies: &[&[], &[Lost(0, 400)]],
        wanted: "400,0 ",
    },
    Case {
        name: "12 bytes apart",
        copies: &[&[Other(50)], &[Other(62)]],
        wanted: "=50 1,1 =11 1,1 =337 ",
    },
    Case {
        name: "one byte between",
        copies: &[&[Other(50)], &[Other(52)]],
        wanted: "=50 1,1 =1 1,1 =347 ",
    },
    Case {
        name: "sectors that touch",
        copies: &[&[Zeros(100, 64)], &[Zeros(164, 64)]],
        wanted: "=100 64,64 64,64 =172 ",
    },
    Case {
        name: "sectors that overlap",
        copies: &[&[Zeros(100, 64)], &[Zeros(150, 64)]],
        wanted: "=100 50,50 =14 50,50 =186 ",
    },
    Case {
        name: "before zeros",
        copies: &[&[Zeros(100, 64)], &[Other(99)]],
        wanted: "=99 1,1 64,64 =236 ",
    },
    Case {
        name: "after zeros",
        copies: &[&[Zeros(100, 64)], &[Other(164)]],
        wanted: "=100 64,64 1,1 =235 ",
    },
    Case {
        name: "lost and other",
        copies: &[&[Lost(50, 20)], &[Other(100)]],
        wanted: "=50 0,20 =30 1,1 =299 ",
    },
    Case {
        name: "other and lost",
        copies: &[&[Other(100)], &[Lost(50, 20)]],
        wanted: "=50 20,0 =30 1,1 =299 ",
    },
    Case {
        name: "cut off",
        copies: &[&[Other(50)], &[Lost(300, 100)]],
        wanted: "=50 1,1 =249 100,0 ",
    },
    Case {
        name: "lost where two others differ",
        copies: &[&[Lost(100, 60)], &[Other(110)], &[Other(140)]],
        wanted: "=100 0,25,25 0,35,35 =240 ",
    },
    Case {
        name: "lost, and another differs soon after",
        copies: &[&[Lost(100, 60)], &[Other(110)], &[Other(165)]],
        wanted: "=100 0,38,38 6,28,28 =234 ",
    },
    Case {
        name: "cut off, and two others differ after the cut",
        copies: &[&[Other(320)], &[Other(360)], &[Lost(300, 100)]],
        wanted: "=300 40,40,0 60,60,0 ",
    },
    Case {
        name: "twelve of a group: the nearest two are one",
        copies: &[
            &[
                Other(50),
                Other(54),
                Other(58),
                Other(62),
                Other(66),
                Other(70),
            ],
            &[
                Other(74),
                Other(78),
                Other(82),
                Other(86),
                Other(90),
                Other(92),
            ],
        ],
        wanted: "=50 1,1 =3 1,1 =3 1,1 =3 1,1 =3 1,1 =3 1,1 =3 1,1 =3 1,1 =3 1,1 =3 1,1 =3 3,3 =307 ",
    },
    Case {
        name: "thirteen that are not near stay apart",
        copies: &[
            &[
                Other(20),
                Other(30),
                Other(40),
                Other(50),
                Other(60),
                Other(70),
                Other(80),
            ],
            &[
                Other(90),
                Other(100),
                Other(110),
                Other(120),
                Other(130),
                Other(140),
            ],
        ],
        wanted: "=20 1,1 =9 1,1 =9 1,1 =9 1,1 =9 1,1 =9 1,1 =9 1,1 =9 1,1 =9 1,1 =9 1,1 =9 1,1 =9 1,1 =9 1,1 =259 ",
    },
];

#[test]
fn parts_of_damaged_copies(rt: HostRuntime) -> Result<(), Fail> {
    for case in CASES.iter() {
        let found = parts_of(rt.alloc(), 400, case.copies)?;
        assert_eq!(rt; found.as_str(), case.wanted, "{}", case.name);
    }
    Ok(())
}

/// The finer parts of copies of a file with these damages, or `none`.
fn finer_of(alloc: Global, length: u32, copies: &[&[Damage]]) -> Result<String, Fail> {
    let file = file(alloc, length)?;
    let mut held = Vec::new(alloc);
    for damages in copies {
        held.push(damaged(alloc, &file, damages)?)?;
    }
    let mut slices = Vec::new(alloc);
    for copy in held.iter() {
        slices.push(copy.as_slice())?;
    }
    let parts = find_parts(alloc, &slices)?;
    match find_finer_parts(alloc, &slices, &parts)? {
        Some(finer) => text(alloc, &finer),
        None => Ok(String::from_str(alloc, "none")?),
    }
}

const FINER: [Case<'static>; 7] = [
    Case {
        name: "the same copy twice",
        copies: &[&[], &[]],
        wanted: "none",
    },
    Case {
        name: "bytes that do not touch",
        copies: &[&[Other(50)], &[Other(62)]],
        wanted: "none",
    },
    Case {
        name: "bytes that touch",
        copies: &[&[Other(50)], &[Other(51)]],
        wanted: "=50 1,1 1,1 =1348 ",
    },
    Case {
        name: "two of three bytes, and the byte between",
        copies: &[&[Other(50), Other(52)], &[Other(51)]],
        wanted: "=50 1,1 1,1 1,1 =1347 ",
    },
    Case {
        name: "five in a row are one place",
        copies: &[&[Other(50), Other(51), Other(52)], &[Other(53), Other(54)]],
        wanted: "none",
    },
    Case {
        name: "stretches that touch where a sector ends",
        copies: &[
            &[
                Other(1012),
                Other(1014),
                Other(1016),
                Other(1018),
                Other(1020),
                Other(1022),
            ],
            &[
                Other(1024),
                Other(1026),
                Other(1028),
                Other(1030),
                Other(1032),
            ],
        ],
        wanted: "=1012 12,12 9,9 =367 ",
    },
    Case {
        name: "lost bytes stay one part",
        copies: &[&[Lost(50, 20)], &[Other(100)]],
        wanted: "none",
    },
];

#[test]
fn finer_parts_of_damaged_copies(rt: HostRuntime) -> Result<(), Fail> {
    for case in FINER.iter() {
        let found = finer_of(rt.alloc(), 1400, case.copies)?;
        assert_eq!(rt; found.as_str(), case.wanted, "{}", case.name);
    }
    Ok(())
}

/// The parts of these copies.
fn parts_of_both(alloc: Global, first: &[u8], second: &[u8]) -> Result<String, Fail> {
    let parts = find_parts(alloc, &[first, second])?;
    text(alloc, &parts)
}

/// Eight bytes that repeat agree at many shifts, and so stand in no step. The offsets of what differs are counted outside.
#[test]
fn parts_of_blank_copies(rt: HostRuntime) -> Result<(), Fail> {
    let alloc = rt.alloc();
    let noise = file(alloc, 200)?;
    let mut first = Vec::new(alloc);
    for at in 0..700u16 {
        first.push((at % 8) as u8 + 1)?;
    }
    let mut second = Vec::from_slice(alloc, &first)?;
    for (byte, other) in first.iter_mut().skip(100).zip(noise.iter().take(100)) {
        *byte = *other;
    }
    for (byte, other) in second.iter_mut().skip(400).zip(noise.iter().skip(100)) {
        *byte = *other;
    }
    let found = parts_of_both(alloc, &first, &second)?;
    assert_eq!(rt; found.as_str(), "=100 100,100 =200 100,100 =200 ");
    Ok(())
}

/// Of one length too, but 20 bytes are lost, and as many zeros stand after the end.
#[test]
fn parts_of_a_padded_copy(rt: HostRuntime) -> Result<(), Fail> {
    let alloc = rt.alloc();
    let whole = file(alloc, 400)?;
    let mut padded = without(alloc, &whole, 50, 20)?;
    for _ in 0..20 {
        padded.push(0)?;
    }
    let found = parts_of_both(alloc, &whole, &padded)?;
    assert_eq!(rt; found.as_str(), "=50 20,0 =330 0,20 ");
    Ok(())
}

#[test]
fn parts_of_large_copies(rt: HostRuntime) -> Result<(), Fail> {
    let found = parts_of(
        rt.alloc(),
        4_000_000,
        &[
            &[Zeros(1_000_000, 65536), Other(3_000_000)],
            &[Zeros(1_065_536, 512), Lost(2_000_000, 4096)],
        ],
    )?;
    assert_eq!(rt;
        found.as_str(),
        "=1000000 65536,65536 512,512 =933952 4096,0 =995904 1,1 =999999 "
    );
    Ok(())
}
