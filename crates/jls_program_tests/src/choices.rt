//! What decides how outputs are made and ended: what stands at their names, and how the run went.

use jls_host::{
    Ending, Guard, Kind, Standing, Way, can_go, ending_of_run, is_precious, is_protected,
    kind_of_file, name_beside, name_kept, way_to_make,
};
use std::test::Fail;

/// What stands at a name, whether it opens for writing, whether it is protected or precious, and how an output of that name is made.
const WAYS: [(Standing, bool, bool, bool, Way); 10] = [
    (Standing::Absent, false, false, false, Way::Beside),
    (Standing::Regular(0o644), true, false, false, Way::Beside),
    (Standing::Regular(0o644), true, false, true, Way::Beside),
    (Standing::Regular(0o444), false, false, false, Way::Refused),
    (Standing::Other, false, false, false, Way::InPlace),
    (Standing::Other, true, false, true, Way::Over),
    (Standing::Other, false, false, true, Way::Refused),
    (Standing::Absent, false, true, false, Way::Refused),
    (Standing::Regular(0o644), true, true, false, Way::Refused),
    (Standing::Other, false, true, true, Way::Refused),
];

#[test]
fn outputs_are_made_by_what_stands_there(rt: HostRuntime) {
    for &(standing, opens, is_protected, is_precious, way) in &WAYS {
        assert_eq!(rt;
            way_to_make(standing, opens, is_protected, is_precious),
            way,
            "{standing:?} {opens} {is_protected} {is_precious}"
        );
    }
}

/// The kinds of files: whether a guarded output replaces them, whether another one does, and whether they are kept unless they are inputs.
const KINDS: [(Kind, bool, bool, bool); 5] = [
    (Kind::NoFile, true, true, false),
    (Kind::Unknown, false, false, false),
    (Kind::Jpeg, false, true, false),
    (Kind::Partial, true, true, true),
    (Kind::Other, true, true, false),
];

#[test]
fn files_are_replaced_by_their_kinds(rt: HostRuntime) {
    for &(kind, guarded, other, kept) in &KINDS {
        assert_eq!(rt; is_protected(Guard::Jpeg, kind), !guarded, "{kind:?}");
        assert_eq!(rt; is_protected(Guard::Nothing, kind), !other, "{kind:?}");
        assert_eq!(rt; is_precious(kind, false), kept, "{kind:?}");
        assert!(rt; !is_precious(kind, true));
        assert_eq!(rt;
            can_go(Standing::Regular(0o600), kind, false),
            kept,
            "{kind:?}"
        );
        assert!(rt; can_go(Standing::Absent, kind, false));
        assert!(rt; !can_go(Standing::Other, kind, false));
    }
}

/// The exit status of a run, the writes of it that failed, and what becomes of its output.
const ENDINGS: [(u8, u64, Ending); 6] = [
    (0, 0, Ending::Keep),
    (1, 0, Ending::Keep),
    (4, 0, Ending::Keep),
    (5, 0, Ending::Drop),
    (0, 1, Ending::Drop),
    (4, u64::MAX, Ending::Drop),
];

#[test]
fn outputs_of_failed_runs_are_dropped(rt: HostRuntime) {
    for &(status, failures, ending) in &ENDINGS {
        assert_eq!(rt;
            ending_of_run(status, failures),
            ending,
            "{status} {failures}"
        );
    }
}

/// The first bytes of files, and their kinds: SOI, and a fill byte; then APP0, `P5`, a partial picture of each version, and less of one.
const FILES: [(u8, u8, u8, u8, Kind); 10] = [
    (0xFF, 0xD8, 0xFF, 0xF7, Kind::Jpeg),
    (0xFF, 0xFF, 0xD8, 0xFF, Kind::Jpeg),
    (0xFF, 0xD8, 0, 0, Kind::Jpeg),
    (0xFF, 0xE0, 0, 0, Kind::Other),
    (0xD8, 0xFF, 0, 0, Kind::Other),
    (0x50, 0x35, 0x0A, 0x31, Kind::Other),
    (0x4A, 0x4C, 0x53, 0x50, Kind::Partial),
    (0x4A, 0x4C, 0x53, 0, Kind::Other),
    (0x4A, 0xD8, 0xFF, 0xF7, Kind::Other),
    (0, 0, 0, 0, Kind::Other),
];

#[test]
fn files_are_known_by_four_bytes(rt: HostRuntime) {
    for &(first, second, third, fourth, kind) in &FILES {
        assert_eq!(rt;
            kind_of_file(first, second, third, fourth),
            kind,
            "{first} {second} {third} {fourth}"
        );
    }
}

/// An output's name of this length gets no name beside it that is longer than 4,096 bytes: `.jls-salvage-` has 13.
#[test]
fn names_beside_are_numbered(rt: HostRuntime) -> Result<(), Fail> {
    let name = name_beside("all.jlsp", 12).ok_or("no name")?;
    assert_eq!(rt; name.as_str(), "all.jlsp.jls-salvage-12");
    let mut longest = String::new(rt.alloc());
    for _ in 0..4_081u32 {
        longest.push('n')?;
    }
    for (number, is_named) in [(9, true), (10, true), (100, false), (u32::MAX, false)] {
        assert_eq!(rt;
            name_beside(longest.as_str(), number).is_some(),
            is_named,
            "{number}"
        );
    }
    let kept = name_kept("all.jlsp").ok_or("no name")?;
    assert_eq!(rt; kept.as_str(), "all.jlsp~");
    for _ in 4_081..4_096u32 {
        assert!(rt; name_kept(longest.as_str()).is_some());
        longest.push('n')?;
    }
    assert!(rt; name_kept(longest.as_str()).is_none());
    Ok(())
}
