//! Places of cuts at every length and start.

use jls_copy::next_cut;

/// A list of 200 zeros in which two bytes stand at `place`.
fn zeros_with(place: usize, first: u8, second: u8) -> [u8; 200] {
    let mut bytes = [0u8; 200];
    if place < 199 {
        bytes[place] = first;
        bytes[place + 1] = second;
    }
    bytes
}

/// Whether `next_cut` finds the pair from each start up to its place and from no later one.
fn found_from_each_start(place: usize) -> bool {
    let marked = zeros_with(place, 0xFF, 0xD0);
    let stuffed = zeros_with(place, 0xFF, 0x7F);
    for start in 0..200usize {
        let wanted = if start <= place { Some(place) } else { None };
        if next_cut(&marked, start) != wanted || next_cut(&stuffed, start) != None {
            return false;
        }
    }
    true
}

#[test]
fn finds_a_cut_at_every_place_from_every_start(rt: HostRuntime) {
    for place in 0..199usize {
        assert!(rt; found_from_each_start(place));
    }
}

#[test]
fn finds_short_cuts(rt: HostRuntime) {
    let rows: [(&[u8], usize, Option<usize>); 5] = [
        (&[0x12, 0xFF, 0x00, 0xFF, 0xD0], 0, Some(3)),
        (&[0x12, 0xFF, 0x00, 0xFF, 0xD0], 4, None),
        (&[0xFF, 0xFF, 0xD0], 0, Some(0)),
        (&[0xFF], 0, None),
        (&[], 7, None),
    ];
    for (bytes, start, cut) in rows {
        assert!(rt; next_cut(bytes, start) == cut, "{bytes:?}");
    }
}
