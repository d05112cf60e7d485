//! Damaged copies of ten lines of one sample, from the copies to the report and the files. The samples and the code are worked out by hand.

use crate::joining::{join, join_text};
use crate::reading::{read_slices, under_source};
use crate::telling::{report, settled_picture};
use crate::writing::{hand_out_jls, hand_out_pnm};
use jls_io::Counted;
use jls_partial::Partial;
use jls_station::Station;
use jls_values::Params;
use jls_write::Options;
use std::alloc::Global;
use std::process::Abort;
use std::test::Fail;

/// SOI, the frame, a restart interval of one line, and the scan header.
const HEADERS: &[u8] =
    b"\xff\xd8\xff\xf7\x00\x0b\x08\x00\x0a\x00\x01\x01\x01\x11\x00\xff\xdd\x00\x04\x00\x01\xff\xda\x00\x08\x01\x01\x00\x00\x00\x00";

/// The scan data of the lines 0 to 9, and EOI.
const WHOLE: &[u8] =
    b"\x80\xff\xd0\x50\xff\xd1\x70\xff\xd2\x28\xff\xd3\x38\xff\xd4\x14\xff\xd5\x1c\xff\xd6\x0a\xff\xd7\x0e\xff\xd0\x05\xff\xd9";

/// The PNM file of the whole picture.
const PNM: &[u8] = b"P5\n1 10\n255\n\x00\x01\x02\x03\x04\x05\x06\x07\x08\x09";

/// What stands after the headers of two copies, the report of what both give, and whether each line is settled.
const COPIES: [(&[u8], &[u8], &[u8], bool); 3] = [
    // The end is lost in one, and seven markers in the other.
    (
        b"\x80\xff\xd0\x50\xff\xd1\x70\xff\xd2\x28\xff\xd3\x38\xff\xd4\x14\xff\xd5\x1c\xff\xd6\x0a\xff",
        b"\x80\xff\xd7\x0e\xff\xd0\x05\xff\xd9",
        b"picture 1x10, 8 bits, components 1\nsettled 10, missing 0, disputed 0\n",
        true,
    ),
    // The lines 5 to 7 are in neither.
    (
        b"\x80\xff\xd0\x50\xff\xd1\x70\xff\xd2\x28\xff\xd3\x38\xff",
        b"\x80\xff\xd7\x0e\xff\xd0\x05\xff\xd9",
        b"picture 1x10, 8 bits, components 1\nsettled 7, missing 3, disputed 0\nmissing 1 5-7\n",
        false,
    ),
    // The first line is 0 in one, and 1 in the other.
    (
        WHOLE,
        b"\x50\xff\xd7\x0e\xff\xd0\x05\xff\xd9",
        b"picture 1x10, 8 bits, components 1\nsettled 9, missing 0, disputed 1\ndisputed 1 0 2\n",
        false,
    ),
];

/// What a copy gives, under the number of a source.
fn readings(alloc: Global, code: &[u8], source: u32) -> Result<Partial, Fail> {
    match read_slices(alloc, HEADERS, code) {
        Ok(read) => Ok(under_source(read, source)?),
        Err(_) => Err(Fail::from("a copy was refused")),
    }
}

/// Both files of a settled picture are those of the whole copy.
fn check_files(rt: &impl Abort, alloc: Global, station: &Station) -> Result<(), Fail> {
    let picture = settled_picture(station).expect(rt, "a line is not settled");
    let mut out = Vec::new(alloc);
    assert_eq!(rt; hand_out_pnm(&picture, &mut Counted::new(&mut out)), Ok(()));
    assert_eq!(rt; out.as_slice(), PNM);
    let options = Options::new(false, 1, Params::new(8, 0, 0, 0, 0, 0)?);
    out.clear();
    assert_eq!(rt;
        hand_out_jls(alloc, &picture, &options, &mut Counted::new(&mut out)),
        Ok(())
    );
    let mut file = Vec::from_slice(alloc, HEADERS)?;
    file.extend_from_slice(WHOLE)?;
    assert_eq!(rt; out.as_slice(), file.as_slice());
    Ok(())
}

#[test]
fn two_copies(rt: HostRuntime) -> Result<(), Fail> {
    let alloc = rt.alloc();
    for (first, second, wanted, settled) in COPIES {
        let one = readings(alloc, first, 1)?;
        let two = readings(alloc, second, 2)?;
        let text = two.to_bytes(alloc)?;
        let station = join(alloc, one, &two)?;
        assert_eq!(rt; report(alloc, station.partial())?.as_slice(), wanted);
        if settled {
            check_files(&rt, alloc, &station)?;
        } else {
            assert!(rt; settled_picture(&station).is_err());
        }
        let joined = join_text(alloc, readings(alloc, first, 1)?, &text)?;
        assert!(rt; *joined.partial() == *station.partial());
    }
    Ok(())
}
