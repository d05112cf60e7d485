//! Reports of small pictures, worked out by hand.

use jls_partial::Partial;
use jls_report::{Report, ReportEntry};
use jls_values::Shape;
use std::alloc::Global;
use std::process::Abort;
use std::test::Fail;

/// The partial picture with these readings, each a component, a line and its one sample of 8 bits.
fn partial_of(
    alloc: Global,
    height: u16,
    ids: &[u8],
    readings: &[(u8, u16, u16)],
) -> Result<Partial, Fail> {
    let mut partial = Partial::empty(alloc, Shape::new(8, 1, height, ids)?);
    for (component, line, sample) in readings {
        partial.insert(*component, *line, &[*sample])?;
    }
    Ok(partial)
}

/// Whether this is the text of the report of the picture with these readings.
fn reports(
    alloc: Global,
    height: u16,
    ids: &[u8],
    readings: &[(u8, u16, u16)],
    text: &str,
) -> Result<bool, Fail> {
    let partial = partial_of(alloc, height, ids, readings)?;
    let report = Report::of(alloc, &partial)?;
    Ok(report.to_text(alloc)?.as_slice() == text.as_bytes())
}

/// Of a picture of ten lines: those that were read as their own number, those that were read as 8 too, and the text of the report.
const OF_TEN_LINES: [(&[u16], &[u16], &str); 5] = [
    (
        &[0, 1, 2, 3, 4, 5, 6, 7, 8, 9],
        &[],
        "picture 1x10, 8 bits, components 1\nsettled 10, missing 0, disputed 0\n",
    ),
    (
        &[0, 8, 9],
        &[],
        "picture 1x10, 8 bits, components 1\nsettled 3, missing 7, disputed 0\nmissing 1 1-7\n",
    ),
    (
        &[0, 1],
        &[],
        "picture 1x10, 8 bits, components 1\nsettled 2, missing 8, disputed 0\nmissing 1 2-9\n",
    ),
    (
        &[0, 1, 2, 5, 6, 7, 8, 9],
        &[],
        "picture 1x10, 8 bits, components 1\nsettled 8, missing 2, disputed 0\nmissing 1 3-4\n",
    ),
    (
        &[0, 1, 2, 3, 4, 5, 6, 7, 8, 9],
        &[6],
        "picture 1x10, 8 bits, components 1\nsettled 9, missing 0, disputed 1\ndisputed 1 6 2\n",
    ),
];

/// The readings of these lines.
fn readings_of(alloc: Global, own: &[u16], eight: &[u16]) -> Result<Vec<(u8, u16, u16)>, Fail> {
    let mut readings = Vec::new(alloc);
    for line in own {
        readings.push((0, *line, *line))?;
    }
    for line in eight {
        readings.push((0, *line, 8))?;
    }
    Ok(readings)
}

#[test]
fn texts_of_ten_lines(rt: HostRuntime) -> Result<(), Fail> {
    for &(own, eight, text) in &OF_TEN_LINES {
        let readings = readings_of(rt.alloc(), own, eight)?;
        assert!(rt; reports(rt.alloc(), 10, &[1], &readings, text)?, "{text}");
    }
    Ok(())
}

/// A height, identifiers, readings as above, and the text of the report.
const REPORTS: [(u16, &[u8], &[(u8, u16, u16)], &str); 4] = [
    (
        1,
        &[2],
        &[],
        "picture 1x1, 8 bits, components 2\nsettled 0, missing 1, disputed 0\nmissing 2 0-0\n",
    ),
    (
        1,
        &[1],
        &[(0, 0, 3), (0, 0, 5)],
        "picture 1x1, 8 bits, components 1\nsettled 0, missing 0, disputed 1\ndisputed 1 0 2\n",
    ),
    (
        1,
        &[1],
        &[(0, 0, 1), (0, 0, 255)],
        "picture 1x1, 8 bits, components 1\nsettled 0, missing 0, disputed 1\ndisputed 1 0 2\n",
    ),
    (
        3,
        &[9, 1],
        &[(0, 1, 4), (1, 1, 9), (1, 1, 8), (1, 1, 7)],
        "picture 1x3, 8 bits, components 9,1\nsettled 1, missing 4, disputed 1\nmissing 9 0-0\nmissing 9 2-2\n\
missing 1 0-0\ndisputed 1 1 3\nmissing 1 2-2\n",
    ),
];

/// Pictures of one line, and of two components: a range ends with its component, and components are named by their identifiers.
#[test]
fn texts(rt: HostRuntime) -> Result<(), Fail> {
    for &(height, ids, readings, text) in &REPORTS {
        assert!(rt; reports(rt.alloc(), height, ids, readings, text)?, "{text}");
    }
    Ok(())
}

/// The entries of a picture of four lines, of which one is settled.
const ENTRIES: [ReportEntry; 2] = [
    ReportEntry::Missing {
        component: 0,
        first: 0,
        last: 1,
    },
    ReportEntry::Disputed {
        component: 0,
        line: 2,
        readings: 2,
    },
];

fn check_report(rt: &impl Abort, report: &Report, shape: &Shape) {
    assert!(rt; report.entries() == ENTRIES.as_slice());
    assert!(rt; report.settled() == 1 && report.missing() == 2 && report.disputed() == 1);
    assert!(rt; *report.shape() == *shape);
}

#[test]
fn as_a_value(rt: HostRuntime) -> Result<(), Fail> {
    let partial = partial_of(rt.alloc(), 4, &[5], &[(0, 2, 1), (0, 2, 2), (0, 3, 0)])?;
    let report = Report::of(rt.alloc(), &partial)?;
    check_report(&rt, &report, partial.shape());
    Ok(())
}
