//! Small pictures and their files, worked out by hand.

use crate::limited::Limited;
use crate::lines::{Lines, settled};
use jls_io::Counted;
use jls_partial::Partial;
use jls_values::{Params, Shape};
use jls_write::{Options, OutputFault, Picture, PictureFault, write_pnm};
use std::alloc::Global;
use std::process::Abort;
use std::test::Fail;

/// Whether a sink gets as many bytes of the file as it takes in all, and its failure is reported.
fn is_written(picture: &Picture<'_>, file: &[u8], mut sink: Limited) -> bool {
    let result = write_pnm(picture, &mut Counted::new(&mut sink));
    let wanted = if sink.limit == file.len() {
        Ok(())
    } else {
        Err(OutputFault::Write(sink.limit as u64))
    };
    result == wanted && file.get(..sink.limit) == Some(sink.held.as_slice())
}

/// The picture is written as this file, and a write that fails after n bytes is reported, for each n.
fn check_picture(rt: &impl Abort, alloc: Global, picture: &Picture<'_>, file: &[u8]) {
    for most in [1, 7, usize::MAX] {
        for n in 0..=file.len() {
            assert!(rt;
                is_written(picture, file, Limited::new(alloc, most, n)),
                "{n} bytes of {file:?}"
            );
        }
    }
}

fn check(rt: &impl Abort, alloc: Global, lines: &Lines<'_>, file: &[u8]) -> Result<(), Fail> {
    let partial = settled(alloc, lines)?;
    let picture = Picture::of(&partial).expect(rt, "a line is not settled");
    check_picture(rt, alloc, &picture, file);
    Ok(())
}

/// One component with samples of two bytes and of one, three, and two and four.
const FILES: [(Lines<'static>, &[u8]); 6] = [
    (
        Lines {
            precision: 16,
            width: 1,
            ids: &[1],
            lines: &[&[65535]],
        },
        b"P5\n1 1\n65535\n\xFF\xFF",
    ),
    (
        Lines {
            precision: 9,
            width: 2,
            ids: &[1],
            lines: &[&[258, 3]],
        },
        b"P5\n2 1\n511\n\x01\x02\x00\x03",
    ),
    (
        Lines {
            precision: 8,
            width: 1,
            ids: &[1],
            lines: &[&[0], &[1], &[2], &[3], &[4], &[5], &[6], &[7], &[8], &[9]],
        },
        b"P5\n1 10\n255\n\x00\x01\x02\x03\x04\x05\x06\x07\x08\x09",
    ),
    (
        Lines {
            precision: 8,
            width: 1,
            ids: &[1, 2],
            lines: &[&[10], &[10]],
        },
        b"P7\nWIDTH 1\nHEIGHT 1\nDEPTH 2\nMAXVAL 255\nENDHDR\n\x0A\x0A",
    ),
    (
        Lines {
            precision: 8,
            width: 4,
            ids: &[1, 2, 3],
            lines: &[&[0, 0, 0, 0], &[0, 0, 0, 0], &[0, 0, 0, 0]],
        },
        b"P6\n4 1\n255\n\x00\x00\x00\x00\x00\x00\x00\x00\x00\x00\x00\x00",
    ),
    (
        Lines {
            precision: 2,
            width: 2,
            ids: &[9, 8, 7, 6],
            lines: &[
                &[0, 1],
                &[1, 2],
                &[2, 3],
                &[3, 0],
                &[3, 3],
                &[2, 2],
                &[1, 1],
                &[0, 0],
            ],
        },
        b"P7\nWIDTH 2\nHEIGHT 2\nDEPTH 4\nMAXVAL 3\nENDHDR\n\x00\x01\x02\x03\x01\x02\x03\x00\x03\x02\x01\x00\x03\x02\x01\x00",
    ),
];

#[test]
fn files(rt: HostRuntime) -> Result<(), Fail> {
    for (lines, file) in &FILES {
        check(&rt, rt.alloc(), lines, file)?;
    }
    Ok(())
}

/// A picture of two components of ten lines, of which those of the first were read as their own number.
fn first_settled(alloc: Global) -> Result<Partial, Fail> {
    let mut partial = Partial::empty(alloc, Shape::new(8, 1, 10, &[1, 2])?);
    for line in 0..10 {
        partial.insert(0, line, &[line])?;
    }
    Ok(partial)
}

/// Whether this is the first line that is not settled.
fn is_unsettled_at(partial: &Partial, component: u8, line: u16) -> bool {
    match Picture::of(partial) {
        Err(PictureFault::Unsettled(first, at)) => first == component && at == line,
        _ => false,
    }
}

#[test]
fn names_the_first_line_that_is_not_settled(rt: HostRuntime) -> Result<(), Fail> {
    let mut partial = first_settled(rt.alloc())?;
    assert!(rt; is_unsettled_at(&partial, 1, 0));
    partial.insert(0, 6, &[8])?;
    assert!(rt; is_unsettled_at(&partial, 0, 6));
    Ok(())
}

/// Precision and MAXVAL, and whether options with them fit a picture of 8 bits and of the sample 15.
const FITTING: [(u8, u16, bool); 4] = [
    (8, 0, true),
    (8, 15, true),
    (8, 14, false),
    (9, 255, false),
];

fn check_fitting(rt: &impl Abort, picture: &Picture<'_>) -> Result<(), Fail> {
    for &(precision, maxval, fits) in &FITTING {
        let params = Params::new(precision, maxval, 0, 0, 0, 0)?;
        for (line, ri) in [(false, 0), (true, 1), (true, 65535)] {
            assert!(rt;
                Options::new(line, ri, params).fits(picture) == fits,
                "{precision} {maxval}"
            );
        }
    }
    Ok(())
}

#[test]
fn fits(rt: HostRuntime) -> Result<(), Fail> {
    let mut partial = Partial::empty(rt.alloc(), Shape::new(8, 1, 1, &[1])?);
    partial.insert(0, 0, &[15])?;
    let picture = Picture::of(&partial).expect(&rt, "a line is not settled");
    check_fitting(&rt, &picture)
}
