//! Small pictures and their files, worked out by hand.

ghost use Rattle.jls_write.specs.Options.{OptionsFit};

use crate::limited::Limited;
use crate::lines::{Lines, settled};
use jls_io::Counted;
use jls_values::Params;
use jls_write::{FileParts, Options, OutputFault, Picture, jls_file, write_jls};
use std::alloc::Global;
use std::process::Abort;
use std::test::Fail;

/// How a file is written: with a scan for all components or one for each, so many lines in a restart interval, and this MAXVAL.
#[derive(Clone, Copy)]
struct How {
    line: bool,
    ri: u16,
    maxval: u16,
}

/// A scan for each component, without restart intervals, and with the largest MAXVAL of the precision.
const APART: How = How {
    line: false,
    ri: 0,
    maxval: 0,
};

/// The same with one scan for all components.
const TOGETHER: How = How {
    line: true,
    ri: 0,
    maxval: 0,
};

/// A picture, how it is written, and the file.
#[derive(Clone, Copy)]
struct Row<'a> {
    lines: Lines<'a>,
    how: How,
    file: &'a [u8],
}

/// Whether the parts of the file that a picture is written as into memory are these bytes.
fn has_parts(
    alloc: Global,
    picture: &Picture<'_>,
    options: &Options,
    file: &[u8],
) -> Result<bool, Fail>
    requires { OptionsFit picture.now options.now }
{
    let FileParts { front, back } = jls_file(alloc, picture, options)?;
    Ok(file.starts_with(&front) && file.ends_with(&back) && file.len() == front.len() + back.len())
}

/// Whether a sink gets as many bytes of the file as it takes in all, and its failure is reported.
fn is_written(
    alloc: Global,
    picture: &Picture<'_>,
    options: &Options,
    file: &[u8],
    mut sink: Limited,
) -> bool
    requires { OptionsFit picture.now options.now }
{
    let result = write_jls(alloc, picture, options, &mut Counted::new(&mut sink));
    let wanted = if sink.limit == file.len() {
        Ok(())
    } else {
        Err(OutputFault::Write(sink.limit as u64))
    };
    result == wanted && file.get(..sink.limit) == Some(sink.held.as_slice())
}

/// The picture is written as the file, also into memory; a write that fails after n bytes is reported, for each n.
fn check_picture(
    rt: &impl Abort,
    alloc: Global,
    picture: &Picture<'_>,
    row: &Row<'_>,
) -> Result<(), Fail> {
    let options = Options::new(
        row.how.line,
        row.how.ri,
        Params::new(8, row.how.maxval, 0, 0, 0, 0)?,
    );
    assert!(rt; options.fits(picture));
    assert!(rt;
        has_parts(alloc, picture, &options, row.file)?,
        "{:?}",
        row.file
    );
    for most in [1, usize::MAX] {
        for n in 0..=row.file.len() {
            assert!(rt;
                is_written(
                    alloc,
                    picture,
                    &options,
                    row.file,
                    Limited::new(alloc, most, n)
                ),
                "{n} bytes of {:?}",
                row.file
            );
        }
    }
    Ok(())
}

fn check(rt: &impl Abort, alloc: Global, row: &Row<'_>) -> Result<(), Fail> {
    let partial = settled(alloc, &row.lines)?;
    let picture = Picture::of(&partial).expect(rt, "a line is not settled");
    check_picture(rt, alloc, &picture, row)
}

/// One sample; four lines; two components in one scan and in two; two with two rows, row by row; three in one scan; a restart interval
/// of one row, with ILV of one component; a MAXVAL of 15, whose thresholds are no defaults; and this with restart intervals, whose DRI
/// stands after the LSE.
const FILES: [Row<'static>; 9] = [
    Row {
        lines: Lines {
            precision: 8,
            width: 1,
            ids: &[1],
            lines: &[&[0]],
        },
        how: APART,
        file: &[
            0xFF, 0xD8, 0xFF, 0xF7, 0x00, 0x0B, 0x08, 0x00, 0x01, 0x00, 0x01, 0x01, 0x01, 0x11,
            0x00, 0xFF, 0xDA, 0x00, 0x08, 0x01, 0x01, 0x00, 0x00, 0x00, 0x00, 0x80, 0xFF, 0xD9,
        ],
    },
    Row {
        lines: Lines {
            precision: 8,
            width: 4,
            ids: &[1],
            lines: &[
                &[0, 0, 90, 74],
                &[68, 50, 43, 205],
                &[64, 145, 145, 145],
                &[100, 145, 145, 145],
            ],
        },
        how: APART,
        file: &[
            0xFF, 0xD8, 0xFF, 0xF7, 0x00, 0x0B, 0x08, 0x00, 0x04, 0x00, 0x04, 0x01, 0x01, 0x11,
            0x00, 0xFF, 0xDA, 0x00, 0x08, 0x01, 0x01, 0x00, 0x00, 0x00, 0x00, 0xC0, 0x00, 0x00,
            0x6C, 0x80, 0x20, 0x8E, 0x01, 0xC0, 0x00, 0x00, 0x57, 0x40, 0x00, 0x00, 0x6E, 0xE6,
            0x00, 0x00, 0x01, 0xBC, 0x18, 0x00, 0x00, 0x05, 0xD8, 0x00, 0x00, 0x91, 0x60, 0xFF,
            0xD9,
        ],
    },
    Row {
        lines: Lines {
            precision: 8,
            width: 1,
            ids: &[1, 2],
            lines: &[&[10], &[10]],
        },
        how: TOGETHER,
        file: &[
            0xFF, 0xD8, 0xFF, 0xF7, 0x00, 0x0E, 0x08, 0x00, 0x01, 0x00, 0x01, 0x02, 0x01, 0x11,
            0x00, 0x02, 0x11, 0x00, 0xFF, 0xDA, 0x00, 0x0A, 0x02, 0x01, 0x00, 0x02, 0x00, 0x00,
            0x01, 0x00, 0x07, 0x16, 0xFF, 0xD9,
        ],
    },
    Row {
        lines: Lines {
            precision: 8,
            width: 1,
            ids: &[1, 2],
            lines: &[&[10], &[10]],
        },
        how: APART,
        file: &[
            0xFF, 0xD8, 0xFF, 0xF7, 0x00, 0x0E, 0x08, 0x00, 0x01, 0x00, 0x01, 0x02, 0x01, 0x11,
            0x00, 0x02, 0x11, 0x00, 0xFF, 0xDA, 0x00, 0x08, 0x01, 0x01, 0x00, 0x00, 0x00, 0x00,
            0x07, 0xFF, 0xDA, 0x00, 0x08, 0x01, 0x02, 0x00, 0x00, 0x00, 0x00, 0x07, 0xFF, 0xD9,
        ],
    },
    Row {
        lines: Lines {
            precision: 8,
            width: 1,
            ids: &[1, 2],
            lines: &[&[10], &[20], &[30], &[40]],
        },
        how: TOGETHER,
        file: &[
            0xFF, 0xD8, 0xFF, 0xF7, 0x00, 0x0E, 0x08, 0x00, 0x02, 0x00, 0x01, 0x02, 0x01, 0x11,
            0x00, 0x02, 0x11, 0x00, 0xFF, 0xDA, 0x00, 0x0A, 0x02, 0x01, 0x00, 0x02, 0x00, 0x00,
            0x01, 0x00, 0x07, 0x07, 0x80, 0x10, 0xB0, 0xFF, 0xD9,
        ],
    },
    Row {
        lines: Lines {
            precision: 8,
            width: 4,
            ids: &[1, 2, 3],
            lines: &[&[0, 0, 0, 0], &[0, 0, 0, 0], &[0, 0, 0, 0]],
        },
        how: TOGETHER,
        file: &[
            0xFF, 0xD8, 0xFF, 0xF7, 0x00, 0x11, 0x08, 0x00, 0x01, 0x00, 0x04, 0x03, 0x01, 0x11,
            0x00, 0x02, 0x11, 0x00, 0x03, 0x11, 0x00, 0xFF, 0xDA, 0x00, 0x0C, 0x03, 0x01, 0x00,
            0x02, 0x00, 0x03, 0x00, 0x00, 0x01, 0x00, 0xFF, 0x78, 0xFF, 0xD9,
        ],
    },
    Row {
        lines: Lines {
            precision: 8,
            width: 1,
            ids: &[1],
            lines: &[&[0], &[1], &[2], &[3], &[4], &[5], &[6], &[7], &[8], &[9]],
        },
        how: How {
            line: true,
            ri: 1,
            maxval: 0,
        },
        file: &[
            0xFF, 0xD8, 0xFF, 0xF7, 0x00, 0x0B, 0x08, 0x00, 0x0A, 0x00, 0x01, 0x01, 0x01, 0x11,
            0x00, 0xFF, 0xDD, 0x00, 0x04, 0x00, 0x01, 0xFF, 0xDA, 0x00, 0x08, 0x01, 0x01, 0x00,
            0x00, 0x00, 0x00, 0x80, 0xFF, 0xD0, 0x50, 0xFF, 0xD1, 0x70, 0xFF, 0xD2, 0x28, 0xFF,
            0xD3, 0x38, 0xFF, 0xD4, 0x14, 0xFF, 0xD5, 0x1C, 0xFF, 0xD6, 0x0A, 0xFF, 0xD7, 0x0E,
            0xFF, 0xD0, 0x05, 0xFF, 0xD9,
        ],
    },
    Row {
        lines: Lines {
            precision: 8,
            width: 1,
            ids: &[1],
            lines: &[&[15]],
        },
        how: How {
            line: false,
            ri: 0,
            maxval: 15,
        },
        file: &[
            0xFF, 0xD8, 0xFF, 0xF7, 0x00, 0x0B, 0x08, 0x00, 0x01, 0x00, 0x01, 0x01, 0x01, 0x11,
            0x00, 0xFF, 0xF8, 0x00, 0x0D, 0x01, 0x00, 0x0F, 0x00, 0x02, 0x00, 0x03, 0x00, 0x04,
            0x00, 0x40, 0xFF, 0xDA, 0x00, 0x08, 0x01, 0x01, 0x00, 0x00, 0x00, 0x00, 0x40, 0xFF,
            0xD9,
        ],
    },
    Row {
        lines: Lines {
            precision: 8,
            width: 1,
            ids: &[1],
            lines: &[&[15], &[15]],
        },
        how: How {
            line: false,
            ri: 1,
            maxval: 15,
        },
        file: &[
            0xFF, 0xD8, 0xFF, 0xF7, 0x00, 0x0B, 0x08, 0x00, 0x02, 0x00, 0x01, 0x01, 0x01, 0x11,
            0x00, 0xFF, 0xF8, 0x00, 0x0D, 0x01, 0x00, 0x0F, 0x00, 0x02, 0x00, 0x03, 0x00, 0x04,
            0x00, 0x40, 0xFF, 0xDD, 0x00, 0x04, 0x00, 0x01, 0xFF, 0xDA, 0x00, 0x08, 0x01, 0x01,
            0x00, 0x00, 0x00, 0x00, 0x40, 0xFF, 0xD0, 0x40, 0xFF, 0xD9,
        ],
    },
];

#[test]
fn files(rt: HostRuntime) -> Result<(), Fail> {
    for row in &FILES {
        check(&rt, rt.alloc(), row)?;
    }
    Ok(())
}
