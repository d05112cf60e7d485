//! `fits` where lines are an interval, and one step outside each of its bounds.

use jls_interval::fits;
use jls_values::Params;
use std::alloc::{AllocError, Global};
use std::test::Fail;

/// So many lines, each of these samples.
fn lines_of(alloc: Global, count: usize, samples: &[u16]) -> Result<Vec<&[u16]>, AllocError> {
    let mut lines = Vec::new(alloc);
    for _ in 0..count {
        lines.push(samples)?;
    }
    Ok(lines)
}

#[test]
fn whole_rows_fit(rt: HostRuntime) -> Result<(), Fail> {
    let params = Params::new(8, 0, 0, 0, 0, 0)?;
    let lines = lines_of(rt.alloc(), 4, &[0, 255])?;
    for components in [1, 2, 4] {
        assert!(rt; fits(&params, 2, components, lines.as_slice()));
    }
    Ok(())
}

/// Width, components, and how many lines there are of these samples.
const OTHERS: [(u16, u8, usize, &[u16]); 8] = [
    (2, 0, 4, &[0, 255]),
    (2, 3, 4, &[0, 255]),
    (1, 1, 4, &[0, 255]),
    (3, 1, 4, &[0, 255]),
    (2, 1, 0, &[]),
    (2, 5, 5, &[0, 255]),
    (2, 1, 1, &[0, 256]),
    (0, 1, 1, &[]),
];

#[test]
fn other_lines_do_not_fit(rt: HostRuntime) -> Result<(), Fail> {
    let params = Params::new(8, 0, 0, 0, 0, 0)?;
    for &(width, components, count, samples) in &OTHERS {
        let lines = lines_of(rt.alloc(), count, samples)?;
        assert!(rt;
            !fits(&params, width, components, lines.as_slice()),
            "{width} {components} {count}"
        );
    }
    Ok(())
}
