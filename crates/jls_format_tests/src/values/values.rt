//! Shapes and parameters: each public call, and the order of the refusals.

use jls_values::*;
use std::test::Fail;

#[test]
fn a_shape_keeps_its_values(rt: HostRuntime) -> Result<(), Fail> {
    let shape = Shape::new(8, 12, 10, &[1, 2, 9])?;
    assert!(rt; shape.precision() == 8 && shape.width() == 12 && shape.height() == 10);
    assert!(rt; shape.ids() == [1, 2, 9].as_slice());
    assert!(rt; equal_shapes_are_one(&shape, &shape.to_owned()));
    let other = Shape::new(8, 12, 10, &[1, 9, 2])?;
    assert!(rt; !equal_shapes_are_one(&shape, &other));
    Ok(())
}

/// Precision, width, height and identifiers, and the fault of the shape.
const SHAPES: [(u8, u16, u16, &[u8], Option<ShapeFault>); 8] = [
    (1, 0, 0, &[], Some(ShapeFault::Precision)),
    (17, 0, 0, &[], Some(ShapeFault::Precision)),
    (2, 0, 0, &[], Some(ShapeFault::Width)),
    (16, 1, 0, &[], Some(ShapeFault::Height)),
    (16, 1, 1, &[], Some(ShapeFault::Count)),
    (16, 1, 1, &[7, 7, 7, 7, 7], Some(ShapeFault::Count)),
    (16, 1, 1, &[7, 1, 7], Some(ShapeFault::RepeatedId)),
    (16, 1, 1, &[7, 1, 0], None),
];

#[test]
fn shapes_are_refused_in_order(rt: HostRuntime) {
    for &(precision, width, height, ids, fault) in &SHAPES {
        assert!(rt;
            Shape::new(precision, width, height, ids).err() == fault,
            "{fault:?}"
        );
    }
    assert!(rt; Shape::size_fault(16, 1, 1, 5) == Some(ShapeFault::Count));
}

/// MAXVAL, T1, T2, T3 and RESET in force.
fn values(params: &Params) -> [u16; 5] {
    [
        params.maxval(),
        params.t1(),
        params.t2(),
        params.t3(),
        params.reset(),
    ]
}

#[test]
fn defaults_can_be_given(rt: HostRuntime) -> Result<(), Fail> {
    let params = Params::new(8, 0, 0, 0, 0, 0)?;
    let given = Params::new(8, 255, 3, 7, 21, 64)?;
    assert!(rt; equal_params_are_one(&params, &given));
    let other = Params::new(8, 255, 3, 7, 21, 63)?;
    assert!(rt; !equal_params_are_one(&params, &other));
    Ok(())
}

#[test]
fn defaults_follow_the_precision_and_the_values_given(rt: HostRuntime) -> Result<(), Fail> {
    let table = [
        (8, [0, 0, 0, 0, 0], [255, 3, 7, 21, 64]),
        (12, [0, 0, 0, 0, 0], [4095, 18, 67, 276, 64]),
        (2, [0, 0, 0, 0, 0], [3, 2, 3, 3, 64]),
        (8, [127, 0, 0, 0, 0], [127, 2, 3, 10, 64]),
        (8, [1, 0, 0, 0, 0], [1, 1, 1, 1, 64]),
        (8, [0, 10, 0, 0, 0], [255, 10, 10, 21, 64]),
        (8, [0, 0, 0, 0, 255], [255, 3, 7, 21, 255]),
    ];
    for (precision, [maxval, t1, t2, t3, reset], wanted) in table {
        let params = Params::new(precision, maxval, t1, t2, t3, reset)?;
        assert!(rt; values(&params) == wanted, "{wanted:?}");
    }
    Ok(())
}

#[test]
fn params_are_refused_in_order(rt: HostRuntime) {
    let table = [
        (1, [4, 9, 0, 0, 2], ParamFault::Precision),
        (8, [256, 300, 0, 0, 2], ParamFault::MaxVal),
        (8, [0, 256, 2, 0, 2], ParamFault::T1),
        (8, [0, 0, 2, 1, 2], ParamFault::T2),
        (8, [0, 0, 0, 6, 2], ParamFault::T3),
        (8, [0, 0, 0, 0, 2], ParamFault::Reset),
        (8, [0, 0, 0, 0, 256], ParamFault::Reset),
    ];
    for (precision, [maxval, t1, t2, t3, reset], fault) in table {
        let params = Params::new(precision, maxval, t1, t2, t3, reset);
        assert!(rt; params.err() == Some(fault), "{fault:?}");
    }
}

#[test]
fn lengths_follow_maxval(rt: HostRuntime) -> Result<(), Fail> {
    for (precision, maxval, range, qbpp, limit) in [
        (8u8, 0u16, 256u32, 8u8, 32u8),
        (8, 1, 2, 1, 20),
        (16, 0, 65536, 16, 64),
    ] {
        let params = Params::new(precision, maxval, 0, 0, 0, 0)?;
        assert!(rt; params.precision() == precision && params.range() == range);
        assert!(rt; params.qbpp() == qbpp && params.limit() == limit);
    }
    Ok(())
}
