//! SOI and the segments before the scans.

ghost use Rattle.jls_write.specs.WrittenFile as spec;
ghost use Rattle.jls_values.specs.Shape.{IsShape};
ghost use Rattle.jls_values.specs.Params.{AreCodingParameters};
ghost use Rattle.std.specs.Prelude.{◌≡◌, ◌++◌, IfOk, OnOk};
ghost use Rattle.std.specs.List.{flat_map};

use crate::options::Options;
use crate::picture::Picture;
use jls_marker::codes::SOI;
use jls_marker::{Segment, write_segment};
use jls_values::Params;
use std::alloc::{AllocError, Global};

/// The most bytes of SOI, SOF55 without its components, LSE and DRI together.
const BYTES_BESIDE_COMPONENTS: usize = 35;

/// Whether MAXVAL, the thresholds and RESET are those of the other parameters.
fn same_values(params: &Params, defaults: &Params) -> bool
    ensures { result ≡ spec.are_values_of defaults.now params.now }
{
    params.maxval() == defaults.maxval()
        && params.t1() == defaults.t1()
        && params.t2() == defaults.t2()
        && params.t3() == defaults.t3()
        && params.reset() == defaults.reset()
}

/// Whether the parameters are the defaults of their precision.
fn are_defaults(params: &Params) -> bool
    ensures value { result ≡ spec.are_defaults params.now }
    ensures ranges { AreCodingParameters params.now }
{
    let defaults = Params::default_for(params.precision());
    same_values(params, &defaults)
}

/// Appends LSE, where the parameters aren't all defaults.
fn write_presets(out: &mut Vec<u8>, params: &Params) -> Result<(), AllocError>
    ensures written { OnOk result (out.new.items ≡ out.old.items ++ flat_map spec.bytes_of (spec.preset_segments params.now)) }
    ensures ranges { AreCodingParameters params.now }
{
    if are_defaults(params) {
        return Ok(());
    }
    let segment = Segment::Preset {
        maxval: params.maxval(),
        t1: params.t1(),
        t2: params.t2(),
        t3: params.t3(),
        reset: params.reset(),
    };
    write_segment(out, &segment)
}

/// Appends DRI, where there is a restart interval.
fn write_restart_interval(out: &mut Vec<u8>, rows: u16) -> Result<(), AllocError>
    ensures { OnOk result (out.new.items ≡ out.old.items ++ flat_map spec.bytes_of (spec.restart_segments rows)) }
{
    if rows == 0 {
        return Ok(());
    }
    write_segment(out, &Segment::Restart(u32::from(rows)))
}

/// SOI and the segments before the scans.
pub(crate) fn header_bytes(
    alloc: Global,
    picture: &Picture<'_>,
    options: &Options,
) -> Result<Vec<u8>, AllocError>
    ensures value { IfOk result (λ bytes. bytes.items ≡ spec.header_bytes picture.now options.now) }
    ensures ranges { IsShape picture.now.shape }
    ensures params { OnOk result (AreCodingParameters options.now.params) }
{
    let shape = picture.shape();
    let mut bytes = Vec::with_capacity(alloc, BYTES_BESIDE_COMPONENTS + 3 * shape.ids().len())?;
    bytes.extend_from_slice(&[0xFF, SOI])?;
    write_segment(&mut bytes, &Segment::Frame(shape.to_owned()))?;
    write_presets(&mut bytes, &options.params())?;
    write_restart_interval(&mut bytes, options.restart_interval())?;
    Ok(bytes)
}
