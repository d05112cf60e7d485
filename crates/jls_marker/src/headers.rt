//! The state of the headers.

ghost use Rattle.std.specs.Prelude.{◌≡◌, ◌-◌, ◌*◌, ◌<◌, ◌==◌, length, min, OnOk, if◌then◌else◌};
ghost use Rattle.jls_marker.specs.Headers.{scan_judged};
ghost use Rattle.jls_values.specs.ParamsOf.{params_of};

use crate::component_index::indices_of;
use crate::fault::MarkerFault;
use crate::profile::Profile;
use crate::read::read_segment_under;
use crate::scan_head::ScanHead;
use crate::scan_plan::ScanPlan;
use crate::segment::Segment;
use jls_values::{MOST_SAMPLES, ParamFault, Params, Shape};
use std::marker::Model;

/// How many scans a copy may have.
const MOST_SCANS: u8 = 16;

/// The values of an LSE segment of ID 1.
#[derive(Clone, Copy)]
struct PresetValues {
    maxval: u16,
    t1: u16,
    t2: u16,
    t3: u16,
    reset: u16,
}

impl PresetValues {
    /// The parameters that these values put in force.
    fn params(self, precision: u8) -> Result<Params, ParamFault>
        ensures { result ≡ params_of precision
            (record { maxval = self.maxval; t1 = self.t1; t2 = self.t2; t3 = self.t3; reset = self.reset }) }
    {
        Params::new(
            precision,
            self.maxval,
            self.t1,
            self.t2,
            self.t3,
            self.reset,
        )
    }
}

/// How many samples the first restart interval of a scan has, which none of the others passes.
fn first_samples(frame: &Shape, head: &ScanHead, restart_interval: u32) -> u64
    ensures { result ≡ frame.now.width * length head.now.ids
        * (if restart_interval == 0 then frame.now.height else min restart_interval (frame.now.height - 0 * restart_interval)) }
{
    let row = u64::from(frame.width()) * head.ids().len() as u64;
    let height = u32::from(frame.height());
    if restart_interval == 0 {
        return row * u64::from(height);
    }
    row * u64::from(restart_interval.min(height))
}

/// The scan that an SOS begins under this frame where so many scans have begun, judged in the order that `accept` tells.
fn begin(
    frame: &Shape,
    preset: PresetValues,
    restart_interval: u32,
    scans: u8,
    head: &ScanHead,
) -> Result<ScanPlan, MarkerFault>
    ensures judged { result ≡ scan_judged frame.now (record {
      maxval = preset.maxval;
      t1 = preset.t1;
      t2 = preset.t2;
      t3 = preset.t3;
      reset = preset.reset;
    }) restart_interval scans head.now }
    ensures few { OnOk result (scans < 16) }
{
    let components = match indices_of(frame.ids(), head.ids()) {
        Some(components) => components,
        None => return Err(MarkerFault::UnknownComponent),
    };
    let params = match preset.params(frame.precision()) {
        Ok(params) => params,
        Err(_) => return Err(MarkerFault::BadParams),
    };
    if first_samples(frame, head, restart_interval) > MOST_SAMPLES {
        return Err(MarkerFault::IntervalTooLarge);
    }
    if scans >= MOST_SCANS {
        return Err(MarkerFault::TooManyScans);
    }
    Ok(ScanPlan::new(
        frame,
        components,
        params,
        restart_interval,
        head.by_sample(),
    ))
}

/// What the segments of a copy have set so far. These are the frame, the preset parameters and the restart interval in force, and how many
/// scans have begun. The profile, which is set at the start, says which scans are read.
#[derive(Drop)]
pub struct Headers {
    profile: Profile,
    frame: Option<Shape>,
    preset: PresetValues,
    restart_interval: u32,
    scans: u8,
}

impl Model for Headers {
    ghost use Rattle.std.specs.Prelude.{ℕ, ◌≤◌};
    ghost use Rattle.jls_marker.specs.HeaderState.{HeaderState};

    ghost Value = { HeaderState };

    ghost view = { λ h. record {
      profile = h.profile;
      frame = h.frame;
      preset = record {
        maxval = h.preset.maxval;
        t1 = h.preset.t1;
        t2 = h.preset.t2;
        t3 = h.preset.t3;
        reset = h.preset.reset;
      };
      restart_interval = h.restart_interval;
      scans = h.scans;
    } };

    ghost invariant = { λ h. h.scans ≤ 16 };
}

impl Headers {
    ghost use Rattle.std.specs.Prelude.{◌≡◌, ◌≤◌, IfOk, IfErr, OnErr, IfSome, IfNone, None, Ok, Err};
    ghost use Rattle.jls_marker.specs.HeaderState.{no_headers, no_headers_under};
    ghost use Rattle.jls_marker.specs.Headers as headers;

    /// Headers before the first segment, which are strict: a scan that is interleaved by sample is refused.
    pub fn new() -> Headers
        ensures { result ≡ no_headers }
    {
        Headers::under(Profile::Strict)
    }

    /// Headers before the first segment, which take the scans of this profile.
    pub fn under(profile: Profile) -> Headers
        ensures { result ≡ no_headers_under profile }
    {
        Headers {
            profile,
            frame: None,
            preset: PresetValues {
                maxval: 0,
                t1: 0,
                t2: 0,
                t3: 0,
                reset: 0,
            },
            restart_interval: 0,
            scans: 0,
        }
    }

    /// Second headers of the same values. They take no memory.
    pub fn to_owned(&self) -> Headers
        ensures { result ≡ self.now }
    {
        let frame = match &self.frame {
            None => None,
            Some(shape) => Some(shape.to_owned()),
        };
        Headers {
            profile: self.profile,
            frame,
            preset: self.preset,
            restart_interval: self.restart_interval,
            scans: self.scans,
        }
    }

    /// Which scans are read.
    pub fn profile(&self) -> Profile
        ensures { result ≡ self.now.profile }
    {
        self.profile
    }

    /// The frame that was accepted.
    pub fn shape(&self) -> Option<&Shape>
        ensures some { IfSome result (λ shape. self.now.frame ≡ Some shape.now) }
        ensures none { IfNone result (self.now.frame ≡ None) }
    {
        self.frame.as_ref()
    }

    /// How many scans have begun.
    pub fn scans(&self) -> u8
        ensures value { result ≡ self.now.scans }
        ensures at_most { result ≤ 16 }
    {
        self.scans
    }

    /// Takes a segment, and answers the scan that it begins where it is an SOS. A segment that can't stand here is refused, and leaves the
    /// headers as they were. A frame after the frame is `SecondFrame`. A scan can have these refusals, in this order. `NoFrame` comes
    /// before a frame, and `UnknownComponent` for an identifier that isn't in the frame. `BadParams` comes if the values of the last LSE
    /// of ID 1 are out of range at the frame's precision. `IntervalTooLarge` comes for a restart interval of more than 2^28 samples, and
    /// `TooManyScans` for the seventeenth scan. It takes no memory. The profile doesn't count here: it says what `take` reads.
    pub fn accept(&mut self, segment: &Segment) -> Result<Option<ScanPlan>, MarkerFault>
        ensures accepted { IfOk result (λ scan. headers.accepted self.old segment.now ≡ Ok (self.new, scan)) }
        ensures refused { IfErr result (λ fault. headers.accepted self.old segment.now ≡ Err fault) }
        ensures unchanged { OnErr result (self.new ≡ self.old) }
    {
        match segment {
            Segment::Frame(_) if self.frame.is_some() => Err(MarkerFault::SecondFrame),
            Segment::Frame(shape) => {
                self.frame = Some(shape.to_owned());
                Ok(None)
            }
            Segment::Scan(head) => {
                let Some(frame) = &self.frame else {
                    return Err(MarkerFault::NoFrame);
                };
                let plan = begin(frame, self.preset, self.restart_interval, self.scans, head)?;
                self.scans += 1;
                Ok(Some(plan))
            }
            Segment::Preset {
                maxval,
                t1,
                t2,
                t3,
                reset,
            } => {
                self.preset = PresetValues {
                    maxval: *maxval,
                    t1: *t1,
                    t2: *t2,
                    t3: *t3,
                    reset: *reset,
                };
                Ok(None)
            }
            Segment::Restart(rows) => {
                self.restart_interval = *rows;
                Ok(None)
            }
            Segment::Skipped(_) => Ok(None),
        }
    }

    /// Takes a whole segment by the code of its marker and its payload: `read_segment_under` the profile of the headers, and then
    /// `accept`.
    #[tactic(auto, unfolding(crate::specs::Headers::headers_after))]
    pub fn take(&mut self, code: u8, payload: &[u8]) -> Result<Option<ScanPlan>, MarkerFault>
        ensures accepted { IfOk result (λ scan. headers.headers_after self.old code payload.now ≡ Ok (self.new, scan)) }
        ensures refused { IfErr result (λ fault. headers.headers_after self.old code payload.now ≡ Err fault) }
        ensures unchanged { OnErr result (self.new ≡ self.old) }
    {
        let segment = read_segment_under(self.profile, code, payload)?;
        self.accept(&segment)
    }
}
