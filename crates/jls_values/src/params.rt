//! Coding parameters.

ghost use Rattle.std.specs.Prelude.{◌≡◌, ◌+◌, ◌≤◌, ◌<◌, ◌^◌, ◌-◌, IfNone, IsTrue, ◌↔◌};
ghost use Rattle.jls_values.specs.Params.{AreCodingParameters};
ghost use Rattle.jls_values.specs.ParamsOf.{in_force, param_fault, params_of};
ghost use Rattle.jls_values.specs.PresetParameters.{no_presets};

use std::marker::Model;
use thiserror::Error;

/// Why values are not coding parameters: the first value that is outside its range, in this order.
#[derive(Clone, Copy, Debug, PartialEq, Eq, Error)]
pub enum ParamFault {
    /// The precision is not from 2 to 16 bits.
    #[error("the precision is not from 2 to 16")]
    Precision,
    /// MAXVAL is not from 1 to the largest sample of the precision.
    #[error("MAXVAL is out of range")]
    MaxVal,
    /// T1 is not from 1 to MAXVAL.
    #[error("T1 is out of range")]
    T1,
    /// T2 is not from T1 to MAXVAL.
    #[error("T2 is out of range")]
    T2,
    /// T3 is not from T2 to MAXVAL.
    #[error("T3 is out of range")]
    T3,
    /// RESET is not from 3 to the larger of 255 and MAXVAL.
    #[error("RESET is out of range")]
    Reset,
}

/// The parameters of lossless coding that are in force for a scan. They are the precision in bits per sample, and the preset values of
/// ITU-T T.87, C.2.4.1.1.
#[derive(Clone, Copy, Debug, PartialEq, Eq)]
pub struct Params {
    precision: u8,
    maxval: u16,
    t1: u16,
    t2: u16,
    t3: u16,
    reset: u16,
}

impl Model for Params {
    ghost use Rattle.jls_values.specs.Params.{CodingParameters, AreCodingParameters};

    ghost Value = { CodingParameters };

    ghost view = { λ a. record { precision = a.precision; maxval = a.maxval; t1 = a.t1; t2 = a.t2; t3 = a.t3; reset = a.reset } };

    ghost invariant = { λ a. AreCodingParameters
        (record { precision = a.precision; maxval = a.maxval; t1 = a.t1; t2 = a.t2; t3 = a.t3; reset = a.reset }) };

    ghost inverse = { λ p. record { precision = p.precision; maxval = p.maxval; t1 = p.t1; t2 = p.t2; t3 = p.t3; reset = p.reset } };
}

/// The default, where 0 is given, and else what is given.
fn or_default(given: u16, default: u16) -> u16
    ensures { result ≡ Rattle.jls_values.specs.ParamsOf.or_default given default }
{
    if given == 0 { default } else { given }
}

/// The value, if it is from `low` to MAXVAL, and else `low` (ITU-T T.87, C.2.4.1.1.1).
fn clamped(maxval: u16, low: u16, value: u16) -> u16
    ensures { result ≡ Rattle.jls_values.specs.ParamsOf.clamped maxval low value }
{
    if value < low || value > maxval {
        low
    } else {
        value
    }
}

/// FACTOR, from which the default thresholds at this MAXVAL follow (ITU-T T.87, C.2.4.1.1.1).
fn factor(maxval: u16) -> u16
    ensures value { result ≡ Rattle.jls_values.specs.ParamsOf.factor maxval }
    ensures at_least { 1 ≤ result }
    ensures at_most { result ≤ 256 }
{
    if maxval >= 128 {
        (maxval.min(4095) + 128) / 256
    } else {
        256 / (maxval + 1)
    }
}

/// The default of T1 at this MAXVAL.
fn default_t1(maxval: u16) -> u16
    ensures { result ≡ Rattle.jls_values.specs.ParamsOf.default_t1 maxval }
{
    let factor = factor(maxval);
    let value = if maxval >= 128 {
        factor + 2
    } else {
        (3 / factor).max(2)
    };
    clamped(maxval, 1, value)
}

/// The default of T2 at this MAXVAL, which is not below T1.
fn default_t2(maxval: u16, t1: u16) -> u16
    ensures { result ≡ Rattle.jls_values.specs.ParamsOf.default_t2 maxval t1 }
{
    let factor = factor(maxval);
    let value = if maxval >= 128 {
        4 * factor + 3
    } else {
        (7 / factor).max(3)
    };
    clamped(maxval, t1, value)
}

/// The default of T3 at this MAXVAL, which is not below T2.
fn default_t3(maxval: u16, t2: u16) -> u16
    ensures { result ≡ Rattle.jls_values.specs.ParamsOf.default_t3 maxval t2 }
{
    let factor = factor(maxval);
    let value = if maxval >= 128 {
        17 * factor + 4
    } else {
        (21 / factor).max(4)
    };
    clamped(maxval, t2, value)
}

/// The largest sample of a precision.
fn largest_sample(precision: u8) -> u16
    requires { precision ≤ 16 }
    ensures { result ≡ 2 ^ precision - 1 }
{
    (2u32.pow(u32::from(precision)) - 1) as u16
}

/// The thresholds of the local gradients.
#[derive(Clone, Copy)]
struct Thresholds {
    t1: u16,
    t2: u16,
    t3: u16,
}

/// The first of the values that is outside its range, in the order of `ParamFault`. The precision is in its range already.
fn range_fault(precision: u8, maxval: u16, thresholds: Thresholds, reset: u16) -> Option<ParamFault>
    requires at_least { 2 ≤ precision }
    requires at_most { precision ≤ 16 }
    ensures value { result ≡ param_fault (record {
      precision = precision;
      maxval = maxval;
      t1 = thresholds.t1;
      t2 = thresholds.t2;
      t3 = thresholds.t3;
      reset = reset;
    }) }
    ensures in_range { IfNone result (AreCodingParameters (record {
      precision = precision;
      maxval = maxval;
      t1 = thresholds.t1;
      t2 = thresholds.t2;
      t3 = thresholds.t3;
      reset = reset;
    })) }
{
    let Thresholds { t1, t2, t3 } = thresholds;
    if maxval < 1 || maxval > largest_sample(precision) {
        Some(ParamFault::MaxVal)
    } else if t1 < 1 || t1 > maxval {
        Some(ParamFault::T1)
    } else if t2 < t1 || t2 > maxval {
        Some(ParamFault::T2)
    } else if t3 < t2 || t3 > maxval {
        Some(ParamFault::T3)
    } else if reset < 3 || reset > maxval.max(255) {
        Some(ParamFault::Reset)
    } else {
        None
    }
}

impl Params {
    /// The parameters in force where these values are given, 0 standing for the default of the
    /// precision. The refusals come in the order of `ParamFault`.
    pub fn new(
        precision: u8,
        maxval: u16,
        t1: u16,
        t2: u16,
        t3: u16,
        reset: u16,
    ) -> Result<Params, ParamFault>
        ensures { result ≡ params_of precision (record { maxval = maxval; t1 = t1; t2 = t2; t3 = t3; reset = reset }) }
    {
        if precision < 2 || precision > 16 {
            return Err(ParamFault::Precision);
        }
        let maxval = or_default(maxval, largest_sample(precision));
        let t1 = or_default(t1, default_t1(maxval));
        let t2 = or_default(t2, default_t2(maxval, t1));
        let t3 = or_default(t3, default_t3(maxval, t2));
        let reset = or_default(reset, 64);
        if let Some(fault) = range_fault(precision, maxval, Thresholds { t1, t2, t3 }, reset) {
            return Err(fault);
        }
        Ok(Params {
            precision,
            maxval,
            t1,
            t2,
            t3,
            reset,
        })
    }

    /// The default parameters of a precision (ITU-T T.87, C.2.4.1.1.1).
    pub fn default_for(precision: u8) -> Params
        requires at_least { 2 ≤ precision }
        requires at_most { precision ≤ 16 }
        ensures { result ≡ in_force precision no_presets }
    {
        match Params::new(precision, 0, 0, 0, 0, 0) {
            Ok(params) => params,
            Err(_) => unreachable!(),
        }
    }

    /// Bits per sample, from 2 to 16.
    pub fn precision(&self) -> u8
        ensures value { result ≡ self.now.precision }
        ensures ranges { AreCodingParameters self.now }
    {
        self.precision
    }

    /// MAXVAL, the largest sample.
    pub fn maxval(&self) -> u16
        ensures value { result ≡ self.now.maxval }
        ensures ranges { AreCodingParameters self.now }
    {
        self.maxval
    }

    /// The first threshold of the local gradients.
    pub fn t1(&self) -> u16
        ensures value { result ≡ self.now.t1 }
        ensures ranges { AreCodingParameters self.now }
    {
        self.t1
    }

    /// The second threshold of the local gradients.
    pub fn t2(&self) -> u16
        ensures value { result ≡ self.now.t2 }
        ensures ranges { AreCodingParameters self.now }
    {
        self.t2
    }

    /// The third threshold of the local gradients.
    pub fn t3(&self) -> u16
        ensures value { result ≡ self.now.t3 }
        ensures ranges { AreCodingParameters self.now }
    {
        self.t3
    }

    /// RESET, the count at which a context's numbers are halved.
    pub fn reset(&self) -> u16
        ensures value { result ≡ self.now.reset }
        ensures ranges { AreCodingParameters self.now }
    {
        self.reset
    }

    /// RANGE, how many values a sample can have: MAXVAL + 1, from 2 to 65,536 (ITU-T T.87, A.2.1).
    pub fn range(&self) -> u32
        ensures value { result ≡ Rattle.jls_values.specs.Params.range self.now }
        ensures ranges { AreCodingParameters self.now }
    {
        u32::from(self.maxval) + 1
    }

    /// The least number of bits that hold RANGE values, from 1 to 16 (ITU-T T.87, A.2.1).
    pub fn qbpp(&self) -> u8
        ensures value { result ≡ Rattle.jls_values.specs.Params.qbpp self.now }
        ensures at_least { 1 ≤ result }
        ensures at_most { result ≤ 16 }
    {
        (self.maxval.ilog2() + 1) as u8
    }

    /// LIMIT, the length in bits that bounds a Golomb code, from 20 to 64 (ITU-T T.87, A.2.1).
    pub fn limit(&self) -> u8
        ensures value { result ≡ Rattle.jls_values.specs.Params.limit self.now }
        ensures above_qbpp { Rattle.jls_values.specs.Params.qbpp self.now + 2 ≤ result }
        ensures at_most { result ≤ 64 }
    {
        let bpp = self.qbpp().max(2);
        2 * (bpp + bpp.max(8))
    }
}

/// A law: `==` of parameters is equality.
pub fn equal_params_are_one(params: &Params, other: &Params) -> bool
    ensures { IsTrue result ↔ (params.now ≡ other.now) }
{
    params == other
}
