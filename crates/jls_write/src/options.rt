//! How a picture is written as JPEG-LS.

ghost use Rattle.jls_write.specs.Options.{OptionsFit};
ghost use Rattle.jls_write.specs.Options as spec;
ghost use Rattle.jls_write.specs.Picture.{line_of};
ghost use Rattle.std.specs.Prelude.{◌≡◌, ◌<◌, ◌≤◌, ◌↔◌, ◌*◌, ℕ, All, IsTrue, length};

use crate::picture::Picture;
use jls_values::{MOST_SAMPLES, Params, Shape};
use std::marker::Model;

/// The interleave mode, the restart interval in rows, and the coding parameters of all scans (ITU-T T.87, C.2.3 and C.2.4).
#[derive(Clone, Copy, Debug, PartialEq, Eq)]
pub struct Options {
    line: bool,
    ri: u16,
    params: Params,
}

impl Model for Options {
    ghost use Rattle.jls_write.specs.Options.{WriteOptions};

    ghost Value = { WriteOptions };

    ghost view = { λ a. record { line = a.line; restart_interval = a.ri; params = a.params } };

    ghost inverse = { λ o. record { line = o.line; ri = o.restart_interval; params = o.params } };
}

/// Whether no sample is above this value.
fn are_within(samples: &[u16], most: u16) -> bool
    ensures { IsTrue result ↔ All (λ sample. sample ≤ most) samples.now }
{
    samples.iter().all(|sample| *sample <= most)
}

/// Whether no sample of a component is above this value.
fn is_component_within(picture: &Picture<'_>, component: u8, most: u16) -> bool
    requires { component < length picture.now.shape.ids }
    ensures { IsTrue result ↔ ((line : ℕ) → line < picture.now.shape.height
        → All (λ sample. sample ≤ most) (line_of picture.now component line)) }
{
    for line in 0..picture.shape().height() {
        let within = are_within(picture.line(component, line), most);
        if !within {
            return false;
        }
    }
    true
}

/// Whether no sample of the picture is above this value.
fn is_within(picture: &Picture<'_>, most: u16) -> bool
    ensures { IsTrue result ↔ ((component : ℕ) → component < length picture.now.shape.ids
        → (line : ℕ) → line < picture.now.shape.height → All (λ sample. sample ≤ most) (line_of picture.now component line)) }
{
    for component in 0..picture.shape().ids().len() as u8 {
        let within = is_component_within(picture, component, most);
        if !within {
            return false;
        }
    }
    true
}

impl Options {
    /// With `line`, all components stand in one scan, line by line; else each has a scan of its own. `ri` is the
    /// restart interval in rows, and 0 means that there are no restart markers.
    pub fn new(line: bool, ri: u16, params: Params) -> Options
        ensures { result ≡ record { line = line; restart_interval = ri; params = params } }
    {
        Options { line, ri, params }
    }

    /// Whether all components stand in one scan, line by line; else each has a scan of its own.
    pub fn line(&self) -> bool
        ensures { result ≡ self.now.line }
    {
        self.line
    }

    /// The restart interval in rows, or 0 where there are no restart markers.
    pub fn restart_interval(&self) -> u16
        ensures { result ≡ self.now.restart_interval }
    {
        self.ri
    }

    /// The coding parameters of all scans.
    pub fn params(&self) -> Params
        ensures { result ≡ self.now.params }
    {
        self.params
    }

    /// How many components each scan has.
    pub(crate) fn components_of_scan(&self, shape: &Shape) -> u8
        ensures value { result ≡ spec.components_of_scan shape.now self.now }
        ensures few { result ≤ 4 }
    {
        if self.line {
            shape.ids().len() as u8
        } else {
            1
        }
    }

    /// How many rows the longest restart interval has, which is the first one.
    fn rows_of_interval(&self, shape: &Shape) -> u16
        ensures { result ≡ spec.rows_of_interval shape.now self.now }
    {
        if self.ri == 0 {
            shape.height()
        } else {
            self.ri.min(shape.height())
        }
    }

    /// How many samples the longest restart interval has.
    fn samples_of_interval(&self, shape: &Shape) -> u64
        ensures { result ≡ shape.now.width * spec.components_of_scan shape.now self.now * spec.rows_of_interval shape.now self.now }
    {
        let row = u64::from(shape.width()) * u64::from(self.components_of_scan(shape));
        row * u64::from(self.rows_of_interval(shape))
    }

    /// Whether a picture can be written so. The parameters have its precision, no sample is above their MAXVAL, and no interval has more
    /// than 2^28 samples.
    pub fn fits(&self, picture: &Picture<'_>) -> bool
        ensures { IsTrue result ↔ OptionsFit picture.now self.now }
    {
        self.params.precision() == picture.shape().precision()
            && self.samples_of_interval(picture.shape()) <= MOST_SAMPLES
            && is_within(picture, self.params.maxval())
    }
}
