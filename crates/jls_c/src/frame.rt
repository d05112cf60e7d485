//! What a caller says of samples that are to be written.

ghost use Rattle.jls_c.specs.Info.{sample_count};
ghost use Rattle.jls_c.specs.Written.{IsShapeOf, AreOptionsOf, IsPlanOf, HasPlan};
ghost use Rattle.jls_write.specs.Options.{WriteOptions, components_of_scan, rows_of_interval};
ghost use Rattle.jls_values.specs.Shape.{PictureShape};
ghost use Rattle.std.specs.List.{list_any};
ghost use Rattle.std.specs.Prelude.{◌≡◌, ◌≤◌, ◌<◌, ◌*◌, ◌^◌, ◌↔◌, nat_le, IfSome, IfNone, IsTrue, ℕ};

use jls_values::{MOST_SAMPLES, Params, Shape};
use jls_write::Options;

/// How samples are to be written: the shape of the picture, the restart interval in rows, or 0 for none, and whether all components
/// stand in one scan, line by line.
#[repr(C)]
#[derive(Clone, Copy)]
pub struct JlsFrame {
    pub width: u16,
    pub height: u16,
    pub restart_interval: u16,
    pub precision: u8,
    pub components: u8,
    pub interleaved: u8,
}

/// The identifiers of the components.
const IDS: [u8; 4] = [1, 2, 3, 4];

/// The shape that a caller asks for, if it is one.
fn shape_of(frame: &JlsFrame) -> Option<Shape>
    ensures some { IfSome result (λ shape. IsShapeOf frame.now shape) }
    ensures none { IfNone result ((shape : PictureShape) → IsShapeOf frame.now shape → ⊥) }
{
    if frame.components > 4 {
        return None;
    }
    let ids = &IDS[..usize::from(frame.components)];
    match Shape::new(frame.precision, frame.width, frame.height, ids) {
        Ok(shape) => Some(shape),
        Err(_) => None,
    }
}

/// The options that a caller asks for, with the default parameters of the precision.
fn options_of(frame: &JlsFrame) -> Option<Options>
    ensures some { IfSome result (λ options. AreOptionsOf frame.now options) }
    ensures none { IfNone result ((options : WriteOptions) → AreOptionsOf frame.now options → ⊥) }
{
    match Params::new(frame.precision, 0, 0, 0, 0, 0) {
        Ok(params) => Some(Options::new(frame.interleaved != 0, frame.restart_interval, params)),
        Err(_) => None,
    }
}

/// The shape and the options that a caller asks for, if so many samples make such a picture.
pub(crate) fn plan(frame: &JlsFrame, count: usize) -> Option<(Shape, Options)>
    ensures some { IfSome result (λ both. IsPlanOf frame.now count both.0 both.1) }
    ensures none { IfNone result (HasPlan frame.now count → ⊥) }
{
    let Some(shape) = shape_of(frame) else {
        return None;
    };
    let Some(options) = options_of(frame) else {
        return None;
    };
    let size = usize::from(shape.height()) * usize::from(shape.width());
    if count != shape.ids().len() * size {
        return None;
    }
    Some((shape, options))
}

/// Whether the longest restart interval has more samples than an interval may have.
pub(crate) fn has_large_interval(shape: &Shape, options: &Options) -> bool
    ensures { IsTrue result
        ↔ (2 ^ 28 < shape.now.width * components_of_scan shape.now options.now * rows_of_interval shape.now options.now) }
{
    let count = if options.line() {
        shape.ids().len() as u64
    } else {
        1
    };
    let rows = if options.restart_interval() == 0 {
        shape.height()
    } else {
        options.restart_interval().min(shape.height())
    };
    u64::from(shape.width()) * count * u64::from(rows) > MOST_SAMPLES
}

/// Whether a sample has more bits than the precision.
#[tactic(auto, using(std::proofs::lemmas::List::Folds::list_any_more))]
pub(crate) fn has_large_sample(samples: &[u16], precision: u8) -> bool
    requires { precision ≤ 16 }
    ensures { result ≡ list_any (λ x. nat_le (2 ^ precision) x) samples.now }
{
    let limit = 2u32.pow(u32::from(precision));
    let mut is_large = false;
    for sample in samples {
        is_large |= limit <= u32::from(*sample);
    }
    is_large
}
