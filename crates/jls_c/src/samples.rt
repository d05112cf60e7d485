//! The samples of all lines.

ghost use Rattle.jls_c.specs.Info.{sample_count};
ghost use Rattle.jls_c.specs.Lines.{shown_line, shown_component, shown_picture};
ghost use Rattle.std.specs.Prelude.{◌≡◌, ◌<◌, ◌*◌, length};

use jls_partial::{Partial, Status};

/// Puts what is shown of a line.
#[tactic(auto, using(crate::proofs::Shown::line_shown, crate::proofs::Sizes::reading_width))]
fn put_line(partial: &Partial, component: u8, line: u16, out: &mut [u16])
    requires component_in { component < length partial.now.shape.ids }
    requires line_in { line < partial.now.shape.height }
    requires width { length out.old ≡ partial.now.shape.width }
    ensures shown { out.new ≡ shown_line partial.now component line }
    ensures wide { length out.new ≡ partial.now.shape.width }
{
    match partial.status(component, line) {
        Status::Settled => out.copy_from_slice(partial.reading(component, line, 0)),
        Status::Missing => out.fill(0),
        Status::Disputed => out.fill(0),
    }
}

/// Puts what is shown of the lines of a component.
fn put_component(partial: &Partial, component: u8, out: &mut [u16])
    requires component_in { component < length partial.now.shape.ids }
    requires room { length out.old ≡ partial.now.shape.height * partial.now.shape.width }
    ensures shown { out.new ≡ shown_component partial.now component }
    ensures long { length out.new ≡ partial.now.shape.height * partial.now.shape.width }
{
    let width = usize::from(partial.shape().width());
    for line in 0..partial.shape().height() {
        let start = usize::from(line) * width;
        put_line(partial, component, line, &mut out[start..start + width]);
    }
}

/// Puts what is shown of all lines.
pub(crate) fn put_samples(partial: &Partial, out: &mut [u16])
    requires { length out.old ≡ sample_count partial.now.shape }
    ensures shown { out.new ≡ shown_picture partial.now }
    ensures long { length out.new ≡ sample_count partial.now.shape }
{
    let shape = partial.shape();
    let size = usize::from(shape.height()) * usize::from(shape.width());
    for component in 0..shape.ids().len() as u8 {
        let start = usize::from(component) * size;
        put_component(partial, component, &mut out[start..start + size]);
    }
}
