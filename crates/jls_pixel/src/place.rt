//! Where a row stands in its interval, and the samples round its next pixel.

ghost use Rattle.std.specs.Prelude.{◌≡◌, ◌^◌, ◌<◌, ◌≤◌, length, get_or};
ghost use Rattle.jls_context.specs.Mode.{is_run_mode};
ghost use Rattle.jls_pixel.specs.Pixels.{samples_of, is_run_pixel};

use crate::pixel::Pixel;
use jls_context::Neighbours;

/// The sample of a component in a column. Where there is none it is 0.
fn sample_at(row: &[Pixel], x: usize, component: usize) -> u16
    ensures { result ≡ get_or (samples_of component row.now) x 0 }
{
    match row.get(x) {
        None => 0,
        Some(pixel) => pixel.sample(component),
    }
}

/// Where a row stands in its interval: the two rows above it, its columns, and the components of its pixels.
#[derive(Drop)]
pub(crate) struct Place<'a> {
    pub width: usize,
    pub components: usize,
    pub row_above: &'a [Pixel],
    pub row_two_above: &'a [Pixel],
    ghost width_below: { width < 2 ^ 16 },
    ghost components_at_most: { components ≤ 4 },
}

impl<'a> Place<'a> {
    ghost use Rattle.jls_pixel.specs.Place.{above_of, near_at, nears_at, run_value_at};

    /// The place of a row below these two.
    pub(crate) fn below(
        row_above: &'a [Pixel],
        row_two_above: &'a [Pixel],
        width: u16,
        components: u8,
    ) -> Place<'a>
        requires { components ≤ 4 }
        ensures width { result.width ≡ width }
        ensures components { result.components ≡ components }
        ensures above { above_of result ≡ record { row_above = row_above.now; row_two_above = row_two_above.now } }
    {
        Place {
            width: usize::from(width),
            components: usize::from(components),
            row_above,
            row_two_above,
        }
    }

    /// The samples round a component of the pixel that follows these pixels of the row.
    pub(crate) fn neighbours(&self, row: &[Pixel], component: usize) -> Neighbours
        requires { length row.now < self.now.width }
        ensures { result ≡ near_at self.now row.now component }
    {
        let x = row.len();
        let rb = sample_at(self.row_above, x, component);
        let rd = if x + 1 < self.width {
            sample_at(self.row_above, x + 1, component)
        } else {
            rb
        };
        if x == 0 {
            let rc = sample_at(self.row_two_above, 0, component);
            Neighbours { ra: rb, rb, rc, rd }
        } else {
            let ra = sample_at(row, x - 1, component);
            let rc = sample_at(self.row_above, x - 1, component);
            Neighbours { ra, rb, rc, rd }
        }
    }

    /// Whether the gradients of a component of the pixel that follows these pixels of the row are 0.
    fn has_no_gradient(&self, row: &[Pixel], component: usize) -> bool
        requires { length row.now < self.now.width }
        ensures { result ≡ is_run_mode (near_at self.now row.now component) }
    {
        let near = self.neighbours(row, component);
        near.rd == near.rb && near.rb == near.rc && near.rc == near.ra
    }

    /// Whether the pixel that follows these pixels of the row is in run mode.
    pub(crate) fn is_run(&self, row: &[Pixel]) -> bool
        requires { length row.now < self.now.width }
        ensures { result ≡ is_run_pixel (nears_at self.now row.now) }
    {
        for component in 0..self.components {
            if !self.has_no_gradient(row, component) {
                return false;
            }
        }
        true
    }

    /// The value of a run that begins or goes on at the pixel that follows these pixels of the row.
    pub(crate) fn run_value(&self, row: &[Pixel]) -> Pixel
        requires { length row.now < self.now.width }
        ensures { result ≡ run_value_at self.now row.now }
    {
        let mut value = Pixel::new();
        for component in 0..self.components {
            value.push(self.neighbours(row, component).ra);
        }
        value
    }
}
