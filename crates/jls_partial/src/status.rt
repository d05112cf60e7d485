//! How much is known of a line.

ghost use Rattle.jls_partial.specs.Partial.{readings_at};
ghost use Rattle.jls_partial.specs.Status.{status_of, IsComponentSettled, IsSettled};
ghost use Rattle.std.specs.Prelude.{◌≡◌, ◌<◌, ◌↔◌, length, IsTrue};

use crate::partial::Partial;

/// How much is known of a line, by the number of its readings.
#[derive(Clone, Copy, Debug, PartialEq, Eq)]
pub enum Status {
    /// It has no reading.
    Missing,
    /// It has one reading.
    Settled,
    /// It has several readings, which differ.
    Disputed,
}

/// Whether each line of a component has one reading.
fn is_component_settled(partial: &Partial, component: u8) -> bool
    requires { component < length partial.now.shape.ids }
    ensures { IsTrue result ↔ IsComponentSettled partial.now component }
{
    for line in 0..partial.shape().height() {
        let count = partial.count(component, line);
        if count != 1 {
            return false;
        }
    }
    true
}

impl Partial {
    /// How much is known of a line.
    pub fn status(&self, component: u8, line: u16) -> Status
        requires component_in { component < length self.now.shape.ids }
        requires line_in { line < self.now.shape.height }
        ensures { result ≡ status_of (readings_at self.now component line) }
    {
        match self.count(component, line) {
            0 => Status::Missing,
            1 => Status::Settled,
            _ => Status::Disputed,
        }
    }

    /// Whether each line of each component is settled.
    pub fn is_settled(&self) -> bool
        ensures { IsTrue result ↔ IsSettled self.now }
    {
        for component in 0..self.shape().ids().len() as u8 {
            let settled = is_component_settled(self, component);
            if !settled {
                return false;
            }
        }
        true
    }
}
