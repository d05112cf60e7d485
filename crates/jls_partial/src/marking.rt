//! A source for all readings.

ghost use Rattle.jls_partial.specs.Marking.{MarksSome, line_readings, readings_of_lines, readings_of_components};
ghost use Rattle.jls_partial.specs.Partial.{with_marks, with_source, IsFitting};
ghost use Rattle.std.specs.Prelude.{◌≡◌, ◌<◌, length, OnOk, OnErr};

use crate::line_place::LinePlace;
use crate::partial::Partial;
use std::alloc::AllocError;

/// Adds a source to each reading of a line.
fn mark_line(partial: &mut Partial, component: u8, line: u16, source: u32) -> Result<(), AllocError>
    requires component_in { component < length partial.old.shape.ids }
    requires line_in { line < partial.old.shape.height }
    ensures ok { OnOk result (partial.new ≡ with_marks partial.old source (line_readings partial.old component line)) }
    ensures err { OnErr result (MarksSome partial.old source partial.new) }
{
    for i in 0..partial.count(component, line) {
        partial.mark_reading(LinePlace { component, line }, i, source)?;
    }
    Ok(())
}

/// Adds a source to each reading of a component.
fn mark_component(partial: &mut Partial, component: u8, source: u32) -> Result<(), AllocError>
    requires { component < length partial.old.shape.ids }
    ensures ok { OnOk result (partial.new
        ≡ with_marks partial.old source (readings_of_lines partial.old component partial.old.shape.height)) }
    ensures err { OnErr result (MarksSome partial.old source partial.new) }
{
    for line in 0..partial.shape().height() {
        mark_line(partial, component, line, source)?;
    }
    Ok(())
}

/// Adds a source to each reading.
fn mark_components(partial: &mut Partial, source: u32) -> Result<(), AllocError>
    ensures ok { OnOk result (partial.new
        ≡ with_marks partial.old source (readings_of_components partial.old (length partial.old.shape.ids))) }
    ensures err { OnErr result (MarksSome partial.old source partial.new) }
    ensures fitting { IsFitting partial.old }
{
    for component in 0..partial.shape().ids().len() as u8 {
        mark_component(partial, component, source)?;
    }
    Ok(())
}

impl Partial {
    /// Adds a source to each reading that is held, and changes nothing else. After want of memory some of the readings have it,
    /// and the same call can be made again to complete it.
    pub fn mark(&mut self, source: u32) -> Result<(), AllocError>
        ensures marked { OnOk result (self.new ≡ with_source self.old source) }
        ensures some { OnErr result (MarksSome self.old source self.new) }
        ensures completed { OnErr result (with_source self.new source ≡ with_source self.old source) }
    {
        mark_components(self, source)?;
        Ok(())
    }
}
