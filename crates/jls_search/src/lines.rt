//! Whether each line of a picture was read.

ghost use Rattle.std.specs.Prelude.{◌<◌, ◌↔◌, length, IsTrue};
ghost use Rattle.jls_search.specs.Faultless.{IsComponentRead, IsEachLineRead};

use jls_partial::Partial;

/// Whether each line of a component has a reading.
fn is_component_read(partial: &Partial, component: u8) -> bool
    requires { component < length partial.now.shape.ids }
    ensures { IsTrue result ↔ IsComponentRead partial.now component }
{
    for line in 0..partial.shape().height() {
        let count = partial.count(component, line);
        if count == 0 {
            return false;
        }
    }
    true
}

/// Whether each line of each component has a reading.
pub(crate) fn is_each_line_read(partial: &Partial) -> bool
    ensures { IsTrue result ↔ IsEachLineRead partial.now }
{
    for component in 0..partial.shape().ids().len() as u8 {
        let read = is_component_read(partial, component);
        if !read {
            return false;
        }
    }
    true
}
