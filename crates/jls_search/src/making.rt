//! The bytes that choices make, in memory.

ghost use Rattle.std.specs.Prelude.{◌≡◌, ◌-◌, ◌≤◌, ◌<◌, length, IfOk, get_or, []};
ghost use Rattle.jls_diff.specs.Parts.{Same, way};
ghost use Rattle.jls_diff.specs.PartsOf.{part_of, parts_of};
ghost use Rattle.jls_search.specs.Choices.{IsFirstWay, IsPath, prefix_of};

use jls_diff::Parts;
use std::alloc::{AllocError, Global};

/// The bytes that choices make. `Err` comes where memory is refused.
pub fn file_of(alloc: Global, parts: &Parts<'_>, choices: &[usize]) -> Result<Vec<u8>, AllocError>
    requires { IsPath parts.now choices.now }
    ensures { IfOk result (λ file. file.items ≡ prefix_of parts.now choices.now) }
{
    let mut file = Vec::new(alloc);
    for place in 0..choices.len() {
        file.extend_from_slice(parts.way(place, choices[place]))?;
    }
    Ok(file)
}
