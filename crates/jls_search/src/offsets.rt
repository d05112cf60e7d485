//! Offsets of borders in the files that choices make.

ghost use Rattle.std.specs.Prelude.{◌≡◌, ◌-◌, ◌^◌, ◌<◌, ◌≤◌, length, take, IfSome};
ghost use Rattle.jls_diff.specs.PartsOf.{parts_of};
ghost use Rattle.jls_search.specs.Choices.{IsPath, prefix_of};
ghost use Rattle.jls_diff.specs.Borders.{IsBorder};
ghost use Rattle.jls_search.specs.Places.{offset_of, end_offset_of};

use jls_diff::{Border, Parts};

/// How many bytes the first `count` choices make.
fn prefix_length(parts: &Parts<'_>, path: &[usize], count: usize) -> usize
    requires path { IsPath parts.now path.now }
    requires count { count ≤ length path.now }
    requires few { length (prefix_of parts.now path.now) ≤ 2 ^ 63 - 1 }
    ensures { result ≡ length (prefix_of parts.now (take count path.now)) }
{
    let mut total = 0;
    for place in 0..count {
        total += parts.way(place, path[place]).len();
    }
    total
}

/// The offset of a border in the file that the choices make.
pub(crate) fn border_offset(parts: &Parts<'_>, path: &[usize], border: Border) -> u64
    requires path { IsPath parts.now path.now }
    requires few { length (prefix_of parts.now path.now) ≤ 2 ^ 63 - 1 }
    requires border { IsBorder parts.now border }
    requires within { border.part < length path.now }
    ensures { result ≡ offset_of parts.now path.now border }
{
    (prefix_length(parts, path, border.part) + border.at) as u64
}

/// The offset of the border where a group ends, if one does, in the file that the choices make.
pub(crate) fn end_offset(parts: &Parts<'_>, path: &[usize], end: Option<Border>) -> Option<u64>
    requires path { IsPath parts.now path.now }
    requires few { length (prefix_of parts.now path.now) ≤ 2 ^ 63 - 1 }
    requires border { IfSome end (λ border. IsBorder parts.now border) }
    requires whole { length path.now ≡ length parts.now }
    ensures { result ≡ end_offset_of parts.now path.now end }
{
    match end {
        Some(border) => Some(border_offset(parts, path, border)),
        None => None,
    }
}
