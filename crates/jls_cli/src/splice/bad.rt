//! What a value of `--bad` says.

ghost use Rattle.std.specs.Prelude.{◌≡◌, option_map};
ghost use Rattle.jls_cli.specs.BadValues.{bad_list_of, list_of};

use crate::numbers::number_from;

/// A list of bad places of a copy.
#[derive(Clone, Copy, Debug, PartialEq, Eq)]
pub struct BadList<'a> {
    /// The number of the copy, from 1 on.
    pub copy: u32,
    /// The name of the list.
    pub name: &'a str,
}

impl<'a> BadList<'a> {
    /// The list that a value N:LIST names: N stands before the first colon. `None` if there is no colon, or N is no number from 1 to
    /// 2^32 - 1.
    pub fn of(value: &'a str) -> Option<BadList<'a>>
        ensures { option_map list_of result ≡ bad_list_of value.entry.now }
    {
        let (number, name) = value.split_once(':')?;
        let copy = number_from(1, number)?;
        Some(BadList { copy, name })
    }
}
