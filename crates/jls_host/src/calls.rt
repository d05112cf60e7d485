//! The calls of a machine as a value that clauses read.

ghost use Rattle.std.specs.Prelude.{◌≡◌, [], ◌∷◌, ◌++◌, List};
ghost use Rattle.std.specs.Borrow.{ftrue};
ghost use Rattle.jls_host.specs.Disk.{Call};
ghost use Rattle.jls_host.specs.CallCode.{coded_calls};

use std::marker::Model;

/// A call that a machine made, and its answer: yes, or that it went well.
#[derive(Clone, Copy, Drop)]
pub(crate) enum Called<'a> {
    /// Whether nothing or a regular file stands at the name.
    Plain(&'a str, bool),
    /// Whether the name may lead to a partial picture.
    Partial(&'a str, bool),
    /// Whether the name leads to an input.
    Input(&'a str, bool),
    /// Something was asked that changes nothing, and whose answer is not noted.
    Looks(&'a str, bool),
    /// Whether both names lead to one file.
    One(&'a str, &'a str, bool),
    /// Whether the files of both names have the same bytes, and could be read.
    Equal(&'a str, &'a str, bool),
    /// A file of this name was made, which was not there. It has this number.
    Makes(&'a str, u64, bool),
    /// A file of this name was opened and emptied. It has this number.
    Empties(&'a str, u64, bool),
    /// The file of the first name got the second one too.
    Links(&'a str, &'a str, bool),
    /// What the file of this name has was written to the file of this number.
    Copies(&'a str, u64, bool),
    /// Bytes were written to the file of this number.
    Writes(u64, &'a [u8], bool),
    /// All of the file of this number was stored.
    Syncs(u64, bool),
    /// The file of the first name got the second one in its place.
    Renames(&'a str, &'a str, bool),
    /// The file of this name was removed.
    Removes(&'a str, bool),
}

/// Calls that only clauses read. It has size 0, and its methods do nothing when the program runs.
#[derive(Drop)]
pub(crate) struct CallsCell {
    pub ghost calls: { List Call } by { coded_calls },
}

const _: () = prove!(size_of::<CallsCell>() == 0);

impl Model for CallsCell {
    ghost also_owns = { λ _. ftrue };
}

impl CallsCell {
    ghost use Rattle.jls_host.specs.Called.{call_of};

    /// The calls of a machine of which nothing was asked yet.
    pub(crate) fn new() -> CallsCell
        ensures { result.calls ≡ [] }
    {
        CallsCell {}
    }

    /// The calls after one call more.
    fn then(&self, _call: &Called<'_>) -> CallsCell
        ensures { result.calls ≡ self.now.calls ++ call_of _call.now ∷ [] }
    {
        CallsCell {}
    }

    /// Notes a call.
    pub(crate) fn note(&mut self, call: &Called<'_>)
        ensures { self.new.calls ≡ self.old.calls ++ call_of call.now ∷ [] }
    {
        let next = CallsCell::then(self, call);
        *self = next;
    }
}
