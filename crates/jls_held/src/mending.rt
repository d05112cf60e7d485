//! What edits make of a copy.

ghost use Rattle.std.specs.Prelude.{◌≡◌, ◌++◌, IfOk, OnOk, length, replicate};
ghost use Rattle.jls_held.specs.Edits.{AreEdits, edited};
ghost use Rattle.jls_held.specs.Mending.{edits_of, file_of};

use std::alloc::{AllocError, Global};

/// An edit of a copy: these bytes take the place of `count` bytes from `offset` on.
#[derive(Drop)]
pub struct CopyEdit {
    pub offset: usize,
    pub count: usize,
    pub bytes: Vec<u8>,
}

/// The bytes of a mended file, and for each whether the copy has it.
#[derive(Drop)]
pub struct MendedCopy {
    pub bytes: Vec<u8>,
    pub held: Vec<bool>,
}

impl MendedCopy {
    /// Appends bytes. `held` says whether the copy has them.
    fn put(&mut self, bytes: &[u8], held: bool) -> Result<(), AllocError>
        ensures bytes { OnOk result (self.new.bytes.items ≡ self.old.bytes.items ++ bytes.now) }
        ensures held { OnOk result (self.new.held.items ≡ self.old.held.items ++ replicate (length bytes.now) held) }
    {
        self.bytes.extend_from_slice(bytes)?;
        for _ in 0..bytes.len() {
            self.held.push(held)?;
        }
        Ok(())
    }
}

/// The mended file that edits make of a copy: its bytes, and which of them the copy has.
pub fn mended_copy(alloc: Global, copy: &[u8], edits: &[CopyEdit]) -> Result<MendedCopy, AllocError>
    requires { AreEdits 0 (length copy.now) (edits_of edits.now) }
    ensures { IfOk result (λ mended. file_of mended ≡ edited 0 copy.now (edits_of edits.now)) }
{
    let mut mended = MendedCopy {
        bytes: Vec::new(alloc),
        held: Vec::new(alloc),
    };
    let mut at = 0;
    for edit in edits {
        mended.put(&copy[at..edit.offset], true)?;
        mended.put(&edit.bytes, false)?;
        at = edit.offset + edit.count;
    }
    mended.put(&copy[at..], true)?;
    Ok(mended)
}
