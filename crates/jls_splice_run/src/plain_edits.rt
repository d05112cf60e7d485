//! Whether the edits of copies say plainly which of these are wrong. It is asked where files without a fault differ. It only advises: no
//! contract speaks of it.
//!
//! A bit that is flipped in one copy can change a line, and nothing else. In the code of another copy that line differs in few bytes, as if
//! these were flipped instead. So little can be told where few bytes are wrong. But one bit that is all such would be several, if another
//! copy were wrong. And bytes that are lost or put in, or many that are wrong side by side, look like nothing else.

use jls_held::{CopyEdit, EditedCopy};

/// How many bytes that are wrong side by side look like no flipped bit.
const MANY: usize = 16;

/// Whether an edit changes one bit of a copy.
fn changes_one_bit(copy: &[u8], edit: &CopyEdit) -> bool {
    match (copy.get(edit.offset), edit.bytes.as_slice()) {
        (Some(own), [byte]) => edit.count == 1 && (*own ^ *byte).count_ones() == 1,
        _ => false,
    }
}

/// Whether an edit says plainly that its copy is damaged: bytes are lost or put in, or many are wrong.
fn is_plain(edit: &CopyEdit) -> bool {
    edit.count == 0 || edit.bytes.is_empty() || edit.count.min(edit.bytes.len()) >= MANY
}

/// Whether all edits of these copies are plain, but for one that changes one bit.
pub(crate) fn are_plain_edits(copies: &[&[u8]], codings: &[Vec<EditedCopy>]) -> bool {
    let mut is_one = false;
    for coding in codings {
        for edited in coding {
            let Some(copy) = copies.get(edited.number) else {
                continue;
            };
            for edit in edited.edits.iter().filter(|edit| !is_plain(edit)) {
                if is_one || !changes_one_bit(copy, edit) {
                    return false;
                }
                is_one = true;
            }
        }
    }
    true
}

/// Whether the edits change no copy without a fault but by flipped bits. `faultless` has a verdict for each copy. Such a copy can have
/// flipped bits that no decoder notices. If edits change more of it, it is rather another copy that is wrong.
pub(crate) fn are_flips_in_whole_copies(
    copies: &[&[u8]],
    codings: &[Vec<EditedCopy>],
    faultless: &[bool],
) -> bool {
    for coding in codings {
        for edited in coding {
            let Some(copy) = copies.get(edited.number) else {
                continue;
            };
            let is_whole = faultless.get(edited.number) == Some(&true);
            if is_whole && edited.edits.iter().any(|edit| !changes_one_bit(copy, edit)) {
                return false;
            }
        }
    }
    true
}
