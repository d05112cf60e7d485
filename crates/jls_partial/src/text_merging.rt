//! Texts whose readings go straight into a partial picture that is held.

ghost use Rattle.jls_partial.specs.Merging.{TakesPrefix};
ghost use Rattle.jls_partial.specs.Partial.{PartialPicture, union};
ghost use Rattle.jls_partial.specs.Text.{IsTextOf};
ghost use Rattle.jls_partial.specs.TextPrefix.{text_prefix};
ghost use Rattle.jls_partial.specs.TextMerging.{MergesText, RefusesText, HasOtherHead};
ghost use Rattle.jls_partial.specs.declared.text_merging.MergeTextFault.TheVariants.{Text, ShapeDiffers};
ghost use Rattle.jls_values.specs.Join.{IsBetween};
ghost use Rattle.std.specs.Prelude.{◌≡◌, OnOk, OnErr, IfErr, IsErrOf};

use crate::partial::Partial;
use crate::text_fault::TextFault;
use crate::text_reading::{read_after, read_head, read_rest};
use std::alloc::Global;
use thiserror::Error;

/// Why a text was not merged into a partial picture.
#[derive(Clone, Copy, Debug, PartialEq, Eq, Error)]
pub enum MergeTextFault {
    /// The bytes are not the text of a partial picture, or memory ran out.
    #[error("{0}")]
    Text(TextFault),
    /// They are the text of a partial picture of another shape.
    #[error("the shapes differ")]
    ShapeDiffers,
}

impl From<TextFault> for MergeTextFault {
    ghost from_gives = { λ f e. e ≡ Text f };

    fn from(fault: TextFault) -> MergeTextFault {
        MergeTextFault::Text(fault)
    }
}

impl Partial {
    /// Takes in the readings and the sources of the partial picture whose text the bytes are. It does what `from_bytes` and `merge` do,
    /// without a second partial picture in memory. The fault of a text is the one that `from_bytes` gives, and it comes before
    /// `ShapeDiffers`. A text that begins as those of another shape do changes nothing. After a fault or want of memory all that was held
    /// is still held. Some of the readings that stand in the text before the fault may be held too. After want of memory the same call can
    /// be made again.
    pub fn merge_text(&mut self, alloc: Global, bytes: &[u8]) -> Result<(), MergeTextFault>
        ensures ok { OnOk result (MergesText self.old bytes.now self.new) }
        ensures refused { IfErr result (λ fault. RefusesText self.old bytes.now fault) }
        ensures unchanged { IsErrOf result ShapeDiffers → self.new ≡ self.old }
        // Whatever the answer.
        ensures other_head { HasOtherHead self.old bytes.now → self.new ≡ self.old }
        // What is held after a fault.
        ensures prefix { OnErr result (TakesPrefix self.old self.new (text_prefix bytes.now)) }
        // Where memory ran out for what is a text.
        ensures between { (p : PartialPicture) → IsTextOf bytes.now p
            → OnErr result (IsBetween union self.old self.new (union self.old p)) }
    {
        let head = read_head(alloc, bytes)?;
        if *self.shape() != head.shape {
            read_after(head)?;
            return Err(MergeTextFault::ShapeDiffers);
        }
        read_rest(head.form, self, head.count, head.rest)?;
        Ok(())
    }
}
