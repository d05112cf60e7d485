//! Values that are merged.

ghost use Rattle.std.specs.Prelude.{◌≡◌, Bool, true, false, ◌↔◌, OnOk, IsErrOf, List, ◌∷◌, Contains};
ghost use Rattle.jls_values.specs.Join.{JoinLaws, IsBetween, join_all, AllOfShape, StopsAtShape, StopsInside};
ghost use Rattle.jls_values.specs.declared.merge.MergeFault.TheVariants.{ShapeDiffers, OutOfMemory};

use thiserror::Error;

/// Why a merge stopped.
#[derive(Clone, Copy, Debug, PartialEq, Eq, Error)]
pub enum MergeFault {
    /// The two have different shapes. Nothing was changed.
    #[error("the shapes differ")]
    ShapeDiffers,
    /// Nothing, a part or all of the other was merged, and nothing was lost: the same merge can be tried again.
    #[error("out of memory")]
    OutOfMemory,
}

/// Values that hold things seen. Two of one shape have a join, which holds what either holds;
/// it depends neither on order nor on repeats.
pub trait Merge {
    /// Whether two have one shape, and so can be joined.
    ghost same_shape: { Self → Self → Bool };

    /// What holds all that either of two of one shape holds, and nothing else.
    ghost join: { Self → Self → Self };

    ghost laws: { JoinLaws same_shape join };

    /// Takes in what `other` holds. Shapes that differ are found before anything grows.
    fn merge(&mut self, other: &Self) -> Result<(), MergeFault>
        ensures ok { OnOk result (self.new ≡ join self.old other.now) }
        ensures ok_same_shape { OnOk result (same_shape self.old other.now ≡ true) }
        ensures shape_differs { IsErrOf result ShapeDiffers ↔ (same_shape self.old other.now ≡ false) }
        ensures unchanged { IsErrOf result ShapeDiffers → self.new ≡ self.old }
        ensures out_of_memory { IsErrOf result OutOfMemory → IsBetween join self.old self.new (join self.old other.now) }
        ensures keeps_shape { same_shape self.old self.new ≡ true };
}

/// Merges the members of a list in their order, and stops at the first refusal. The members before that one are merged whole, and at
/// `ShapeDiffers` nothing else has changed.
pub fn merge_all<M: Merge>(into: &mut M, list: &[M]) -> Result<(), MergeFault>
    ensures ok { OnOk result (into.new ≡ join_all M.join into.old list.now) }
    ensures ok_same_shape { OnOk result (AllOfShape M.same_shape into.old list.now) }
    ensures shape_differs { IsErrOf result ShapeDiffers → StopsAtShape M.same_shape M.join into.old list.now into.new }
    ensures out_of_memory { IsErrOf result OutOfMemory → StopsInside M.same_shape M.join into.old list.now into.new }
{
    for one in list {
        into.merge(one)?;
    }
    Ok(())
}

/// A law: lists with the same members have the same join, whatever their order and repeats. It holds of what a value
/// has taken in, and of a list of which any member is the first.
pub fn same_members_same_join<M: Merge>(_one: &M)
    ensures taken { (x : M) (xs ys : List M) → AllOfShape M.same_shape x xs → AllOfShape M.same_shape x ys
        → ((z : M) → Contains xs z ↔ Contains ys z) → join_all M.join x xs ≡ join_all M.join x ys }
    ensures whole { (x y : M) (xs ys : List M) → AllOfShape M.same_shape x xs → AllOfShape M.same_shape y ys
        → ((z : M) → Contains (x ∷ xs) z ↔ Contains (y ∷ ys) z) → join_all M.join x xs ≡ join_all M.join y ys }
{}
