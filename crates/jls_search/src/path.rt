//! Paths of a search: a way for each of the first parts. Those whose ways a search tries are gone through in depth-first order.

ghost use Rattle.std.specs.Prelude.{◌≡◌, ℕ, List, ◌<◌, ◌++◌, length, true, false, IfOk, OnOk};
ghost use Rattle.std.specs.List.{AllByRecursion};
ghost use Rattle.jls_diff.specs.PartsOf.{parts_of};
ghost use Rattle.jls_search.specs.Choices.{HasSomeWay};
ghost use Rattle.jls_search.specs.Order.{Goes, IsLater, IsToCome};
ghost use Rattle.jls_search.specs.Tried.{AreFixed, HasCopyElsewhere, IsSetFor, IsSetWholeFor, IsStop};

use crate::choosing::{first_choice, fixed_choice, is_free, next_choice};
use crate::setting::Goal;
use jls_diff::Parts;
use std::alloc::AllocError;

/// Goes on along parts whose ways are not tried, or that all copies have alike.
pub(crate) fn follow(parts: &Parts<'_>, goal: Goal, path: &mut Vec<usize>) -> Result<(), AllocError>
    requires copy { HasCopyElsewhere parts.now goal }
    requires path { IsSetFor parts.now goal path.old.items }
    ensures path { OnOk result (IsSetFor parts.now goal path.new.items) }
    ensures stop { OnOk result (IsStop parts.now goal path.new.items) }
    ensures grew { OnOk result ((more : List ℕ) × (path.new.items ≡ path.old.items ++ more)) }
    ensures fixed { OnOk result (AreFixed parts.now goal (length path.old.items) (length path.new.items)) }
    ensures kept { OnOk result ((choices : List ℕ) → IsSetWholeFor parts.now goal choices
        → IsToCome path.old.items choices → IsToCome path.new.items choices) }
{
    while path.len() < parts.len() && !is_free(parts, goal, path.len()) {
        path.push(fixed_choice(parts, goal, path.len()))?;
    }
    Ok(())
}

/// Goes on with the first choice of the next part, and then as far as there is one choice.
pub(crate) fn descend(
    parts: &Parts<'_>,
    goal: Goal,
    path: &mut Vec<usize>,
) -> Result<(), AllocError>
    requires copy { HasCopyElsewhere parts.now goal }
    requires some_way { AllByRecursion HasSomeWay parts.now }
    requires path { IsSetFor parts.now goal path.old.items }
    requires more { length path.old.items < length parts.now }
    ensures path { OnOk result (IsSetFor parts.now goal path.new.items) }
    ensures stop { OnOk result (IsStop parts.now goal path.new.items) }
    ensures grew { OnOk result (Goes path.old.items path.new.items) }
    ensures kept { OnOk result ((choices : List ℕ) → IsSetWholeFor parts.now goal choices
        → IsToCome path.old.items choices → IsToCome path.new.items choices) }
{
    path.push(first_choice(parts, goal, path.len()))?;
    follow(parts, goal, path)
}

/// Gives up all choices that begin with the path, and goes to the next path; `false` where there is none.
pub(crate) fn backtrack(
    parts: &Parts<'_>,
    goal: Goal,
    path: &mut Vec<usize>,
) -> Result<bool, AllocError>
    requires copy { HasCopyElsewhere parts.now goal }
    requires path { IsSetFor parts.now goal path.old.items }
    ensures path { IfOk result (λ more. more ≡ true → IsSetFor parts.now goal path.new.items) }
    ensures stop { IfOk result (λ more. more ≡ true → IsStop parts.now goal path.new.items) }
    ensures after { IfOk result (λ more. more ≡ true → IsLater path.old.items path.new.items) }
    ensures to_come { IfOk result (λ more. more ≡ true → (choices : List ℕ) → IsSetWholeFor parts.now goal choices
        → IsLater path.old.items choices → IsToCome path.new.items choices) }
    ensures none { IfOk result (λ more. more ≡ false → (choices : List ℕ) → IsSetWholeFor parts.now goal choices
        → ¬ IsLater path.old.items choices) }
{
    while let Some(choice) = path.pop() {
        if let Some(next) = next_choice(parts, goal, path.len(), choice) {
            path.push(next)?;
            follow(parts, goal, path)?;
            return Ok(true);
        }
    }
    Ok(false)
}
