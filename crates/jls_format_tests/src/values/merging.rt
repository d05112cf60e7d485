//! `merge_all` through its bound, at a set of numbers: any two can be joined, and none is refused.

use jls_values::*;
use std::test::Fail;

/// A set of the numbers 0 and 1.
#[derive(Clone, Copy, Debug, PartialEq, Eq)]
struct Numbers {
    zero: bool,
    one: bool,
}

impl Merge for Numbers {
    ghost use Rattle.std.specs.Prelude.{true, ◌||◌, refl};
    ghost use Rattle.std.proofs.Common.{ap};
    ghost use Rattle.jls_values.specs.OrderedSetLaws.{or_itself, or_comm, or_assoc};

    ghost same_shape = { λ _ _. true };

    ghost join = { λ a b. record { zero = a.zero || b.zero; one = a.one || b.one } };

    ghost laws = { record {
      reflexive = λ _. refl;
      symmetric = λ _ _. refl;
      transitive = λ _ _ _ _ _. refl;
      join_same_shape = λ _ _ _. refl;
      idempotent = λ a i. record { zero = or_itself a.zero i; one = or_itself a.one i };
      commutative = λ a b _ i. record { zero = or_comm a.zero b.zero i; one = or_comm a.one b.one i };
      associative = λ a b c _ _ i. record { zero = or_assoc a.zero b.zero c.zero i; one = or_assoc a.one b.one c.one i };
    } };

    fn merge(&mut self, other: &Numbers) -> Result<(), MergeFault> {
        self.zero |= other.zero;
        self.one |= other.one;
        Ok(())
    }
}

fn set_of(zero: bool, one: bool) -> Numbers {
    Numbers { zero, one }
}

#[test]
fn a_list_is_merged_whole_and_repeats_change_nothing(rt: HostRuntime) -> Result<(), Fail> {
    let mut held = set_of(false, false);
    let list = [set_of(true, false), held, set_of(false, true)];
    merge_all(&mut held, &list[..2])?;
    assert!(rt; held == set_of(true, false));
    merge_all(&mut held, &list)?;
    assert!(rt; held == set_of(true, true));
    merge_all(&mut held, &list)?;
    assert!(rt; held == set_of(true, true));
    Ok(())
}
