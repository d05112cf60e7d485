//! Whether two partial pictures are one.

ghost use Rattle.jls_partial.specs.LineSet.{kept_lines};
ghost use Rattle.jls_partial.specs.Text.{entries};
ghost use Rattle.std.specs.Prelude.{◌≡◌, ◌↔◌, IsTrue};

use crate::lines::Lines;
use crate::partial::Partial;

/// Whether two lines have the same readings, with the same sources.
fn same_line(one: &Lines<'_>, other: &Lines<'_>) -> bool
    ensures { IsTrue result ↔ (kept_lines one.now ≡ kept_lines other.now) }
{
    if one.len() != other.len() {
        return false;
    }
    for i in 0..one.len() {
        let same_samples = one.get(i) == other.get(i);
        if !same_samples {
            return false;
        }
        let same_sources = one.sources(i) == other.sources(i);
        if !same_sources {
            return false;
        }
    }
    true
}

/// Whether the same lines have readings in both, and the same ones.
fn same_entries(one: &Partial, other: &Partial) -> bool
    ensures { IsTrue result ↔ (entries one.now ≡ entries other.now) }
{
    let mut left = other.entries();
    for (at, lines) in one.entries() {
        let Some((other_at, others)) = left.next() else {
            return false;
        };
        let same_place = at == other_at;
        if !same_place {
            return false;
        }
        let same_lines = same_line(&lines, &others);
        if !same_lines {
            return false;
        }
    }
    left.next().is_none()
}

impl PartialEq for Partial {
    ghost use Rattle.jls_partial.specs.Equality.{are_same_pictures, are_same_pictures_equivalence};
    ghost use Rattle.std.specs.Cmp.{partial_equiv_from_equiv};

    ghost eq = { are_same_pictures };

    ghost laws = { partial_equiv_from_equiv are_same_pictures_equivalence };

    /// True exactly where the two are one: the same shape, and the same readings of each line with the same sources.
    fn eq(&self, other: &Partial) -> bool
        ensures test { result ≡ are_same_pictures self.now other.now }
        ensures exactly { IsTrue result ↔ (self.now ≡ other.now) }
    {
        if *self.shape() != *other.shape() {
            return false;
        }
        same_entries(self, other)
    }
}

impl Eq for Partial {
    ghost use Rattle.jls_partial.specs.Equality.{are_same_pictures_equivalence};

    ghost laws = { are_same_pictures_equivalence };
}
