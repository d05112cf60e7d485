//! A part in which copies differ.

ghost use Rattle.std.specs.Prelude.{◌≡◌, ◌<◌, ◌≤◌, length};
ghost use Rattle.jls_diff.specs.PartsOf.{part_of, parts_of};

use jls_diff::Parts;

/// Clones of a reader are kept at multiples of so many bytes. These are tried first.
pub(crate) const BLOCK: usize = 64;

/// A part in which copies differ, whose ways have one length.
#[derive(Clone, Copy)]
pub(crate) struct Stretch<'p, 'a> {
    pub(crate) parts: &'p Parts<'a>,
    /// The number of the part.
    pub(crate) place: usize,
    /// Its offset in the first copy.
    pub(crate) offset: usize,
    /// How many copies there are.
    pub(crate) copies: usize,
    /// How many bytes each has.
    pub(crate) length: usize,
}

impl<'p, 'a> Stretch<'p, 'a> {
    /// What a copy has.
    pub(crate) fn way(self, copy: usize) -> &'a [u8] {
        if self.place < self.parts.len() {
            self.parts.way(self.place, copy)
        } else {
            &[]
        }
    }

    /// What a copy has from a byte on.
    pub(crate) fn way_from(self, copy: usize, at: usize) -> &'a [u8] {
        let way = self.way(copy);
        &way[at.min(way.len())..]
    }

    /// What a copy has from a byte on, up to another.
    pub(crate) fn way_between(self, copy: usize, at: usize, end: usize) -> &'a [u8] {
        let rest = self.way_from(copy, at);
        &rest[..end.saturating_sub(at).min(rest.len())]
    }

    /// Whether a way is the first with its bytes.
    pub(crate) fn is_first_way(self, copy: usize) -> bool {
        for other in 0..copy {
            if *self.way(other) == *self.way(copy) {
                return false;
            }
        }
        true
    }

    /// Whether two copies have another byte before this place.
    pub(crate) fn differ_before(self, at: usize, copy: usize, other: usize) -> bool {
        let Some(before) = at.checked_sub(1) else {
            return false;
        };
        self.way(copy).get(before) != self.way(other).get(before)
    }

    /// Where the block ends in which a byte is.
    pub(crate) fn block_end(self, at: usize) -> usize {
        let begun = self.offset.saturating_add(at) % BLOCK;
        at.saturating_add(BLOCK - begun).min(self.length)
    }

    /// The bytes that a copy has from this byte on, up to the next one. They are of the stretch, and then of what all copies have after it.
    pub(crate) fn byte_at(self, copy: usize, at: usize) -> &'a [u8] {
        let end = at.saturating_add(1);
        if at < self.length {
            return self.way_between(copy, at, end);
        }
        let after = self.place.saturating_add(1);
        if after >= self.parts.len() || self.parts.is_differ(after) {
            return &[];
        }
        let way = self.parts.way(after, 0);
        let rest = &way[at.saturating_sub(self.length).min(way.len())..];
        &rest[..rest.len().min(1)]
    }
}
