//! Where two copies agree again after bytes that one of them lost or has more.

use std::alloc::{AllocError, Global};

/// How many bytes agree where copies are taken to be in step again.
pub(crate) const SEED: usize = 24;

/// How far after a difference two copies are compared, one reach after the other: what is near costs little.
const REACHES: [usize; 5] = [256, 1024, 4096, 16384, 65536];

/// How many places the table has.
const SLOTS: usize = 131072;

/// A table of the strings of 24 bytes of one copy. It takes its memory once.
#[derive(Drop)]
pub(crate) struct Seeds {
    slots: Vec<usize>,
}

/// A number of the string that the bytes begin with; `None` where it is too short, or one byte or two in turn.
fn key(bytes: &[u8]) -> Option<usize> {
    let seed = bytes.get(..SEED)?;
    let mut hash = 0u64;
    let mut varied = false;
    let mut before = 0u8;
    let mut last = 0u8;
    for (at, byte) in seed.iter().enumerate() {
        if at > 1 && *byte != before {
            varied = true;
        }
        before = last;
        last = *byte;
        hash = (hash ^ u64::from(*byte)).wrapping_mul(0x100_0000_01b3);
    }
    if varied {
        Some(((hash >> 40) % SLOTS as u64) as usize)
    } else {
        None
    }
}

/// How many places of the table serve for such a reach.
fn slots_of(reach: usize) -> usize {
    reach.saturating_mul(2).min(SLOTS)
}

/// The place of the string that the bytes begin with, for such a reach.
fn slot_of(bytes: &[u8], reach: usize) -> Option<usize> {
    let key = key(bytes)?;
    Some(key % slots_of(reach).max(1))
}

impl Seeds {
    /// A table of nothing.
    pub(crate) fn new(alloc: Global) -> Result<Seeds, AllocError> {
        Ok(Seeds {
            slots: vec![in alloc; 0; SLOTS]?,
        })
    }

    /// Takes in the strings of these bytes, the nearest last, so that it is the one that stays.
    fn fill(&mut self, bytes: &[u8], reach: usize) {
        for slot in self.slots.iter_mut().take(slots_of(reach)) {
            *slot = 0;
        }
        for back in 0..reach.min(bytes.len()) {
            let at = reach.min(bytes.len()) - 1 - back;
            if let Some(place) = slot_of(&bytes[at..], reach) {
                if let Some(slot) = self.slots.get_mut(place) {
                    *slot = at + 1;
                }
            }
        }
    }

    /// How many bytes of each stand before the nearest place within a reach where they agree again.
    fn resumption_within(
        &mut self,
        first: &[u8],
        second: &[u8],
        reach: usize,
    ) -> Option<(usize, usize)> {
        self.fill(first, reach);
        let mut nearest = None;
        let mut best = usize::MAX;
        for there in 0..reach.min(second.len()) {
            if there >= best {
                break;
            }
            let Some(place) = slot_of(&second[there..], reach) else {
                continue;
            };
            let slot = self.slots.get(place).copied().unwrap_or(0);
            if slot == 0 {
                continue;
            }
            let here = slot - 1;
            let sum = here.saturating_add(there);
            if sum < best
                && first.get(here..here.saturating_add(SEED))
                    == second.get(there..there.saturating_add(SEED))
            {
                best = sum;
                nearest = Some((here, there));
            }
        }
        nearest
    }

    /// How many bytes of each stand before the nearest place where they agree again.
    pub(crate) fn resumption(&mut self, first: &[u8], second: &[u8]) -> Option<(usize, usize)> {
        if second.len() >= SEED && first.get(..SEED) == second.get(..SEED) {
            return Some((0, 0));
        }
        let mut found = None;
        for reach in REACHES {
            found = self.resumption_within(first, second, reach);
            if let Some((here, there)) = found {
                if here.saturating_add(there) <= reach {
                    return found;
                }
            }
        }
        found
    }
}
