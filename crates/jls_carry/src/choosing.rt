//! Which of several readings of a line is taken, and how many copies say each.

use crate::claims::Speaker;
use crate::settling::Settling;
use std::alloc::AllocError;

/// A chain that reaches a place, and the line that stands there in it.
#[derive(Clone, Copy)]
pub(crate) struct Reaching {
    pub(crate) chain: usize,
    pub(crate) line: usize,
}

/// A reading of a line, and the chains that say it.
#[derive(Drop)]
pub(crate) struct Confirmed {
    pub(crate) reading: usize,
    pub(crate) chains: Vec<Reaching>,
}

/// A reading is taken over another where it leaves under a quarter of the other's bytes unmatched, and this many fewer.
const FEWER_UNMATCHED: usize = 8;

/// A reading is also taken over another where it is confirmed for four times as many rows, and this many more.
const MORE_ROWS: usize = 8;

/// Adds a number to a list, once.
fn add_once(list: &mut Vec<usize>, number: usize) -> Result<(), AllocError> {
    if !list.contains(&number) {
        list.push(number)?;
    }
    Ok(())
}

impl Settling<'_, '_> {
    /// Whether a copy of its coding, or another echo that is before an echo among these, speaks for it.
    fn is_spoken_for(&self, echo: Speaker, place: usize, numbers: &[usize]) -> bool {
        for (other_place, number) in numbers.iter().enumerate() {
            if let Some(other) = self.copies.get(*number) {
                let speaks_first = !other.speaker.is_echo || other_place < place;
                if other.speaker.coding == echo.coding && speaks_first {
                    return true;
                }
            }
        }
        false
    }

    /// How many of these speak for themselves. An echo has no byte of its own, so it adds nothing to the copies of its coding.
    pub(crate) fn count_voices(&self, numbers: &[usize]) -> usize {
        let mut count = 0usize;
        for (place, number) in numbers.iter().enumerate() {
            if let Some(copy) = self.copies.get(*number) {
                let speaker = copy.speaker;
                if !speaker.is_echo || !self.is_spoken_for(speaker, place, numbers) {
                    count = count.saturating_add(1);
                }
            }
        }
        count
    }

    /// Of how many codings these are.
    fn count_codings(&self, numbers: &[usize]) -> Result<usize, AllocError> {
        let mut codings = Vec::new(self.alloc);
        for number in numbers {
            if let Some(copy) = self.copies.get(*number) {
                add_once(&mut codings, copy.speaker.coding)?;
            }
        }
        Ok(codings.len())
    }

    /// The copies that have a reading: those that say it, and those in whose bytes its line stands unbroken.
    pub(crate) fn holders(&self, confirmed: &Confirmed) -> Result<Vec<usize>, AllocError> {
        let mut copies = Vec::new(self.alloc);
        for reached in confirmed.chains.iter() {
            if let Some(chain) = self.chains.get(reached.chain) {
                add_once(&mut copies, chain.giver)?;
                if chain.is_unbroken(reached.line) {
                    add_once(&mut copies, chain.taker)?;
                }
            }
        }
        Ok(copies)
    }

    /// Whether a reading is firm among others: copies of two codings have it, or two copies where only copies of one coding have any.
    fn is_firm(&self, confirmed: &Confirmed, is_any_across: bool) -> Result<bool, AllocError> {
        let holders = self.holders(confirmed)?;
        if is_any_across {
            return Ok(self.count_codings(&holders)? >= 2);
        }
        Ok(self.count_voices(&holders) >= 2)
    }

    /// How many copies say a reading.
    pub(crate) fn givers(&self, confirmed: &Confirmed) -> Result<usize, AllocError> {
        let mut copies = Vec::new(self.alloc);
        for reached in confirmed.chains.iter() {
            if let Some(chain) = self.chains.get(reached.chain) {
                add_once(&mut copies, chain.giver)?;
            }
        }
        Ok(self.count_voices(&copies))
    }

    /// How many rows behind a line a chain confirms.
    fn rows_behind(&self, reached: Reaching) -> usize {
        let Some(chain) = self.chains.get(reached.chain) else {
            return 0;
        };
        let lines = chain
            .confirmed
            .saturating_sub(1)
            .saturating_sub(reached.line);
        lines / usize::from(chain.piece.interval.components)
    }

    /// How many rows all chains of these readings confirm from this line on.
    fn rows_in_common(&self, readings: &[&Confirmed]) -> usize {
        let mut rows = usize::MAX;
        for confirmed in readings {
            for reached in confirmed.chains.iter() {
                rows = rows.min(self.rows_behind(*reached));
            }
        }
        rows
    }

    /// The reading of a chain so many rows behind a line.
    fn reading_behind(&self, reached: Reaching, rows: usize) -> Option<usize> {
        let chain = self.chains.get(reached.chain)?;
        let lines = rows.saturating_mul(usize::from(chain.piece.interval.components));
        chain
            .readings
            .get(reached.line.saturating_add(lines))
            .copied()
    }

    /// Whether a chain of one reading says the same so many rows behind it as a chain of another.
    fn are_one_again(&self, one: &Confirmed, other: &Confirmed, rows: usize) -> bool {
        one.chains.iter().any(|reached| {
            let reading = self.reading_behind(*reached, rows);
            other
                .chains
                .iter()
                .any(|others| self.reading_behind(*others, rows) == reading)
        })
    }

    /// The reading that is confirmed for far more rows than each other, if the others never say the same again.
    fn outlasting(&self, readings: &[&Confirmed], rows: usize) -> Option<usize> {
        let mut best: Option<&Confirmed> = None;
        let mut most = 0usize;
        let mut second = 0usize;
        for confirmed in readings.iter().copied() {
            let mut last = 0usize;
            for reached in confirmed.chains.iter() {
                last = last.max(self.rows_behind(*reached));
            }
            if best.is_none() || last > most {
                second = most;
                most = last;
                best = Some(confirmed);
            } else {
                second = second.max(last);
            }
        }
        let best = best?;
        for confirmed in readings.iter().copied() {
            if confirmed.reading != best.reading && self.are_one_again(best, confirmed, rows) {
                return None;
            }
        }
        if second.saturating_mul(4).saturating_add(MORE_ROWS) <= most {
            Some(best.reading)
        } else {
            None
        }
    }

    /// The fewest bytes that one of the chains of a reading leaves unmatched, over `rows` rows.
    fn unmatched(&self, confirmed: &Confirmed, rows: usize) -> usize {
        let mut least = usize::MAX;
        for reached in confirmed.chains.iter() {
            if let Some(chain) = self.chains.get(reached.chain) {
                let lines = rows.saturating_mul(usize::from(chain.piece.interval.components));
                let last = reached
                    .line
                    .saturating_add(lines)
                    .min(chain.confirmed.saturating_sub(1));
                least = least.min(chain.unmatched(reached.line, last));
            }
        }
        least
    }

    /// Of several readings the only one that is firm. If none is, it is the one that leaves far fewer bytes unmatched, or is confirmed for
    /// far more rows.
    pub(crate) fn choose_reading(
        &self,
        readings: &[&Confirmed],
    ) -> Result<Option<usize>, AllocError> {
        let is_any_across = readings
            .iter()
            .any(|confirmed| !self.is_of_one_coding(confirmed));
        let mut firm = Vec::new(self.alloc);
        for confirmed in readings.iter().copied() {
            if self.is_firm(confirmed, is_any_across)? {
                firm.push(confirmed.reading)?;
            }
        }
        if !firm.is_empty() {
            return Ok(match firm.as_slice() {
                [only] => Some(*only),
                _ => None,
            });
        }
        let rows = self.rows_in_common(readings);
        let mut best = None;
        let mut least = usize::MAX;
        let mut second = usize::MAX;
        for confirmed in readings.iter().copied() {
            let unmatched = self.unmatched(confirmed, rows);
            if best.is_none() || unmatched < least {
                second = least;
                least = unmatched;
                best = Some(confirmed.reading);
            } else {
                second = second.min(unmatched);
            }
        }
        if least.saturating_mul(4).saturating_add(FEWER_UNMATCHED) <= second {
            return Ok(best);
        }
        Ok(self.outlasting(readings, rows))
    }

    /// Whether copies of one coding alone have a reading. They can be copies of one damaged file.
    pub(crate) fn is_of_one_coding(&self, confirmed: &Confirmed) -> bool {
        confirmed.chains.iter().all(|reached| {
            self.chains
                .get(reached.chain)
                .is_some_and(|chain| chain.is_twin)
        })
    }
}
