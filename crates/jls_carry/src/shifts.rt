//! Shifts: by how much bytes of a copy stand earlier or later, where bytes were lost or inserted before them.

use std::alloc::{AllocError, Global};

/// How many bytes are sought in a copy.
const SOUGHT: usize = 12;

/// How many different ones have to be among them.
const VARIED: usize = 7;

/// How many places of a code are tried at most, and how far apart they are at least.
const MOST_PLACES: usize = 300;

const LEAST_STEP: usize = 48;

/// How many places are tried behind the known lines of a code, and how far apart they are.
const PLACES_BEHIND: usize = 128;

const STEP_BEHIND: usize = 32;

/// How many shifts are found at most, over a whole code and after its end.
const MOST_SHIFTS: usize = 13;

const MOST_NEAR: usize = 24;

/// How many bytes at the end of a code are sought, one length after the other. Where so many are found, no fewer are sought.
const LENGTHS: [usize; 6] = [16, 10, 8, 6, 5, 4];

const ENOUGH: usize = 6;

/// Where so many are found, the copy surely goes on there.
const SURE: usize = 10;

/// How far before and behind the end of a code that is sought.
pub(crate) const NEAR: usize = 4000;

/// How many slots the table of sought bytes has.
const SLOTS: usize = 4096;

/// How much later or earlier a copy has a byte than the code has it.
#[derive(Clone, Copy, Debug, PartialEq, Eq)]
pub(crate) enum Shift {
    Later(usize),
    Earlier(usize),
}

impl Shift {
    pub(crate) const NONE: Shift = Shift::Later(0);

    /// The shift at which a place of the code is that place of the copy.
    pub(crate) fn between(code: usize, copy: usize) -> Shift {
        if copy >= code {
            Shift::Later(copy - code)
        } else {
            Shift::Earlier(code - copy)
        }
    }

    /// The place in the copy of a place in the code.
    pub(crate) fn in_copy(self, at: usize) -> Option<usize> {
        match self {
            Shift::Later(count) => at.checked_add(count),
            Shift::Earlier(count) => at.checked_sub(count),
        }
    }

    /// How much later the copy has bytes at this shift than at another, or 0.
    pub(crate) fn beyond(self, other: Shift) -> usize {
        match (other, self) {
            (Shift::Later(before), Shift::Later(after)) => after.saturating_sub(before),
            (Shift::Earlier(before), Shift::Earlier(after)) => before.saturating_sub(after),
            (Shift::Earlier(before), Shift::Later(after)) => before.saturating_add(after),
            (Shift::Later(_), Shift::Earlier(_)) => 0,
        }
    }
}

/// How many different bytes there are.
fn count_different(bytes: &[u8]) -> usize {
    let mut count = 0usize;
    for (at, byte) in bytes.iter().enumerate() {
        let is_first = match bytes.get(..at) {
            None => true,
            Some(before) => !before.contains(byte),
        };
        if is_first {
            count = count.saturating_add(1);
        }
    }
    count
}

/// Bytes that are sought in a copy.
#[derive(Clone, Copy)]
struct Sought {
    /// Where they stand in the code.
    at: usize,
    /// Where they were found first.
    found: Option<usize>,
    /// Whether they were found again.
    is_repeated: bool,
    /// The next in the same slot.
    next: Option<usize>,
}

/// The bytes that are sought, in slots by their first four.
#[derive(Drop)]
struct SoughtTable {
    sought: Vec<Sought>,
    slots: Vec<Option<usize>>,
}

/// The slot of bytes.
fn slot_of(bytes: &[u8]) -> usize {
    match bytes {
        [a, b, c, d, ..] => {
            let first = u32::from_le_bytes([*a, *b, *c, *d]);
            (first.wrapping_mul(0x9E37_79B1) >> 20) as usize
        }
        _ => 0,
    }
}

/// As many bytes from a place on as are sought; none, where there are fewer.
fn window(bytes: &[u8], at: usize) -> &[u8] {
    bytes.get(at..at.saturating_add(SOUGHT)).unwrap_or(&[])
}

impl SoughtTable {
    fn new(alloc: Global) -> Result<SoughtTable, AllocError> {
        Ok(SoughtTable {
            sought: Vec::new(alloc),
            slots: vec![in alloc; None; SLOTS]?,
        })
    }

    /// Adds the bytes at a place of the code, if the copy has others there, and they aren't too much alike.
    fn add(&mut self, code: &[u8], copy: &[u8], at: usize) -> Result<(), AllocError> {
        let bytes = window(code, at);
        if window(copy, at) == bytes || count_different(bytes) < VARIED {
            return Ok(());
        }
        if let Some(slot) = self.slots.get_mut(slot_of(bytes)) {
            let index = self.sought.len();
            self.sought.push(Sought {
                at,
                found: None,
                is_repeated: false,
                next: *slot,
            })?;
            *slot = Some(index);
        }
        Ok(())
    }

    /// Notes what stands at a place of the copy.
    fn note(&mut self, code: &[u8], copy: &[u8], place: usize) {
        let bytes = window(copy, place);
        let mut next = match self.slots.get(slot_of(bytes)) {
            None => None,
            Some(slot) => *slot,
        };
        for _ in 0..self.sought.len() {
            let Some(index) = next else {
                return;
            };
            let Some(sought) = self.sought.get_mut(index) else {
                return;
            };
            next = sought.next;
            if window(code, sought.at) == bytes {
                if sought.found.is_some() {
                    sought.is_repeated = true;
                } else {
                    sought.found = Some(place);
                }
            }
        }
    }
}

/// The shifts at which a code and a copy seem to agree somewhere. The first is none, and then come those of bytes that stand once in the
/// copy. Of these come first those that are sought behind the known lines, whose code ends at `known`. The others are sought from the end
/// of the code on.
pub(crate) fn shifts_of(
    alloc: Global,
    code: &[u8],
    copy: &[u8],
    known: usize,
) -> Result<Vec<Shift>, AllocError> {
    let mut shifts = vec![in alloc; Shift::NONE]?;
    let mut table = SoughtTable::new(alloc)?;
    let step = LEAST_STEP.max(code.len() / MOST_PLACES);
    let last = code.len().saturating_sub(SOUGHT);
    for place in 0..PLACES_BEHIND {
        table.add(code, copy, known.saturating_add(place * STEP_BEHIND))?;
    }
    for place in 0..MOST_PLACES + 1 {
        let Some(at) = last.checked_sub(place.saturating_mul(step)) else {
            break;
        };
        table.add(code, copy, at)?;
    }
    if table.sought.is_empty() {
        return Ok(shifts);
    }
    for place in 0..copy.len().saturating_sub(SOUGHT - 1) {
        table.note(code, copy, place);
    }
    for sought in table.sought.iter() {
        if let Some(found) = sought.found {
            let shift = Shift::between(sought.at, found);
            if !sought.is_repeated && !shifts.contains(&shift) {
                shifts.push(shift)?;
                if shifts.len() >= MOST_SHIFTS {
                    break;
                }
            }
        }
    }
    Ok(shifts)
}

/// The shifts that a copy can have behind the end of a code.
#[derive(Drop)]
pub(crate) struct EndShifts {
    pub(crate) shifts: Vec<Shift>,
    /// Whether so many and so different bytes stand there that hardly another shift is right.
    pub(crate) are_sure: bool,
}

/// Whether hardly as many bytes as at the end of this code stand elsewhere by chance.
fn is_sure(code: &[u8], length: usize) -> bool {
    let begin = code.len().saturating_sub(length);
    length >= SURE && count_different(code.get(begin..).unwrap_or(&[])) >= VARIED
}

/// Adds the shifts at which the last so many bytes of a code stand in a copy, within this reach of their place.
fn add_ends(
    shifts: &mut Vec<Shift>,
    code: &[u8],
    copy: &[u8],
    length: usize,
    reach: usize,
) -> Result<(), AllocError> {
    let Some(begin) = code.len().checked_sub(length) else {
        return Ok(());
    };
    let Some(bytes) = code.get(begin..) else {
        return Ok(());
    };
    if count_different(bytes) < 3 {
        return Ok(());
    }
    let first = begin.saturating_sub(reach);
    let end = code.len().saturating_add(reach).min(copy.len());
    for place in first..end {
        if shifts.len() >= MOST_NEAR {
            break;
        }
        let shift = Shift::between(begin, place);
        if copy.get(place..place.saturating_add(length)) == Some(bytes)
            && !shifts.contains(&shift)
        {
            shifts.push(shift)?;
        }
    }
    Ok(())
}

/// The shifts that a copy can have behind the end of a code. There the last bytes of the code stand in it, within this reach.
pub(crate) fn shifts_at_end(
    alloc: Global,
    code: &[u8],
    copy: &[u8],
    reach: usize,
) -> Result<EndShifts, AllocError> {
    let mut shifts = Vec::new(alloc);
    for length in LENGTHS {
        add_ends(&mut shifts, code, copy, length, reach)?;
        if !shifts.is_empty() && length >= ENOUGH {
            return Ok(EndShifts {
                shifts,
                are_sure: is_sure(code, length),
            });
        }
    }
    Ok(EndShifts {
        shifts,
        are_sure: false,
    })
}
