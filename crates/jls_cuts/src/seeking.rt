//! Searches the bytes of a stretch at which it may be gone over, near where the lines of a copy cease to save bits.

ghost use Rattle.std.specs.Prelude.{◌≡◌, ◌<◌, ◌≤◌, length};

use crate::change::{Change, WIDE, change_of};
use crate::going_over::{Search, Through};
use crate::pace::Pace;
use crate::saving::Measured;
use crate::stretch::{BLOCK, Stretch};
use jls_copy::WideReader;
use std::alloc::{AllocError, Global};

/// Bytes are tried so far from where a copy ceases to save.
const REACH: usize = 512;

/// How many clones of a reader are kept at most.
const MOST_STOPS: usize = 48;

/// A try reads so many bytes after the last that is tried.
const AFTER: usize = 4096;

/// A try is given up where it lost so many parts of a bit, and if nothing is found so many: 64 bits and 256.
const LOSSES: [i64; 2] = [64 * 256, 256 * 256];

/// A try is sure if a sample saves so many parts of a bit more than the least. Wrong bytes save far less.
const SURE: i64 = 25;

/// After the first sure try only bytes so near are tried.
const NEAR: usize = 24;

/// How many tries that live are kept at most.
const MOST_LIVING: usize = 8;

/// How many are proposed at most: each becomes a part.
const MOST_PROPOSED: usize = 3;

/// A reader that was fed a copy's bytes up to a byte.
#[derive(Drop)]
struct Stop {
    at: usize,
    run: Measured,
    /// What was saved so far beyond the least.
    sum: i64,
}

/// A try that lives.
#[derive(Drop)]
struct Living {
    /// Where it goes over, and to which copy.
    at: usize,
    other: usize,
    run: Measured,
    /// How many bytes of the stretch were read.
    read: usize,
    /// What is saved beyond the least.
    sum: i64,
}

/// The bytes of a stretch at which one copy may be left, and how they are tried.
#[derive(Clone, Copy)]
struct Turn {
    copy: usize,
    change: Change,
    /// The least that a sample may save.
    least: i64,
    /// Up to which byte tries read.
    end: usize,
    /// How much a try may lose.
    loss: i64,
}

/// The tries of a path.
#[derive(Drop)]
struct Tries {
    living: Vec<Living>,
    /// The first sure one of a copy.
    sure: Option<usize>,
    /// Whether there is one of any copy.
    is_any_sure: bool,
}

/// Adds a try. If there are too many, the one goes that saves least.
fn add_living(living: &mut Vec<Living>, one: Living) -> Result<(), AllocError> {
    living.push(one)?;
    if living.len() <= MOST_LIVING {
        return Ok(());
    }
    let mut least = 0;
    for (place, one) in living.iter().enumerate() {
        if let Some(other) = living.get(least) {
            if one.sum < other.sum {
                least = place;
            }
        }
    }
    if least < living.len() {
        let _ = living.remove(least);
    }
    Ok(())
}

/// Takes the try that saves most.
fn take_best(living: &mut Vec<Living>) -> Option<Living> {
    let mut best = 0;
    for (place, one) in living.iter().enumerate() {
        if let Some(other) = living.get(best) {
            if one.sum > other.sum {
                best = place;
            }
        }
    }
    if best < living.len() {
        return Some(living.remove(best));
    }
    None
}

impl Turn {
    /// Readers that were fed the copy's bytes, each up to a byte near where it ceases to save.
    fn stops(
        self,
        alloc: Global,
        stretch: Stretch<'_, '_>,
        from: &Measured,
    ) -> Result<Vec<Stop>, AllocError> {
        let mut stops = Vec::new(alloc);
        let mut run = from.try_clone()?;
        let mut sum: i64 = 0;
        let last = self.change.last().saturating_add(REACH);
        for at in 0..stretch.length.min(last) {
            if run.is_dead() {
                break;
            }
            let begins = at == 0 || stretch.offset.saturating_add(at) % BLOCK == 0;
            let end = stretch.block_end(at);
            if begins && self.change.distance(at, end) <= REACH && stops.len() < MOST_STOPS {
                stops.push(Stop {
                    at,
                    run: run.try_clone()?,
                    sum,
                })?;
            }
            let next = at.saturating_add(1);
            if let Some(saved) = run.feed(stretch.way_between(self.copy, at, next))? {
                sum = sum.saturating_add(saved.beyond(self.least));
            }
        }
        Ok(stops)
    }

    /// Goes over to another copy. Nothing comes of a try that dies, or loses too much.
    fn attempt(
        self,
        search: &mut Search,
        stretch: Stretch<'_, '_>,
        from: &Stop,
        other: usize,
        tries: &mut Tries,
    ) -> Result<(), AllocError> {
        let mut run = from.run.try_clone()?;
        let mut sum = from.sum;
        let mut top = sum;
        let mut samples: i64 = 0;
        let mut read = from.at;
        let mut lives = true;
        for place in from.at..self.end {
            let byte = stretch.byte_at(other, place);
            if byte.is_empty() || !lives {
                break;
            }
            if let Some(saved) = run.feed(byte)? {
                sum = sum.saturating_add(saved.beyond(self.least));
                samples = samples.saturating_add(saved.samples);
                top = top.max(sum);
            }
            read = place.saturating_add(1);
            lives = !run.is_dead() && top.saturating_sub(sum) <= self.loss;
        }
        search.spend_bytes(read.saturating_sub(from.at));
        if !lives {
            return Ok(());
        }
        let won = sum.saturating_sub(from.sum);
        if samples > 0 && won >= samples.saturating_mul(SURE) && tries.sure.is_none() {
            tries.sure = Some(from.at);
            tries.is_any_sure = true;
        }
        let one = Living {
            at: from.at,
            other,
            run,
            read,
            sum,
        };
        add_living(&mut tries.living, one)
    }

    /// Goes over at each byte of a block, to each other copy.
    fn try_block(
        self,
        search: &mut Search,
        stretch: Stretch<'_, '_>,
        stop: &Stop,
        tries: &mut Tries,
    ) -> Result<(), AllocError> {
        let mut from = Stop {
            at: stop.at,
            run: stop.run.try_clone()?,
            sum: stop.sum,
        };
        for at in stop.at..stretch.block_end(stop.at) {
            if search.is_used_up() || from.run.is_dead() {
                break;
            }
            from.at = at;
            let is_near = match tries.sure {
                Some(sure) => sure.abs_diff(at) <= NEAR,
                None => true,
            };
            for other in 0..stretch.copies {
                if is_near
                    && stretch.is_first_way(other)
                    && stretch.differ_before(at, self.copy, other)
                {
                    self.attempt(search, stretch, &from, other, tries)?;
                }
            }
            let next = at.saturating_add(1);
            if let Some(saved) = from.run.feed(stretch.way_between(self.copy, at, next))? {
                from.sum = from.sum.saturating_add(saved.beyond(self.least));
            }
        }
        Ok(())
    }

    /// Goes over at each byte near where the copy ceases to save. The nearest blocks come first.
    fn try_all(
        self,
        search: &mut Search,
        stretch: Stretch<'_, '_>,
        from: &Measured,
        tries: &mut Tries,
    ) -> Result<(), AllocError> {
        let stops = self.stops(search.alloc, stretch, from)?;
        tries.sure = None;
        for ring in 0..REACH / BLOCK + 1 {
            for stop in stops.iter() {
                let end = stretch.block_end(stop.at);
                let is_near = match tries.sure {
                    Some(sure) => {
                        stop.at <= sure.saturating_add(NEAR) && end.saturating_add(NEAR) > sure
                    }
                    None => true,
                };
                if is_near && self.change.distance(stop.at, end) / BLOCK == ring {
                    self.try_block(search, stretch, stop, tries)?;
                }
            }
        }
        Ok(())
    }
}

/// Where each copy ceases to save, those first that save most.
fn turns(
    search: &mut Search,
    stretch: Stretch<'_, '_>,
    from: &Measured,
) -> Result<Vec<Turn>, AllocError> {
    let mut turns: Vec<Turn> = Vec::new(search.alloc);
    for copy in 0..stretch.copies {
        if search.is_used_up() {
            break;
        }
        if !stretch.is_first_way(copy) {
            continue;
        }
        let change = change_of(stretch, from, copy)?;
        search.spend_bytes(change.bytes);
        let turn = Turn {
            copy,
            change,
            least: change.strict.mean.less(WIDE),
            end: change.last().saturating_add(REACH + AFTER),
            loss: 0,
        };
        let place = turns
            .iter()
            .take_while(|other| other.change.strict.height >= change.strict.height)
            .count();
        turns.insert(place.min(turns.len()), turn)?;
    }
    Ok(turns)
}

/// Tries all copies, those that save most first. Another is tried only if nothing is sure, or if it saves half as much.
fn try_turns(
    search: &mut Search,
    stretch: Stretch<'_, '_>,
    from: &Measured,
    turns: &[Turn],
    loss: i64,
) -> Result<Tries, AllocError> {
    let mut tries = Tries {
        living: Vec::new(search.alloc),
        sure: None,
        is_any_sure: false,
    };
    let mut end = 0;
    let mut highest = 0;
    for turn in turns {
        end = turn.end.max(end);
        highest = turn.change.strict.height.max(highest);
    }
    for turn in turns {
        if tries.is_any_sure && turn.change.strict.height < highest / 2 {
            break;
        }
        let turn = Turn { end, loss, ..*turn };
        turn.try_all(search, stretch, from, &mut tries)?;
    }
    Ok(tries)
}

/// The best tries, fed to the end of the stretch and of what follows it, if they live so long.
fn proposed(
    search: &mut Search,
    stretch: Stretch<'_, '_>,
    tries: Tries,
    pace: Pace,
) -> Result<Vec<Through>, AllocError> {
    let Tries { mut living, .. } = tries;
    let mut found = Vec::new(search.alloc);
    for _ in 0..MOST_LIVING {
        if found.len() >= MOST_PROPOSED {
            break;
        }
        let Some(best) = take_best(&mut living) else {
            break;
        };
        let Living {
            at,
            other,
            run,
            read,
            ..
        } = best;
        let Measured { mut reader, .. } = run;
        let life = stretch.feed_after(&mut reader, other, read, pace)?;
        search.spend_bytes(life.bytes);
        if !life.is_dead {
            found.push(Through {
                reader,
                pace: life.pace,
                cut: stretch.offset.saturating_add(at),
            })?;
        }
    }
    Ok(found)
}

/// The readers that go over in a stretch where a copy ceases to save. There are none if a copy saves through the stretch and `is_lived`
/// says that one lives through it.
pub(crate) fn seek(
    search: &mut Search,
    stretch: Stretch<'_, '_>,
    from: &WideReader,
    pace: Pace,
    is_lived: bool,
) -> Result<Vec<Through>, AllocError> {
    let none = Vec::new(search.alloc);
    let Some(measured) = Measured::new(from, pace)? else {
        return Ok(none);
    };
    let turns = turns(search, stretch, &measured)?;
    if is_lived && turns.iter().any(|turn| turn.change.goes_on(LOSSES[0])) {
        return Ok(none);
    }
    for loss in LOSSES {
        let tries = try_turns(search, stretch, &measured, &turns, loss)?;
        if is_lived && !tries.is_any_sure {
            continue;
        }
        if !tries.living.is_empty() {
            return proposed(search, stretch, tries, pace);
        }
    }
    Ok(none)
}
