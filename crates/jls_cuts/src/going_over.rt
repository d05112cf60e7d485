//! Searches the bytes of a stretch at which it is gone over, from one copy to another.

ghost use Rattle.std.specs.Prelude.{◌≡◌, ◌<◌, ◌≤◌, length};
ghost use Rattle.jls_diff.specs.PartsOf.{part_of, parts_of};

use crate::feeding::{Life, is_dead};
use crate::pace::Pace;
use crate::stretch::Stretch;
use jls_copy::WideReader;
use jls_search::feed_any;
use std::alloc::{AllocError, Global};

/// How many of these clones are kept at most: the last ones.
const MOST_KEPT: usize = 129;

/// A reader that lives so many bytes after it went over went over at the right byte, as a rule, or near it.
const SURE: usize = 4096;

/// How many more are tried after the first such one: others may live too, and which is right is not known.
const TRIES_AFTER: u32 = 64;

/// How many that live are kept at most.
const MOST_LIVING: usize = 8;

/// A reader that lives so many bytes counts as one try more.
const BYTES_A_TRY: usize = 65536;

/// A reader that was fed a stretch up to a byte of it.
#[derive(Drop)]
struct Stop {
    /// How many bytes of the stretch it was fed.
    at: usize,
    reader: WideReader,
}

/// A reader that was fed a stretch, and what all copies have after it.
#[derive(Drop)]
pub(crate) struct Through {
    pub(crate) reader: WideReader,
    /// Its last bytes.
    pub(crate) pace: Pace,
    /// Where it went over, as an offset in the first copy.
    pub(crate) cut: usize,
}

impl<'p, 'a> Stretch<'p, 'a> {
    /// Feeds a reader a copy's bytes from a byte on, and what follows the stretch, until it is dead.
    pub(crate) fn feed_rest(
        self,
        reader: &mut WideReader,
        copy: usize,
        at: usize,
    ) -> Result<Life, AllocError> {
        let mut life = Life::new(Pace::new());
        life.go_on(reader, self.way_from(copy, at))?;
        life.go_through(reader, self.parts, self.place.saturating_add(1))?;
        Ok(life)
    }

    /// Feeds a reader the rest of a copy's bytes, and of what follows the stretch, until it is dead. So many were fed.
    pub(crate) fn feed_after(
        self,
        reader: &mut WideReader,
        copy: usize,
        read: usize,
        pace: Pace,
    ) -> Result<Life, AllocError> {
        let mut life = Life::new(pace);
        life.go_on(reader, self.way_from(copy, read))?;
        let next = self.place.saturating_add(1);
        if next < self.parts.len() && !self.parts.is_differ(next) {
            let way = self.parts.way(next, 0);
            life.go_on(
                reader,
                &way[read.saturating_sub(self.length).min(way.len())..],
            )?;
            life.go_through(reader, self.parts, next.saturating_add(1))?;
        }
        Ok(life)
    }

    /// The last clones of a reader that is fed a copy's bytes until it is dead, in their order.
    fn stops(self, alloc: Global, from: &WideReader, copy: usize) -> Result<Vec<Stop>, AllocError> {
        let mut reader = from.try_clone()?;
        let mut stops = Vec::new(alloc);
        let mut next = 0usize;
        for _ in 0..self.length {
            if next >= self.length || is_dead(&reader) {
                break;
            }
            if stops.len() >= MOST_KEPT {
                let _ = stops.remove(0);
            }
            stops.push(Stop {
                at: next,
                reader: reader.try_clone()?,
            })?;
            let end = self.block_end(next);
            feed_any(&mut reader, self.way_between(copy, next, end))?;
            next = end;
        }
        Ok(stops)
    }
}

/// The search for the bytes at which a stretch is gone over.
#[derive(Drop)]
pub(crate) struct Search {
    pub(crate) alloc: Global,
    /// How many more may be tried.
    tries: u32,
    /// How many more may be tried in this stretch from this copy, if one that lives long was found.
    after: Option<u32>,
    /// Those that live to the end of the stretch and of what follows it.
    living: Vec<Through>,
}

/// Fewer tries by so many, but no fewer than none.
fn less(tries: u32, count: usize) -> u32 {
    tries.saturating_sub(u32::try_from(count).unwrap_or(u32::MAX))
}

impl Search {
    /// A search that has tried nothing.
    pub(crate) fn new(alloc: Global, tries: u32) -> Search {
        Search {
            alloc,
            tries,
            after: None,
            living: Vec::new(alloc),
        }
    }

    /// Whether nothing is tried any more.
    fn is_over(&self) -> bool {
        self.tries == 0 || self.after == Some(0) || self.living.len() >= MOST_LIVING
    }

    /// Whether no more may be tried.
    pub(crate) fn is_used_up(&self) -> bool {
        self.tries == 0
    }

    /// Takes the tries off that so many bytes count for: one, and more for many bytes.
    pub(crate) fn spend_bytes(&mut self, bytes: usize) {
        self.tries = less(self.tries, (bytes / BYTES_A_TRY).saturating_add(1));
    }

    /// Notes a try whose reader lived so long.
    fn note_life(&mut self, life: Life) {
        self.spend_bytes(life.bytes);
        self.after = match self.after {
            Some(after) => Some(after.saturating_sub(1)),
            None if !life.is_dead && life.bytes >= SURE => Some(TRIES_AFTER),
            None => None,
        };
    }

    /// Goes over to each other copy.
    fn try_at(
        &mut self,
        stretch: Stretch<'_, '_>,
        from: &WideReader,
        at: usize,
        copy: usize,
    ) -> Result<(), AllocError> {
        for other in 0..stretch.copies {
            if self.is_over() {
                break;
            }
            if !stretch.is_first_way(other) || !stretch.differ_before(at, copy, other) {
                continue;
            }
            let mut reader = from.try_clone()?;
            let life = stretch.feed_rest(&mut reader, other, at)?;
            self.note_life(life);
            if !life.is_dead {
                let cut = stretch.offset.saturating_add(at);
                self.living.push(Through {
                    reader,
                    pace: life.pace,
                    cut,
                })?;
            }
        }
        Ok(())
    }

    /// Goes over at each byte of a block but the first.
    fn try_block(
        &mut self,
        stretch: Stretch<'_, '_>,
        from: &Stop,
        copy: usize,
    ) -> Result<(), AllocError> {
        let mut reader = from.reader.try_clone()?;
        for at in from.at..stretch.block_end(from.at) {
            if self.is_over() || is_dead(&reader) {
                break;
            }
            if at > from.at {
                self.try_at(stretch, &reader, at, copy)?;
            }
            let next = at.saturating_add(1);
            feed_any(&mut reader, stretch.way_between(copy, at, next))?;
        }
        Ok(())
    }

    /// Goes over from this copy, of whose bytes a reader is fed more and more. It does at multiples of a block first, and then at each
    /// byte. The last come first, since the copy's damage is seldom far before the byte at which its reader dies. The answer are those that
    /// live.
    pub(crate) fn through(
        &mut self,
        stretch: Stretch<'_, '_>,
        from: &WideReader,
        copy: usize,
    ) -> Result<Vec<Through>, AllocError> {
        let stops = stretch.stops(self.alloc, from, copy)?;
        self.after = None;
        for stop in stops.iter().rev() {
            self.try_at(stretch, &stop.reader, stop.at, copy)?;
        }
        for stop in stops.iter().rev() {
            self.try_block(stretch, stop, copy)?;
        }
        Ok(std::mem::replace(&mut self.living, Vec::new(self.alloc)))
    }
}
