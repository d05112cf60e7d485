//! Which of the lone paths are trusted. This only advises: no contract speaks of it, and each promise holds whatever it answers.
//!
//! Behind a place that no copy has true, wrong bytes can go on for a while, up to the next part in which copies differ. How long they go on
//! is measured by changes of the path. Each other way of a part is put in place of its own, and one bit is flipped at each of some places.
//! A path is trusted if it goes on for twice as long behind its last choice as with any change. Besides, no change before that choice may
//! go on up to the end of the path.

use crate::ceiling::is_above;
use crate::faultless::is_found_dead;
use crate::feeding::feed_any;
use jls_copy::{WideReader, next_cut};
use jls_diff::{Part, Parts};
use std::alloc::{AllocError, Global};

/// At how many places a bit is flipped.
const FLIPS: usize = 32;

/// How many bytes are fed before it is asked whether they can go on.
const STEP: usize = 64;

/// How many times as many bytes are fed before samples are compared with the ceiling again, as that goes through all lines.
const CEILING_STEPS: usize = 4;

/// How many times as long as wrong bytes a path has to go on.
const LIVES: usize = 2;

/// Other bytes in place of some that a path makes.
#[derive(Clone, Copy)]
struct Change<'a> {
    /// Where the bytes stand that are replaced.
    begin: usize,
    /// Where those behind them stand.
    end: usize,
    bytes: &'a [u8],
}

/// How long a path goes on with a change.
#[derive(Clone, Copy)]
struct Life {
    /// Where the change stands.
    at: usize,
    /// How many bytes go on from there.
    count: usize,
}

/// How long a path goes on with each change of its scan data. Changes before these aren't tried: a wrong header can go on for long.
#[derive(Drop)]
struct Lives {
    lives: Vec<Life>,
    /// Where the first change stands.
    begin: usize,
}

/// From the last choice of a path up to its end, as offsets in what it makes.
#[derive(Clone, Copy)]
struct Stretch {
    begin: usize,
    end: usize,
}

/// A reader that is fed a change, and what follows it.
#[derive(Drop)]
struct Trial {
    reader: WideReader,
    ceiling: Option<u16>,
    /// How many bytes it was fed.
    count: usize,
    /// At how many of them samples are compared with the ceiling next.
    next: usize,
}

impl Trial {
    /// Whether no file that is sought begins with what was fed, as far as is asked.
    fn is_over(&mut self) -> Result<bool, AllocError> {
        if is_found_dead(&self.reader)? {
            return Ok(true);
        }
        if self.count < self.next {
            return Ok(false);
        }
        self.next = self.count.saturating_mul(CEILING_STEPS);
        is_above(self.ceiling, &self.reader)
    }

    /// Feeds bytes until that is found, or it was fed so many in all. Answers whether either came.
    fn feed(&mut self, bytes: &[u8], most: usize) -> Result<bool, AllocError> {
        let mut rest = bytes;
        for _ in 0..bytes.len() {
            if rest.is_empty() {
                break;
            }
            let (slice, later) = rest.split_at(rest.len().min(STEP));
            feed_any(&mut self.reader, slice)?;
            self.count = self.count.saturating_add(slice.len());
            rest = later;
            if self.count >= most || self.is_over()? {
                return Ok(true);
            }
        }
        Ok(false)
    }
}

/// A path on which changes are tried.
#[derive(Drop)]
struct Walk<'w> {
    ceiling: Option<u16>,
    /// Its bytes.
    bytes: &'w [u8],
    /// A reader that was fed the first of these bytes, and how many.
    reader: WideReader,
    fed: usize,
    /// How many bytes a change is fed at most.
    most: usize,
    lives: Vec<Life>,
}

impl Walk<'_> {
    /// Feeds the reader the bytes of the path up to an offset.
    fn go_to(&mut self, offset: usize) -> Result<(), AllocError> {
        if let Some(bytes) = self.bytes.get(self.fed..offset) {
            feed_any(&mut self.reader, bytes)?;
            self.fed = offset;
        }
        Ok(())
    }

    /// Tries a change where the reader stands, if that is in scan data. One that goes on up to the end of the path counts a byte more. None
    /// counts further than to the next marker, where a piece is judged.
    fn try_change(&mut self, change: Change<'_>) -> Result<(), AllocError> {
        if self.reader.samples_read() == 0 {
            return Ok(());
        }
        let mut trial = Trial {
            reader: self.reader.try_clone()?,
            ceiling: self.ceiling,
            count: 0,
            next: STEP,
        };
        let rest = self.bytes.get(change.end..).unwrap_or(&[]);
        let is_over = trial.feed(change.bytes, self.most)?
            || trial.feed(rest, self.most)?
            || is_above(self.ceiling, &trial.reader)?;
        let count = if is_over {
            trial.count
        } else {
            trial.count.saturating_add(1)
        };
        let piece = match next_cut(self.bytes, change.end) {
            Some(cut) => cut.saturating_sub(change.begin),
            None => usize::MAX,
        };
        self.lives.push(Life {
            at: change.begin,
            count: count.min(piece),
        })?;
        Ok(())
    }

    /// Tries each other way of a part, whose own way on the path stands between these offsets.
    fn try_ways(&mut self, part: &Part<'_>, begin: usize, end: usize) -> Result<(), AllocError> {
        let Part::Differ(ways) = part else {
            return Ok(());
        };
        for bytes in ways.iter() {
            if self.bytes.get(begin..end) != Some(*bytes) {
                self.try_change(Change { begin, end, bytes })?;
            }
        }
        Ok(())
    }

    /// Tries flipped bits between these offsets, at those of the places that are spread evenly over the path.
    fn try_flips(&mut self, begin: usize, end: usize) -> Result<(), AllocError> {
        for number in 0..FLIPS {
            let at = self.bytes.len().saturating_mul(number) / FLIPS;
            let Some(byte) = self.bytes.get(at).copied() else {
                continue;
            };
            if at < begin || at >= end {
                continue;
            }
            self.go_to(at)?;
            let flipped = [byte ^ (1u8 << (number % 8))];
            self.try_change(Change {
                begin: at,
                end: at.saturating_add(1),
                bytes: &flipped,
            })?;
        }
        Ok(())
    }
}

/// A path, as bytes in memory.
#[derive(Drop)]
struct Made {
    bytes: Vec<u8>,
    /// Where each of its choices begins, and where the last one ends.
    borders: Vec<usize>,
}

/// Makes it: the bytes of the path, and the border before each of its choices.
fn made_by(alloc: Global, parts: &Parts<'_>, path: &[usize]) -> Result<Made, AllocError> {
    let mut bytes = Vec::new(alloc);
    let mut borders = Vec::new(alloc);
    for (place, choice) in path.iter().enumerate() {
        borders.push(bytes.len())?;
        if place < parts.len() {
            bytes.extend_from_slice(parts.way(place, *choice))?;
        }
    }
    borders.push(bytes.len())?;
    Ok(Made { bytes, borders })
}

impl Made {
    /// Where a choice begins.
    fn border(&self, place: usize) -> usize {
        self.borders.get(place).copied().unwrap_or(self.bytes.len())
    }

    /// The stretch up to the end of the first `count` choices. It begins with the last of their parts that is a difference.
    fn last_stretch(&self, parts: &Parts<'_>, count: usize) -> Stretch {
        let mut last = 0usize;
        for place in 0..count.min(parts.len()) {
            if parts.is_differ(place) {
                last = place;
            }
        }
        Stretch {
            begin: self.border(last),
            end: self.border(count),
        }
    }

    /// How long the path goes on with changes.
    fn lives(
        &self,
        alloc: Global,
        parts: &Parts<'_>,
        ceiling: Option<u16>,
        most: usize,
    ) -> Result<Lives, AllocError> {
        let mut walk = Walk {
            ceiling,
            bytes: &self.bytes,
            reader: WideReader::new(alloc),
            fed: 0,
            most,
            lives: Vec::new(alloc),
        };
        for place in 0..parts.len() {
            let begin = self.border(place);
            let end = self.border(place.saturating_add(1));
            walk.go_to(begin)?;
            walk.try_ways(parts.part(place), begin, end)?;
            walk.try_flips(begin, end)?;
        }
        let Walk { lives, .. } = walk;
        let begin = match lives.first() {
            Some(life) => life.at,
            None => self.bytes.len(),
        };
        Ok(Lives { lives, begin })
    }
}

impl Stretch {
    fn length(&self) -> usize {
        self.end.saturating_sub(self.begin)
    }

    /// Whether a change says nothing against a path that ends with this stretch.
    fn outlives(&self, life: &Life) -> bool {
        if life.at.saturating_add(life.count) > self.end {
            life.at > self.begin
        } else {
            life.count.saturating_mul(LIVES) <= self.length()
        }
    }

    /// Whether a path that ends with this stretch is trusted.
    fn is_trusted(&self, lives: &Lives) -> bool {
        self.begin < lives.begin || lives.lives.iter().all(|life| self.outlives(life))
    }
}

/// The place of the longest of these paths that is trusted. If none is, it is that of the first that goes into scan data, or their count if
/// none does. The paths are lone ones, each of which begins the next. One that goes up to the end of all copies is trusted. These end
/// before a place that is known to be bad, or were cut off.
pub(crate) fn last_trusted(
    alloc: Global,
    parts: &Parts<'_>,
    ceiling: Option<u16>,
    paths: &[Vec<usize>],
) -> Result<usize, AllocError> {
    let Some(last) = paths.last() else {
        return Ok(0);
    };
    if last.len() >= parts.len() {
        return Ok(paths.len());
    }
    let made = made_by(alloc, parts, last)?;
    let mut stretches = Vec::new(alloc);
    let mut longest = 0usize;
    for path in paths {
        let stretch = made.last_stretch(parts, path.len());
        longest = longest.max(stretch.length());
        stretches.push(stretch)?;
    }
    let most = (longest / LIVES).saturating_add(1);
    let lives = made.lives(alloc, parts, ceiling, most)?;
    let mut trusted = None;
    for (place, stretch) in stretches.iter().enumerate() {
        let has_data = stretch.end > lives.begin;
        if has_data && (trusted.is_none() || stretch.is_trusted(&lives)) {
            trusted = Some(place);
        }
    }
    Ok(trusted.unwrap_or(paths.len()))
}
