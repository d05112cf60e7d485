//! Goes through all parts of some copies, and searches where they go over from one to another where no copy has all of a part.

ghost use Rattle.std.specs.Prelude.{◌≡◌, ◌<◌, ◌≤◌, length};
ghost use Rattle.jls_diff.specs.PartsOf.{part_of, parts_of};

use crate::feeding::Life;
use crate::going_over::{Search, Through};
use crate::pace::Pace;
use crate::seeking::seek;
use crate::stretch::Stretch;
use jls_copy::WideReader;
use jls_diff::{Part, Parts};
use std::alloc::{AllocError, Global};

/// How many paths are kept at most.
const MOST_LIVING: usize = 8;

/// Stretches of so many bytes or fewer are not gone over.
const SHORT: usize = 16;

/// Stretches of so many bytes or fewer are gone over without a look at what lines save: they may have few.
const FEW_LINES: usize = 1024;

/// A path through the first parts.
#[derive(Drop)]
struct Path {
    /// A reader that was fed its bytes.
    reader: WideReader,
    /// Its last bytes.
    pace: Pace,
    /// Where it goes over, as offsets in the first copy.
    cuts: Vec<usize>,
}

/// How many bytes all ways have, if they have one length.
fn common_length(ways: &[&[u8]]) -> Option<usize> {
    let length = ways.first()?.len();
    if ways.iter().all(|way| way.len() == length) {
        Some(length)
    } else {
        None
    }
}

/// The part of this number as a stretch that may be gone over. It begins at this offset in the first copy.
fn stretch_at<'p, 'a>(
    parts: &'p Parts<'a>,
    place: usize,
    offset: usize,
) -> Option<Stretch<'p, 'a>> {
    if place >= parts.len() {
        return None;
    }
    let Part::Differ(ways) = parts.part(place) else {
        return None;
    };
    let length = common_length(ways)?;
    if length <= SHORT {
        return None;
    }
    Some(Stretch {
        parts,
        place,
        offset,
        copies: ways.len(),
        length,
    })
}

/// All these offsets and those, each once.
fn join_cuts(cuts: &mut Vec<usize>, more: &[usize]) -> Result<(), AllocError> {
    for cut in more {
        if !cuts.contains(cut) {
            cuts.push(*cut)?;
        }
    }
    Ok(())
}

/// Adds a path. If there are too many, the one goes that read the fewest samples.
fn add_path(living: &mut Vec<Path>, path: Path) -> Result<(), AllocError> {
    living.push(path)?;
    if living.len() <= MOST_LIVING {
        return Ok(());
    }
    let mut least = 0;
    for (place, path) in living.iter().enumerate() {
        if let Some(other) = living.get(least) {
            if path.reader.samples_read() < other.reader.samples_read() {
                least = place;
            }
        }
    }
    if least < living.len() {
        let _ = living.remove(least);
    }
    Ok(())
}

/// The paths that go on from these with one copy's bytes of a part, and live up to the next one in which copies differ.
fn go_on(
    alloc: Global,
    parts: &Parts<'_>,
    place: usize,
    living: &[Path],
) -> Result<Vec<Path>, AllocError> {
    let mut next = Vec::new(alloc);
    if place >= parts.len() {
        return Ok(next);
    }
    let Part::Differ(ways) = parts.part(place) else {
        return Ok(next);
    };
    for path in living {
        for (copy, way) in ways.iter().enumerate() {
            if ways.iter().take(copy).any(|other| other == way) {
                continue;
            }
            let mut reader = path.reader.try_clone()?;
            let mut life = Life::new(path.pace);
            life.go_on(&mut reader, way)?;
            life.go_through(&mut reader, parts, place.saturating_add(1))?;
            if !life.is_dead {
                let cuts = path.cuts.clone()?;
                let pace = life.pace;
                add_path(&mut next, Path { reader, pace, cuts })?;
            }
        }
    }
    Ok(next)
}

/// The path that goes on from one, and goes over.
fn path_on(path: &Path, through: Through) -> Result<Path, AllocError> {
    let Through { reader, pace, cut } = through;
    let mut cuts = path.cuts.clone()?;
    cuts.push(cut)?;
    Ok(Path { reader, pace, cuts })
}

/// The paths that go on from these, and go over in this stretch.
fn go_over(
    search: &mut Search,
    stretch: Stretch<'_, '_>,
    living: &[Path],
) -> Result<Vec<Path>, AllocError> {
    let mut next = Vec::new(search.alloc);
    for path in living {
        for copy in 0..stretch.copies {
            if !stretch.is_first_way(copy) {
                continue;
            }
            for through in search.through(stretch, &path.reader, copy)? {
                add_path(&mut next, path_on(path, through)?)?;
            }
        }
    }
    Ok(next)
}

/// The paths that go on from these, and go over in this stretch where a copy ceases to save bits.
fn go_over_where_it_ceases(
    search: &mut Search,
    stretch: Stretch<'_, '_>,
    living: &[Path],
    is_lived: bool,
) -> Result<Vec<Path>, AllocError> {
    let mut next = Vec::new(search.alloc);
    for path in living {
        for through in seek(search, stretch, &path.reader, path.pace, is_lived)? {
            add_path(&mut next, path_on(path, through)?)?;
        }
    }
    Ok(next)
}

/// The paths through a stretch. `next` are those that go through it with one copy's bytes.
fn through_stretch(
    search: &mut Search,
    stretch: Stretch<'_, '_>,
    living: &[Path],
    next: Vec<Path>,
) -> Result<Vec<Path>, AllocError> {
    if stretch.length > FEW_LINES {
        let over = go_over_where_it_ceases(search, stretch, living, !next.is_empty())?;
        if !over.is_empty() {
            return Ok(over);
        }
    }
    if next.is_empty() {
        return go_over(search, stretch, living);
    }
    Ok(next)
}

/// The paths of no part but those that all copies have alike at the start.
fn begin(alloc: Global, parts: &Parts<'_>) -> Result<Vec<Path>, AllocError> {
    let mut reader = WideReader::new(alloc);
    let mut life = Life::new(Pace::new());
    life.go_through(&mut reader, parts, 0)?;
    let mut living = Vec::new(alloc);
    living.push(Path {
        reader,
        pace: life.pace,
        cuts: Vec::new(alloc),
    })?;
    Ok(living)
}

/// Offsets in the first copy at which parts of several damaged places may be cut, so that copies have all of each, in their order. `tries`
/// bounds how many bytes are tried. They are proposals, and there may be none. `Err` comes where memory is refused.
pub fn find_cuts(alloc: Global, parts: &Parts<'_>, tries: u32) -> Result<Vec<usize>, AllocError> {
    let mut search = Search::new(alloc, tries);
    let mut living = begin(alloc, parts)?;
    let mut offset = 0usize;
    for place in 0..parts.len() {
        let mut next = go_on(alloc, parts, place, &living)?;
        if parts.is_differ(place) {
            if let Some(stretch) = stretch_at(parts, place, offset) {
                next = through_stretch(&mut search, stretch, &living, next)?;
            }
            if next.is_empty() {
                break;
            }
            living = next;
        }
        offset = offset.saturating_add(parts.way(place, 0).len());
    }
    let mut cuts = Vec::new(alloc);
    for path in living.iter() {
        join_cuts(&mut cuts, &path.cuts)?;
    }
    Ok(cuts)
}
