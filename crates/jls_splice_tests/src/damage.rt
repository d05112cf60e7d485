//! Damaged copies of files.

use crate::files::file_of;
use std::alloc::{AllocError, Global};

/// What the bytes from an offset on, up to another, have become.
#[derive(Clone, Copy)]
struct Damage {
    from: usize,
    after: usize,
    /// The byte that stands for each of them now; none where they are lost.
    becomes: Option<u8>,
}

/// `FROM+COUNT=BYTE`, or `FROM+COUNT=lost`.
fn damage_of(text: &str) -> Option<Damage> {
    let (place, becomes) = text.split_once('=')?;
    let (from, count) = place.split_once('+')?;
    let from = from.parse::<usize>().ok()?;
    let count = count.parse::<usize>().ok()?;
    Some(Damage {
        from,
        after: from.saturating_add(count),
        becomes: becomes.parse::<u8>().ok(),
    })
}

/// All of them, with blanks between them, and each so many bytes further on.
fn damages_of(alloc: Global, text: &str, further: usize) -> Result<Vec<Damage>, AllocError> {
    let mut damages = Vec::new(alloc);
    for word in text.split_whitespace() {
        if let Some(damage) = damage_of(word) {
            damages.push(Damage {
                from: damage.from.saturating_add(further),
                after: damage.after.saturating_add(further),
                ..damage
            })?;
        }
    }
    Ok(damages)
}

/// What stands for the byte at an offset.
fn byte_at(damages: &[Damage], offset: usize, byte: u8) -> Option<u8> {
    for damage in damages {
        if damage.from <= offset && offset < damage.after {
            return damage.becomes;
        }
    }
    Some(byte)
}

/// The file that a text begins with the name of, and else this one.
fn file_named(alloc: Global, file: &[u8], text: &str) -> Result<Vec<u8>, AllocError> {
    let name = match text.split_once(' ') {
        Some((name, _)) => name,
        None => text,
    };
    match file_of(alloc, name)? {
        Some(other) => Ok(other),
        None => Vec::from_slice(alloc, file),
    }
}

/// The copy of a file that is damaged so, each damage so many bytes further on. Where the name of another file stands first, it is a copy
/// of that one.
pub(crate) fn copy_of(
    alloc: Global,
    file: &[u8],
    text: &str,
    further: usize,
) -> Result<Vec<u8>, AllocError> {
    let undamaged = file_named(alloc, file, text)?;
    let damages = damages_of(alloc, text, further)?;
    let mut copy = Vec::new(alloc);
    for (offset, byte) in undamaged.iter().enumerate() {
        if let Some(byte) = byte_at(&damages, offset, *byte) {
            copy.push(byte)?;
        }
    }
    Ok(copy)
}

/// `COUNT*STEP` at the begin of a text: of how many copies it is, each of which is damaged so many bytes further on than the one before.
fn repeats_of(text: &str) -> Option<(usize, usize)> {
    let (word, _) = text.split_once(' ')?;
    let (count, step) = word.split_once('*')?;
    Some((count.parse::<usize>().ok()?, step.parse::<usize>().ok()?))
}

/// The copies of a file, damaged as the parts of a text between ` / ` say.
pub(crate) fn copies_of(
    alloc: Global,
    file: &[u8],
    text: &str,
) -> Result<Vec<Vec<u8>>, AllocError> {
    let mut copies = Vec::new(alloc);
    for part in text.split(" / ") {
        let (count, step) = repeats_of(part).unwrap_or((1, 0));
        for number in 0..count {
            copies.push(copy_of(alloc, file, part, number.saturating_mul(step))?)?;
        }
    }
    Ok(copies)
}
