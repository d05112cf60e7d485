//! Copies that stand one behind the other, lists of their bad places, and what is asked of them.

ghost use Rattle.jls_c.specs.Copies as asked;
ghost use Rattle.jls_c.specs.Copies.{AreCopies, AreLists};
ghost use Rattle.jls_mend.specs.Asking.{IsNumberOf, places_of};
ghost use Rattle.std.specs.List.{AllByRecursion, sum};
ghost use Rattle.std.specs.Prelude.{◌≡◌, ◌↔◌, IfOk, IsTrue, length, map};

use jls_mend::{BadPlaces, MendOptions};
use std::alloc::{AllocError, Global};

/// What a mending is asked for. Each search tries `tries` prefixes and files at most. Readings are taken under `source`. Only files whose
/// samples are at most `ceiling` are searched for. These two are given where `has_source` and `has_ceiling` aren't 0. Each file without a
/// fault is asked for where `files` isn't 0.
#[repr(C)]
#[derive(Clone, Copy)]
pub struct JlsMendOptions {
    pub tries: u32,
    pub source: u32,
    pub ceiling: u16,
    pub has_source: u8,
    pub has_ceiling: u8,
    pub files: u8,
}

/// A list of bad places: the number of its copy, from 0 on, and how many bytes its text has.
#[repr(C)]
#[derive(Clone, Copy)]
pub struct JlsBadList {
    pub copy: u64,
    pub size: u64,
}

/// The same as options of a mending.
pub(crate) fn options_of(options: &JlsMendOptions) -> MendOptions
    ensures { result ≡ asked.options_of options.now }
{
    MendOptions {
        source: if options.has_source == 0 {
            None
        } else {
            Some(options.source)
        },
        tries: options.tries,
        ceiling: if options.has_ceiling == 0 {
            None
        } else {
            Some(options.ceiling)
        },
        files: options.files != 0,
    }
}

/// Whether sizes add up to this number.
fn add_up(sizes: &[u64], count: usize) -> bool
    ensures { IsTrue result ↔ (sum sizes.now ≡ count) }
{
    let mut left = count as u64;
    for size in sizes {
        if *size > left {
            return false;
        }
        left -= *size;
    }
    left == 0
}

/// Whether these are copies that can be mended, with these lists.
pub(crate) fn are_copies(
    options: &JlsMendOptions,
    sizes: &[u64],
    bytes: &[u8],
    lists: &[JlsBadList],
) -> bool
    ensures { IsTrue result ↔ AreCopies options.now sizes.now bytes.now lists.now }
{
    let least = if lists.is_empty() { 2 } else { 1 };
    sizes.len() >= least && options.tries >= 1 && add_up(sizes, bytes.len())
}

/// Whether the sizes of lists add up to this number.
fn lists_add_up(lists: &[JlsBadList], count: usize) -> bool
    ensures { IsTrue result ↔ (sum (map (λ l. l.size) lists.now) ≡ count) }
{
    let mut left = count as u64;
    for list in lists {
        if list.size > left {
            return false;
        }
        left -= list.size;
    }
    left == 0
}

/// Whether it is the number of one of so many copies, which `--bad` takes as the number behind it.
fn is_number_of(count: usize, number: u64) -> bool
    ensures { IsTrue result ↔ IsNumberOf count number }
{
    number < count as u64 && number < u64::from(u32::MAX)
}

/// Whether each list is of one of so many copies.
fn are_of_copies(count: usize, lists: &[JlsBadList]) -> bool
    ensures { IsTrue result ↔ AllByRecursion (λ l. IsNumberOf count l.copy) lists.now }
{
    for list in lists {
        if !is_number_of(count, list.copy) {
            return false;
        }
    }
    true
}

/// Whether these are lists of so many copies.
pub(crate) fn are_lists(count: usize, lists: &[JlsBadList], texts: &[u8]) -> bool
    ensures { IsTrue result ↔ AreLists count lists.now texts.now }
{
    are_of_copies(count, lists) && lists_add_up(lists, texts.len())
}

/// The copies that stand in bytes, by their sizes.
pub(crate) fn copies_in<'a>(
    alloc: Global,
    sizes: &[u64],
    bytes: &'a [u8],
) -> Result<Vec<&'a [u8]>, AllocError>
    ensures { IfOk result (λ copies. map (λ copy. copy.now) copies.items ≡ asked.parted sizes.now bytes.now) }
{
    let mut copies = Vec::new(alloc);
    let mut rest = bytes;
    for size in sizes {
        let count = std::cmp::min(*size, rest.len() as u64) as usize;
        copies.push(&rest[..count])?;
        rest = &rest[count..];
    }
    Ok(copies)
}

/// The lists that stand in texts, by their sizes.
pub(crate) fn lists_in<'a>(
    alloc: Global,
    lists: &[JlsBadList],
    texts: &'a [u8],
) -> Result<Vec<BadPlaces<'a>>, AllocError>
    ensures { IfOk result (λ bad. map places_of bad.items ≡ asked.listed lists.now texts.now) }
{
    let mut bad = Vec::new(alloc);
    let mut rest = texts;
    for list in lists {
        let count = std::cmp::min(list.size, rest.len() as u64) as usize;
        bad.push(BadPlaces {
            copy: list.copy as usize,
            text: &rest[..count],
        })?;
        rest = &rest[count..];
    }
    Ok(bad)
}
