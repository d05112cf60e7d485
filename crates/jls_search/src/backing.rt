//! What speaks for a path of a search level by level. It is how many copies have its ways, and how many bits a code that learns saves on
//! its lines. No contract speaks of it, but that a place in a list is one.

ghost use Rattle.std.specs.Prelude.{◌<◌, ◌≤◌, length};
ghost use Rattle.jls_diff.specs.PartsOf.{parts_of};

use crate::next_level::LivingPath;
use jls_diff::{Part, Parts};

/// For how many bits it counts that a copy has a way.
const BITS_A_COPY: u64 = 10;

/// Of how many ways at most it is counted how many differ.
const MANY_WAYS: usize = 64;

/// Whether these bytes are all one byte.
fn are_of_one_byte(way: &[u8]) -> bool {
    match way.first() {
        Some(first) => way.len() > 1 && way.iter().all(|byte| byte == first),
        None => false,
    }
}

/// How many of these ways have the bytes of this one.
fn count_equal(ways: &[&[u8]], way: &[u8]) -> u64 {
    let mut count: u64 = 0;
    for other in ways {
        if **other == *way {
            count = count.saturating_add(1);
        }
    }
    count
}

/// How many copies have this way of a part. It is none where all copies have the part alike, or the way is all one byte.
pub(crate) fn backing_at(parts: &Parts<'_>, place: usize, choice: usize) -> u64
    requires { place < length parts.now }
{
    let way = parts.way(place, choice);
    if are_of_one_byte(way) {
        return 0;
    }
    match parts.part(place) {
        Part::Same(_) => 0,
        Part::Differ(ways) => count_equal(ways, way),
    }
}

/// How many copies have the ways of a path, in bits.
fn backed_bits(path: &LivingPath) -> i64 {
    let backed = path.backing.saturating_mul(BITS_A_COPY);
    i64::try_from(backed).unwrap_or(i64::MAX)
}

/// How many of these ways have bytes of their own.
fn count_different(ways: &[&[u8]]) -> usize {
    let mut count: usize = 0;
    for place in 0..ways.len() {
        let equal = count_equal(&ways[..place], ways[place]);
        if equal == 0 {
            count = count.saturating_add(1);
        }
    }
    count
}

/// How many ways a part has that a search tries, if copies differ in it. Of many ways, equal ones are counted too.
pub(crate) fn ways_at(parts: &Parts<'_>, place: usize) -> usize
    requires { place < length parts.now }
{
    match parts.part(place) {
        Part::Same(_) => 0,
        Part::Differ(ways) if ways.len() > MANY_WAYS => ways.len(),
        Part::Differ(ways) => count_different(ways),
    }
}

/// What speaks for a path, in bits.
fn weight(path: &LivingPath) -> i64 {
    let backed = backed_bits(path);
    match &path.saving {
        Some(saving) => saving.bits().saturating_add(backed),
        None => backed,
    }
}

/// The place of the path whose ways most copies have, summed over its parts; the first of equal ones.
fn most_backed(living: &[LivingPath]) -> usize {
    let mut most = 0;
    let mut backing = 0;
    for (place, path) in living.iter().enumerate() {
        if path.backing > backing {
            most = place;
            backing = path.backing;
        }
    }
    most
}

/// The place of the path for which least speaks; the last of equal ones. It is another than that which most copies have, if there is one.
pub(crate) fn weakest(living: &[LivingPath]) -> usize
    requires { 0 < length living.now }
    ensures { result < length living.now }
{
    let backed = most_backed(living);
    let mut least = 0;
    for place in 0..living.len() {
        let is_weaker = least == backed || weight(&living[place]) <= weight(&living[least]);
        if place != backed && is_weaker {
            least = place;
        }
    }
    least
}

/// Whether two paths have the same first `count` choices.
fn share(path: &[usize], other: &[usize], count: usize) -> bool {
    match (path.get(..count), other.get(..count)) {
        (Some(first), Some(second)) => *first == *second,
        _ => false,
    }
}

/// The place for a path that goes on from so many choices. It is after those that go on from the same choices, where as many copies or more
/// have the bytes of their next way.
pub(crate) fn place_for(living: &[LivingPath], path: &[usize], backing: u64, count: usize) -> usize
    ensures { result ≤ length living.now }
{
    let mut place = living.len();
    while place > 0 {
        let before = &living[place - 1];
        if before.backing >= backing || !share(&before.kept.choices, path, count) {
            return place;
        }
        place -= 1;
    }
    place
}
