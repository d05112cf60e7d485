//! Whether copies are of one coding, as far as their headers and their bytes tell. It only advises: no contract speaks of it, and each
//! promise holds whatever it answers.
//!
//! Copies are of one coding if their headers say the same of the frame, the scans, the parameters and the restart intervals. A damaged
//! header can say something else. So copies are also of one coding if their scan data are mostly alike, from the first place on where
//! these differ. Files of one picture in two codings have stretches alike too, so single ones don't count. Of a copy that has lost its scan
//! headers less has to be alike: it is of no use as one of another coding.

use crate::first_lines::are_two_codings;
use jls_diff::Parts;
use jls_marker::codes::{DRI, LSE, SOS, has_segment};
use jls_marker::{Headers, Profile, ScanPlan};
use std::alloc::{AllocError, Global};

/// How many bytes are compared at a time.
const WINDOW: usize = 8;

/// Bytes that repeat what stands so many bytes before them, or fewer, say nothing: black lines have the same code in many codings.
const LONGEST_PERIOD: usize = 16;

/// What the headers of a copy say.
#[derive(Drop)]
struct Coding {
    /// The frame, and what else the segments set.
    headers: Headers,
    /// The scans, in their order.
    scans: Vec<ScanPlan>,
    /// Where the data of the first scan begins; 0 where there is none.
    data: usize,
}

/// Two copies in which their bytes are compared.
#[derive(Clone, Copy)]
struct Pair {
    first: usize,
    second: usize,
}

/// Two offsets, one in each copy of a pair.
#[derive(Clone, Copy)]
struct Offsets {
    first: usize,
    second: usize,
}

/// The payload of a segment whose length stands at this place, if it stands there whole.
fn payload_at(bytes: &[u8], at: usize) -> Option<&[u8]> {
    let high = *bytes.get(at)?;
    let low = *bytes.get(at.saturating_add(1))?;
    let length = usize::from(u16::from_be_bytes([high, low]));
    bytes.get(at.saturating_add(2)..at.saturating_add(length))
}

/// The code and the payload of a segment whose marker stands at this place. In scan data those that say nothing of the coding don't count.
fn segment_at(bytes: &[u8], at: usize, is_data: bool) -> Option<(u8, &[u8])> {
    if *bytes.get(at)? != 0xFF {
        return None;
    }
    let code = *bytes.get(at.saturating_add(1))?;
    let counts = if is_data {
        code == SOS || code == LSE || code == DRI
    } else {
        has_segment(code)
    };
    if !counts {
        return None;
    }
    Some((code, payload_at(bytes, at.saturating_add(2))?))
}

/// What the headers of a copy say. What can't stand there is passed over.
fn coding_of(alloc: Global, bytes: &[u8]) -> Result<Coding, AllocError> {
    let mut headers = Headers::under(Profile::Wide);
    let mut scans = Vec::new(alloc);
    let mut data = 0usize;
    let mut next = 0usize;
    for at in 0..bytes.len() {
        if at < next {
            continue;
        }
        let Some((code, payload)) = segment_at(bytes, at, data != 0) else {
            continue;
        };
        if let Ok(scan) = headers.take(code, payload) {
            next = at.saturating_add(4).saturating_add(payload.len());
            if let Some(plan) = scan {
                scans.push(plan)?;
                if data == 0 {
                    data = next;
                }
            }
        }
    }
    Ok(Coding {
        headers,
        scans,
        data,
    })
}

/// Whether two scans are of the same components, interleaved alike, under the same parameters, with the same restart intervals.
fn are_same_scans(first: &ScanPlan, second: &ScanPlan) -> bool {
    let count = first.intervals();
    if count == 0 || second.intervals() != count {
        return false;
    }
    *first.components() == *second.components()
        && first.by_sample() == second.by_sample()
        && first.params() == second.params()
        && first.rows(0) == second.rows(0)
}

/// Whether the headers of two copies say the same, of one scan at least. A copy may have lost the headers of later scans.
fn say_the_same(first: &Coding, second: &Coding) -> bool {
    let (Some(shape), Some(other)) = (first.headers.shape(), second.headers.shape()) else {
        return false;
    };
    if *shape != *other || first.scans.is_empty() || second.scans.is_empty() {
        return false;
    }
    for (scan, other) in first.scans.iter().zip(&second.scans) {
        if !are_same_scans(scan, other) {
            return false;
        }
    }
    true
}

/// Whether a window is one of these. It looks at each of them, so that the compiler compares several by one instruction.
#[inline(always)]
fn is_one_of(windows: &[u64; LONGEST_PERIOD], window: u64) -> bool {
    let mut is_one = false;
    for other in windows {
        if *other == window {
            is_one = true;
        }
    }
    is_one
}

/// At how many places of a stretch there is news that doesn't go past it. News is so many bytes as are compared that don't stand at one of
/// the places shortly before them.
fn count_news(bytes: &[u8], from: usize, end: usize) -> usize {
    let start = from.saturating_sub(LONGEST_PERIOD);
    let mut before = [0u64; LONGEST_PERIOD];
    let mut window = 0u64;
    let mut count = 0usize;
    for (at, byte) in bytes.get(start..end).unwrap_or(&[]).iter().enumerate() {
        window = (window << 8) | u64::from(*byte);
        let Some(seen) = at.checked_sub(WINDOW - 1) else {
            continue;
        };
        let is_repeated = if seen < LONGEST_PERIOD {
            before.iter().take(seen).any(|other| *other == window)
        } else {
            is_one_of(&before, window)
        };
        if !is_repeated && start.saturating_add(seen) >= from {
            count = count.saturating_add(1);
        }
        if let Some(slot) = before.get_mut(seen % LONGEST_PERIOD) {
            *slot = window;
        }
    }
    count
}

/// How two copies compare from the first place on where their scan data differ.
#[derive(Clone, Copy)]
struct Comparison {
    /// That place, if there is one.
    from: Option<Offsets>,
    /// How much news behind it both have.
    alike: usize,
}

/// Compares two copies. Their scan data begin at these offsets.
fn compare(copies: &[&[u8]], parts: &Parts<'_>, pair: Pair, data: Offsets) -> Comparison {
    let mut at = Offsets {
        first: 0,
        second: 0,
    };
    let mut from = None;
    let mut alike = 0usize;
    for place in 0..parts.len() {
        let way = parts.way(place, pair.first);
        let other = parts.way(place, pair.second);
        let end = Offsets {
            first: at.first.saturating_add(way.len()),
            second: at.second.saturating_add(other.len()),
        };
        if *way != *other {
            if from.is_none() && (end.first > data.first || end.second > data.second) {
                from = Some(at);
            }
        } else if from.is_some() {
            if let Some(copy) = copies.get(pair.first) {
                alike = alike.saturating_add(count_news(copy, at.first, end.first));
            }
        }
        at = end;
    }
    Comparison { from, alike }
}

/// How much news a copy has from an offset on.
fn news_from(copies: &[&[u8]], number: usize, from: usize) -> usize {
    match copies.get(number) {
        Some(copy) => count_news(copy, from, copy.len()),
        None => 0,
    }
}

/// Whether the scan data of two copies, which begin at these offsets, are mostly alike where they could differ. That is three quarters of
/// what the one has that has less, or two fifths if one of them has lost its scan headers. Where that is next to nothing, they aren't: it
/// would be alike to any.
fn are_mostly_alike(copies: &[&[u8]], parts: &Parts<'_>, pair: Pair, data: Offsets) -> bool {
    let found = compare(copies, parts, pair, data);
    let Some(from) = found.from else {
        return true;
    };
    let first = news_from(copies, pair.first, from.first.max(data.first));
    let second = news_from(copies, pair.second, from.second.max(data.second));
    let less = first.min(second);
    let (share, of) = if data.first == 0 || data.second == 0 {
        (2, 5)
    } else {
        (3, 4)
    };
    less >= WINDOW && found.alike.saturating_mul(of) >= less.saturating_mul(share)
}

/// Whether a copy says nothing of its coding.
fn is_silent(silent: &[bool], number: usize) -> bool {
    silent.get(number) == Some(&true)
}

/// For each copy the number of the first whose headers say the same as its own. Copies that say nothing have their own.
fn first_with_same_headers(
    alloc: Global,
    codings: &[Coding],
    silent: &[bool],
) -> Result<Vec<usize>, AllocError> {
    let mut firsts = Vec::new(alloc);
    for (number, coding) in codings.iter().enumerate() {
        let mut first = number;
        for (other, before) in codings.iter().enumerate() {
            let speak = !is_silent(silent, number) && !is_silent(silent, other);
            if speak && other < first && say_the_same(before, coding) {
                first = other;
            }
        }
        firsts.push(first)?;
    }
    Ok(firsts)
}

/// Where the scan data of a copy begin, as its headers say; 0 where there are none.
fn data_of(codings: &[Coding], number: usize) -> usize {
    match codings.get(number) {
        Some(coding) => coding.data,
        None => 0,
    }
}

/// Gives copies of one number another.
fn renumber(numbers: &mut [usize], from: usize, to: usize) {
    for at in 0..numbers.len() {
        if numbers[at] == from {
            numbers[at] = to;
        }
    }
}

/// For each copy whether it says nothing of its coding: it has no scan, and hardly a byte that nothing before it foretells.
fn which_are_silent(
    alloc: Global,
    copies: &[&[u8]],
    codings: &[Coding],
) -> Result<Vec<bool>, AllocError> {
    let mut silent = Vec::new(alloc);
    for number in 0..copies.len() {
        silent.push(data_of(codings, number) == 0 && news_from(copies, number, 0) < WINDOW)?;
    }
    Ok(silent)
}

/// Joins copies that say nothing of their coding to the first that says something.
fn join_silent(numbers: &mut [usize], silent: &[bool]) {
    let first = silent.iter().position(|is| !*is).unwrap_or(0);
    for (second, is) in silent.iter().enumerate() {
        if let (true, Some((one, other))) = (*is, numbers_of(numbers, Pair { first, second })) {
            renumber(numbers, one.max(other), one.min(other));
        }
    }
}

/// The numbers that two copies have.
fn numbers_of(numbers: &[usize], pair: Pair) -> Option<(usize, usize)> {
    let first = numbers.get(pair.first)?;
    let second = numbers.get(pair.second)?;
    Some((*first, *second))
}

/// Whether a copy of a coding has the same first lines as a copy of another one, though its bytes differ there.
fn has_witness(
    alloc: Global,
    copies: &[&[u8]],
    codings: &[Coding],
    numbers: &[usize],
    coding: usize,
) -> Result<bool, AllocError> {
    for (first, (copy, number)) in copies.iter().zip(numbers).enumerate() {
        for (second, (other, another)) in copies.iter().zip(numbers).enumerate() {
            if *number != coding || *another == coding {
                continue;
            }
            let data = (data_of(codings, first), data_of(codings, second));
            if are_two_codings(alloc, (copy, data.0), (other, data.1))? {
                return Ok(true);
            }
        }
    }
    Ok(false)
}

/// A number for each copy, the same for those of one coding, as far as can be told. It is that of the first of them, from 0. The parts are
/// those of the copies. `Err` comes where memory is refused.
pub fn codings_of(
    alloc: Global,
    copies: &[&[u8]],
    parts: &Parts<'_>,
) -> Result<Vec<usize>, AllocError> {
    let mut codings = Vec::new(alloc);
    for copy in copies {
        codings.push(coding_of(alloc, copy)?)?;
    }
    let silent = which_are_silent(alloc, copies, &codings)?;
    let firsts = first_with_same_headers(alloc, &codings, &silent)?;
    let mut numbers: Vec<usize> = firsts.iter().copied().collect(alloc)?;
    for second in 0..copies.len() {
        for first in 0..second {
            let pair = Pair { first, second };
            let speak = !is_silent(&silent, first) && !is_silent(&silent, second);
            if !speak || numbers_of(&firsts, pair) != Some((first, second)) {
                continue;
            }
            let Some((one, other)) = numbers_of(&numbers, pair) else {
                continue;
            };
            let data = Offsets {
                first: data_of(&codings, first),
                second: data_of(&codings, second),
            };
            if one != other && are_mostly_alike(copies, parts, pair, data) {
                renumber(&mut numbers, one.max(other), one.min(other));
            }
        }
    }
    join_silent(&mut numbers, &silent);
    Ok(numbers)
}

/// Whether copies are of several codings for sure. There are several, as far as can be told. For each of them a copy has the same first
/// lines as a copy of another, though its bytes differ there. The parts are those of the copies. `Err` comes where memory is refused.
pub fn are_surely_of_several_codings(
    alloc: Global,
    copies: &[&[u8]],
    parts: &Parts<'_>,
) -> Result<bool, AllocError> {
    let numbers = codings_of(alloc, copies, parts)?;
    let mut codings = Vec::new(alloc);
    for copy in copies {
        codings.push(coding_of(alloc, copy)?)?;
    }
    for coding in &numbers {
        if !has_witness(alloc, copies, &codings, &numbers, *coding)? {
            return Ok(false);
        }
    }
    Ok(numbers.iter().any(|number| *number != 0))
}

/// Whether copies are of one coding, as far as can be told. The parts are those of the copies. `Err` comes where memory is refused.
pub fn are_of_one_coding(
    alloc: Global,
    copies: &[&[u8]],
    parts: &Parts<'_>,
) -> Result<bool, AllocError> {
    let numbers = codings_of(alloc, copies, parts)?;
    Ok(numbers.iter().all(|number| *number == 0))
}
