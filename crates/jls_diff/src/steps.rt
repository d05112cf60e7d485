//! Copies compared byte by byte, without a shift.

/// How many bytes at their starts are equal.
fn equal_prefix(first: &[u8], second: &[u8]) -> usize {
    for (at, byte) in first.iter().enumerate() {
        if second.get(at).copied() != Some(*byte) {
            return at;
        }
    }
    first.len()
}

/// How many bytes all begin with.
pub(crate) fn common_prefix_len(rests: &[&[u8]]) -> usize {
    let Some(first) = rests.first() else {
        return 0;
    };
    let mut count = first.len();
    for rest in rests.iter().skip(1) {
        count = equal_prefix(prefix(first, count), rest);
    }
    count
}

/// Whether all have the same byte there.
pub(crate) fn agree_at(rests: &[&[u8]], at: usize) -> bool {
    let Some(first) = rests.first() else {
        return false;
    };
    let Some(byte) = first.get(at) else {
        return false;
    };
    for rest in rests {
        if rest.get(at).copied() != Some(*byte) {
            return false;
        }
    }
    true
}

/// Where so many bytes in a row agree in all, before this place in what the first one has.
pub(crate) fn in_step(rests: &[&[u8]], wanted: usize, before: usize) -> Option<usize> {
    let first = rests.first()?;
    let mut agreed = 0usize;
    for at in 0..first.len().min(before) {
        if agree_at(rests, at) {
            agreed = agreed.saturating_add(1);
        } else {
            agreed = 0;
        }
        if agreed >= wanted {
            return Some(at.saturating_sub(wanted.saturating_sub(1)));
        }
    }
    None
}

/// The prefix of a slice, or all of it where it is shorter.
pub(crate) fn prefix(bytes: &[u8], count: usize) -> &[u8] {
    &bytes[..count.min(bytes.len())]
}

/// What is after that prefix.
pub(crate) fn rest_of(bytes: &[u8], count: usize) -> &[u8] {
    &bytes[count.min(bytes.len())..]
}

/// How long the shortest is.
pub(crate) fn shortest(rests: &[&[u8]]) -> usize {
    let mut count = usize::MAX;
    for rest in rests {
        count = count.min(rest.len());
    }
    count
}
