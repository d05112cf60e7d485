//! Runs: where the code of lines and a copy have the same bytes.

use crate::shifts::Shift;
use std::alloc::AllocError;

/// How many bytes a run has at least, that no period foretells.
pub(crate) const FIRM: usize = 8;

/// How many it has at least if no whole line is in it.
const HINT: usize = 24;

/// How many it has at least where nothing else goes on.
const SHORT_HINT: usize = 12;

/// Bytes that repeat what stands so many bytes before them, or fewer, say nothing: black lines have the same code in many codings.
const LONGEST_PERIOD: usize = 16;

/// A stretch of a code that a copy has too.
#[derive(Clone, Copy)]
pub(crate) struct Run {
    pub(crate) begin: usize,
    pub(crate) end: usize,
    /// Where the copy has it.
    pub(crate) shift: Shift,
}

/// Whether what stands before a byte foretells it: two bytes like these stand a period before, or one for the period of one byte.
fn is_foretold(code: &[u8], at: usize) -> bool {
    let byte = code.get(at);
    let before = at.checked_sub(1).and_then(|before| code.get(before));
    for period in 1..LONGEST_PERIOD + 1 {
        if period.saturating_mul(2) > at {
            return false;
        }
        let earlier = at.saturating_sub(period);
        if code.get(earlier) == byte {
            let earlier = earlier.checked_sub(1).and_then(|before| code.get(before));
            if period == 1 || earlier == before {
                return true;
            }
        }
    }
    false
}

/// Whether so many bytes of a stretch are not foretold.
fn has_so_much_news(code: &[u8], begin: usize, end: usize, wanted: usize) -> bool {
    let mut news = 0usize;
    for at in begin..end {
        if !is_foretold(code, at) {
            news = news.saturating_add(1);
            if news >= wanted {
                return true;
            }
        }
    }
    false
}

/// Whether as many bytes of a stretch are not foretold as a run has at least.
pub(crate) fn has_news(code: &[u8], begin: usize, end: usize) -> bool {
    has_so_much_news(code, begin, end, FIRM)
}

/// Whether a stretch says something even if no whole line is in it.
pub(crate) fn is_hint(code: &[u8], run: &Run) -> bool {
    has_so_much_news(code, run.begin, run.end, HINT)
}

/// Whether a stretch says a little even if no whole line is in it.
pub(crate) fn is_short_hint(code: &[u8], run: &Run) -> bool {
    has_so_much_news(code, run.begin, run.end, SHORT_HINT)
}

/// Adds a run, if it is one.
fn add_run(runs: &mut Vec<Run>, code: &[u8], run: Run) -> Result<(), AllocError> {
    if run.end.saturating_sub(run.begin) >= FIRM && has_news(code, run.begin, run.end) {
        runs.push(run)?;
    }
    Ok(())
}

/// Adds the runs of a code and a copy at a shift, in order.
pub(crate) fn add_runs(
    runs: &mut Vec<Run>,
    code: &[u8],
    copy: &[u8],
    shift: Shift,
) -> Result<(), AllocError> {
    let mut begin = 0usize;
    for (at, byte) in code.iter().enumerate() {
        let own = shift.in_copy(at).and_then(|place| copy.get(place));
        if own.copied() != Some(*byte) {
            add_run(
                runs,
                code,
                Run {
                    begin,
                    end: at,
                    shift,
                },
            )?;
            begin = at.saturating_add(1);
        }
    }
    add_run(
        runs,
        code,
        Run {
            begin,
            end: code.len(),
            shift,
        },
    )
}
