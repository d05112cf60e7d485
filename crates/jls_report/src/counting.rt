//! Counting lines by their status.

ghost use Rattle.jls_report.specs.Lines.{line_count, lines, is_settled_line, is_missing, is_disputed};
ghost use Rattle.std.specs.Prelude.{◌≡◌, ◌<◌, ◌≤◌, length, count_by};

use jls_partial::Partial;

/// How many lines are settled, missing and disputed.
#[derive(Clone, Copy)]
pub(crate) struct Counts {
    pub settled: u32,
    pub missing: u32,
    pub disputed: u32,
}

const NONE: Counts = Counts {
    settled: 0,
    missing: 0,
    disputed: 0,
};

/// The numbers of one component.
#[tactic(auto, using(crate::proofs::OneMore::count_by_more))]
fn count_component(partial: &Partial, component: u8) -> Counts
    requires { component < length partial.now.shape.ids }
    ensures settled { result.settled ≡ count_by (is_settled_line partial.now component) (lines partial.now.shape) }
    ensures missing { result.missing ≡ count_by (is_missing partial.now component) (lines partial.now.shape) }
    ensures disputed { result.disputed ≡ count_by (is_disputed partial.now component) (lines partial.now.shape) }
    ensures settled_within { result.settled ≤ partial.now.shape.height }
    ensures missing_within { result.missing ≤ partial.now.shape.height }
    ensures disputed_within { result.disputed ≤ partial.now.shape.height }
{
    let mut counts = NONE;
    for line in 0..partial.shape().height() {
        match partial.count(component, line) {
            0 => counts.missing += 1,
            1 => counts.settled += 1,
            _ => counts.disputed += 1,
        }
    }
    counts
}

/// The numbers over all components.
#[tactic(auto, using(crate::proofs::OneMore::sum_by_more))]
pub(crate) fn count_lines(partial: &Partial) -> Counts
    ensures settled { result.settled ≡ line_count partial.now.shape (is_settled_line partial.now) }
    ensures missing { result.missing ≡ line_count partial.now.shape (is_missing partial.now) }
    ensures disputed { result.disputed ≡ line_count partial.now.shape (is_disputed partial.now) }
{
    let mut counts = NONE;
    for component in 0..partial.shape().ids().len() as u8 {
        let more = count_component(partial, component);
        counts.settled += more.settled;
        counts.missing += more.missing;
        counts.disputed += more.disputed;
    }
    counts
}
