//! Chains: lines of one copy in the code of another, which confirms them as far as it has the same bytes.

use crate::claims::{CopyState, Speaker, bytes_of};
use crate::coded::{Coded, Runs};
use crate::codes::{Codes, PieceIndex};
use crate::line_ends::LineEnds;
use crate::picture::Picture;
use crate::pieces::Piece;
use crate::runs::Run;
use std::alloc::{AllocError, Global};

/// First lines of an interval of one copy, as another copy says them, and what confirms them.
#[derive(Drop)]
pub(crate) struct Chain {
    /// The copy that says the lines.
    pub(crate) giver: usize,
    /// The copy in whose code they are.
    pub(crate) taker: usize,
    /// The piece of that copy.
    pub(crate) piece: Piece,
    /// The readings of the lines.
    pub(crate) readings: Vec<usize>,
    ends: LineEnds,
    /// The runs that count, in order.
    runs: Vec<Run>,
    /// How many lines are confirmed.
    pub(crate) confirmed: usize,
    /// How many are if hints count as runs do.
    pub(crate) hinted: usize,
    /// And if shorter hints do too.
    pub(crate) hinted_by_short: usize,
    /// The first line that nothing is decided of.
    pub(crate) fresh: usize,
    /// Whether both copies have the same code here. Then the same bytes say nothing, except without a gap.
    pub(crate) is_twin: bool,
    /// Whether it stands behind a dispute.
    pub(crate) is_forked: bool,
    /// Whether each of its lines so far was settled as it says.
    pub(crate) is_alive: bool,
}

impl Chain {
    /// Whether all bytes of a line stand in one run.
    pub(crate) fn is_unbroken(&self, line: usize) -> bool {
        let begin = self.ends.begin_of(line);
        let end = self
            .ends
            .end_of(line)
            .saturating_add(1)
            .min(self.ends.length());
        self.runs
            .iter()
            .any(|run| run.begin <= begin && end <= run.end)
    }

    /// How many bytes of the lines from one to another don't stand in runs. Those count too that the copy has between two runs and the code
    /// has not.
    pub(crate) fn unmatched(&self, first: usize, last: usize) -> usize {
        let end = self.ends.end_of(last);
        let mut at = self.ends.begin_of(first);
        let mut shift = None;
        let mut count = 0usize;
        for run in self.runs.iter() {
            let from = run.begin.max(at);
            let to = run.end.min(end);
            if to > from {
                let surplus = match shift {
                    None => 0,
                    Some(before) => run.shift.beyond(before),
                };
                count = count
                    .saturating_add(from.saturating_sub(at))
                    .saturating_add(surplus);
                at = to;
                shift = Some(run.shift);
            }
        }
        count.saturating_add(end.saturating_sub(at))
    }
}

/// Lines that a copy says, before they are compared.
#[derive(Drop)]
struct Said {
    readings: Vec<usize>,
    /// The first line that nothing is decided of.
    fresh: Option<usize>,
    is_twin: bool,
    is_forked: bool,
    /// Whether the next line can't be coded by the taker.
    is_refuted: bool,
}

/// The one reading of a line in pieces of other copies that close. Copies that share bytes with the taker don't count.
fn only_closed(copies: &[CopyState<'_>], place: usize, taker: Speaker) -> Option<usize> {
    let mut only = None;
    for copy in copies {
        if copy.number == taker.number || copy.speaker.is_related(taker) {
            continue;
        }
        if let Some(claim) = copy.claim(place) {
            if claim.closes {
                if only.is_some_and(|reading| reading != claim.reading) {
                    return None;
                }
                only = Some(claim.reading);
            }
        }
    }
    only
}

/// Whether a copy has a claim on this line from a piece that is coded as this one.
fn is_coded_alike(giver: &CopyState<'_>, place: usize, piece: &Piece) -> bool {
    let Some(claim) = giver.claim(place) else {
        return false;
    };
    match giver.pieces.get(claim.piece) {
        None => false,
        Some(other) => other.interval.is_coded_as(&piece.interval),
    }
}

/// The first lines of a piece, as a copy says them: what is settled, and else what it claims.
fn said_by(
    alloc: Global,
    picture: &Picture,
    copies: &[CopyState<'_>],
    giver: &CopyState<'_>,
    taker: Speaker,
    piece: &Piece,
) -> Result<Said, AllocError> {
    let mut said = Said {
        readings: Vec::new(alloc),
        fresh: None,
        is_twin: false,
        is_forked: false,
        is_refuted: false,
    };
    let mut behind_dispute = false;
    for line in 0..piece.interval.line_count() {
        let place = piece.interval.place(line);
        let settled = picture.settled(place);
        let claimed = giver.claim(place).map(|claim| claim.reading);
        let Some(reading) = settled.or(claimed).or(only_closed(copies, place, taker)) else {
            break;
        };
        if picture.is_disputed(place) {
            behind_dispute = true;
        }
        if picture.is_open(place) && said.fresh.is_none() {
            said.fresh = Some(line);
            said.is_forked = behind_dispute;
        }
        if !picture.is_at_most(place, reading, piece.interval.params.maxval()) {
            said.is_refuted = true;
            break;
        }
        if settled.is_none() && is_coded_alike(giver, place, piece) {
            said.is_twin = true;
        }
        said.readings.push(reading)?;
    }
    Ok(said)
}

/// How many lines are confirmed, if so many are by runs, and so many by the first hint or run. A hint ends a gap, if a line ends there of
/// which nothing is decided: what the copy gives behind it is to be heard first.
fn up_to_hint(confirmed: usize, hinted: usize, fresh: usize) -> usize {
    if hinted > fresh {
        confirmed.min(hinted)
    } else {
        confirmed
    }
}

/// What came of lines that a copy says in the code of another.
#[derive(Drop)]
pub(crate) struct Compared {
    /// How many lines of the piece were compared with the bytes of the taker.
    pub(crate) tested: usize,
    /// How many of them are decided, or confirmed.
    pub(crate) passed: usize,
    /// The first line that the taker denies.
    pub(crate) failing: usize,
    /// The chain, unless all is decided already.
    pub(crate) chain: Option<Chain>,
}

/// Compares the lines that one copy says with a piece of another copy, of this index.
pub(crate) fn compare(
    alloc: Global,
    picture: &Picture,
    codes: &mut Codes,
    copies: &[CopyState<'_>],
    giver: &CopyState<'_>,
    taker: &CopyState<'_>,
    index: usize,
    piece: &Piece,
) -> Result<Compared, AllocError> {
    let said = said_by(alloc, picture, copies, giver, taker.speaker, piece)?;
    let refuted = if said.is_refuted {
        piece.interval.line_count()
    } else {
        0
    };
    let without_chain = Compared {
        tested: refuted,
        passed: said.readings.len(),
        failing: said.readings.len(),
        chain: None,
    };
    let Some(fresh) = said.fresh else {
        return Ok(without_chain);
    };
    let index = PieceIndex {
        copy: taker.number,
        piece: index,
    };
    let Some(code) = codes.code_of(picture, index, &piece.interval, &said.readings)? else {
        return Ok(without_chain);
    };
    let components = usize::from(piece.interval.components);
    let bytes = bytes_of(taker.bytes, piece);
    let begin = code.ends.begin_of(fresh);
    let is_whole = said.readings.len() == piece.interval.line_count();
    let code = Coded::of(code, is_whole, bytes)?;
    let Runs {
        runs,
        with_hints,
        with_short_hints,
        all,
    } = code.runs(alloc, bytes, components, begin, said.is_twin)?;
    let hinted = code.count_confirmed(&with_hints, bytes, begin);
    let confirmed = up_to_hint(code.count_confirmed(&runs, bytes, begin), hinted, fresh);
    let hinted_by_short = code.count_confirmed(&with_short_hints, bytes, begin);
    let tested = refuted.max(said.readings.len());
    let passed = confirmed.max(fresh);
    let closes = giver
        .claim(piece.interval.place(passed))
        .is_some_and(|claim| claim.closes);
    let failing = if closes {
        code.first_denied(&all, passed, components)
    } else {
        passed
    };
    let chain = Chain {
        giver: giver.number,
        taker: taker.number,
        piece: *piece,
        readings: said.readings,
        ends: code.ends,
        runs,
        confirmed,
        hinted,
        hinted_by_short,
        fresh,
        is_twin: said.is_twin,
        is_forked: said.is_forked,
        is_alive: true,
    };
    Ok(Compared {
        tested,
        passed,
        failing,
        chain: Some(chain),
    })
}
