//! Which lines are settled: in the order of the picture, each by what the chains say of it.

use crate::between::{is_held_back, is_refuted};
use crate::chains::Chain;
use crate::choosing::{Confirmed, Reaching};
use crate::claims::CopyState;
use crate::picture::{OwnReading, Picture};
use crate::tested::Tested;
use std::alloc::{AllocError, Global};

/// How many rows behind those that are known hints can confirm.
const ROWS_HINTED: usize = 4;

/// And how many if shorter hints count too.
const ROWS_HINTED_BY_SHORT: usize = 1;

/// Which hints count.
#[derive(Clone, Copy)]
pub(crate) enum Hints {
    Long,
    /// Shorter ones too.
    Short,
}

/// With whom a copy agrees somewhere.
#[derive(Clone, Copy)]
pub(crate) struct Links {
    /// Whether it agrees with another copy.
    pub(crate) with_any: bool,
    /// Whether it agrees with a copy of another coding.
    pub(crate) across_codings: bool,
}

/// What came of a line.
#[derive(Drop)]
enum Verdict {
    Settled(usize),
    /// What each copy goes on with.
    Disputed(Vec<OwnReading>),
    Open,
}

/// The lines that are settled in a round, and what they rest on.
#[derive(Drop)]
pub(crate) struct Settling<'r, 'c> {
    pub(crate) alloc: Global,
    pub(crate) copies: &'r [CopyState<'c>],
    pub(crate) tested: &'r Tested,
    pub(crate) chains: Vec<Chain>,
    /// For each copy, with whom it agrees.
    pub(crate) links: Vec<Links>,
    /// For each copy, whether it agrees with no other coding, and one says otherwise.
    pub(crate) opposed: Vec<bool>,
}

/// Whether a copy says otherwise of a line than another, and codes it otherwise.
fn contradicts(copy: &CopyState<'_>, other: &CopyState<'_>) -> bool {
    for (claim, others) in copy.claims.iter().zip(other.claims.iter()) {
        let (Some(claim), Some(others)) = (claim, others) else {
            continue;
        };
        if claim.reading == others.reading {
            continue;
        }
        if let (Some(piece), Some(other)) = (
            copy.pieces.get(claim.piece),
            other.pieces.get(others.piece),
        ) {
            if !piece.interval.is_coded_as(&other.interval) {
                return true;
            }
        }
    }
    false
}

impl Settling<'_, '_> {
    /// The chains that reach each place, with the lines that they confirm.
    fn reaching(&self, count: usize) -> Result<Vec<Vec<Reaching>>, AllocError> {
        let mut all: Vec<Vec<Reaching>> = Vec::new(self.alloc);
        for _ in 0..count {
            all.push(Vec::new(self.alloc))?;
        }
        for (number, chain) in self.chains.iter().enumerate() {
            for line in 0..chain.confirmed.min(chain.readings.len()) {
                if let Some(list) = all.get_mut(chain.piece.interval.place(line)) {
                    list.push(Reaching {
                        chain: number,
                        line,
                    })?;
                }
            }
        }
        Ok(all)
    }

    /// The readings that living chains say, each with its chains.
    fn readings(&self, reaching: &[Reaching]) -> Result<Vec<Confirmed>, AllocError> {
        let mut all: Vec<Confirmed> = Vec::new(self.alloc);
        for reached in reaching {
            let Some(chain) = self.chains.get(reached.chain) else {
                continue;
            };
            let Some(reading) = chain.readings.get(reached.line).copied() else {
                continue;
            };
            if !chain.is_alive {
                continue;
            }
            let mut is_new = true;
            for confirmed in all.iter_mut() {
                if confirmed.reading == reading {
                    confirmed.chains.push(*reached)?;
                    is_new = false;
                }
            }
            if is_new {
                all.push(Confirmed {
                    reading,
                    chains: vec![in self.alloc; *reached]?,
                })?;
            }
        }
        Ok(all)
    }

    /// The readings that are heard. Those that copies of one coding alone have aren't, where copies of several have another.
    fn heard<'x>(&self, readings: &'x [Confirmed]) -> Result<Vec<&'x Confirmed>, AllocError> {
        let is_any_across = readings
            .iter()
            .any(|confirmed| !self.is_of_one_coding(confirmed));
        let mut heard = Vec::new(self.alloc);
        for confirmed in readings {
            if !is_any_across || !self.is_of_one_coding(confirmed) {
                heard.push(confirmed)?;
            }
        }
        Ok(heard)
    }

    /// Whether copies of one coding alone have a reading of this line, and a copy of another says otherwise.
    fn is_denied(&self, confirmed: &Confirmed, place: usize) -> bool {
        if !self.is_of_one_coding(confirmed) {
            return false;
        }
        let Some(giver) = confirmed
            .chains
            .first()
            .and_then(|reached| self.chains.get(reached.chain))
            .and_then(|chain| self.copies.get(chain.giver))
        else {
            return false;
        };
        self.copies.iter().any(|copy| {
            copy.speaker.coding != giver.speaker.coding
                && copy
                    .claim(place)
                    .is_some_and(|claim| claim.reading != confirmed.reading)
        })
    }

    /// Whether only copies of one coding have a reading, and each of them is opposed. They can be copies of one damaged file, or of another
    /// picture.
    fn is_opposed(&self, confirmed: &Confirmed) -> bool {
        for reached in confirmed.chains.iter() {
            if let Some(chain) = self.chains.get(reached.chain) {
                let are_opposed = [chain.giver, chain.taker]
                    .iter()
                    .all(|copy| self.opposed.get(*copy).copied().unwrap_or(false));
                if !chain.is_twin || !are_opposed {
                    return false;
                }
            }
        }
        true
    }

    /// The reading that is taken of those that are confirmed.
    fn reading_to_settle(
        &self,
        picture: &Picture,
        place: usize,
        readings: &[Confirmed],
    ) -> Result<Option<usize>, AllocError> {
        let heard = self.heard(readings)?;
        let [only] = heard.as_slice() else {
            return self.choose_reading(&heard);
        };
        let reading = only.reading;
        if self.is_opposed(only) || self.is_denied(only, place) {
            return Ok(None);
        }
        if self.count_voices(&self.holders(only)?) < 2
            && (is_held_back(self.copies, self.tested, place, reading)
                || is_refuted(picture, self.copies, place, reading))
        {
            return Ok(None);
        }
        Ok(Some(reading))
    }

    /// Whether a chain that reaches the line stands behind a dispute.
    fn is_forked(&self, readings: &[Confirmed]) -> bool {
        for confirmed in readings {
            for reached in confirmed.chains.iter() {
                if let Some(chain) = self.chains.get(reached.chain) {
                    if chain.is_forked {
                        return true;
                    }
                }
            }
        }
        false
    }

    /// What each copy goes on with in a dispute.
    fn own_readings(&self, readings: &[Confirmed]) -> Result<Vec<OwnReading>, AllocError> {
        let mut own: Vec<OwnReading> = Vec::new(self.alloc);
        for confirmed in readings {
            for reached in confirmed.chains.iter() {
                if let Some(chain) = self.chains.get(reached.chain) {
                    let is_new = own.iter().all(|other| other.copy != chain.giver);
                    if is_new {
                        own.push(OwnReading {
                            copy: chain.giver,
                            reading: confirmed.reading,
                        })?;
                    }
                }
            }
        }
        Ok(own)
    }

    /// What comes of a line. Behind a dispute two copies have to say it. What copies of one coding alone have can wait.
    fn judge(
        &self,
        picture: &Picture,
        place: usize,
        readings: &[Confirmed],
        waits: bool,
    ) -> Result<Verdict, AllocError> {
        if waits
            && readings
                .iter()
                .all(|confirmed| self.is_of_one_coding(confirmed))
        {
            return Ok(Verdict::Open);
        }
        match self.reading_to_settle(picture, place, readings)? {
            None => {
                if readings.len() > 1 {
                    return Ok(Verdict::Disputed(self.own_readings(readings)?));
                }
                Ok(Verdict::Open)
            }
            Some(reading) => {
                if self.is_forked(readings) {
                    for confirmed in readings {
                        if confirmed.reading == reading && self.givers(confirmed)? < 2 {
                            return Ok(Verdict::Open);
                        }
                    }
                }
                Ok(Verdict::Settled(reading))
            }
        }
    }

    /// Links two copies.
    fn link(&mut self, giver: usize, taker: usize) {
        for copy in [giver, taker] {
            if let Some(links) = self.links.get_mut(copy) {
                links.with_any = true;
            }
        }
    }

    /// Links the copies of different codings, of which one confirms what the other says.
    fn link_across(&mut self) {
        for chain in self.chains.iter() {
            if chain.is_twin || chain.confirmed <= chain.fresh {
                continue;
            }
            for copy in [chain.giver, chain.taker] {
                if let Some(links) = self.links.get_mut(copy) {
                    links.across_codings = true;
                }
            }
        }
    }

    /// Finds the copies that agree with no other coding, while one says otherwise.
    fn oppose(&mut self) -> Result<(), AllocError> {
        let mut opposed = Vec::new(self.alloc);
        for (copy, links) in self.copies.iter().zip(self.links.iter()) {
            let is_contradicted = self.copies.iter().any(|other| contradicts(other, copy));
            opposed.push(!links.across_codings && is_contradicted)?;
        }
        self.opposed = opposed;
        Ok(())
    }

    /// Ends the chains that say otherwise, and links the copies of the others.
    fn follow(&mut self, readings: &[Confirmed], settled: Option<usize>) {
        for confirmed in readings {
            for reached in confirmed.chains.iter() {
                let Some(chain) = self.chains.get_mut(reached.chain) else {
                    continue;
                };
                if settled != Some(confirmed.reading) {
                    chain.is_alive = false;
                    continue;
                }
                let is_inside = reached.line.saturating_add(1) < chain.confirmed;
                if is_inside || chain.is_unbroken(reached.line) {
                    let (giver, taker) = (chain.giver, chain.taker);
                    self.link(giver, taker);
                }
            }
        }
    }

    /// Marks the chains that reach a disputed line.
    fn fork(&mut self, readings: &[Confirmed]) {
        for confirmed in readings {
            for reached in confirmed.chains.iter() {
                if let Some(chain) = self.chains.get_mut(reached.chain) {
                    chain.is_forked = true;
                }
            }
        }
    }

    /// Settles the lines of the picture that chains confirm. Answers whether one was settled or disputed. What copies of one coding alone
    /// have counts where nothing else goes on. A copy of another coding can say otherwise once it is mended before that.
    pub(crate) fn settle(&mut self, picture: &mut Picture) -> Result<bool, AllocError> {
        self.link_across();
        self.oppose()?;
        if self.settle_lines(picture, true)? {
            return Ok(true);
        }
        for chain in self.chains.iter_mut() {
            chain.is_alive = true;
        }
        self.settle_lines(picture, false)
    }

    /// Settles lines up to the first hints behind what is known, if these are near. Answers whether one was settled or disputed.
    pub(crate) fn settle_hinted(
        &mut self,
        picture: &mut Picture,
        hints: Hints,
    ) -> Result<bool, AllocError> {
        for chain in self.chains.iter_mut() {
            let (hinted, rows) = match hints {
                Hints::Long => (chain.hinted, ROWS_HINTED),
                Hints::Short => (chain.hinted_by_short, ROWS_HINTED_BY_SHORT),
            };
            let near = usize::from(chain.piece.interval.components).saturating_mul(rows);
            if hinted <= chain.fresh.saturating_add(near) {
                chain.confirmed = chain.confirmed.max(hinted);
            }
            chain.is_alive = true;
        }
        self.settle_lines(picture, false)
    }

    /// Settles lines, without what copies of one coding alone have if that waits. Answers whether one was settled or disputed.
    fn settle_lines(&mut self, picture: &mut Picture, waits: bool) -> Result<bool, AllocError> {
        let mut is_any = false;
        let reaching = self.reaching(picture.len())?;
        for (place, reached) in reaching.iter().enumerate() {
            if !picture.is_open(place) || reached.is_empty() {
                continue;
            }
            let readings = self.readings(reached)?;
            if readings.is_empty() {
                continue;
            }
            match self.judge(picture, place, &readings, waits)? {
                Verdict::Settled(reading) => {
                    picture.settle(place, reading);
                    self.follow(&readings, Some(reading));
                    is_any = true;
                }
                Verdict::Disputed(own) => {
                    picture.dispute(place, own);
                    self.fork(&readings);
                    is_any = true;
                }
                Verdict::Open => self.follow(&readings, None),
            }
        }
        Ok(is_any)
    }
}
