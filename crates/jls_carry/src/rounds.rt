//! The rule of carry: rounds, in each of which copies are read on, and confirm each other's lines.

use crate::between::settle_between;
use crate::chains::{Chain, compare};
use crate::claims::CopyState;
use crate::closing::settle_closed;
use crate::codes::Codes;
use crate::picture::Picture;
use crate::settling::{Hints, Links, Settling};
use crate::tested::Tested;
use crate::trials::settle_tried;
use crate::weighing::settle_weighed;
use std::alloc::{AllocError, Global};

/// How many rounds there are at most.
const MOST_ROUNDS: usize = 60;

/// What came of the comparisons of a round.
#[derive(Drop)]
struct Comparisons {
    chains: Vec<Chain>,
    tested: Tested,
}

/// Compares what each copy says with the bytes of each other.
fn compare_all(
    alloc: Global,
    picture: &Picture,
    codes: &mut Codes,
    copies: &[CopyState<'_>],
) -> Result<Comparisons, AllocError> {
    let mut chains = Vec::new(alloc);
    let mut tested = Tested::new(alloc, copies.len(), picture.len())?;
    for giver in copies {
        for taker in copies {
            if giver.number == taker.number || giver.speaker.is_related(taker.speaker) {
                continue;
            }
            for (index, piece) in taker.pieces.iter().enumerate() {
                let compared = compare(alloc, picture, codes, copies, giver, taker, index, piece)?;
                let failing = piece.interval.place(compared.failing);
                for line in 0..compared.tested {
                    let place = piece.interval.place(line);
                    let is_denied = line >= compared.failing
                        && giver.has_in_one_piece(failing, place);
                    if line < compared.passed || is_denied {
                        tested.add(giver.number, place);
                    }
                }
                if let Some(chain) = compared.chain {
                    chains.push(chain)?;
                }
            }
        }
    }
    Ok(Comparisons { chains, tested })
}

/// A round. Answers whether it decided something.
fn go_on(
    alloc: Global,
    picture: &mut Picture,
    codes: &mut Codes,
    copies: &mut [CopyState<'_>],
    links: &mut Vec<Links>,
) -> Result<bool, AllocError> {
    for copy in copies.iter_mut() {
        copy.read_on(alloc, picture, codes)?;
    }
    let Comparisons { chains, tested } = compare_all(alloc, picture, codes, copies)?;
    let mut settling = Settling {
        alloc,
        copies,
        tested: &tested,
        chains,
        links: Vec::from_slice(alloc, links)?,
        opposed: Vec::new(alloc),
    };
    let is_any = settling.settle(picture)?
        || settle_between(alloc, picture, copies, &tested)?
        || settling.settle_hinted(picture, Hints::Long)?
        || settle_closed(alloc, picture, copies, &settling.chains, &settling.links)?
        || settling.settle_hinted(picture, Hints::Short)?
        || settle_tried(alloc, picture, copies, &tested, &settling.chains)?
        || settle_weighed(alloc, picture, copies)?;
    let Settling { links: now, .. } = settling;
    *links = now;
    Ok(is_any)
}

/// Lets copies carry each other, until nothing more is decided.
pub(crate) fn carry_on(
    alloc: Global,
    picture: &mut Picture,
    codes: &mut Codes,
    copies: &mut [CopyState<'_>],
) -> Result<(), AllocError> {
    let none = Links {
        with_any: false,
        across_codings: false,
    };
    let mut links = vec![in alloc; none; copies.len()]?;
    for _ in 0..MOST_ROUNDS {
        if !go_on(alloc, picture, codes, copies, &mut links)? {
            break;
        }
    }
    Ok(())
}
