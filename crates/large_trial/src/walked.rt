//! The walk through the first optimum pairings of a settled sheet, each of which is checked.

use crate::amount::Amount;
use crate::kinds::Summed;
use crate::settled::{PAIRS, Shaped};
use crate::shape::BLOCKS;
use anyhow::ensure;
use sheet::{SettledSheet, Step, Walk};
use std::alloc::Global;
use std::fmt;

/// How many pairings of a sheet are looked at.
const PAIRINGS: usize = 1_000;

/// What was seen of a sheet.
#[derive(Clone, Copy)]
pub struct Seen {
    pub total: Amount,
    /// How many pairs occur in some optimum pairing, by the marks.
    pub marked: usize,
    pub pairings: usize,
    /// Whether the walk came to its end.
    pub ended: bool,
}

impl fmt::Display for Seen {
    fn fmt<W: fmt::Write>(&self, f: &mut fmt::Formatter<W>) -> fmt::Result {
        let (total, marked, pairings) = (self.total, self.marked, self.pairings);
        let rest = if self.ended { "all" } else { "and more" };
        write!(
            f,
            "total {total}, marked {marked}, pairings {pairings} {rest}"
        )
    }
}

/// Marks and walks a settled sheet.
pub fn walk_through<K: Summed>(
    heap: Global,
    settled: SettledSheet,
    shaped: &Shaped<K>,
) -> anyhow::Result<Seen> {
    let (total, lent) = (shaped.check_certificate()?, &shaped.lent);
    let mut marks = vec![in heap; 7u8; PAIRS]?;
    settled.marks(
        &lent.costs,
        &lent.standing,
        &lent.partners,
        &lent.left,
        &lent.right,
        &mut marks,
    )?;
    let mut list = vec![in heap; 0u16; usize::from(BLOCKS)]?;
    let walk = settled.start(
        &lent.costs,
        &lent.standing,
        &lent.partners,
        &lent.left,
        &lent.right,
        &mut list,
    )?;
    ensure!(
        list == lent.partners,
        "the first pairing is not the partners"
    );
    let pairings = walk_on(&walk, shaped, &mut list, total, &marks)?;
    Ok(Seen {
        total,
        marked: marks.iter().filter(|mark| **mark == 1).count(),
        pairings: pairings.min(PAIRINGS),
        ended: pairings <= PAIRINGS,
    })
}

/// Goes on to the end of a walk, or until the pairings suffice, and counts them; one more where the
/// walk has not ended.
fn walk_on<K: Summed>(
    walk: &Walk,
    shaped: &Shaped<K>,
    list: &mut Vec<u16>,
    total: Amount,
    marks: &[u8],
) -> anyhow::Result<usize> {
    let lent = &shaped.lent;
    for pairings in 1..PAIRINGS + 1 {
        ensure!(shaped.total(list)? == total, "a pairing of another total");
        ensure!(are_marked(list, marks), "a pair of a pairing is not marked");
        let before = list.clone()?;
        let step = walk.next(
            &lent.costs,
            &lent.standing,
            &lent.partners,
            &lent.left,
            &lent.right,
            list,
        )?;
        if let Step::End = step {
            ensure!(*list == before, "the list was written at the end");
            return Ok(pairings);
        }
        ensure!(*list > before, "a pairing that is not later");
    }
    Ok(PAIRINGS + 1)
}

/// Whether each pair of a pairing is marked.
fn are_marked(list: &[u16], marks: &[u8]) -> bool {
    for (left, right) in (0..BLOCKS).zip(list) {
        let place = usize::from(left) * usize::from(BLOCKS) + usize::from(*right);
        if marks.get(place) != Some(&1) {
            return false;
        }
    }
    true
}
