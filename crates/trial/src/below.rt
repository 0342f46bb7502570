//! The calls of `assign` and `walk` themselves, on which those of a sheet are built: over tables
//! that nothing settled yet, and over settled ones. What is refused must leave every table as it
//! was.

use crate::bench::Bench;
use crate::draw::Costs;
use crate::kinds::Trial;
use crate::lent_tables::Lent;
use crate::plain_sheet::Sheet;
use crate::solution::{Optimum, Solution, solve};
use anyhow::ensure;
use assign::{Outcome, settle};
use matching::Step;
use sheet::Shortfall;
use std::alloc::AllocError;
use walk::{Apart, marks, next, start};

impl<K: Trial> Lent<K> {
    fn settle(&mut self) -> Option<Outcome> {
        settle(
            self.n,
            &self.costs,
            &self.standing,
            &mut self.partners,
            &mut self.left,
            &mut self.right,
        )
        .ok()
    }

    /// Starts a walk in the list.
    pub fn start(&mut self) -> Result<(), Apart> {
        start(
            self.n,
            &self.costs,
            &self.standing,
            &self.partners,
            &self.left,
            &self.right,
            &mut self.list,
        )
    }

    /// Goes on from the pairing in the list.
    pub fn next(&mut self) -> Result<Step, Apart> {
        next(
            self.n,
            &self.costs,
            &self.standing,
            &self.partners,
            &self.left,
            &self.right,
            &mut self.list,
        )
    }

    /// Marks the pairs that occur.
    pub fn mark(&mut self) -> Result<(), Apart> {
        marks(
            self.n,
            &self.costs,
            &self.standing,
            &self.partners,
            &self.left,
            &self.right,
            &mut self.marks,
        )
    }
}

/// Tries the calls on a sheet.
pub fn try_below<K: Trial>(bench: &mut Bench<'_>, sheet: &Sheet<K>) -> anyhow::Result<()> {
    let mut lent = unsettled(bench, sheet)?;
    try_unsettled(&lent)?;
    match solve(bench.heap, sheet, bench.orders.of(sheet.n))? {
        Solution::Unmatched(shortfall) => try_unmatched(&mut lent, shortfall)?,
        Solution::Optimal(optimum) => {
            try_optimum_listed(&lent, &optimum)?;
            try_settle(&mut lent, &optimum)?;
            bench.tally.count_walked(try_walk(&mut lent, &optimum)?);
        }
    }
    bench.tally.count_below();
    Ok(())
}

/// The tables of a sheet, with partners that are no pairing and any prices. What is drawn here is
/// drawn once more later.
fn unsettled<K: Trial>(bench: &Bench<'_>, sheet: &Sheet<K>) -> Result<Lent<K>, AllocError> {
    let mut lent = Lent::new(bench.heap, sheet.n)?;
    let mut draw = bench.draw;
    lent.show(sheet);
    for price in lent.left.iter_mut().chain(lent.right.iter_mut()) {
        *price = K::made(draw.columns(Costs::Wide));
    }
    Ok(lent)
}

fn try_unsettled<K: Trial>(lent: &Lent<K>) -> anyhow::Result<()> {
    let mut tried = lent.clone()?;
    ensure!(tried.start().is_err(), "a walk over unsettled tables");
    ensure!(tried.next().is_err(), "a step over unsettled tables");
    ensure!(tried.mark().is_err(), "marks of unsettled tables");
    ensure!(tried == *lent, "a call that was refused wrote");
    Ok(())
}

/// Asks for the step behind the first optimum pairing, which only the tables can refuse.
fn try_optimum_listed<K: Trial>(lent: &Lent<K>, optimum: &Optimum<K>) -> anyhow::Result<()> {
    let mut listed = lent.clone()?;
    if let Some(first) = optimum.pairings.first() {
        listed.list = first.clone()?;
    }
    let mut tried = listed.clone()?;
    ensure!(
        tried.next().is_ok() == listed.hold_together(),
        "a step from an optimum pairing over unsettled tables"
    );
    ensure!(
        tried == listed || listed.hold_together(),
        "a step that was refused wrote"
    );
    Ok(())
}

fn try_unmatched<K: Trial>(lent: &mut Lent<K>, shortfall: Shortfall) -> anyhow::Result<()> {
    let before = lent.clone()?;
    ensure!(
        lent.settle() == Some(Outcome::Unmatched(shortfall)),
        "no perfect pairing, but not for this crowd set"
    );
    ensure!(*lent == before, "settling wrote without a pairing");
    try_unsettled(lent)
}

fn try_settle<K: Trial>(lent: &mut Lent<K>, optimum: &Optimum<K>) -> anyhow::Result<()> {
    ensure!(lent.settle() == Some(Outcome::Optimal), "not settled");
    ensure!(optimum.settles(lent), "settled otherwise");
    ensure!(lent.mark().is_ok(), "no marks of settled tables");
    ensure!(lent.marks == optimum.marks, "other marks");
    Ok(())
}

/// Walks to the end and once more, and counts the pairings.
fn try_walk<K: Trial>(lent: &mut Lent<K>, optimum: &Optimum<K>) -> anyhow::Result<u64> {
    let count = optimum.pairings.len();
    ensure!(lent.start().is_ok(), "no walk over settled tables");
    for (k, pairing) in optimum.pairings.iter().enumerate() {
        ensure!(lent.list == *pairing, "another pairing");
        let due = if k + 1 == count {
            Step::End
        } else {
            Step::Next
        };
        ensure!(lent.next() == Ok(due), "a walk of another length");
    }
    ensure!(lent.next() == Ok(Step::End), "a walk goes on past its end");
    ensure!(optimum.pairings.last() == Some(&lent.list), "the end wrote");
    Ok(count as u64)
}
