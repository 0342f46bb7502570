//! The calls on a settled sheet over tables that were disturbed. Tables may hold together even so:
//! other partners may be optimum too, and prices may stay valid. Each call is told by definition
//! whether it is refused, and by which number; refused, it leaves every table as it was. The calls
//! of `walk` itself are made over the same tables.

use crate::bench::Bench;
use crate::book::fault;
use crate::disturbance::{DISTURBANCES, Disturbance};
use crate::kinds::Trial;
use crate::lent_tables::Lent;
use crate::plain_sheet::Sheet;
use crate::solution::{Optimum, Solution, solve};
use crate::tally::Tally;
use anyhow::{anyhow, ensure};
use sheet::{Cause, Fault, Refusal, SettledSheet, Step, Walk, open};

/// Disturbs the tables of a sheet that has a perfect pairing, in each way.
pub fn try_disturbed<K: Trial>(
    rt: &impl Print,
    bench: &mut Bench<'_>,
    sheet: &Sheet<K>,
) -> anyhow::Result<()> {
    let orders = bench.orders.of(sheet.n);
    let Solution::Optimal(optimum) = solve(bench.heap, sheet, orders)? else {
        return Ok(());
    };
    for disturbance in DISTURBANCES {
        let mut lent = Lent::new(bench.heap, sheet.n)?;
        let walk = walking(sheet, &mut lent)?;
        disturbance.apply(&mut lent, &mut bench.draw)?;
        bench.tally.count_disturbed();
        let case = Case {
            lent: &lent,
            optimum: &optimum,
            hold_together: lent.hold_together(),
        };
        let tried = case.try_calls(walk, bench);
        if tried.is_err() {
            println!(rt; "{disturbance:?} of {sheet:?} made {lent:?}")?;
            return tried;
        }
    }
    Ok(())
}

/// Settles a sheet and starts a walk.
fn walking<K: Trial>(sheet: &Sheet<K>, lent: &mut Lent<K>) -> anyhow::Result<Walk> {
    let opened = open(sheet.n, &mut lent.costs, &mut lent.standing)?;
    lent.show(sheet);
    let settled = opened.settle(
        &lent.costs,
        &lent.standing,
        &mut lent.partners,
        &mut lent.left,
        &mut lent.right,
    )?;
    Ok(settled.start(
        &lent.costs,
        &lent.standing,
        &lent.partners,
        &lent.left,
        &lent.right,
        &mut lent.list,
    )?)
}

/// Disturbed tables, and what they come to by definition.
#[derive(Drop)]
struct Case<'a, K: Trial> {
    lent: &'a Lent<K>,
    optimum: &'a Optimum<K>,
    hold_together: bool,
}

impl<K: Trial> Case<'_, K> {
    /// Makes each call over the tables.
    fn try_calls(&self, walk: Walk, bench: &mut Bench<'_>) -> anyhow::Result<()> {
        self.try_walk()?;
        self.try_next(&walk, &mut bench.tally)?;
        let settled = walk.close();
        let blocks = self.lent.n.saturating_add(1);
        let (left, right) = (bench.draw.block(blocks), bench.draw.block(blocks));
        self.try_quote(&settled, left, right, &mut bench.tally)?;
        self.try_total(&settled, &mut bench.tally)?;
        self.try_marks(&settled, &mut bench.tally)?;
        let settled = self.try_start(settled, &mut bench.tally)?;
        self.try_settle(settled, &mut bench.tally)
    }

    /// Why a call is refused that a last table fits, or does not.
    fn refusal(&self, fits: bool) -> Option<Cause> {
        if !fits || !self.lent.fit() {
            Some(Cause::TableLength)
        } else if !self.hold_together {
            Some(Cause::Inconsistent)
        } else {
            None
        }
    }

    /// Why a step is refused from the list.
    fn step_refusal(&self) -> Option<Cause> {
        let unlisted = !self.optimum.pairings.contains(&self.lent.list);
        let refusal = self.refusal(self.lent.list_fits());
        refusal.or(unlisted.then_some(Cause::Inconsistent))
    }

    /// Makes each call of `walk` itself, whose refusals have no cause.
    fn try_walk(&self) -> anyhow::Result<()> {
        let mut lent = self.lent.clone()?;
        let started = lent.start().ok();
        let refused = self.refusal(lent.list_fits()).is_some();
        ensure!(started.is_none() == refused, "{started:?} of a walk");
        self.check_start(&lent, started)?;
        let mut lent = self.lent.clone()?;
        let step = lent.next().ok();
        let refused = self.step_refusal().is_some();
        ensure!(step.is_none() == refused, "{step:?} from the list");
        self.check_next(&lent, step)?;
        let mut lent = self.lent.clone()?;
        let marked = lent.mark().ok();
        let refused = self.refusal(lent.marks_fit()).is_some();
        ensure!(marked.is_none() == refused, "{marked:?} of marks");
        self.check_marks(&lent, marked)
    }

    fn try_next(&self, walk: &Walk, tally: &mut Tally) -> anyhow::Result<()> {
        let mut lent = self.lent.clone()?;
        let outcome = walk.next(
            &lent.costs,
            &lent.standing,
            &lent.partners,
            &lent.left,
            &lent.right,
            &mut lent.list,
        );
        self.check_next(&lent, judged(outcome, self.step_refusal(), tally)?)
    }

    /// Checks what a step wrote.
    fn check_next(&self, lent: &Lent<K>, step: Option<Step>) -> anyhow::Result<()> {
        let pairings = &self.optimum.pairings;
        let at = pairings
            .iter()
            .position(|pairing| *pairing == self.lent.list);
        let next = at.and_then(|k| pairings.get(k.saturating_add(1)));
        match (step, next) {
            (Some(Step::Next), Some(next)) => ensure!(lent.list == *next, "another next pairing"),
            (Some(Step::Next), None) => return Err(anyhow!("a walk goes on past its end")),
            (Some(Step::End), Some(_)) => return Err(anyhow!("a walk ends early")),
            _ => ensure!(*lent == *self.lent, "next wrote where it should not"),
        }
        Ok(())
    }

    fn try_quote(
        &self,
        settled: &SettledSheet,
        left: u16,
        right: u16,
        tally: &mut Tally,
    ) -> anyhow::Result<()> {
        let lent = self.lent;
        let cell = lent.cell(left, right);
        let unfound = if left >= lent.n || right >= lent.n {
            Some(Cause::Block)
        } else {
            cell.is_none().then_some(Cause::Absent)
        };
        let outcome = settled.quote(
            &lent.costs,
            &lent.standing,
            &lent.partners,
            &lent.left,
            &lent.right,
            left,
            right,
        );
        let told = cell.map(|cost| (cost, cost.take_away(lent.prices(left, right))));
        if let Some(quote) = judged(outcome, self.refusal(true).or(unfound), tally)? {
            ensure!(Some(quote) == told, "another quote");
        }
        Ok(())
    }

    fn try_total(&self, settled: &SettledSheet, tally: &mut Tally) -> anyhow::Result<()> {
        let lent = self.lent;
        let outcome = settled.total(
            &lent.costs,
            &lent.standing,
            &lent.partners,
            &lent.left,
            &lent.right,
        );
        if let Some(total) = judged(outcome, self.refusal(true), tally)? {
            ensure!(total == self.optimum.total, "another total");
        }
        Ok(())
    }

    fn try_marks(&self, settled: &SettledSheet, tally: &mut Tally) -> anyhow::Result<()> {
        let mut lent = self.lent.clone()?;
        let refusal = self.refusal(lent.marks_fit());
        let outcome = settled.marks(
            &lent.costs,
            &lent.standing,
            &lent.partners,
            &lent.left,
            &lent.right,
            &mut lent.marks,
        );
        self.check_marks(&lent, judged(outcome, refusal, tally)?)
    }

    /// Checks what marking wrote.
    fn check_marks(&self, lent: &Lent<K>, marked: Option<()>) -> anyhow::Result<()> {
        match marked {
            Some(()) => ensure!(lent.marks == self.optimum.marks, "other marks"),
            None => ensure!(*lent == *self.lent, "refused marks wrote"),
        }
        Ok(())
    }

    fn try_start(&self, settled: SettledSheet, tally: &mut Tally) -> anyhow::Result<SettledSheet> {
        let mut lent = self.lent.clone()?;
        let refusal = self.refusal(lent.list_fits());
        let started = settled.start(
            &lent.costs,
            &lent.standing,
            &lent.partners,
            &lent.left,
            &lent.right,
            &mut lent.list,
        );
        let (settled, outcome) = match started {
            Ok(walk) => (walk.close(), Ok(())),
            Err(refusal) => unmoved(refusal)?,
        };
        self.check_start(&lent, judged(outcome, refusal, tally)?)?;
        Ok(settled)
    }

    /// Checks what a start wrote.
    fn check_start(&self, lent: &Lent<K>, started: Option<()>) -> anyhow::Result<()> {
        match started {
            Some(()) => ensure!(
                self.optimum.pairings.first() == Some(&lent.list),
                "another first pairing"
            ),
            None => ensure!(*lent == *self.lent, "a refused start wrote"),
        }
        Ok(())
    }

    /// Settles the tables anew: partners and prices are no matter then.
    fn try_settle(&self, settled: SettledSheet, tally: &mut Tally) -> anyhow::Result<()> {
        let mut lent = self.lent.clone()?;
        let refusal = if !lent.fit() {
            Some(Cause::TableLength)
        } else {
            (!lent.are_in_order()).then_some(Cause::Inconsistent)
        };
        let outcome = settled.reopen().settle(
            &lent.costs,
            &lent.standing,
            &mut lent.partners,
            &mut lent.left,
            &mut lent.right,
        );
        let outcome = match outcome {
            Ok(_) => Ok(()),
            Err(refusal) => unmoved(refusal)?.1,
        };
        match judged(outcome, refusal, tally)? {
            Some(()) => ensure!(self.optimum.settles(&lent), "settled otherwise"),
            None => ensure!(lent == *self.lent, "a refused settle wrote"),
        }
        Ok(())
    }
}

/// The state that a refusal gives back, and the fault, which is not that no pairing is perfect.
fn unmoved<S: Drop>(refusal: Refusal<S>) -> anyhow::Result<(S, Result<(), Fault>)> {
    let Refusal {
        fault,
        state,
        shortfall,
    } = refusal;
    ensure!(shortfall.is_none(), "a crowd set with another refusal");
    Ok((state, Err(fault)))
}

/// What was answered, if the call was not refused, and counts it; an error where it should have
/// been refused and was not, or the other way round.
pub fn judged<T: Drop>(
    outcome: Result<T, Fault>,
    refusal: Option<Cause>,
    tally: &mut Tally,
) -> anyhow::Result<Option<T>> {
    match outcome {
        Ok(answer) => {
            tally.count_call(None);
            ensure!(refusal.is_none(), "accepted, where {refusal:?} is due");
            Ok(Some(answer))
        }
        Err(given) => {
            tally.count_call(Some(given.cause.number()));
            let due = refusal.map(fault);
            ensure!(
                due == Some(given),
                "refused by {given:?} where {refusal:?} is due"
            );
            Ok(None)
        }
    }
}
