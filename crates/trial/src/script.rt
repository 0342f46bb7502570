//! A list of calls with the answers that the plain book tells, and their comparison with a run.

use crate::book::{Book, right_lengths};
use crate::draw::Draw;
use crate::kinds::Trial;
use crate::orders::Orders;
use crate::tally::Tally;
use anyhow::{anyhow, ensure};
use session::{Act, Answer, Call, Lengths, SheetTables, run};
use std::alloc::{AllocError, Global};

#[derive(Drop)]
pub struct Script<K: Trial> {
    heap: Global,
    pub n: u16,
    calls: Vec<Call<K>>,
    answers: Vec<Answer<K>>,
    pub book: Book<K>,
}

impl<K: Trial> Script<K> {
    pub fn new(heap: Global, n: u16) -> Result<Self, AllocError> {
        Ok(Script {
            heap,
            n,
            calls: Vec::new(heap),
            answers: Vec::new(heap),
            book: Book::open(heap, n)?,
        })
    }

    /// Adds a call with tables of the right lengths.
    pub fn add(&mut self, orders: &Orders, act: Act<K>) -> Result<(), AllocError> {
        self.add_handed(orders, act, right_lengths(self.n))
    }

    /// The cost of an entry at a pair: now and then just the one that stands there, else the drawn
    /// one.
    pub fn again(&self, draw: &mut Draw, left: u16, right: u16, drawn: K) -> K {
        let standing = self.book.sheet().cell(left, right);
        match draw.below(8) {
            0 => standing.unwrap_or(drawn),
            _ => drawn,
        }
    }

    pub fn add_handed(
        &mut self,
        orders: &Orders,
        act: Act<K>,
        handed: Lengths,
    ) -> Result<(), AllocError> {
        let call = Call { act, handed };
        let answer = self.book.answer(self.heap, orders, &call)?;
        self.calls.push(call)?;
        self.answers.push(answer)?;
        Ok(())
    }

    /// Makes the calls, and compares each answer and the pair tables that are left.
    pub fn compare(&self, rt: &impl Print, tally: &mut Tally) -> anyhow::Result<()> {
        let mut tables = SheetTables::new(self.heap, self.n)?;
        let Ok(given) = run(self.heap, self.n, &mut tables, &self.calls) else {
            return Err(anyhow!("the run was stopped"));
        };
        ensure!(given.len() == self.answers.len(), "a call was not made");
        for ((given, told), call) in given.iter().zip(&self.answers).zip(&self.calls) {
            if !agree(given, told) {
                let sheet = self.book.sheet();
                println!(rt; "{call:?} answered {given:?} and not {told:?}, at last on {sheet:?}")?;
                return Err(anyhow!("another answer than the book's"));
            }
            tally.count_answer(given);
        }
        tally.count_readings(self.book.readings);
        ensure!(
            self.book.is_shown_by(&tables),
            "the tables do not show the book's cells"
        );
        Ok(())
    }
}

/// Whether two answers are the same.
fn agree<K: Trial>(given: &Answer<K>, told: &Answer<K>) -> bool {
    match (given, told) {
        (Answer::NotMade, Answer::NotMade) => true,
        (Answer::Done, Answer::Done) | (Answer::End, Answer::End) => true,
        (Answer::Refused(given), Answer::Refused(told)) => given == told,
        (Answer::Unmatched(given, found), Answer::Unmatched(told, crowd)) => {
            given == told && found.crowd == crowd.crowd && found.short == crowd.short
        }
        (
            Answer::Settled {
                partners,
                left,
                right,
            },
            Answer::Settled {
                partners: pairing,
                left: left_prices,
                right: right_prices,
            },
        ) => partners == pairing && left == left_prices && right == right_prices,
        (
            Answer::Quoted { cost, slack },
            Answer::Quoted {
                cost: told,
                slack: excess,
            },
        ) => cost == told && slack == excess,
        (Answer::Amount(given), Answer::Amount(told)) => given == told,
        (Answer::Marked(given), Answer::Marked(told)) => given == told,
        (Answer::Pairing(given), Answer::Pairing(told)) => given == told,
        _ => false,
    }
}
