//! What there is to know of a sheet, found by going through every order of its right blocks.
//!
//! An order gives each left block a right block; the pairs of it that stand are a pairing. Each
//! largest pairing is had so, since what it leaves out can be given the right blocks that are left.

use crate::kinds::Trial;
use crate::lent_tables::Lent;
use crate::plain_sheet::{Sheet, pairs, place};
use crate::prices::{left_prices, price, right_prices};
use sheet::Shortfall;
use std::alloc::{AllocError, Global};

/// What settling a sheet comes to.
#[derive(Drop)]
pub enum Solution<K: Trial> {
    Optimal(Optimum<K>),
    Unmatched(Shortfall),
}

/// All optimum pairings in dictionary order, what each of them costs, and the greatest prices.
#[derive(Drop)]
pub struct Optimum<K: Trial> {
    pub pairings: Vec<Vec<u16>>,
    pub total: K,
    pub left: Vec<K>,
    pub right: Vec<K>,
    pub marks: Vec<u8>,
}

impl<K: Trial> Optimum<K> {
    fn of(
        heap: Global,
        sheet: &Sheet<K>,
        total: K,
        pairings: Vec<Vec<u16>>,
    ) -> Result<Self, AllocError> {
        let first = pairings.first().map_or(&[][..], |first| first.as_slice());
        let right = right_prices(heap, sheet, first)?;
        let left = left_prices(heap, sheet, first, &right)?;
        let marks = marks(heap, sheet.n, &pairings)?;
        Ok(Optimum {
            pairings,
            total,
            left,
            right,
            marks,
        })
    }

    /// A copy of a pairing; an empty list where there is none.
    pub fn pairing(&self, heap: Global, number: usize) -> Result<Vec<u16>, AllocError> {
        match self.pairings.get(number) {
            Some(pairing) => pairing.clone(),
            None => Ok(Vec::new(heap)),
        }
    }

    /// Whether tables have the first pairing as their partners, and the prices.
    pub fn settles(&self, lent: &Lent<K>) -> bool {
        self.pairings.first() == Some(&lent.partners)
            && lent.left == self.left
            && lent.right == self.right
    }

    /// What a cost exceeds two prices by.
    pub fn slack(&self, cost: K, left: u16, right: u16) -> K {
        cost.take_away(price(&self.left, left))
            .take_away(price(&self.right, right))
    }
}

/// What some of the orders come to.
#[derive(Drop)]
struct Found<K: Trial> {
    /// The least number of left blocks that an order leaves without a standing pair.
    fewest: u32,
    /// The left blocks that some order with so few leaves out, as bits.
    crowd: u64,
    least: Option<K>,
    optima: Vec<Vec<u16>>,
}

impl<K: Trial> Found<K> {
    fn take(&mut self, sheet: &Sheet<K>, order: &Vec<u16>) -> Result<(), AllocError> {
        let out = left_out(sheet, order);
        let count = out.count_ones();
        if count < self.fewest {
            self.fewest = count;
            self.crowd = out;
        } else if count == self.fewest {
            self.crowd |= out;
        }
        if count == 0 {
            self.take_perfect(total(sheet, order), order)?;
        }
        Ok(())
    }

    fn take_perfect(&mut self, total: K, order: &Vec<u16>) -> Result<(), AllocError> {
        let is_less = self.least.is_none_or(|least| total.compare(least).is_lt());
        if is_less {
            self.optima.clear();
            self.least = Some(total);
        }
        if self.least.is_some_and(|least| total.compare(least).is_eq()) {
            self.optima.push(order.clone()?)?;
        }
        Ok(())
    }
}

/// The set of one block, as a bit.
fn bit(block: u16) -> u64 {
    1u64 << (block % 64)
}

/// The left blocks whose pair does not stand.
fn left_out<K: Trial>(sheet: &Sheet<K>, order: &[u16]) -> u64 {
    let mut out = 0;
    for (left, right) in (0..sheet.n).zip(order) {
        if sheet.cell(left, *right).is_none() {
            out |= bit(left);
        }
    }
    out
}

/// The sum of the costs of the pairs that stand.
fn total<K: Trial>(sheet: &Sheet<K>, order: &[u16]) -> K {
    let mut total = K::zero();
    for (left, right) in (0..sheet.n).zip(order) {
        if let Some(cost) = sheet.cell(left, *right) {
            total = total.add(cost);
        }
    }
    total
}

/// The right blocks that stand with a left block.
fn around<K: Trial>(sheet: &Sheet<K>, left: u16) -> u64 {
    let mut blocks = 0;
    for right in 0..sheet.n {
        if sheet.cell(left, right).is_some() {
            blocks |= bit(right);
        }
    }
    blocks
}

/// The crowd set with its shortage: how many more blocks it has than stand with any of them.
fn shortfall<K: Trial>(sheet: &Sheet<K>, crowd: u64) -> Shortfall {
    let mut blocks = 0;
    for left in 0..sheet.n {
        if crowd & bit(left) != 0 {
            blocks |= around(sheet, left);
        }
    }
    let short = crowd.count_ones().saturating_sub(blocks.count_ones());
    Shortfall {
        crowd,
        short: short as usize,
    }
}

/// A table with 1 at each pair that some pairing has, and 0 elsewhere.
fn marks(heap: Global, n: u16, pairings: &[Vec<u16>]) -> Result<Vec<u8>, AllocError> {
    let mut marks = vec![in heap; 0u8; pairs(n)]?;
    for pairing in pairings {
        mark(n, pairing, &mut marks);
    }
    Ok(marks)
}

fn mark(n: u16, pairing: &[u16], marks: &mut [u8]) {
    for (left, right) in (0..n).zip(pairing) {
        if let Some(byte) = marks.get_mut(place(n, left, *right)) {
            *byte = 1;
        }
    }
}

/// Solves a sheet: `orders` are all orders of its right blocks, in dictionary order.
pub fn solve<K: Trial>(
    heap: Global,
    sheet: &Sheet<K>,
    orders: &[Vec<u16>],
) -> Result<Solution<K>, AllocError> {
    let mut found = Found {
        fewest: u32::MAX,
        crowd: 0,
        least: None,
        optima: Vec::new(heap),
    };
    for order in orders {
        found.take(sheet, order)?;
    }
    let Some(total) = found.least else {
        return Ok(Solution::Unmatched(shortfall(sheet, found.crowd)));
    };
    Ok(Solution::Optimal(Optimum::of(heap, sheet, total, found.optima)?))
}
