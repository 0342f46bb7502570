//! A sheet that is settled over tables of its own, and the certificate that they state: prices that
//! no standing pair undercuts and that the pairs of partners meet, and no right price above zero.

use crate::amount::Amount;
use crate::kinds::Summed;
use crate::lent_tables::Lent;
use crate::shape::{BLOCKS, Shape};
use anyhow::{Context, ensure};
use sheet::{OpenSheet, SettledSheet, open};
use std::alloc::{AllocError, Global};

/// What a price is within, in each column.
const PRICE_LIMIT: u64 = 1_000_000_000_000;

/// How many pairs there are.
pub const PAIRS: usize = 64 * 64;

/// The tables of a sheet of a shape.
#[derive(Drop)]
pub struct Shaped<K: Summed> {
    pub shape: Shape,
    pub lent: Lent<K>,
}

impl<K: Summed> Shaped<K> {
    pub fn new(heap: Global, shape: Shape) -> Result<Self, AllocError> {
        let lent = Lent::new(heap, BLOCKS)?;
        Ok(Shaped { shape, lent })
    }

    /// Enters all pairs of the shape, and settles the sheet.
    pub fn settle(&mut self) -> anyhow::Result<SettledSheet> {
        let sheet = open(BLOCKS, &mut self.lent.costs, &mut self.lent.standing)?;
        for left in 0..BLOCKS {
            self.enter_row(&sheet, left)?;
        }
        let lent = &mut self.lent;
        Ok(sheet.settle(
            &lent.costs,
            &lent.standing,
            &mut lent.partners,
            &mut lent.left,
            &mut lent.right,
        )?)
    }

    fn enter_row(&mut self, sheet: &OpenSheet, left: u16) -> anyhow::Result<()> {
        for right in 0..BLOCKS {
            if let Some(columns) = self.shape.cell(left, right) {
                let cost = K::made(&mut &columns[..]);
                let (costs, standing) = (&mut self.lent.costs, &mut self.lent.standing);
                sheet.enter(costs, standing, left, right, cost)?;
            }
        }
        Ok(())
    }

    /// What a pair of the kind costs, if it stands.
    pub fn cost(&self, left: u16, right: u16) -> Option<Amount> {
        let columns = self.shape.cell(left, right)?;
        Some(K::made(&mut &columns[..]).amount())
    }

    /// What a list costs; an error where it is no pairing over standing pairs.
    pub fn total(&self, list: &[u16]) -> anyhow::Result<Amount> {
        let mut total = Amount::ZERO;
        let mut taken = 0u64;
        for (left, right) in (0..BLOCKS).zip(list) {
            let cost = self
                .cost(left, *right)
                .context("a pair that does not stand is paired")?;
            total = total.plus(cost)?;
            taken |= 1 << (*right % BLOCKS);
        }
        ensure!(
            list.len() == usize::from(BLOCKS),
            "a list of another length"
        );
        ensure!(taken == u64::MAX, "a right block is paired twice");
        Ok(total)
    }

    /// Checks that the prices prove the partners optimum: then all prices add up to their total.
    pub fn check_certificate(&self) -> anyhow::Result<Amount> {
        let total = self.total(&self.lent.partners)?;
        let left = sum_of_prices(&self.lent.left)?;
        let right = sum_of_prices(&self.lent.right)?;
        ensure!(
            left.plus(right)? == total,
            "the prices do not add up to the total"
        );
        ensure!(
            are_at_most_zero(&self.lent.right),
            "a right price above zero"
        );
        for left in 0..BLOCKS {
            self.check_row(left)?;
        }
        Ok(total)
    }

    /// Checks the pairs of a left block: none costs less than its two prices, and that of the
    /// partner just as much.
    fn check_row(&self, left: u16) -> anyhow::Result<()> {
        let partner = self.lent.partners.get(usize::from(left)).copied();
        let left_price = price(&self.lent.left, left)?;
        for right in 0..BLOCKS {
            let prices = left_price.plus(price(&self.lent.right, right)?)?;
            if let Some(cost) = self.cost(left, right) {
                ensure!(prices <= cost, "a pair costs less than its prices");
                ensure!(
                    prices == cost || partner != Some(right),
                    "a pair of partners costs more than its prices"
                );
            }
        }
        Ok(())
    }
}

/// A block's price.
fn price<K: Summed>(prices: &[K], block: u16) -> anyhow::Result<Amount> {
    let price = prices
        .get(usize::from(block))
        .context("a price is missing")?;
    Ok(price.amount())
}

fn sum_of_prices<K: Summed>(prices: &[K]) -> anyhow::Result<Amount> {
    let mut sum = Amount::ZERO;
    for price in prices {
        let amount = price.amount();
        ensure!(amount.is_within(PRICE_LIMIT), "a price beyond 10^12");
        sum = sum.plus(amount)?;
    }
    Ok(sum)
}

fn are_at_most_zero<K: Summed>(prices: &[K]) -> bool {
    for price in prices {
        if price.amount() > Amount::ZERO {
            return false;
        }
    }
    true
}
