//! The greatest prices that are valid for a pairing, with no right price above zero, by shortest
//! ways.
//!
//! A price of right block r can exceed that of the partner of l by no more than the pair (l, r)
//! costs above the pair of l. So the greatest right prices are the lengths of the shortest ways,
//! where each right block begins at zero and each standing pair (l, r) is a step from the partner
//! of l to r. No way is longer than n steps, so n rounds over all steps find them (Bellman and
//! Ford).

use crate::kinds::Trial;
use crate::plain_sheet::Sheet;
use std::alloc::{AllocError, Global};

pub fn right_prices<K: Trial>(
    heap: Global,
    sheet: &Sheet<K>,
    pairing: &[u16],
) -> Result<Vec<K>, AllocError> {
    let mut prices = vec![in heap; K::zero(); usize::from(sheet.n)]?;
    for _ in 0..sheet.n {
        shorten(sheet, pairing, &mut prices);
    }
    Ok(prices)
}

/// What the pair of each left block costs above its right price.
pub fn left_prices<K: Trial>(
    heap: Global,
    sheet: &Sheet<K>,
    pairing: &[u16],
    right_prices: &[K],
) -> Result<Vec<K>, AllocError> {
    let mut prices = Vec::new(heap);
    for (left, right) in (0..sheet.n).zip(pairing) {
        let cost = sheet.cell(left, *right).unwrap_or(K::zero());
        prices.push(cost.take_away(price(right_prices, *right)))?;
    }
    Ok(prices)
}

/// A block's price.
pub fn price<K: Trial>(prices: &[K], block: u16) -> K {
    let price = prices.get(usize::from(block)).copied();
    price.unwrap_or(K::zero())
}

/// Goes once over all steps.
fn shorten<K: Trial>(sheet: &Sheet<K>, pairing: &[u16], prices: &mut [K]) {
    for (left, partner) in (0..sheet.n).zip(pairing) {
        if let Some(cost) = sheet.cell(left, *partner) {
            let left_price = cost.take_away(price(prices, *partner));
            shorten_row(sheet, left, left_price, prices);
        }
    }
}

/// Goes over the steps of a left block: none of its pairs may cost less than its two prices.
fn shorten_row<K: Trial>(sheet: &Sheet<K>, left: u16, left_price: K, prices: &mut [K]) {
    for (right, price) in (0..sheet.n).zip(prices) {
        if let Some(cost) = sheet.cell(left, right) {
            let most = cost.take_away(left_price);
            if most.compare(*price).is_lt() {
                *price = most;
            }
        }
    }
}
