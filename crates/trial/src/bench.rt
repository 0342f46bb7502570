//! What the trial of a kind needs: memory, the orders, what is drawn next, and the counts.

use crate::draw::Draw;
use crate::orders::Orders;
use crate::tally::Tally;
use std::alloc::Global;

#[derive(Drop)]
pub struct Bench<'a> {
    pub heap: Global,
    pub orders: &'a Orders,
    pub draw: Draw,
    pub tally: Tally,
}

impl<'a> Bench<'a> {
    pub fn new(heap: Global, orders: &'a Orders, seed: u64) -> Self {
        Bench {
            heap,
            orders,
            draw: Draw::new(seed),
            tally: Tally::new(),
        }
    }
}
