//! The tables that are lent to the calls.

use cost::Cost;
use std::alloc::{AllocError, Global};

/// The tables of a sheet of n blocks a plane: costs and standing pairs, then what is found.
#[derive(Drop)]
pub struct Lent<K: Cost> {
    pub n: u16,
    pub costs: Vec<K>,
    pub standing: Vec<u8>,
    pub partners: Vec<u16>,
    pub left: Vec<K>,
    pub right: Vec<K>,
}

impl<K: Cost> Lent<K> {
    /// Tables with nothing but zeros in them.
    pub fn new(heap: Global, n: u16) -> Result<Self, AllocError> {
        let blocks = usize::from(n);
        Ok(Lent {
            n,
            costs: vec![in heap; K::zero(); blocks * blocks]?,
            standing: vec![in heap; 0u8; blocks * blocks]?,
            partners: vec![in heap; 0u16; blocks]?,
            left: vec![in heap; K::zero(); blocks]?,
            right: vec![in heap; K::zero(); blocks]?,
        })
    }

    /// The cost that stands at a pair's place, if there is such a place.
    pub fn cost(&self, left: u16, right: u16) -> Option<K> {
        let place = usize::from(left) * usize::from(self.n) + usize::from(right);
        self.costs.get(place).copied()
    }
}
