//! The tables that are lent to the calls on a sheet, and what is to be said of them by definition.

use crate::book::COST_LIMIT;
use crate::kinds::Trial;
use crate::plain_sheet::{Sheet, pair_at, pairs, place};
use crate::prices::price;
use std::alloc::{AllocError, Global};

/// What a price is within, in each column.
pub const PRICE_LIMIT: u64 = 1_000_000_000_000;

/// Every table of a sheet of n blocks a plane.
#[derive(Clone, Drop, PartialEq, Debug)]
pub struct Lent<K: Trial> {
    pub n: u16,
    pub costs: Vec<K>,
    pub standing: Vec<u8>,
    pub partners: Vec<u16>,
    pub left: Vec<K>,
    pub right: Vec<K>,
    pub list: Vec<u16>,
    pub marks: Vec<u8>,
}

impl<K: Trial> Lent<K> {
    /// Tables in which nothing is written yet that a call would write.
    pub fn new(heap: Global, n: u16) -> Result<Self, AllocError> {
        let blocks = usize::from(n);
        Ok(Lent {
            n,
            costs: vec![in heap; K::zero(); pairs(n)]?,
            standing: vec![in heap; 9u8; pairs(n)]?,
            partners: vec![in heap; 9u16; blocks]?,
            left: vec![in heap; K::zero(); blocks]?,
            right: vec![in heap; K::zero(); blocks]?,
            list: vec![in heap; 9u16; blocks]?,
            marks: vec![in heap; 9u8; pairs(n)]?,
        })
    }

    /// Writes a sheet into the pair tables.
    pub fn show(&mut self, sheet: &Sheet<K>) {
        let shown = self.costs.iter_mut().zip(self.standing.iter_mut());
        for ((cost, byte), cell) in shown.zip(sheet.cells()) {
            *byte = u8::from(cell.is_some());
            *cost = cell.unwrap_or(K::zero());
        }
    }

    /// Whether the tables of an open sheet have their lengths.
    pub fn pairs_fit(&self) -> bool {
        self.costs.len() == pairs(self.n) && self.standing.len() == pairs(self.n)
    }

    /// Whether the tables of a settled sheet have their lengths.
    pub fn fit(&self) -> bool {
        let blocks = usize::from(self.n);
        self.pairs_fit()
            && self.partners.len() == blocks
            && self.left.len() == blocks
            && self.right.len() == blocks
    }

    pub fn list_fits(&self) -> bool {
        self.list.len() == usize::from(self.n)
    }

    pub fn marks_fit(&self) -> bool {
        self.marks.len() == pairs(self.n)
    }

    /// The cost of a pair, if its byte says that it stands.
    pub fn cell(&self, left: u16, right: u16) -> Option<K> {
        if right >= self.n {
            return None;
        }
        let at = place(self.n, left, right);
        match self.standing.get(at) {
            Some(1) => self.costs.get(at).copied(),
            _ => None,
        }
    }

    /// Whether no byte is above 1, and no standing pair costs too much.
    pub fn are_in_order(&self) -> bool {
        for (cost, byte) in self.costs.iter().zip(&self.standing) {
            if *byte > 1 || (*byte == 1 && !cost.within(COST_LIMIT)) {
                return false;
            }
        }
        true
    }

    /// Whether the tables hold together: they are in order, the partners are a perfect pairing, and
    /// the prices are valid for it and not too large.
    pub fn hold_together(&self) -> bool {
        self.are_in_order()
            && are_distinct(&self.partners)
            && self.left.iter().all(|price| price.within(PRICE_LIMIT))
            && self.right.iter().all(|price| price.within(PRICE_LIMIT))
            && self.are_tight()
            && self.are_valid()
    }

    /// Whether the pair of each left block stands and costs just its two prices.
    fn are_tight(&self) -> bool {
        for (left, right) in (0..self.n).zip(&self.partners) {
            match self.cell(left, *right) {
                Some(cost) if cost == self.prices(left, *right) => {}
                _ => return false,
            }
        }
        true
    }

    /// Whether no standing pair costs less than its two prices.
    fn are_valid(&self) -> bool {
        for place in 0..pairs(self.n) {
            let (left, right) = pair_at(self.n, place);
            if let Some(cost) = self.cell(left, right) {
                if cost.compare(self.prices(left, right)).is_lt() {
                    return false;
                }
            }
        }
        true
    }

    /// The sum of the two prices of a pair.
    pub fn prices(&self, left: u16, right: u16) -> K {
        price(&self.left, left).add(price(&self.right, right))
    }
}

/// Whether no number comes twice in a list.
fn are_distinct(list: &[u16]) -> bool {
    for (k, number) in list.iter().enumerate() {
        if list[0..k].contains(number) {
            return false;
        }
    }
    true
}
