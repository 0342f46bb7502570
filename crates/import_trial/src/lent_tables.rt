//! The pair tables that are lent to an import.

use cost::Plain;
use dimacs::import;
use sheet::{Fault, OpenSheet};
use std::alloc::{AllocError, Global};

/// What a table holds at first, which no import leaves there.
const COST: Plain = Plain(i64::MAX);

const BYTE: u8 = 2;

/// Tables of costs and of standing pairs.
#[derive(Drop)]
pub struct Lent {
    costs: Vec<Plain>,
    standing: Vec<u8>,
}

impl Lent {
    /// Tables of so many places, which hold no sheet.
    pub fn new(heap: Global, costs: usize, standing: usize) -> Result<Lent, AllocError> {
        Ok(Lent {
            costs: vec![in heap; COST; costs]?,
            standing: vec![in heap; BYTE; standing]?,
        })
    }

    pub fn import(&mut self, text: &[u8]) -> Result<OpenSheet, Fault> {
        import(text, &mut self.costs, &mut self.standing)
    }

    /// Whether they are as they were made.
    pub fn are_untouched(&self) -> bool {
        self.costs.iter().all(|cost| *cost == COST)
            && self.standing.iter().all(|byte| *byte == BYTE)
    }

    /// The cost of a pair, if it stands.
    fn cost(&self, n: u16, left: u16, right: u16) -> Option<Plain> {
        let place = usize::from(left) * usize::from(n) + usize::from(right);
        match self.standing.get(place) {
            Some(byte) if *byte != 0 => self.costs.get(place).copied(),
            _ => None,
        }
    }

    /// The sheet of n blocks a plane in the tables, as text.
    pub fn tell(&self, heap: Global, n: u16) -> Result<String, AllocError> {
        let mut text = format!(in heap; "size {n}\n")?;
        for left in 0..n {
            for right in 0..n {
                if let Some(Plain(cost)) = self.cost(n, left, right) {
                    write!(text, "pair {left} {right} {cost}\n")?;
                }
            }
        }
        text.push_str("end\n")?;
        Ok(text)
    }
}
