//! All lists of the numbers below n in dictionary order, each number once in each list.

use std::alloc::{AllocError, Global};

/// The most blocks a plane that a trial enumerates.
pub const MOST_BLOCKS: u16 = 7;

/// For each n up to `MOST_BLOCKS`, all orders of the numbers below n.
#[derive(Drop)]
pub struct Orders {
    by_size: Vec<Vec<Vec<u16>>>,
}

impl Orders {
    pub fn new(heap: Global) -> Result<Self, AllocError> {
        let mut by_size = Vec::new(heap);
        for n in 0..MOST_BLOCKS + 1 {
            by_size.push(all_orders(heap, n)?)?;
        }
        Ok(Orders { by_size })
    }

    /// All orders of the numbers below n; none where n is too large.
    pub fn of(&self, n: u16) -> &[Vec<u16>] {
        match self.by_size.get(usize::from(n)) {
            Some(orders) => orders.as_slice(),
            None => &[],
        }
    }
}

/// All orders of the numbers below n: the empty list, made one longer n times.
fn all_orders(heap: Global, n: u16) -> Result<Vec<Vec<u16>>, AllocError> {
    let mut lists = Vec::new(heap);
    lists.push(Vec::new(heap))?;
    for _ in 0..n {
        lists = longer(heap, n, &lists)?;
    }
    Ok(lists)
}

/// Each list, longer by each number below n that it does not have.
fn longer(heap: Global, n: u16, lists: &[Vec<u16>]) -> Result<Vec<Vec<u16>>, AllocError> {
    let mut made = Vec::new(heap);
    for list in lists {
        add_longer(n, list, &mut made)?;
    }
    Ok(made)
}

fn add_longer(n: u16, list: &Vec<u16>, made: &mut Vec<Vec<u16>>) -> Result<(), AllocError> {
    for number in 0..n {
        if !list.contains(&number) {
            let mut copy = list.clone()?;
            copy.push(number)?;
            made.push(copy)?;
        }
    }
    Ok(())
}
