//! What is changed in settled tables.

use crate::draw::{Costs, Draw};
use crate::kinds::Trial;
use crate::lent_tables::Lent;
use std::alloc::AllocError;

/// A change of one table, or of all prices.
#[derive(Clone, Copy, Debug)]
pub enum Disturbance {
    /// A standing byte becomes 2 or more.
    Byte,
    /// A cost becomes too large by 1.
    Cost,
    /// A price changes by a cost of this kind, so by a little or nothing, or by much.
    LeftPrice(Costs),
    RightPrice(Costs),
    /// All left prices go up and all right prices down by so much in each column.
    Shift(i64),
    /// A partner becomes another block, or stays.
    Partner,
    /// The partners move one place on.
    Turn,
    /// A place of the walk list becomes another block, or stays.
    ListPlace,
    /// The walk list moves one place on.
    ListTurn,
    /// A table loses its last place.
    Short(Table),
    /// A table gets one more place.
    Long(Table),
}

/// A table that is lent.
#[derive(Clone, Copy, Debug)]
pub enum Table {
    Costs,
    Standing,
    Partners,
    Left,
    Right,
    List,
    Marks,
}

/// All that is tried. A shift of 10^12 takes the left prices beyond their bound.
pub const DISTURBANCES: [Disturbance; 26] = [
    Disturbance::Byte,
    Disturbance::Cost,
    Disturbance::LeftPrice(Costs::Tiny),
    Disturbance::RightPrice(Costs::Tiny),
    Disturbance::LeftPrice(Costs::Ends),
    Disturbance::RightPrice(Costs::Ends),
    Disturbance::Shift(5),
    Disturbance::Shift(1_000_000_000_000),
    Disturbance::Partner,
    Disturbance::Turn,
    Disturbance::ListPlace,
    Disturbance::ListTurn,
    Disturbance::Short(Table::Costs),
    Disturbance::Short(Table::Standing),
    Disturbance::Short(Table::Partners),
    Disturbance::Short(Table::Left),
    Disturbance::Short(Table::Right),
    Disturbance::Short(Table::List),
    Disturbance::Short(Table::Marks),
    Disturbance::Long(Table::Costs),
    Disturbance::Long(Table::Standing),
    Disturbance::Long(Table::Partners),
    Disturbance::Long(Table::Left),
    Disturbance::Long(Table::Right),
    Disturbance::Long(Table::List),
    Disturbance::Long(Table::Marks),
];

impl Disturbance {
    /// Changes the tables, at a drawn place.
    pub fn apply<K: Trial>(self, lent: &mut Lent<K>, draw: &mut Draw) -> Result<(), AllocError> {
        match self {
            Disturbance::Byte => replace(&mut lent.standing, draw, 2),
            Disturbance::Cost => replace(&mut lent.costs, draw, K::made([1_000_000_001; 3])),
            Disturbance::LeftPrice(by) => change_price(&mut lent.left, draw, by),
            Disturbance::RightPrice(by) => change_price(&mut lent.right, draw, by),
            Disturbance::Shift(most) => shift(lent, K::made([most; 3])),
            Disturbance::Partner => {
                let block = draw.block(lent.n);
                replace(&mut lent.partners, draw, block);
            }
            Disturbance::Turn => turn(&mut lent.partners),
            Disturbance::ListPlace => {
                let block = draw.block(lent.n);
                replace(&mut lent.list, draw, block);
            }
            Disturbance::ListTurn => turn(&mut lent.list),
            Disturbance::Short(table) => shorten(lent, table),
            Disturbance::Long(table) => lengthen(lent, table)?,
        }
        Ok(())
    }
}

/// Writes a value to a drawn place.
fn replace<T: Copy>(table: &mut [T], draw: &mut Draw, value: T) {
    let place = draw.below(table.len() as u64) as usize;
    if let Some(old) = table.get_mut(place) {
        *old = value;
    }
}

fn change_price<K: Trial>(prices: &mut [K], draw: &mut Draw, by: Costs) {
    let change = K::made(draw.columns(by));
    let place = draw.below(prices.len() as u64) as usize;
    if let Some(price) = prices.get_mut(place) {
        *price = price.add(change);
    }
}

fn shift<K: Trial>(lent: &mut Lent<K>, by: K) {
    for (left, right) in lent.left.iter_mut().zip(lent.right.iter_mut()) {
        *left = left.add(by);
        *right = right.take_away(by);
    }
}

fn turn(list: &mut [u16]) {
    if !list.is_empty() {
        list.rotate_right(1);
    }
}

fn shorten<K: Trial>(lent: &mut Lent<K>, table: Table) {
    match table {
        Table::Costs => drop_last(&mut lent.costs),
        Table::Standing => drop_last(&mut lent.standing),
        Table::Partners => drop_last(&mut lent.partners),
        Table::Left => drop_last(&mut lent.left),
        Table::Right => drop_last(&mut lent.right),
        Table::List => drop_last(&mut lent.list),
        Table::Marks => drop_last(&mut lent.marks),
    }
}

fn drop_last<T: Copy>(table: &mut Vec<T>) {
    let _ = table.pop();
}

fn lengthen<K: Trial>(lent: &mut Lent<K>, table: Table) -> Result<(), AllocError> {
    match table {
        Table::Costs => lent.costs.push(K::zero())?,
        Table::Standing => lent.standing.push(0)?,
        Table::Partners => lent.partners.push(0)?,
        Table::Left => lent.left.push(K::zero())?,
        Table::Right => lent.right.push(K::zero())?,
        Table::List => lent.list.push(0)?,
        Table::Marks => lent.marks.push(0)?,
    }
    Ok(())
}
