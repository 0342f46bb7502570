//! `enter` over tables that something else wrote into: with bytes above 1, and with costs beyond
//! the limit and beyond the rail. By definition each call is refused or not, and leaves the tables
//! as they were or with the one pair changed.

use crate::bench::Bench;
use crate::book::{COST_LIMIT, worse};
use crate::disturbance::{Disturbance, Table};
use crate::disturbed::judged;
use crate::draw::{Costs, Draw};
use crate::kinds::{Columns, Trial};
use crate::lent_tables::Lent;
use crate::plain_sheet::place;
use anyhow::ensure;
use sheet::{Cause, open};
use std::alloc::AllocError;

/// A cost is within this in each column.
const MOST: i64 = 1_000_000_000;

/// The end of the rail: what lies beyond means it.
const END: i64 = 1_000_000_000_000_000;

/// What is written as the byte of the pair.
const BYTES: [u8; 5] = [0, 1, 2, 200, 255];

/// What is written as its cost: some within the limit, some beyond it in one column or in all, some
/// at the ends of the rail, and some beyond these.
const WRITTEN: [Columns; 16] = [
    [0, 0, 0],
    [1, 5, 0],
    [1, 9, -2],
    [2, 0, 9],
    [-1, 9, 9],
    [MOST; 3],
    [-MOST; 3],
    [MOST + 1, 0, 0],
    [-MOST - 1, 0, 0],
    [1, MOST + 1, -MOST - 1],
    [END; 3],
    [-END; 3],
    [i64::MAX; 3],
    [i64::MIN; 3],
    [1, i64::MAX, i64::MIN],
    [1, i64::MIN, i64::MAX],
];

/// What is entered: some within the limit, and some beyond it.
const READINGS: [Columns; 10] = [
    [0, 0, 0],
    [1, 5, 0],
    [1, 7, -3],
    [2, 0, 9],
    [MOST; 3],
    [-MOST; 3],
    [MOST + 1, 0, 0],
    [1, -MOST - 1, 0],
    [i64::MIN; 3],
    [1, 5, i64::MAX],
];

/// How often each of them is tried, over other pairs that are drawn.
const ROUNDS: u16 = 8;

/// The most blocks a plane of the tables.
const BLOCKS: u16 = 4;

/// What is written at a pair, and entered there then.
#[derive(Clone, Copy, Debug)]
struct Entry<K: Trial> {
    byte: u8,
    written: K,
    reading: K,
    left: u16,
    right: u16,
}

/// Tries each byte.
pub fn try_entering<K: Trial>(rt: &impl Print, bench: &mut Bench<'_>) -> anyhow::Result<()> {
    for byte in BYTES {
        try_byte::<K>(rt, bench, byte)?;
    }
    Ok(())
}

fn try_byte<K: Trial>(rt: &impl Print, bench: &mut Bench<'_>, byte: u8) -> anyhow::Result<()> {
    for columns in WRITTEN {
        try_written(rt, bench, byte, K::made(columns))?;
    }
    Ok(())
}

fn try_written<K: Trial>(
    rt: &impl Print,
    bench: &mut Bench<'_>,
    byte: u8,
    written: K,
) -> anyhow::Result<()> {
    for columns in READINGS {
        try_reading(rt, bench, byte, written, K::made(columns))?;
    }
    Ok(())
}

fn try_reading<K: Trial>(
    rt: &impl Print,
    bench: &mut Bench<'_>,
    byte: u8,
    written: K,
    reading: K,
) -> anyhow::Result<()> {
    for round in 0..ROUNDS {
        let n = round % BLOCKS + 1;
        let (left, right) = (block(&mut bench.draw, n), block(&mut bench.draw, n));
        let entry = Entry {
            byte,
            written,
            reading,
            left,
            right,
        };
        let lent = entry.tables(bench, n)?;
        if let Err(error) = entry.enter(bench, &lent) {
            println!(rt; "{entry:?} over {lent:?}")?;
            return Err(error);
        }
    }
    Ok(())
}

/// A block number; sometimes there is no such block.
fn block(draw: &mut Draw, n: u16) -> u16 {
    match draw.below(12) {
        0 => n,
        _ => draw.block(n),
    }
}

/// Writes any byte and any cost to each place.
fn write_all<K: Trial>(lent: &mut Lent<K>, draw: &mut Draw) {
    for (cost, byte) in lent.costs.iter_mut().zip(lent.standing.iter_mut()) {
        *byte = u8::try_from(draw.below(4)).unwrap_or(0);
        *cost = K::made(draw.columns(Costs::Wide));
    }
}

impl<K: Trial> Entry<K> {
    /// Tables of n blocks a plane in which anything is written, and this at the pair. Sometimes a
    /// pair table is too short or too long.
    fn tables(&self, bench: &mut Bench<'_>, n: u16) -> Result<Lent<K>, AllocError> {
        let mut lent = Lent::new(bench.heap, n)?;
        write_all(&mut lent, &mut bench.draw);
        self.write(&mut lent);
        let length = match bench.draw.below(24) {
            0 => Disturbance::Short(Table::Costs),
            1 => Disturbance::Short(Table::Standing),
            2 => Disturbance::Long(Table::Costs),
            3 => Disturbance::Long(Table::Standing),
            _ => return Ok(lent),
        };
        length.apply(&mut lent, &mut bench.draw)?;
        Ok(lent)
    }

    fn write(&self, lent: &mut Lent<K>) {
        if self.left < lent.n && self.right < lent.n {
            let at = place(lent.n, self.left, self.right);
            put(&mut lent.standing, at, self.byte);
            put(&mut lent.costs, at, self.written);
        }
    }

    /// Enters the reading over these tables, and compares what came of it with what is told.
    fn enter(&self, bench: &mut Bench<'_>, lent: &Lent<K>) -> anyhow::Result<()> {
        let mut opened = Lent::<K>::new(bench.heap, lent.n)?;
        let sheet = open(lent.n, &mut opened.costs, &mut opened.standing)?;
        let mut tables = lent.clone()?;
        let (costs, standing) = (&mut tables.costs, &mut tables.standing);
        let outcome = sheet.enter(costs, standing, self.left, self.right, self.reading);
        let accepted = judged(outcome, self.refusal(lent), &mut bench.tally)?.is_some();
        bench.tally.count_entered();
        let mut told = lent.clone()?;
        if accepted {
            self.store(&mut told);
        }
        ensure!(tables == told, "other tables");
        Ok(())
    }

    /// Why the reading is refused.
    fn refusal(&self, lent: &Lent<K>) -> Option<Cause> {
        if !lent.pairs_fit() {
            Some(Cause::TableLength)
        } else if self.left >= lent.n || self.right >= lent.n {
            Some(Cause::Block)
        } else if !self.reading.within(COST_LIMIT) {
            Some(Cause::CostRange)
        } else {
            (self.byte > 1).then_some(Cause::Inconsistent)
        }
    }

    /// Writes what stands then.
    fn store(&self, lent: &mut Lent<K>) {
        let at = place(lent.n, self.left, self.right);
        let earlier = (self.byte == 1).then_some(self.written);
        put(&mut lent.standing, at, 1);
        put(&mut lent.costs, at, worse(earlier, self.reading));
    }
}

fn put<T: Copy>(table: &mut [T], at: usize, value: T) {
    if let Some(old) = table.get_mut(at) {
        *old = value;
    }
}
