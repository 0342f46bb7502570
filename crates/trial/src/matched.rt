//! Pairing without costs: the calls of `matching`, over the right blocks that stand with each left
//! block. Where all costs are alike, the optimum pairings are the perfect ones.

use crate::bench::Bench;
use crate::draw::{Costs, Pairs, Rules};
use crate::plain_sheet::Sheet;
use crate::solution::{Optimum, Solution, solve};
use anyhow::{anyhow, ensure};
use blockset::BlockSet;
use cost::Free;
use matching::{Found, Shortfall, Step, first, largest, marks, next};
use std::alloc::{AllocError, Global};

/// How many random sheets of each size are tried.
const ROUNDS: u64 = 200;

/// Tries every sheet of up to 3 blocks a plane, and random ones of 4 to 6.
pub fn try_matching(bench: &mut Bench<'_>) -> anyhow::Result<()> {
    try_every(bench, 1)?;
    try_every(bench, 2)?;
    try_every(bench, 3)?;
    try_random(bench, 4)?;
    try_random(bench, 5)?;
    try_random(bench, 6)
}

fn try_every(bench: &mut Bench<'_>, n: u16) -> anyhow::Result<()> {
    for number in 0..Sheet::<Free>::count(n, 1) {
        let sheet = Sheet::<Free>::numbered(bench.heap, n, 1, number)?;
        try_sheet(bench, &sheet)?;
    }
    Ok(())
}

fn try_random(bench: &mut Bench<'_>, n: u16) -> anyhow::Result<()> {
    for number in 0..ROUNDS {
        let pairs = match number % 4 {
            0 => Pairs::Most,
            1 => Pairs::Half,
            2 => Pairs::Few,
            _ => Pairs::Fewest,
        };
        let costs = Costs::Equal;
        let rules = Rules { costs, pairs };
        let sheet = Sheet::<Free>::drawn(bench.heap, n, rules, &mut bench.draw)?;
        try_sheet(bench, &sheet)?;
    }
    Ok(())
}

/// The right blocks that stand with a left block.
fn row_of(sheet: &Sheet<Free>, left: u16) -> BlockSet {
    let mut row = BlockSet::empty();
    for right in 0..sheet.n {
        if sheet.cell(left, right).is_some() {
            row.insert(usize::from(right));
        }
    }
    row
}

fn rows_of(heap: Global, sheet: &Sheet<Free>) -> Result<Vec<BlockSet>, AllocError> {
    let mut rows = Vec::new(heap);
    for left in 0..sheet.n {
        rows.push(row_of(sheet, left))?;
    }
    Ok(rows)
}

fn try_sheet(bench: &mut Bench<'_>, sheet: &Sheet<Free>) -> anyhow::Result<()> {
    let rows = rows_of(bench.heap, sheet)?;
    let mut list = vec![in bench.heap; 9u16; usize::from(sheet.n)]?;
    match solve(bench.heap, sheet, bench.orders.of(sheet.n))? {
        Solution::Unmatched(shortfall) => try_short(sheet, &rows, &mut list, shortfall)?,
        Solution::Optimal(optimum) => {
            try_perfect(bench.heap, &rows, &mut list, &optimum)?;
            bench
                .tally
                .count_walked(try_walk(&rows, &mut list, &optimum)?);
        }
    }
    bench.tally.count_below();
    Ok(())
}

/// Tries a sheet of which no pairing is perfect.
fn try_short(
    sheet: &Sheet<Free>,
    rows: &[BlockSet],
    list: &mut Vec<u16>,
    due: Shortfall,
) -> anyhow::Result<()> {
    let Ok(Found::Short { out, shortfall }) = largest(rows, list) else {
        return Err(anyhow!("a perfect pairing where there is none"));
    };
    ensure!(shortfall == due, "another crowd set");
    ensure!(out.len() == due.short, "not a largest pairing");
    ensure!(pairs_all_but(sheet, out, list), "not a pairing");
    ensure!(
        first(rows, list).is_err(),
        "a first pairing where there is none"
    );
    Ok(())
}

/// Whether a list gives each left block, but those of a set, a right block of its own that stands
/// with it.
fn pairs_all_but(sheet: &Sheet<Free>, out: BlockSet, list: &[u16]) -> bool {
    let mut taken = BlockSet::empty();
    for (left, right) in (0..sheet.n).zip(list) {
        let block = usize::from(*right);
        if !out.contains(usize::from(left)) {
            if sheet.cell(left, *right).is_none() || taken.contains(block) {
                return false;
            }
            taken.insert(block);
        }
    }
    true
}

/// Tries a sheet that has a perfect pairing.
fn try_perfect(
    heap: Global,
    rows: &[BlockSet],
    list: &mut Vec<u16>,
    optimum: &Optimum<Free>,
) -> anyhow::Result<()> {
    ensure!(
        largest(rows, list) == Ok(Found::Perfect),
        "no perfect pairing where there is one"
    );
    ensure!(optimum.pairings.contains(list), "not a perfect pairing");
    let mut table = vec![in heap; 9u8; optimum.marks.len()]?;
    ensure!(marks(rows, list, &mut table).is_ok(), "no marks");
    ensure!(table == optimum.marks, "other marks");
    Ok(())
}

/// Walks through the perfect pairings, from the one in the list, to the end and once more.
fn try_walk(
    rows: &[BlockSet],
    list: &mut Vec<u16>,
    optimum: &Optimum<Free>,
) -> anyhow::Result<u64> {
    let count = optimum.pairings.len();
    ensure!(first(rows, list).is_ok(), "no first pairing");
    for (k, pairing) in optimum.pairings.iter().enumerate() {
        ensure!(*list == *pairing, "another pairing");
        let due = if k + 1 == count {
            Step::End
        } else {
            Step::Next
        };
        ensure!(next(rows, list) == Ok(due), "a walk of another length");
    }
    ensure!(
        next(rows, list) == Ok(Step::End),
        "a walk goes on past its end"
    );
    ensure!(optimum.pairings.last() == Some(&*list), "the end wrote");
    Ok(count as u64)
}
