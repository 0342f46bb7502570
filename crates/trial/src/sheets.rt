//! The sheets that are tried: all small ones, and random ones by each of the rules. Each is
//! entered, read, settled, quoted, marked and walked to its end.

use crate::below::try_below;
use crate::bench::Bench;
use crate::disturbed::try_disturbed;
use crate::draw::Rules;
use crate::kinds::Trial;
use crate::orders::MOST_BLOCKS;
use crate::plain_sheet::{Sheet, pair_at, pairs};
use crate::script::Script;
use session::Act;

/// How many random sheets of each size are tried with each of the rules.
const ROUNDS: u64 = 12;

/// Tries every sheet of up to 3 blocks a plane over absent pairs and a few costs.
pub fn try_small<K: Trial>(rt: &impl Print, bench: &mut Bench<'_>) -> anyhow::Result<()> {
    try_every::<K>(rt, bench, 1, K::COSTS)?;
    try_every::<K>(rt, bench, 2, K::COSTS)?;
    try_every::<K>(rt, bench, 3, K::COSTS.min(2))
}

fn try_every<K: Trial>(
    rt: &impl Print,
    bench: &mut Bench<'_>,
    n: u16,
    costs: u8,
) -> anyhow::Result<()> {
    for number in 0..Sheet::<K>::count(n, costs) {
        let sheet = Sheet::<K>::numbered(bench.heap, n, costs, number)?;
        try_sheet(rt, bench, &sheet)?;
    }
    Ok(())
}

/// Tries random sheets of each size, and disturbs their tables.
pub fn try_random<K: Trial>(rt: &impl Print, bench: &mut Bench<'_>) -> anyhow::Result<()> {
    for number in 0..ROUNDS * Rules::COUNT * u64::from(MOST_BLOCKS) {
        let n = (number % u64::from(MOST_BLOCKS)) as u16 + 1;
        let rules = Rules::numbered(number / u64::from(MOST_BLOCKS));
        let sheet = Sheet::<K>::drawn(bench.heap, n, rules, &mut bench.draw)?;
        try_sheet(rt, bench, &sheet)?;
        try_below(bench, &sheet)?;
        try_disturbed(rt, bench, &sheet)?;
    }
    Ok(())
}

fn try_sheet<K: Trial>(
    rt: &impl Print,
    bench: &mut Bench<'_>,
    sheet: &Sheet<K>,
) -> anyhow::Result<()> {
    bench.tally.count_sheet(sheet.n);
    let script = script_of(bench, sheet)?;
    script.compare(rt, &mut bench.tally)
}

/// The calls that a sheet is tried by.
fn script_of<K: Trial>(bench: &Bench<'_>, sheet: &Sheet<K>) -> anyhow::Result<Script<K>> {
    let mut script = Script::<K>::new(bench.heap, sheet.n)?;
    add_entries(&mut script, bench, sheet)?;
    add_looks(&mut script, bench)?;
    script.add(bench.orders, Act::Settle)?;
    script.add(bench.orders, Act::Total)?;
    script.add(bench.orders, Act::Marks)?;
    add_looks(&mut script, bench)?;
    script.add(bench.orders, Act::Start)?;
    add_walk(&mut script, bench)?;
    script.add(bench.orders, Act::Close)?;
    script.add(bench.orders, Act::Reopen)?;
    Ok(script)
}

/// Enters each pair that stands.
fn add_entries<K: Trial>(
    script: &mut Script<K>,
    bench: &Bench<'_>,
    sheet: &Sheet<K>,
) -> anyhow::Result<()> {
    for place in 0..pairs(sheet.n) {
        let (left, right) = pair_at(sheet.n, place);
        if let Some(cost) = sheet.cell(left, right) {
            script.add(bench.orders, Act::Enter { left, right, cost })?;
        }
    }
    Ok(())
}

/// Reads and quotes each pair: a state has one of the two calls.
fn add_looks<K: Trial>(script: &mut Script<K>, bench: &Bench<'_>) -> anyhow::Result<()> {
    let n = script.n;
    for place in 0..pairs(n) {
        let (left, right) = pair_at(n, place);
        script.add(bench.orders, Act::Read { left, right })?;
        script.add(bench.orders, Act::Quote { left, right })?;
    }
    Ok(())
}

/// Goes on with a walk to its end, and once more.
fn add_walk<K: Trial>(script: &mut Script<K>, bench: &Bench<'_>) -> anyhow::Result<()> {
    let optima = match script.book.optimum() {
        Some(optimum) => optimum.pairings.len(),
        None => 0,
    };
    for _ in 0..optima {
        script.add(bench.orders, Act::Next)?;
    }
    script.add(bench.orders, Act::Next)?;
    Ok(())
}
