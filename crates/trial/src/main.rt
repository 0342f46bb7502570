//! Compares the calls on a sheet, and those of `assign`, `walk` and `matching` below it, with plain
//! enumeration of all orders of the right blocks, which shares nothing with them but the cost kinds
//! and block sets, and prints what was compared. At the first answer that differs it ends with an
//! error; where that is a call on a sheet, it prints the call and the sheet.
//!
//! Standard input is the seed of what is drawn.
#![tactic(auto)]

mod below;
mod bench;
mod book;
mod disturbance;
mod disturbed;
mod draw;
mod entering;
mod kinds;
mod lent_tables;
mod lists;
mod matched;
mod orders;
mod plain_sheet;
mod prices;
mod readings;
mod script;
mod sheets;
mod solution;
mod tally;

use anyhow::Context;
use bench::Bench;
use cost::{Free, Plain};
use kinds::{Nested, Tagged, ThreeRight, Trial, Two, TwoFree};
use orders::Orders;
use std::io;

/// Tries a kind, and prints what was compared.
fn try_kind<K: Trial>(rt: &HostRuntime, orders: &Orders, seed: u64) -> anyhow::Result<()> {
    let mut bench = Bench::new(rt.alloc(), orders, seed);
    sheets::try_small::<K>(rt, &mut bench)?;
    sheets::try_random::<K>(rt, &mut bench)?;
    lists::try_lists::<K>(rt, &mut bench)?;
    lists::try_sizes::<K>(&mut bench)?;
    try_readings::<K>(rt, &mut bench)
}

/// Tries a kind by random sheets and by readings, and prints what was compared.
fn try_kind_at_random<K: Trial>(
    rt: &HostRuntime,
    orders: &Orders,
    seed: u64,
) -> anyhow::Result<()> {
    let mut bench = Bench::new(rt.alloc(), orders, seed);
    sheets::try_random::<K>(rt, &mut bench)?;
    try_readings::<K>(rt, &mut bench)
}

/// Tries readings of a kind, and prints what was compared so far.
fn try_readings<K: Trial>(rt: &HostRuntime, bench: &mut Bench<'_>) -> anyhow::Result<()> {
    readings::try_readings::<K>(rt, bench)?;
    entering::try_entering::<K>(rt, bench)?;
    let (kind, tally) = (K::NAME, &bench.tally);
    println!(rt; "{kind}\n{tally}")?;
    Ok(())
}

/// Tries pairing without costs, and prints what was compared.
fn try_without_costs(rt: &HostRuntime, orders: &Orders, seed: u64) -> anyhow::Result<()> {
    let mut bench = Bench::new(rt.alloc(), orders, seed);
    matched::try_matching(&mut bench)?;
    let (sheets, pairings) = (bench.tally.below, bench.tally.walked);
    println!(rt; "without costs\n  sheets {sheets}, pairings handed out {pairings}")?;
    Ok(())
}

fn run(rt: &HostRuntime) -> anyhow::Result<()> {
    let input = io::read_to_string(rt.alloc(), rt.stdin())?;
    let seed = input
        .trim()
        .parse::<u64>()
        .context("reading the seed from standard input")?;
    println!(rt; "seed {seed}")?;
    let orders = Orders::new(rt.alloc())?;
    try_kind::<Plain>(rt, &orders, seed)?;
    try_kind::<Free>(rt, &orders, seed)?;
    try_kind::<Two>(rt, &orders, seed)?;
    try_kind::<Nested>(rt, &orders, seed)?;
    try_kind_at_random::<TwoFree>(rt, &orders, seed)?;
    try_kind_at_random::<ThreeRight>(rt, &orders, seed)?;
    try_readings::<Tagged>(rt, &mut Bench::new(rt.alloc(), &orders, seed))?;
    try_without_costs(rt, &orders, seed)
}

fn main(rt: HostRuntime) -> anyhow::Result<()> {
    run(&rt)
}
