//! Tries sheets that are too large for enumeration, and prints what was seen of each.
//!
//! Sheets of 64 blocks a plane that are built to hurt are settled and walked, and checked by sums
//! of the trial's own: that the prices prove the total, that each of the first 1,000 pairings is a
//! later one of the same total, and that the marks have its pairs. The first fault is an error.
//!
//! The sheets that standard input names, one to a line, are solved, and what is determined is
//! printed: the total, the prices, the tight pairs and the first optimum pairing; or why no pairing
//! is perfect. The lines and what has to be printed are made by tools/assignments.py, which solves
//! the sheets on its own by another method.
#![tactic(auto)]

mod amount;
mod draw;
mod kinds;
mod lent_tables;
mod line;
mod settled;
mod shape;
mod solve;
mod walked;

use anyhow::Context;
use cost::{Free, Plain, TwoStep};
use kinds::{Nested, Summed, Two};
use line::{Kind, Order};
use settled::Shaped;
use shape::{SHAPES, Shape};
use solve::solve;
use std::alloc::Global;
use std::io;
use walked::{Seen, walk_through};

fn look_at<K: Summed>(heap: Global, shape: Shape) -> anyhow::Result<Seen> {
    let mut shaped = Shaped::<K>::new(heap, shape)?;
    let settled = shaped.settle()?;
    walk_through(heap, settled, &shaped)
}

/// Tries each shape in a kind, and prints what was seen.
fn try_shapes<K: Summed>(rt: &HostRuntime) -> anyhow::Result<()> {
    let kind = K::NAME;
    for shape in SHAPES {
        let seen = look_at::<K>(rt.alloc(), shape).context(format_args!("{kind} {shape:?}"))?;
        println!(rt; "{kind} {shape:?}: {seen}")?;
    }
    Ok(())
}

/// What is found out about a sheet, as text.
fn answer(heap: Global, order: Order) -> anyhow::Result<String> {
    match order.kind {
        Kind::Plain => solve::<Plain>(heap, order),
        Kind::Free => solve::<Free>(heap, order),
        Kind::Two => solve::<Two>(heap, order),
        Kind::TwoFree => solve::<TwoStep<TwoStep<Plain, Free>, Plain>>(heap, order),
        Kind::ThreeLeft => solve::<Nested>(heap, order),
        Kind::ThreeRight => solve::<TwoStep<Plain, Two>>(heap, order),
        Kind::FourEven => solve::<TwoStep<Two, Two>>(heap, order),
        Kind::FourRight => solve::<TwoStep<Plain, TwoStep<Plain, Two>>>(heap, order),
    }
}

/// Solves the sheet of each line, and prints what was found.
fn try_lines(rt: &HostRuntime, lines: &str) -> anyhow::Result<()> {
    for line in lines.lines() {
        let order = line
            .parse::<Order>()
            .context(format_args!("reading {line:?}"))?;
        println!(rt; "{line}")?;
        rt.print(answer(rt.alloc(), order)?)?;
    }
    Ok(())
}

fn run(rt: &HostRuntime) -> anyhow::Result<()> {
    try_shapes::<Plain>(rt)?;
    try_shapes::<Two>(rt)?;
    try_shapes::<Nested>(rt)?;
    let lines = io::read_to_string(rt.alloc(), rt.stdin())?;
    try_lines(rt, &lines)
}

fn main(rt: HostRuntime) -> anyhow::Result<()> {
    run(&rt)
}
