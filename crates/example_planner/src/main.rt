//! Plans which blocks of two planes are programmed together. It reads what was measured of each
//! pair from standard input, and prints the least total column by column, a map of the pairs that
//! occur in any pairing of that total, and these pairings themselves.
#![tactic(auto)]

mod figures;
mod plan;

use anyhow::{Context, bail};
use figures::Figures;
use plan::Plan;
use std::alloc::Global;
use std::io;

/// What was measured, a pair a line. Blank lines and those that begin with `#` are passed over.
fn read(heap: Global, input: &str) -> anyhow::Result<Vec<Figures>> {
    let mut all = Vec::new(heap);
    for (k, line) in input.lines().enumerate() {
        let line = line.trim();
        if line.is_empty() || line.starts_with('#') {
            continue;
        }
        let figures = line
            .parse::<Figures>()
            .context(format_args!("line {}", k + 1))?;
        all.push(figures)?;
    }
    Ok(all)
}

fn run(rt: &HostRuntime) -> anyhow::Result<()> {
    let input = io::read_to_string(rt.alloc(), rt.stdin())?;
    let figures = read(rt.alloc(), input.as_str())?;
    if figures.is_empty() {
        bail!("no pair was measured");
    }
    let plan = Plan::of(rt.alloc(), figures.as_slice())?;
    plan.print_total(rt)?;
    plan.print_map(rt.alloc(), rt)?;
    plan.print_pairings(rt.alloc(), rt)
}

fn main(rt: HostRuntime) -> anyhow::Result<()> {
    run(&rt)
}
