//! A whole caller: it lends tables for three blocks a plane, enters costs, settles, and prints the
//! total, the pairs that occur in any optimum pairing, and all of these pairings; then it strikes a
//! pair and settles again.
#![tactic(auto)]

use cost::Plain;
use sheet::{Fault, OpenSheet, Step, open};

/// Left block, right block, and the time in microseconds that a program of both takes.
const TIMES: [(u16, u16, i64); 7] = [
    (0, 0, 4),
    (0, 1, 2),
    (1, 0, 3),
    (1, 1, 1),
    (1, 2, 5),
    (2, 1, 6),
    (2, 2, 2),
];

/// Enters what was measured.
fn enter(sheet: &OpenSheet, costs: &mut [Plain], standing: &mut [u8]) -> Result<(), Fault> {
    for (left, right, time) in TIMES {
        sheet.enter(costs, standing, left, right, Plain(time))?;
    }
    Ok(())
}

fn run(rt: &impl Print) -> anyhow::Result<()> {
    let (mut costs, mut standing) = ([Plain(0); 9], [0u8; 9]);
    let sheet = open(3, &mut costs, &mut standing)?;
    enter(&sheet, &mut costs, &mut standing)?;
    let (mut partners, mut left, mut right) = ([0u16; 3], [Plain(0); 3], [Plain(0); 3]);
    let settled = sheet.settle(&costs, &standing, &mut partners, &mut left, &mut right)?;
    let Plain(total) = settled.total(&costs, &standing, &partners, &left, &right)?;
    let mut marks = [0u8; 9];
    settled.marks(&costs, &standing, &partners, &left, &right, &mut marks)?;
    println!(rt; "total {total}, marks {marks:?}")?;
    let mut list = [0u16; 3];
    let walk = settled.start(&costs, &standing, &partners, &left, &right, &mut list)?;
    for _ in 0..1_000 {
        println!(rt; "pairing {list:?}")?;
        if let Step::End = walk.next(&costs, &standing, &partners, &left, &right, &mut list)? {
            break;
        }
    }
    let sheet = walk.close().reopen();
    sheet.strike(&mut costs, &mut standing, 0, 0)?;
    sheet.settle(&costs, &standing, &mut partners, &mut left, &mut right)?;
    println!(rt; "without the pair 0 0: {partners:?}")?;
    Ok(())
}

fn main(rt: HostRuntime) -> anyhow::Result<()> {
    run(&rt)
}
