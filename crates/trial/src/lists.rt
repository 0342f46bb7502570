//! Random lists of calls on one sheet.

use crate::bench::Bench;
use crate::book::{fault, right_lengths};
use crate::draw::{Costs, Draw};
use crate::kinds::Trial;
use crate::script::Script;
use anyhow::ensure;
use session::{Act, Call, Lengths, SheetTables, Stopped, run};
use sheet::{Cause, Fault};
use std::alloc::{AllocError, Global};

/// How many lists are tried.
const LISTS: u64 = 4_000;

/// How many calls of a list come after those that fill the sheet.
const CALLS: u64 = 120;

/// The most blocks a plane of a sheet that a list is about.
const BLOCKS: u64 = 5;

/// Sizes at which no sheet is opened over tables of 2 blocks a plane, and why.
const REFUSED_SIZES: [(u16, Cause); 5] = [
    (0, Cause::Size),
    (65, Cause::Size),
    (u16::MAX, Cause::Size),
    (1, Cause::TableLength),
    (3, Cause::TableLength),
];

pub fn try_lists<K: Trial>(rt: &impl Print, bench: &mut Bench<'_>) -> anyhow::Result<()> {
    for number in 0..LISTS {
        let n = (number % BLOCKS) as u16 + 1;
        let mut script = Script::<K>::new(bench.heap, n)?;
        add_calls(&mut script, bench)?;
        script.compare(rt, &mut bench.tally)?;
        bench.tally.count_list();
    }
    Ok(())
}

/// Opens sheets of other sizes over tables of 2 blocks a plane.
pub fn try_sizes<K: Trial>(bench: &mut Bench<'_>) -> anyhow::Result<()> {
    for (n, cause) in REFUSED_SIZES {
        let given = opened::<K>(bench.heap, n)?;
        ensure!(given == Some(fault(cause)), "a sheet of {n} blocks a plane");
        bench.tally.count_call(Some(cause.number()));
    }
    Ok(())
}

/// Why a run that opens a sheet over tables of 2 blocks a plane is refused.
fn opened<K: Trial>(heap: Global, n: u16) -> Result<Option<Fault>, AllocError> {
    let mut tables = SheetTables::<K>::new(heap, 2)?;
    let calls = Vec::<Call<K>>::new(heap);
    match run(heap, n, &mut tables, &calls) {
        Err(Stopped::Sheet(fault)) => Ok(Some(fault)),
        _ => Ok(None),
    }
}

/// Adds random calls. The first of them only enter pairs, each about twice, so that most sheets can
/// be settled, and many costs are of a pair that stands.
fn add_calls<K: Trial>(script: &mut Script<K>, bench: &mut Bench<'_>) -> anyhow::Result<()> {
    let n = script.n;
    let filling = 2 * u64::from(n) * u64::from(n);
    for number in 0..filling + CALLS {
        let act = if number < filling {
            entry(script, &mut bench.draw)
        } else {
            act(script, &mut bench.draw)
        };
        let handed = handed(&mut bench.draw, n);
        script.add_handed(bench.orders, act, handed)?;
    }
    Ok(())
}

/// A block number; sometimes there is no such block.
fn block(draw: &mut Draw, n: u16) -> u16 {
    match draw.below(30) {
        0 => n,
        1 => u16::MAX,
        _ => draw.block(n),
    }
}

/// A cost; sometimes it is too large, or at the end of what a cost can be.
fn cost<K: Trial>(draw: &mut Draw) -> K {
    let columns = match draw.below(40) {
        0 => [1_000_000_001, 0, 0],
        1 => [0, -1_000_000_001, i64::MIN],
        2 => [i64::MIN, i64::MAX, 0],
        3 => [1_000_000_000, -1_000_000_000, 1_000_000_000],
        _ => draw.columns(Costs::Tiny),
    };
    K::made(columns)
}

fn entry<K: Trial>(script: &Script<K>, draw: &mut Draw) -> Act<K> {
    let (left, right) = (block(draw, script.n), block(draw, script.n));
    let drawn = cost(draw);
    let cost = script.again(draw, left, right, drawn);
    Act::Enter { left, right, cost }
}

fn act<K: Trial>(script: &Script<K>, draw: &mut Draw) -> Act<K> {
    let (left, right) = (block(draw, script.n), block(draw, script.n));
    match draw.below(24) {
        0..3 => entry(script, draw),
        3 => Act::Strike { left, right },
        4 | 5 => Act::Read { left, right },
        6..9 => Act::Settle,
        9..11 => Act::Quote { left, right },
        11 => Act::Total,
        12 => Act::Marks,
        13..15 => Act::Start,
        15..22 => Act::Next,
        22 => Act::Close,
        _ => Act::Reopen,
    }
}

/// The lengths of the tables that a call is handed; sometimes one is too short.
fn handed(draw: &mut Draw, n: u16) -> Lengths {
    let mut lengths = right_lengths(n);
    match draw.below(70) {
        0 => shorten(draw, &mut lengths.costs),
        1 => shorten(draw, &mut lengths.standing),
        2 => shorten(draw, &mut lengths.partners),
        3 => shorten(draw, &mut lengths.left),
        4 => shorten(draw, &mut lengths.right),
        5 => shorten(draw, &mut lengths.walk),
        6 => shorten(draw, &mut lengths.marks),
        _ => {}
    }
    lengths
}

fn shorten(draw: &mut Draw, length: &mut usize) {
    *length = draw.below(*length as u64) as usize;
}
