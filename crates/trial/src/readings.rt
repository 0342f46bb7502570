//! Random lists of readings: the few pairs of small sheets are entered, read and struck, so that
//! most readings are of a pair that stands.

use crate::bench::Bench;
use crate::draw::{Costs, Draw};
use crate::kinds::Trial;
use crate::script::Script;
use session::Act;

/// How many lists are tried.
const LISTS: u64 = 2_000;

/// How many calls a list has.
const CALLS: u64 = 60;

/// The most blocks a plane of a sheet that a list is about.
const BLOCKS: u64 = 3;

pub fn try_readings<K: Trial>(rt: &impl Print, bench: &mut Bench<'_>) -> anyhow::Result<()> {
    for number in 0..LISTS {
        let n = (number % BLOCKS) as u16 + 1;
        let mut script = Script::<K>::new(bench.heap, n)?;
        add_calls(&mut script, bench, costs(number / BLOCKS))?;
        script.compare(rt, &mut bench.tally)?;
        bench.tally.count_list();
    }
    Ok(())
}

/// The costs that a list is about, by its number.
fn costs(number: u64) -> Costs {
    match number % 4 {
        0 => Costs::Tiny,
        1 => Costs::Small,
        2 => Costs::Ends,
        _ => Costs::Wide,
    }
}

fn add_calls<K: Trial>(
    script: &mut Script<K>,
    bench: &mut Bench<'_>,
    costs: Costs,
) -> anyhow::Result<()> {
    for _ in 0..CALLS {
        let act = act(script, &mut bench.draw, costs);
        script.add(bench.orders, act)?;
    }
    Ok(())
}

fn act<K: Trial>(script: &Script<K>, draw: &mut Draw, costs: Costs) -> Act<K> {
    let (left, right) = (draw.block(script.n), draw.block(script.n));
    match draw.below(8) {
        0 => Act::Strike { left, right },
        1 | 2 => Act::Read { left, right },
        _ => {
            let drawn = K::made(draw.columns(costs));
            let cost = script.again(draw, left, right, drawn);
            Act::Enter { left, right, cost }
        }
    }
}
