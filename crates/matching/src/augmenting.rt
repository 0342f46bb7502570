//! A largest pairing, made by pairing one left block more as long as that can be.

ghost use Rattle.std.specs.Prelude.{◌≡◌, ℕ, ◌≤◌, ◌&&◌, ◌||◌, ◌↔◌, length, IsOk, IfOk, IfErr};
ghost use Rattle.std.specs.Prelude.{OnErr, nat_lt, ⊤};
ghost use Rattle.blockset.specs.declared.TheConstants.{MOST_BLOCKS};
ghost use Rattle.blockset.specs.Has.{has};
ghost use Rattle.pairing.specs.Grid.{at};
ghost use Rattle.matching.specs.Fit.{IsFirstCause};
ghost use Rattle.matching.specs.Answers.{PairsMost};

use crate::chains::{Bounds, Holders, exchange, search};
use crate::fitting::Unfit;
use blockset::{BlockSet, MOST_BLOCKS};

/// What `largest` finds.
#[derive(Clone, Copy, Debug, PartialEq, Eq)]
pub enum Found {
    /// The list is a perfect pairing.
    Perfect,
    /// No pairing is perfect: the list is a largest one, which leaves out the left blocks of `out`.
    Short { out: BlockSet, shortfall: Shortfall },
}

/// Why no pairing is perfect. The crowd set has the left blocks that some largest pairing leaves
/// out, bit l for left block l; it is `short` of as many right blocks: that many fewer right blocks
/// stand in any of its rows than it has left blocks.
#[derive(Clone, Copy, Debug, PartialEq, Eq)]
pub struct Shortfall {
    pub crowd: u64,
    pub short: usize,
}

/// The left blocks that are left out or have a right block that was reached.
fn crowd_of(p: &[u16], out: BlockSet, reached: BlockSet) -> BlockSet
    requires small { length p.now ≤ MOST_BLOCKS }
    ensures { (l : ℕ)
        → has result l ≡ (has out l || (nat_lt l (length p.now) && has reached (at p.now l))) }
{
    let mut crowd = out;
    for (l, r) in p.iter().enumerate() {
        if reached.contains(*r as usize) {
            crowd.insert(l);
        }
    }
    crowd
}

/// Makes `p`, whatever it holds, a largest pairing over the rows: a perfect one if there is one.
/// Else the answer says which left blocks it leaves out, at whose places `p` is as it was, and why
/// no pairing is perfect. Right blocks from n on in a row do not matter. This is for a caller that
/// does not know that the sizes fit; one that does calls `pair_most`.
pub fn largest(rows: &[BlockSet], p: &mut [u16]) -> Result<Found, Unfit>
    ensures accepted { IsOk result
        ↔ (length rows.now ≤ MOST_BLOCKS × length p.old ≡ length rows.now) }
    ensures refused { let n = length rows.now in
        IfErr result (IsFirstCause n (length p.old ≡ n) ⊤) }
    ensures found { IfOk result (PairsMost rows.now p.old p.new) }
    ensures kept { OnErr result (p.new ≡ p.old) }
{
    if rows.len() > MOST_BLOCKS as usize {
        Err(Unfit::Size)
    } else if p.len() != rows.len() {
        Err(Unfit::Length)
    } else {
        Ok(pair_most(rows, p))
    }
}

/// What `largest` does, for a caller that knows that the sizes fit: nothing is tested.
///
/// Pairs as many left blocks as can be: as long as a chain leads from a left block that is left out
/// to a free right block, exchanging the pairs along it pairs one more. So there are at most n
/// searches that find one, and a last one in vain.
pub fn pair_most(rows: &[BlockSet], p: &mut [u16]) -> Found
    requires small { length rows.now ≤ MOST_BLOCKS }
    requires sized { length p.old ≡ length rows.now }
    ensures { PairsMost rows.now p.old p.new result }
{
    let all = BlockSet::all(rows.len());
    let mut out = all;
    let mut holders = Holders::new();
    'rounds: loop {
        let goals = all.difference(holders.held);
        let bounds = Bounds {
            roots: out,
            offer: all,
            live: all,
            goals,
        };
        let reach = search(rows, &holders, bounds);
        if let Some(goal) = reach.goal {
            let l = exchange(p, &mut holders, out, &reach, goal);
            out.remove(l);
        } else if out.is_empty() {
            return Found::Perfect;
        } else {
            let crowd = crowd_of(p, out, reach.reached).bits();
            let short = out.len();
            let shortfall = Shortfall { crowd, short };
            return Found::Short { out, shortfall };
        }
    }
}
