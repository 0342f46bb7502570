//! The pairing as it grows: a start that fits the sheet, then one left block at a time.

ghost use Rattle.std.specs.Prelude.{◌≡◌, ℕ, ◌<◌, ◌≤◌, true, false, List, length};
ghost use Rattle.cost.specs.declared.TheConstants.{COST_LIMIT};
ghost use Rattle.blockset.specs.declared.TheConstants.{MOST_BLOCKS};
ghost use Rattle.blockset.specs.Has.{has};
ghost use Rattle.pairing.specs.Grid.{at, IsPerfect};
ghost use Rattle.pairing.specs.Rows.{holds};
ghost use Rattle.tables.specs.Said.{AreValuesWithin};
ghost use Rattle.assign.specs.Weighed.{SearchTables, weight_at};
ghost use Rattle.assign.specs.Noted.{AreNoted};
ghost use Rattle.matching.specs.Exchange.{without};
ghost use Rattle.assign.specs.Pairs.{so_far, IsPriced, AreChosen};

use crate::growing::grow_from;
use crate::prices::{clear, lower, price_cheapest};
use crate::tree::{Cheapest, FirstPairs, Noted, Tree};
use blockset::{BlockSet, SET_WIDTH};
use cost::Cost;
use matching::{Holders, exchange};

/// The left blocks of the sample that tells which start fits, every eighth one.
const SAMPLED_LEFTS: u64 = 0x0101_0101_0101_0101;

/// So many right blocks are of that sample, the first ones.
const SAMPLED_RIGHTS: usize = 24;

/// Pairs each left block that some right block is cheapest with, with the first such one.
pub fn pair_cheapest(n: usize, cheapest: &Cheapest, partners: &mut [u16]) -> FirstPairs
    requires few { n ≤ MOST_BLOCKS }
    requires sized { length partners.old ≡ n }
    requires inside { (c : ℕ) → has cheapest.now.priced c ≡ true → (c < n)
        × (at cheapest.now.owner c < n) }
    ensures { AreChosen n cheapest.now partners.new result }
{
    let mut out = BlockSet::all(n);
    let mut held = BlockSet::empty();
    let mut owner = [0u8; SET_WIDTH];
    for c in cheapest.priced {
        let l = cheapest.owner[c] as usize;
        if out.contains(l) {
            out.remove(l);
            partners[l] = c as u16;
            held.insert(c);
            owner[c] = l as u8;
        }
    }
    FirstPairs {
        out,
        holders: Holders { held, owner },
    }
}

/// Makes the pairs and prices that the rest starts from. Where right blocks are mostly cheapest
/// with different left blocks, by a sample of both, the pairs that cost least are many, and are
/// made at once. Else they would be few, at prices far from those in the end: then no pair is made,
/// and all prices are zero. Which of the two it is matters for the time alone.
// As a function of its own it leaves the registers of `solve` to the loops that come after it.
#[inline(never)]
pub fn begin<K: Cost>(
    costs: &[K],
    rows: &[BlockSet],
    partners: &mut [u16],
    right: &mut [K],
) -> FirstPairs
    requires lent { SearchTables K.Cost rows.now costs.now }
    requires partnered { length partners.old ≡ length rows.now }
    requires rights { length right.old ≡ length rows.now }
    ensures inside { (l : ℕ) → has result.out l ≡ true → l < length rows.now }
    ensures paired { IsPriced K.Cost rows.now costs.now
        (so_far (has result.out) partners.new result.holders right.new) }
    ensures near { AreValuesWithin K.Cost COST_LIMIT (length rows.now) right.new }
{
    let n = rows.len();
    let all = BlockSet::all(n);
    let from = BlockSet::from_bits(SAMPLED_LEFTS);
    let sample = price_cheapest(costs, rows, from, BlockSet::all(SAMPLED_RIGHTS), right);
    let some = pair_cheapest(n, &sample, partners);

    // More than half of the left blocks of the sample, of which one in eight is.
    if 16 * (n - some.out.len()) > n {
        let cheapest = price_cheapest(costs, rows, all, all, right);
        return pair_cheapest(n, &cheapest, partners);
    }
    clear(right);
    FirstPairs {
        out: all,
        holders: Holders {
            held: BlockSet::empty(),
            owner: [0u8; SET_WIDTH],
        },
    }
}

/// Pairs left block `k` too, along the cheapest way to a free right block. `left` holds the
/// distances meanwhile, and `noted` what one search knows from another.
pub fn pair_row<K: Cost>(
    k: usize,
    costs: &[K],
    rows: &[BlockSet],
    out: BlockSet,
    partners: &mut [u16],
    holders: &mut Holders,
    noted: &mut Noted,
    left: &mut [K],
    right: &mut [K],
)
    requires lent { SearchTables K.Cost rows.now costs.now }
    requires partnered { length partners.old ≡ length rows.now }
    requires lefts { length left.old ≡ length rows.now }
    requires rights { length right.old ≡ length rows.now }
    requires room { k < length rows.now }
    requires noted { AreNoted K.Cost rows.now costs.now (has holders.old.held)
        (weight_at K.Cost right.old) noted.old }
    requires unpaired { has out k ≡ true }
    requires possible { (q : List ℕ) × IsPerfect (length rows.now) (holds rows.now) q }
    requires paired { IsPriced K.Cost rows.now costs.now
        (so_far (has out) partners.old holders.old right.old) }
    ensures paired { IsPriced K.Cost rows.now costs.now
        (so_far (without (has out) k) partners.new holders.new right.new) }
    ensures noted { AreNoted K.Cost rows.now costs.now (has holders.new.held)
        (weight_at K.Cost right.new) noted.new }
{
    let mut tree = Tree::new();
    grow_from(k, costs, rows, holders, right, noted, &mut tree, left);
    let free = tree.free;
    if let Some(goal) = free {
        let fallen = tree.taken.reached.intersection(holders.held);
        lower(goal.key, fallen, holders, left, right);
        exchange(partners, holders, out, &tree.taken, goal.block);
    }
}

/// Pairs the left blocks that are left out, one after the other.
// As functions of their own this one and the last search lie on the stack one after the other.
#[inline(never)]
pub fn pair_rest<K: Cost>(
    costs: &[K],
    rows: &[BlockSet],
    first: FirstPairs,
    partners: &mut [u16],
    left: &mut [K],
    right: &mut [K],
) -> Holders
    requires lent { SearchTables K.Cost rows.now costs.now }
    requires partnered { length partners.old ≡ length rows.now }
    requires lefts { length left.old ≡ length rows.now }
    requires rights { length right.old ≡ length rows.now }
    requires inside { (l : ℕ) → has first.out l ≡ true → l < length rows.now }
    requires possible { (q : List ℕ) × IsPerfect (length rows.now) (holds rows.now) q }
    requires paired { IsPriced K.Cost rows.now costs.now
        (so_far (has first.out) partners.old first.holders right.old) }
    ensures { IsPriced K.Cost rows.now costs.now
        (so_far (λ _. false) partners.new result right.new) }
{
    let FirstPairs {
        mut out,
        mut holders,
    } = first;
    let mut noted = Noted::nothing();
    while let Some(k) = out.least() {
        pair_row(
            k,
            costs,
            rows,
            out,
            partners,
            &mut holders,
            &mut noted,
            left,
            right,
        );
        out.remove(k);
    }
    holders
}
