//! Augmenting row reduction: before the searches, left blocks that are left out take right blocks
//! from one another, and the prices fall by what makes up for it. That pairs most of them at the
//! price of a look at the right blocks that each stands with.

ghost use Rattle.std.specs.Prelude.{◌≡◌, ℕ, ◌+◌, ◌*◌, ◌<◌, ◌≤◌, true, length, ℤ, ◌||◌, ◌==◌};
ghost use Rattle.std.specs.Prelude.{MatchBool, IfSome};
ghost use Rattle.cost.specs.declared.TheConstants.{COST_LIMIT};
ghost use Rattle.blockset.specs.declared.TheConstants.{MOST_BLOCKS};
ghost use Rattle.blockset.specs.Has.{has};
ghost use Rattle.matching.specs.Exchange.{GivesDistinct, AreHolders};
ghost use Rattle.tables.specs.Said.{AreValuesWithin, columns_at};
ghost use Rattle.assign.specs.declared.limits.TheConstants.{INNER_PRICE_LIMIT, REDUCED_LIMIT};
ghost use Rattle.assign.specs.Weighed.{weight_at, BoundedOn, SearchTables};
ghost use Rattle.assign.specs.Offers.{NearestWithKey};
ghost use Rattle.assign.specs.Pairs.{so_far, IsPriced};
ghost use Rattle.assign.specs.Bids.{HasNoHeldBid, IsBidFound, IsPricedNear, IsSeated, HasNoBid};
ghost use Rattle.assign.specs.Bids.{IsReduced, HasGoneOn, HasHadFirstTurn};

use crate::search::{nearest, nearest_free_first, two_nearest};
use crate::sums::{exact_difference, is_less};
use crate::tree::{Bid, FirstPairs, Nearby, TwoNearest};
use blockset::BlockSet;
use cost::Cost;
use matching::Holders;

/// A free right block of `to` that no other is nearer than, at its price. No held one can be taken.
fn bid_for_free<K: Cost>(to: BlockSet, held: BlockSet, costs: &[K], right: &[K]) -> Option<Bid<K>>
    requires sized { length right.now ≡ length costs.now }
    requires inside { (c : ℕ) → has to c ≡ true → c < length costs.now }
    requires modest { BoundedOn K.Cost COST_LIMIT (has to) costs.now }
    requires priced { AreValuesWithin K.Cost INNER_PRICE_LIMIT (length costs.now) right.now }
    requires no_held { HasNoHeldBid K.Cost (has to) (has held) costs.now right.now }
    ensures bid { IsBidFound K.Cost (has to) (has held) costs.now right.now result }
    ensures bound { IfSome result (IsPricedNear K.Cost (length costs.now) right.now) }
{
    let near = nearest_free_first(to, held, costs, right)?;
    let block = near.block;
    if held.contains(block) {
        return None;
    }
    Some(Bid {
        block,
        price: right[block],
    })
}

/// A free right block of `to` that is as near as `near`, the nearest, at its price. No held one can
/// be taken.
fn bid_as_near<K: Cost>(
    near: Nearby<K>,
    to: BlockSet,
    held: BlockSet,
    costs: &[K],
    right: &[K],
) -> Option<Bid<K>>
    requires sized { length right.now ≡ length costs.now }
    requires inside { (c : ℕ) → has to c ≡ true → c < length costs.now }
    requires modest { BoundedOn K.Cost COST_LIMIT (has to) costs.now }
    requires priced { AreValuesWithin K.Cost INNER_PRICE_LIMIT (length costs.now) right.now }
    requires near { NearestWithKey K.Cost (has to) right.now (columns_at K.Cost costs.now) near }
    requires no_held { HasNoHeldBid K.Cost (has to) (has held) costs.now right.now }
    ensures bid { IsBidFound K.Cost (has to) (has held) costs.now right.now result }
    ensures bound { IfSome result (IsPricedNear K.Cost (length costs.now) right.now) }
{
    let free = nearest(to.difference(held), costs, right)?;
    if is_less(near.key, free.key) {
        return None;
    }
    let block = free.block;
    Some(Bid {
        block,
        price: right[block],
    })
}

/// The right block of `to` that a left block with these costs takes, and the price that it has
/// then: a free one that no other is nearer than, or one that is nearer than any other.
pub fn find_bid<K: Cost>(costs: &[K], to: BlockSet, held: BlockSet, right: &[K]) -> Option<Bid<K>>
    requires sized { length right.now ≡ length costs.now }
    requires inside { (c : ℕ) → has to c ≡ true → c < length costs.now }
    requires modest { BoundedOn K.Cost COST_LIMIT (has to) costs.now }
    requires priced { AreValuesWithin K.Cost INNER_PRICE_LIMIT (length costs.now) right.now }
    ensures bid { IsBidFound K.Cost (has to) (has held) costs.now right.now result }
    ensures bound { IfSome result (IsPricedNear K.Cost (length costs.now) right.now) }
{
    let Some(TwoNearest { near, next }) = two_nearest(to, costs, right) else {
        return bid_for_free(to, held, costs, right);
    };
    let block = near.block;
    if !held.contains(block) {
        return Some(Bid {
            block,
            price: right[block],
        });
    }
    if is_less(near.key, next.key) {
        let price = exact_difference(costs[block], next.key);
        return Some(Bid { block, price });
    }
    bid_as_near(near, to, held, costs, right)
}

/// Gives right block `c` to left block `l`, which is left out. A left block that had it is left out
/// instead.
fn seat(l: usize, c: usize, out: &mut BlockSet, partners: &mut [u16], holders: &mut Holders)
    requires few { length partners.old ≤ MOST_BLOCKS }
    requires room { l < length partners.old }
    requires below { c < length partners.old }
    requires left_out { has out.old l ≡ true }
    requires inside { (m : ℕ) → has out.old m ≡ true → m < length partners.old }
    requires distinct { GivesDistinct (length partners.old) partners.old (has out.old) }
    requires told { AreHolders 0 partners.old (has out.old) holders.old }
    ensures seated { IsSeated (length partners.old) (has out.old) partners.old l c (has out.new)
        partners.new }
    ensures told { AreHolders 0 partners.new (has out.new) holders.new }
    ensures held { (j : ℕ) → has holders.new.held j ≡ (j == c || has holders.old.held j) }
{
    let was_held = holders.held.contains(c);
    let owner = holders.owner[c] as usize;
    partners[l] = c as u16;
    holders.held.insert(c);
    holders.owner[c] = l as u8;
    out.remove(l);
    if was_held {
        out.insert(owner);
    }
}

/// Left block `l`, which is left out, takes the right block that it bids for, if there is one, from
/// whoever has it. Answers whether it did; else all stays as it was.
pub fn reduce_row<K: Cost>(
    l: usize,
    costs: &[K],
    rows: &[BlockSet],
    out: &mut BlockSet,
    partners: &mut [u16],
    holders: &mut Holders,
    right: &mut [K],
) -> bool
    requires lent { SearchTables K.Cost rows.now costs.now }
    requires partnered { length partners.old ≡ length rows.now }
    requires rights { length right.old ≡ length rows.now }
    requires left_out { has out.old l ≡ true }
    requires inside { (m : ℕ) → has out.old m ≡ true → m < length rows.now }
    requires paired { IsPriced K.Cost rows.now costs.now
        (so_far (has out.old) partners.old holders.old right.old) }
    requires near { AreValuesWithin K.Cost REDUCED_LIMIT (length rows.now) right.old }
    ensures reduced { let old = so_far (has out.old) partners.old holders.old right.old in
        let new = so_far (has out.new) partners.new holders.new right.new in
        MatchBool result (IsReduced K.Cost rows.now costs.now l old new)
        (HasNoBid K.Cost rows.now costs.now old l × ((out.new ≡ out.old)
        × (partners.new ≡ partners.old) × (holders.new ≡ holders.old) × (right.new ≡ right.old))) }
    ensures goes_on { HasGoneOn K.Cost (so_far (has out.old) partners.old holders.old right.old)
        (so_far (has out.new) partners.new holders.new right.new) }
    ensures inside { (m : ℕ) → has out.new m ≡ true → m < length rows.now }
    ensures paired { IsPriced K.Cost rows.now costs.now
        (so_far (has out.new) partners.new holders.new right.new) }
    ensures bound { (b : ℕ) → AreValuesWithin K.Cost b (length rows.now) right.old
        → b ≤ REDUCED_LIMIT
        → AreValuesWithin K.Cost (b + 2 * COST_LIMIT) (length rows.now) right.new }
{
    let n = rows.len();
    let row = &costs[l * n..l * n + n];
    let Some(bid) = find_bid(row, rows[l], holders.held, right) else {
        return false;
    };
    right[bid.block] = bid.price;
    seat(l, bid.block, out, partners, holders);
    true
}

/// Lets the left blocks that are left out take right blocks, the least one first, for two steps
/// for each left block; for a fourth of these if more than three quarters of them are left out
/// then. One that has nothing to bid for is set aside. No right block is let go, no price rises,
/// and the first left block has its turn. How many are left out then is not promised: the searches
/// pair all of them.
pub fn reduce_rows<K: Cost>(
    costs: &[K],
    rows: &[BlockSet],
    first: FirstPairs,
    partners: &mut [u16],
    right: &mut [K],
) -> FirstPairs
    requires lent { SearchTables K.Cost rows.now costs.now }
    requires partnered { length partners.old ≡ length rows.now }
    requires rights { length right.old ≡ length rows.now }
    requires inside { (l : ℕ) → has first.out l ≡ true → l < length rows.now }
    requires paired { IsPriced K.Cost rows.now costs.now
        (so_far (has first.out) partners.old first.holders right.old) }
    requires near { AreValuesWithin K.Cost COST_LIMIT (length rows.now) right.old }
    ensures goes_on { HasGoneOn K.Cost
        (so_far (has first.out) partners.old first.holders right.old)
        (so_far (has result.out) partners.new result.holders right.new) }
    ensures begun { HasHadFirstTurn K.Cost rows.now costs.now first.out
        (so_far (has first.out) partners.old first.holders right.old)
        (so_far (has result.out) partners.new result.holders right.new) }
    ensures inside { (l : ℕ) → has result.out l ≡ true → l < length rows.now }
    ensures paired { IsPriced K.Cost rows.now costs.now
        (so_far (has result.out) partners.new result.holders right.new) }
{
    let FirstPairs {
        mut out,
        mut holders,
    } = first;
    let n = rows.len();
    let mut aside = BlockSet::empty();
    for step in 0..2 * n {
        // Most of them bid for the same few right blocks, and the prices fall by little each time.
        if step > n / 2 && out.len() > n - n / 4 {
            return FirstPairs { out, holders };
        }
        let Some(l) = out.difference(aside).least() else {
            return FirstPairs { out, holders };
        };
        if !reduce_row(l, costs, rows, &mut out, partners, &mut holders, right) {
            aside.insert(l);
        }
    }
    FirstPairs { out, holders }
}
