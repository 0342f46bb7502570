//! What a left block offers the right blocks that it stands with, and which of them is nearest: the
//! looks that a turn of a search and a step of the row reduction take.
//!
//! Distances are sums and differences of the costs themselves, at most two for each step. So they
//! stay small however often prices change.

ghost use Rattle.std.specs.Prelude.{◌≡◌, ℕ, ◌+◌, ◌<◌, ◌≤◌, true, false, length, MatchOption};
ghost use Rattle.std.specs.Prelude.{◌⊎◌, ◌-ℤ◌, ◌≤ℤ◌, ◌<ℤ◌, ◌≢◌, ◌&&◌, IfSome};
ghost use Rattle.cost.specs.declared.TheConstants.{COST_LIMIT, HALF_RAIL};
ghost use Rattle.blockset.specs.declared.TheConstants.{MOST_BLOCKS};
ghost use Rattle.cost.specs.Columns.{AreWithin};
ghost use Rattle.cost.specs.Weights.{weight};
ghost use Rattle.blockset.specs.Has.{has};
ghost use Rattle.pairing.specs.Grid.{at};
ghost use Rattle.tables.specs.Said.{columns_at, AreValuesWithin};
ghost use Rattle.assign.specs.declared.limits.TheConstants.{DISTANCE_LIMIT, SHIFT_LIMIT};
ghost use Rattle.assign.specs.declared.limits.TheConstants.{INNER_PRICE_LIMIT};
ghost use Rattle.assign.specs.Weighed.{weight_at, BoundedOn};
ghost use Rattle.assign.specs.Offers.{IsOffered, NearestWithKey, FreeFirst, KeyReach, NearestTwo};
ghost use Rattle.assign.specs.Noted.{IsNoted, free_in};
ghost use Rattle.assign.specs.Offers.{Nearer, IsModest, distances, HaveOwners, IsFreeOffered};

use crate::sums::{exact_difference, exact_sum, is_less};
use crate::tree::{Nearby, Noted, TwoNearest};
use blockset::{BlockSet, SET_WIDTH};
use cost::Cost;
use matching::Holders;

/// What a left block offers: to each right block of `to` the distance `shift` plus what the pair
/// costs by `costs`, the row of the left block.
#[derive(Drop)]
pub struct Offer<'a, K> {
    pub from: usize,
    pub costs: &'a [K],
    pub shift: K,
    pub to: BlockSet,
}

/// Makes an offer. A right block that is reached takes it if it is less than the distance it has,
/// and any other takes it whatever it is.
pub fn offer_all<K: Cost>(
    offer: &Offer<'_, K>,
    reached: BlockSet,
    via: &mut [u8; SET_WIDTH],
    dist: &mut [K],
)
    requires modest { IsModest K.Cost offer.now }
    requires sized { length dist.old ≡ length offer.now.costs.now }
    requires inside { (c : ℕ) → has offer.now.to c ≡ true → c < length offer.now.costs.now }
    requires known { BoundedOn K.Cost HALF_RAIL (has reached) dist.old }
    ensures offered { (c : ℕ) → IsOffered K.Cost offer.now (has offer.now.to) (has reached)
        (columns_at K.Cost dist.old) (columns_at K.Cost dist.new) via.old via.new c }
    ensures bound { (b c : ℕ) → AreWithin b (K.meaning offer.now.shift) → b ≤ SHIFT_LIMIT
        → (has offer.now.to c ≡ false → AreWithin (b + COST_LIMIT) (columns_at K.Cost dist.old c))
        → (has reached c ≡ true → AreWithin (b + COST_LIMIT) (columns_at K.Cost dist.old c))
        → AreWithin (b + COST_LIMIT) (columns_at K.Cost dist.new c) }
{
    for c in offer.to {
        let way = exact_sum(offer.shift, offer.costs[c]);
        if !reached.contains(c) || is_less(way, dist[c]) {
            dist[c] = way;
            via[c] = offer.from as u8;
        }
    }
}

/// How far a right block is beyond its price.
fn key_of<K: Cost>(block: usize, dist: &[K], right: &[K]) -> K
    requires sized { length right.now ≡ length dist.now }
    requires inside { block < length dist.now }
    requires far { AreWithin DISTANCE_LIMIT (columns_at K.Cost dist.now block) }
    requires priced { AreWithin INNER_PRICE_LIMIT (columns_at K.Cost right.now block) }
    ensures key { weight (K.meaning result) ≡ weight_at K.Cost dist.now block
        -ℤ weight_at K.Cost right.now block }
    ensures reach { KeyReach K.Cost right.now (columns_at K.Cost dist.now) block result }
{
    exact_difference(dist[block], right[block])
}

/// The right block of a set whose distance is least beyond its price.
pub fn nearest<K: Cost>(set: BlockSet, dist: &[K], right: &[K]) -> Option<Nearby<K>>
    requires sized { length right.now ≡ length dist.now }
    requires inside { (c : ℕ) → has set c ≡ true → c < length dist.now }
    requires far { BoundedOn K.Cost DISTANCE_LIMIT (has set) dist.now }
    requires priced { AreValuesWithin K.Cost INNER_PRICE_LIMIT (length dist.now) right.now }
    ensures { MatchOption result ((c : ℕ) → has set c ≡ false)
        (NearestWithKey K.Cost (has set) right.now (columns_at K.Cost dist.now)) }
{
    let mut block = set.least()?;
    let mut least = key_of(block, dist, right);
    for c in set {
        let key = key_of(c, dist, right);
        if is_less(key, least) {
            block = c;
            least = key;
        }
    }
    Some(Nearby { block, key: least })
}

/// Two right blocks with their keys, the nearer one first.
fn in_order<K: Cost>(a: Nearby<K>, b: Nearby<K>) -> TwoNearest<K>
    requires first { AreWithin HALF_RAIL (K.meaning a.key) }
    requires second { AreWithin HALF_RAIL (K.meaning b.key) }
    ensures order { weight (K.meaning result.near.key) ≤ℤ weight (K.meaning result.next.key) }
    ensures both { ((result.near ≡ a) × (result.next ≡ b))
        ⊎ ((result.near ≡ b) × (result.next ≡ a)) }
{
    if is_less(b.key, a.key) {
        return TwoNearest { near: b, next: a };
    }
    TwoNearest { near: a, next: b }
}

/// The right block of a set whose distance is least beyond its price, and the nearest of the
/// others.
pub fn two_nearest<K: Cost>(set: BlockSet, dist: &[K], right: &[K]) -> Option<TwoNearest<K>>
    requires sized { length right.now ≡ length dist.now }
    requires inside { (c : ℕ) → has set c ≡ true → c < length dist.now }
    requires far { BoundedOn K.Cost DISTANCE_LIMIT (has set) dist.now }
    requires priced { AreValuesWithin K.Cost INNER_PRICE_LIMIT (length dist.now) right.now }
    ensures { MatchOption result
        ((c c' : ℕ) → has set c ≡ true → has set c' ≡ true → c ≡ c')
        (NearestTwo K.Cost (has set) right.now (columns_at K.Cost dist.now)) }
{
    let first = set.least()?;
    let mut rest = set;
    rest.remove(first);
    let second = rest.least()?;
    rest.remove(second);
    let two = in_order(
        Nearby {
            block: first,
            key: key_of(first, dist, right),
        },
        Nearby {
            block: second,
            key: key_of(second, dist, right),
        },
    );
    let mut near = two.near.block;
    let mut near_key = two.near.key;
    let mut next = two.next.block;
    let mut next_key = two.next.key;
    for c in rest {
        let key = key_of(c, dist, right);
        if is_less(key, next_key) {
            if is_less(key, near_key) {
                next = near;
                next_key = near_key;
                near = c;
                near_key = key;
            } else {
                next = c;
                next_key = key;
            }
        }
    }
    Some(TwoNearest::of(near, near_key, next, next_key))
}

/// The nearer one of two right blocks, the first one if both are as near.
pub fn nearer<K: Cost>(first: Option<Nearby<K>>, second: Option<Nearby<K>>) -> Option<Nearby<K>>
    requires first { IfSome first (λ near. AreWithin HALF_RAIL (K.meaning near.key)) }
    requires second { IfSome second (λ near. AreWithin HALF_RAIL (K.meaning near.key)) }
    ensures { Nearer K.Cost first second result }
{
    let Some(a) = first else {
        return second;
    };
    let Some(b) = second else {
        return Some(a);
    };
    if is_less(b.key, a.key) {
        return Some(b);
    }
    Some(a)
}

/// The right block of a set whose distance is least beyond its price; of several such ones a free
/// one, if there is any.
pub fn nearest_free_first<K: Cost>(
    set: BlockSet,
    held: BlockSet,
    dist: &[K],
    right: &[K],
) -> Option<Nearby<K>>
    requires sized { length right.now ≡ length dist.now }
    requires inside { (c : ℕ) → has set c ≡ true → c < length dist.now }
    requires far { BoundedOn K.Cost DISTANCE_LIMIT (has set) dist.now }
    requires priced { AreValuesWithin K.Cost INNER_PRICE_LIMIT (length dist.now) right.now }
    ensures { MatchOption result ((c : ℕ) → has set c ≡ false)
        (λ near. NearestWithKey K.Cost (has set) right.now (columns_at K.Cost dist.now) near
        × FreeFirst (has set) (has held) (weight_at K.Cost right.now)
        (weight_at K.Cost dist.now) near.block) }
{
    let free = nearest(set.difference(held), dist, right);
    let other = nearest(set.intersection(held), dist, right);
    nearer(free, other)
}

/// The nearest of `vacant`, free right blocks that the offer goes to, by what is noted of its left
/// block; where neither of the two that are noted is vacant, all are looked at, and noted anew.
fn nearest_open<K: Cost>(
    offer: &Offer<'_, K>,
    vacant: BlockSet,
    noted: &mut Noted,
    right: &[K],
) -> Option<Nearby<K>>
    requires modest { IsModest K.Cost offer.now }
    requires rights { length right.now ≡ length offer.now.costs.now }
    requires among { (c : ℕ) → has vacant c ≡ true → has offer.now.to c ≡ true }
    requires inside { (c : ℕ) → has vacant c ≡ true → c < length offer.now.costs.now }
    requires priced { AreValuesWithin K.Cost INNER_PRICE_LIMIT (length offer.now.costs.now)
        right.now }
    requires noted { IsNoted (has vacant) (weight_at K.Cost right.now)
        (weight_at K.Cost offer.now.costs.now) (at noted.old.near offer.now.from)
        (at noted.old.next offer.now.from) }
    ensures found { MatchOption result ((c : ℕ) → has vacant c ≡ false)
        (NearestWithKey K.Cost (has vacant) right.now (columns_at K.Cost offer.now.costs.now)) }
    ensures noted { IsNoted (has vacant) (weight_at K.Cost right.now)
        (weight_at K.Cost offer.now.costs.now) (at noted.new.near offer.now.from)
        (at noted.new.next offer.now.from) }
    ensures others { (l : ℕ) → l ≢ offer.now.from → (at noted.new.near l ≡ at noted.old.near l)
        × (at noted.new.next l ≡ at noted.old.next l) }
{
    if vacant.is_empty() {
        return None;
    }
    let l = offer.from;
    let near = noted.near[l] as usize;
    if vacant.contains(near) {
        let key = key_of(near, offer.costs, right);
        return Some(Nearby { block: near, key });
    }
    let next = noted.next[l] as usize;
    if vacant.contains(next) {
        let key = key_of(next, offer.costs, right);
        return Some(Nearby { block: next, key });
    }
    let Some(two) = two_nearest(vacant, offer.costs, right) else {
        return nearest(vacant, offer.costs, right);
    };
    noted.near[l] = two.near.block as u8;
    noted.next[l] = two.next.block as u8;
    Some(two.near)
}

/// Makes an offer to the free ones of its right blocks: `free` is the nearest free right block
/// before, and the answer the nearest one then. `via` tells where it is reached from, and `noted`
/// which free right blocks are near its left block.
pub fn offer_free<K: Cost>(
    offer: &Offer<'_, K>,
    held: BlockSet,
    free: Option<Nearby<K>>,
    noted: &mut Noted,
    via: &mut [u8; SET_WIDTH],
    right: &[K],
) -> Option<Nearby<K>>
    requires modest { IsModest K.Cost offer.now }
    requires rights { length right.now ≡ length offer.now.costs.now }
    requires inside { (c : ℕ) → has offer.now.to c ≡ true → c < length offer.now.costs.now }
    requires priced { AreValuesWithin K.Cost INNER_PRICE_LIMIT (length offer.now.costs.now)
        right.now }
    requires known { IfSome free (λ near. AreWithin HALF_RAIL (K.meaning near.key)) }
    requires noted { IsNoted (free_in (has offer.now.to) (has held)) (weight_at K.Cost right.now)
        (weight_at K.Cost offer.now.costs.now) (at noted.old.near offer.now.from)
        (at noted.old.next offer.now.from) }
    ensures offered { MatchOption result ((free ≡ None) × (via.new ≡ via.old)
        × ((c : ℕ) → has offer.now.to c ≡ true → has held c ≡ true))
        (IsFreeOffered K.Cost offer.now (has held) right.now free via.old via.new) }
    ensures noted { IsNoted (free_in (has offer.now.to) (has held)) (weight_at K.Cost right.now)
        (weight_at K.Cost offer.now.costs.now) (at noted.new.near offer.now.from)
        (at noted.new.next offer.now.from) }
    ensures others { (l : ℕ) → l ≢ offer.now.from → (at noted.new.near l ≡ at noted.old.near l)
        × (at noted.new.next l ≡ at noted.old.next l) }
{
    let Some(near) = nearest_open(offer, offer.to.difference(held), noted, right) else {
        return free;
    };
    let block = near.block;
    let key = exact_sum(offer.shift, near.key);
    if let Some(nearest_yet) = free {
        if !is_less(key, nearest_yet.key) {
            return Some(nearest_yet);
        }
    }
    via[block] = offer.from as u8;
    Some(Nearby { block, key })
}

/// Makes an offer to right blocks that are had and not yet reached.
pub fn offer_first<K: Cost>(
    offer: &Offer<'_, K>,
    holders: &Holders,
    via: &mut [u8; SET_WIDTH],
    dist: &mut [K],
)
    requires modest { IsModest K.Cost offer.now }
    requires inside { (c : ℕ) → has offer.now.to c ≡ true → c < length offer.now.costs.now }
    requires had { (c : ℕ) → has offer.now.to c ≡ true → has holders.now.held c ≡ true }
    requires owners { HaveOwners (length dist.old) holders.now }
    ensures offered { (c : ℕ) → IsOffered K.Cost offer.now (has offer.now.to) (λ _. false)
        (distances K.Cost holders.now dist.old) (distances K.Cost holders.now dist.new) via.old
        via.new c }
    ensures bound { (b c : ℕ) → AreWithin b (K.meaning offer.now.shift) → b ≤ SHIFT_LIMIT
        → (has offer.now.to c ≡ false
        → AreWithin (b + COST_LIMIT) (distances K.Cost holders.now dist.old c))
        → AreWithin (b + COST_LIMIT) (distances K.Cost holders.now dist.new c) }
{
    for c in offer.to {
        let l = holders.owner[c] as usize;
        dist[l] = exact_sum(offer.shift, offer.costs[c]);
        via[c] = offer.from as u8;
    }
}

/// Makes an offer to right block `c` alone, one of the offer's, which is had and reached: it takes
/// the distance if that is less than the one it has. Answers how far it is then.
fn offer_one<K: Cost>(
    c: usize,
    offer: &Offer<'_, K>,
    holders: &Holders,
    via: &mut [u8; SET_WIDTH],
    dist: &mut [K],
) -> K
    requires modest { IsModest K.Cost offer.now }
    requires one_of { has offer.now.to c ≡ true }
    requires inside { c < length offer.now.costs.now }
    requires had { has holders.now.held c ≡ true }
    requires owners { HaveOwners (length dist.old) holders.now }
    requires known { AreWithin HALF_RAIL (distances K.Cost holders.now dist.old c) }
    ensures offered { IsOffered K.Cost offer.now (has offer.now.to) (λ _. true)
        (distances K.Cost holders.now dist.old) (distances K.Cost holders.now dist.new) via.old
        via.new c }
    ensures others { (j : ℕ) → j ≢ c → (distances K.Cost holders.now dist.new j
        ≡ distances K.Cost holders.now dist.old j) × (at via.new j ≡ at via.old j) }
    ensures answer { K.meaning result ≡ distances K.Cost holders.now dist.new c }
    ensures nearer { (distances K.Cost holders.now dist.new c
        ≡ distances K.Cost holders.now dist.old c)
        ⊎ (weight (distances K.Cost holders.now dist.new c)
        <ℤ weight (distances K.Cost holders.now dist.old c)) }
    ensures bound { (b : ℕ) → AreWithin b (K.meaning offer.now.shift) → b ≤ SHIFT_LIMIT
        → AreWithin (b + COST_LIMIT) (distances K.Cost holders.now dist.old c)
        → AreWithin (b + COST_LIMIT) (distances K.Cost holders.now dist.new c) }
{
    let l = holders.owner[c] as usize;
    let far = dist[l];
    let way = exact_sum(offer.shift, offer.costs[c]);
    if !is_less(way, far) {
        return far;
    }
    dist[l] = way;
    via[c] = offer.from as u8;
    way
}

/// How far a right block that is had is beyond its price.
fn key_held<K: Cost>(block: usize, holders: &Holders, dist: &[K], right: &[K]) -> K
    requires inside { block < length right.now }
    requires had { has holders.now.held block ≡ true }
    requires owners { HaveOwners (length dist.now) holders.now }
    requires far { AreWithin DISTANCE_LIMIT (distances K.Cost holders.now dist.now block) }
    requires priced { AreWithin INNER_PRICE_LIMIT (columns_at K.Cost right.now block) }
    ensures key { weight (K.meaning result)
        ≡ weight (distances K.Cost holders.now dist.now block) -ℤ weight_at K.Cost right.now block }
    ensures reach { KeyReach K.Cost right.now (distances K.Cost holders.now dist.now) block result }
{
    let l = holders.owner[block] as usize;
    exact_difference(dist[l], right[block])
}

/// Makes an offer to its right blocks, all of which are had and reached, and answers which one of
/// them is nearest then: so each of them is looked at once.
pub fn offer_and_find<K: Cost>(
    offer: &Offer<'_, K>,
    holders: &Holders,
    via: &mut [u8; SET_WIDTH],
    dist: &mut [K],
    right: &[K],
) -> Option<Nearby<K>>
    requires modest { IsModest K.Cost offer.now }
    requires rights { length right.now ≡ length offer.now.costs.now }
    requires inside { (c : ℕ) → has offer.now.to c ≡ true → c < length offer.now.costs.now }
    requires had { (c : ℕ) → has offer.now.to c ≡ true → has holders.now.held c ≡ true }
    requires owners { HaveOwners (length dist.old) holders.now }
    requires far { (c : ℕ) → has offer.now.to c ≡ true
        → AreWithin DISTANCE_LIMIT (distances K.Cost holders.now dist.old c) }
    requires priced { AreValuesWithin K.Cost INNER_PRICE_LIMIT (length offer.now.costs.now)
        right.now }
    ensures offered { (c : ℕ) → IsOffered K.Cost offer.now (has offer.now.to) (λ _. true)
        (distances K.Cost holders.now dist.old) (distances K.Cost holders.now dist.new) via.old
        via.new c }
    ensures others { (c : ℕ) → has offer.now.to c ≡ false
        → distances K.Cost holders.now dist.new c ≡ distances K.Cost holders.now dist.old c }
    ensures bound { (b c : ℕ) → AreWithin b (K.meaning offer.now.shift) → b ≤ SHIFT_LIMIT
        → AreWithin (b + COST_LIMIT) (distances K.Cost holders.now dist.old c)
        → AreWithin (b + COST_LIMIT) (distances K.Cost holders.now dist.new c) }
    ensures found { MatchOption result ((c : ℕ) → has offer.now.to c ≡ false)
        (NearestWithKey K.Cost (has offer.now.to) right.now
        (distances K.Cost holders.now dist.new)) }
{
    let mut block = offer.to.least()?;
    let mut lowest = key_held(block, holders, dist, right);
    for c in offer.to {
        let far = offer_one(c, offer, holders, via, dist);
        let key = exact_difference(far, right[c]);
        if is_less(key, lowest) {
            block = c;
            lowest = key;
        }
    }
    Some(Nearby { block, key: lowest })
}

/// The right block of a set, all of which are had, whose distance is least beyond its price.
fn nearest_held<K: Cost>(
    set: BlockSet,
    holders: &Holders,
    dist: &[K],
    right: &[K],
) -> Option<Nearby<K>>
    requires inside { (c : ℕ) → has set c ≡ true → c < length right.now }
    requires had { (c : ℕ) → has set c ≡ true → has holders.now.held c ≡ true }
    requires owners { HaveOwners (length dist.now) holders.now }
    requires far { (c : ℕ) → has set c ≡ true
        → AreWithin DISTANCE_LIMIT (distances K.Cost holders.now dist.now c) }
    requires priced { AreValuesWithin K.Cost INNER_PRICE_LIMIT (length right.now) right.now }
    ensures { MatchOption result ((c : ℕ) → has set c ≡ false)
        (NearestWithKey K.Cost (has set) right.now (distances K.Cost holders.now dist.now)) }
{
    let mut block = set.least()?;
    let mut least = key_held(block, holders, dist, right);
    for c in set {
        let key = key_held(c, holders, dist, right);
        if is_less(key, least) {
            block = c;
            least = key;
        }
    }
    Some(Nearby { block, key: least })
}

/// Makes an offer to those of its right blocks that are had, and answers which one of `rest` is
/// nearest then. All of `rest` are had, and each is reached, or is now.
pub fn offer_held<K: Cost>(
    offer: &Offer<'_, K>,
    reached: BlockSet,
    rest: BlockSet,
    holders: &Holders,
    via: &mut [u8; SET_WIDTH],
    dist: &mut [K],
    right: &[K],
) -> Option<Nearby<K>>
    requires modest { IsModest K.Cost offer.now }
    requires rights { length right.now ≡ length offer.now.costs.now }
    requires inside { (c : ℕ) → has rest c ≡ true → c < length offer.now.costs.now }
    requires had { (c : ℕ) → has rest c ≡ true → has holders.now.held c ≡ true }
    requires owners { HaveOwners (length dist.old) holders.now }
    requires waiting { (c : ℕ) → has offer.now.to c ≡ true → has holders.now.held c ≡ true
        → has rest c ≡ true }
    requires come_to { (c : ℕ) → has rest c ≡ true → has offer.now.to c ≡ false
        → has reached c ≡ true }
    requires known { (c : ℕ) → has rest c ≡ true → has reached c ≡ true
        → AreWithin DISTANCE_LIMIT (distances K.Cost holders.now dist.old c) }
    requires priced { AreValuesWithin K.Cost INNER_PRICE_LIMIT (length offer.now.costs.now)
        right.now }
    ensures offered { (c : ℕ) → IsOffered K.Cost offer.now
        (λ k. has offer.now.to k && has holders.now.held k) (has reached)
        (distances K.Cost holders.now dist.old) (distances K.Cost holders.now dist.new) via.old
        via.new c }
    ensures bound { (b c : ℕ) → AreWithin b (K.meaning offer.now.shift) → b ≤ SHIFT_LIMIT
        → (has offer.now.to c ≡ false
        → AreWithin (b + COST_LIMIT) (distances K.Cost holders.now dist.old c))
        → (has reached c ≡ true
        → AreWithin (b + COST_LIMIT) (distances K.Cost holders.now dist.old c))
        → has holders.now.held c ≡ true
        → AreWithin (b + COST_LIMIT) (distances K.Cost holders.now dist.new c) }
    ensures found { MatchOption result ((c : ℕ) → has rest c ≡ false)
        (NearestWithKey K.Cost (has rest) right.now (distances K.Cost holders.now dist.new)) }
{
    let to = offer.to.intersection(holders.held);
    let fresh = Offer {
        to: to.difference(reached),
        ..*offer
    };
    offer_first(&fresh, holders, via, dist);
    let known = Offer {
        to: to.intersection(reached),
        ..*offer
    };
    // A loop for those that the offer goes to and one for the others, so that neither asks of a
    // right block whether the offer goes to it.
    let near = offer_and_find(&known, holders, via, dist, right);
    let others = rest.difference(known.to);
    let other = nearest_held(others, holders, dist, right);
    nearer(near, other)
}
