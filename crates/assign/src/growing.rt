//! The search for the cheapest way from a left block to a free right block, along alternating
//! chains: turn by turn the nearest right block is taken, and its left block is looked at.
//!
//! A right block that is had lies as far as the left block that has it, so the distances are a
//! table over left blocks. Of the free right blocks only the nearest matters, since the search ends
//! with the first free one that is taken.

ghost use Rattle.std.specs.Prelude.{◌≡◌, ℕ, ◌<◌, true, false, length, replicate};
ghost use Rattle.cost.specs.declared.TheConstants.{COST_LIMIT};
ghost use Rattle.cost.specs.Columns.{AreWithin};
ghost use Rattle.blockset.specs.Has.{has};
ghost use Rattle.pairing.specs.Grid.{at};
ghost use Rattle.pairing.specs.Rows.{holds};
ghost use Rattle.tables.specs.Said.{AreValuesWithin};
ghost use Rattle.assign.specs.declared.limits.TheConstants.{INNER_PRICE_LIMIT};
ghost use Rattle.assign.specs.Weighed.{SearchTables, graph, weight_at};
ghost use Rattle.assign.specs.Noted.{AreNoted};
ghost use Rattle.assign.specs.Offers.{distances, HaveOwners};
ghost use Rattle.assign.specs.Search.{Start, from_row, from_all};
ghost use Rattle.assign.specs.Trees.{begun_in, IsUntaken, IsFresh, HasFree, HasNext};
ghost use Rattle.assign.specs.Trees.{Begins, HasCome, HasEnded};

use crate::search::{Offer, nearer, nearest, offer_free, offer_held};
use crate::sums::exact_difference;
use crate::tree::{Nearby, Noted, Tree};
use blockset::BlockSet;
use cost::Cost;
use matching::Holders;

/// Takes right blocks by their distance beyond their price, up to the first that is free. It goes
/// on from what `tree` has come to before the first turn, of which nothing is taken and `next` is
/// the nearest one that is had, at the distances in `dist`. `noted` tells of each left block which
/// free right blocks are near.
pub fn grow<K: Cost>(
    costs: &[K],
    rows: &[BlockSet],
    holders: &Holders,
    right: &[K],
    next: Option<Nearby<K>>,
    noted: &mut Noted,
    tree: &mut Tree<K>,
    dist: &mut [K],
)
    requires lent { SearchTables K.Cost rows.now costs.now }
    requires rights { length right.now ≡ length rows.now }
    requires dists { length dist.old ≡ length rows.now }
    requires fresh { IsUntaken tree.old.taken }
    requires inside { (c : ℕ) → has tree.old.seen c ≡ true → c < length rows.now }
    requires owners { HaveOwners (length rows.now) holders.now }
    requires own { (c : ℕ) → has holders.now.held c ≡ true
        → holds rows.now (at holders.now.owner c) c ≡ true }
    requires near { (c : ℕ) → has tree.old.seen c ≡ true → has holders.now.held c ≡ true
        → AreWithin COST_LIMIT (distances K.Cost holders.now dist.old c) }
    requires priced { AreValuesWithin K.Cost INNER_PRICE_LIMIT (length rows.now) right.now }
    requires free { HasFree K.Cost holders.now right.now (has tree.old.seen) tree.old.free }
    requires next { HasNext K.Cost holders.now right.now dist.old (has tree.old.seen) (λ _. false)
        next }
    requires noted { AreNoted K.Cost rows.now costs.now (has holders.now.held)
        (weight_at K.Cost right.now) noted.old }
    ensures grown { (start : Start)
        → Begins K.Cost rows.now costs.now holders.now right.now start (begun_in tree.old next)
        dist.old
        → HasCome K.Cost rows.now costs.now holders.now right.now start tree.new dist.new }
    ensures ended { HasEnded K.Cost (length rows.now) holders.now right.now dist.new tree.new }
    ensures noted { AreNoted K.Cost rows.now costs.now (has holders.now.held)
        (weight_at K.Cost right.now) noted.new }
{
    let n = rows.len();
    let mut seen = tree.seen;
    let mut free = tree.free;
    let mut next = next;
    for t in 0..n {
        let Some(near) = nearer(free, next) else {
            tree.keep(seen, free);
            return;
        };
        let a = near.block;
        tree.taken.reached.insert(a);
        tree.taken.rank[a] = t as u8;
        if !holders.held.contains(a) {
            tree.taken.goal = Some(a);
            tree.keep(seen, free);
            return;
        }
        let l = holders.owner[a] as usize;
        let to = rows[l].difference(tree.taken.reached);
        let row = &costs[l * n..l * n + n];
        let offer = Offer {
            from: l,
            costs: row,
            shift: exact_difference(dist[l], row[a]),
            to,
        };
        let reached = seen;
        seen = reached.union(to);
        let rest = seen
            .intersection(holders.held)
            .difference(tree.taken.reached);
        let via = &mut tree.taken.from;
        free = offer_free(&offer, holders.held, free, noted, via, right);
        next = offer_held(&offer, reached, rest, holders, via, dist, right);
    }
    tree.keep(seen, free);
}

/// Searches from left block `k` for the cheapest way to a free right block, whatever the distances
/// were before. `tree` has come to nothing yet, and holds the search in the end.
pub fn grow_from<K: Cost>(
    k: usize,
    costs: &[K],
    rows: &[BlockSet],
    holders: &Holders,
    right: &[K],
    noted: &mut Noted,
    tree: &mut Tree<K>,
    dist: &mut [K],
)
    requires lent { SearchTables K.Cost rows.now costs.now }
    requires rights { length right.now ≡ length rows.now }
    requires dists { length dist.old ≡ length rows.now }
    requires fresh { IsFresh tree.old }
    requires room { k < length rows.now }
    requires owners { HaveOwners (length rows.now) holders.now }
    requires own { (c : ℕ) → has holders.now.held c ≡ true
        → holds rows.now (at holders.now.owner c) c ≡ true }
    requires priced { AreValuesWithin K.Cost INNER_PRICE_LIMIT (length rows.now) right.now }
    requires noted { AreNoted K.Cost rows.now costs.now (has holders.now.held)
        (weight_at K.Cost right.now) noted.old }
    ensures grown { HasCome K.Cost rows.now costs.now holders.now right.now
        (from_row (graph K.Cost rows.now costs.now) k) tree.new dist.new }
    ensures ended { HasEnded K.Cost (length rows.now) holders.now right.now dist.new tree.new }
    ensures noted { AreNoted K.Cost rows.now costs.now (has holders.now.held)
        (weight_at K.Cost right.now) noted.new }
{
    let n = rows.len();
    let seen = rows[k];
    let offer = Offer {
        from: k,
        costs: &costs[k * n..k * n + n],
        shift: K::zero(),
        to: seen,
    };
    tree.seen = seen;
    let via = &mut tree.taken.from;
    tree.free = offer_free(&offer, holders.held, None, noted, via, right);
    let rest = seen.intersection(holders.held);
    let none = BlockSet::empty();
    let next = offer_held(&offer, none, rest, holders, via, dist, right);
    grow(costs, rows, holders, right, next, noted, tree, dist);
}

/// Searches from an imagined left block that offers all right blocks, each of which is had, the
/// distance zero, which every left block has in `dist`. `tree` has come to nothing yet, and holds
/// the search in the end.
pub fn grow_all<K: Cost>(
    costs: &[K],
    rows: &[BlockSet],
    holders: &Holders,
    right: &[K],
    tree: &mut Tree<K>,
    dist: &mut [K],
)
    requires lent { SearchTables K.Cost rows.now costs.now }
    requires rights { length right.now ≡ length rows.now }
    requires fresh { IsFresh tree.old }
    requires cleared { dist.old ≡ replicate (length rows.now) K.zero }
    requires owners { HaveOwners (length rows.now) holders.now }
    requires own { (c : ℕ) → has holders.now.held c ≡ true
        → holds rows.now (at holders.now.owner c) c ≡ true }
    requires all { (c : ℕ) → c < length rows.now → has holders.now.held c ≡ true }
    requires priced { AreValuesWithin K.Cost INNER_PRICE_LIMIT (length rows.now) right.now }
    ensures grown { HasCome K.Cost rows.now costs.now holders.now right.now from_all tree.new
        dist.new }
    ensures ended { HasEnded K.Cost (length rows.now) holders.now right.now dist.new tree.new }
{
    let seen = BlockSet::all(rows.len());
    tree.seen = seen;

    // Where all distances are zero, those of right blocks are read as well as those of left ones.
    let next = nearest(seen, dist, right);
    let mut noted = Noted::nothing();
    grow(costs, rows, holders, right, next, &mut noted, tree, dist);
}
