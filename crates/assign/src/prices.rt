//! Prices of the right blocks: those to begin with, how they fall as left blocks are paired, and
//! the greatest ones at the end.

ghost use Rattle.std.specs.Prelude.{◌≡◌, ℕ, ◌<◌, true, false, length, replicate, ◌+ℤ◌, ◌&&◌};
ghost use Rattle.std.specs.Prelude.{IsTrue, ◌↔◌, All};
ghost use Rattle.cost.specs.declared.TheConstants.{COST_LIMIT, PRICE_LIMIT};
ghost use Rattle.cost.specs.Columns.{AreWithin, zeros};
ghost use Rattle.blockset.specs.Has.{has};
ghost use Rattle.cost.specs.Weights.{weight};
ghost use Rattle.pairing.specs.Grid.{at, IsPerfect};
ghost use Rattle.pairing.specs.Rows.{holds};
ghost use Rattle.tables.specs.Said.{AreValuesWithin, columns_at};
ghost use Rattle.assign.specs.declared.limits.TheConstants.{DISTANCE_LIMIT, LEFT_PRICE_LIMIT};
ghost use Rattle.assign.specs.declared.limits.TheConstants.{INNER_PRICE_LIMIT};
ghost use Rattle.assign.specs.Weighed.{weight_at, cost_weight, SearchTables};
ghost use Rattle.assign.specs.Offers.{distances, HaveOwners};
ghost use Rattle.assign.specs.Pairs.{so_far, IsPriced, AreCheapest};
ghost use Rattle.assign.specs.Prices.{Topmost};

use crate::growing::grow_all;
use crate::search::{Offer, offer_all};
use crate::sums::exact_difference;
use crate::tree::{Cheapest, Tree};
use blockset::{BlockSet, SET_WIDTH};
use cost::Cost;
use matching::Holders;
use tables::fill;

/// Writes zero everywhere.
pub fn clear<K: Cost>(table: &mut [K])
    ensures { table.new ≡ replicate (length table.old) K.zero }
{
    fill(table, K::zero());
}

/// The right blocks of `to` that left block `l` stands with, if it is one of `from`.
fn row_between(l: usize, rows: &[BlockSet], from: BlockSet, to: BlockSet) -> BlockSet
    requires { l < length rows.now }
    ensures { (c : ℕ) → has result c ≡ (holds rows.now l c && (has from l && has to c)) }
{
    if from.contains(l) {
        return rows[l].intersection(to);
    }
    BlockSet::empty()
}

/// Makes the price of each right block of `to` the least cost that it stands at with a left block
/// of `from`.
pub fn price_cheapest<K: Cost>(
    costs: &[K],
    rows: &[BlockSet],
    from: BlockSet,
    to: BlockSet,
    right: &mut [K],
) -> Cheapest
    requires lent { SearchTables K.Cost rows.now costs.now }
    requires rights { length right.old ≡ length rows.now }
    ensures cheapest { AreCheapest (length rows.now) (length rows.now)
        (λ l c. holds rows.now l c && (has from l && has to c))
        (cost_weight K.Cost (length rows.now) costs.now) result (weight_at K.Cost right.new) }
    ensures bound { AreValuesWithin K.Cost COST_LIMIT (length rows.now) right.new }
{
    clear(right);
    let n = rows.len();
    let mut priced = BlockSet::empty();
    let mut owner = [0u8; SET_WIDTH];
    for l in 0..n {
        let row = row_between(l, rows, from, to);
        let offer = Offer {
            from: l,
            costs: &costs[l * n..l * n + n],
            shift: K::zero(),
            to: row,
        };
        offer_all(&offer, priced, &mut owner, right);
        priced = priced.union(row);
    }
    Cheapest { priced, owner }
}

/// Lowers the price of each right block of `taken`, all of which are had, to its distance short of
/// `far`, so that every step of the search becomes tight.
pub fn lower<K: Cost>(far: K, taken: BlockSet, holders: &Holders, dist: &[K], right: &mut [K])
    requires owners { HaveOwners (length dist.now) holders.now }
    requires inside { (c : ℕ) → has taken c ≡ true → c < length right.old }
    requires had { (c : ℕ) → has taken c ≡ true → has holders.now.held c ≡ true }
    requires near { (c : ℕ) → has taken c ≡ true
        → AreWithin DISTANCE_LIMIT (distances K.Cost holders.now dist.now c) }
    requires goal { AreWithin LEFT_PRICE_LIMIT (K.meaning far) }
    requires priced { AreValuesWithin K.Cost INNER_PRICE_LIMIT (length right.old) right.old }
    ensures fallen { (c : ℕ) → has taken c ≡ true
        → weight_at K.Cost right.new c +ℤ weight (K.meaning far)
        ≡ weight (distances K.Cost holders.now dist.now c) }
    ensures same { (c : ℕ) → has taken c ≡ false
        → columns_at K.Cost right.new c ≡ columns_at K.Cost right.old c }
    ensures bound { AreValuesWithin K.Cost INNER_PRICE_LIMIT (length right.old) right.new }
{
    for c in taken {
        let l = holders.owner[c] as usize;
        right[c] = exact_difference(dist[l], far);
    }
}

/// Makes the price of each right block the distance of the left block that has it, and that of each
/// left block what its pair costs beyond.
fn price_pairs<K: Cost>(
    costs: &[K],
    rows: &[BlockSet],
    partners: &[u16],
    left: &mut [K],
    right: &mut [K],
)
    requires lent { SearchTables K.Cost rows.now costs.now }
    requires perfect { IsPerfect (length rows.now) (holds rows.now) partners.now }
    requires lefts { length left.old ≡ length rows.now }
    requires rights { length right.old ≡ length rows.now }
    requires far { AreValuesWithin K.Cost DISTANCE_LIMIT (length rows.now) left.old }
    ensures moved { (l : ℕ) → l < length rows.now
        → columns_at K.Cost right.new (at partners.now l) ≡ columns_at K.Cost left.old l }
    ensures tight { (l : ℕ) → l < length rows.now → weight_at K.Cost left.new l
        +ℤ weight_at K.Cost right.new (at partners.now l) ≡ cost_weight K.Cost
        (length rows.now) costs.now l (at partners.now l) }
    ensures bound { AreValuesWithin K.Cost LEFT_PRICE_LIMIT (length rows.now) left.new }
{
    let n = rows.len();
    for l in 0..n {
        let c = partners[l] as usize;
        let price = left[l];
        right[c] = price;
        left[l] = exact_difference(costs[l * n + c], price);
    }
}

/// Whether a value is zero in each column.
fn is_zero<K: Cost>(value: K) -> bool
    ensures { IsTrue result ↔ (K.meaning value ≡ zeros K.Cost.columns) }
{
    value.is_equal_near(K::zero())
}

/// Whether every right price is zero in each column, which is the greatest that one may be.
fn are_zero<K: Cost>(right: &[K]) -> bool
    ensures { IsTrue result ↔ All (λ price. K.meaning price ≡ zeros K.Cost.columns) right.now }
{
    right.iter().all(|price| is_zero(*price))
}

/// Makes the prices the greatest that go with a perfect pairing and have no right price above zero:
/// the distances of a search from an imagined left block that every right block costs nothing with.
/// Where every right price is zero already, none can be greater, and no search is needed.
// As a function of its own it lies on the stack where the searches before it lay.
#[inline(never)]
pub fn price_greatest<K: Cost>(
    costs: &[K],
    rows: &[BlockSet],
    partners: &[u16],
    holders: &Holders,
    left: &mut [K],
    right: &mut [K],
)
    requires lent { SearchTables K.Cost rows.now costs.now }
    requires partnered { length partners.now ≡ length rows.now }
    requires lefts { length left.old ≡ length rows.now }
    requires rights { length right.old ≡ length rows.now }
    requires paired { IsPriced K.Cost rows.now costs.now
        (so_far (λ _. false) partners.now holders.now right.old) }
    ensures topmost { Topmost K.Cost rows.now costs.now partners.now holders.now
        (weight_at K.Cost right.old) left.new right.new }
    ensures lefts { AreValuesWithin K.Cost PRICE_LIMIT (length rows.now) left.new }
    ensures rights { AreValuesWithin K.Cost PRICE_LIMIT (length rows.now) right.new }
{
    clear(left);
    if !are_zero(right) {
        let mut tree = Tree::new();
        grow_all(costs, rows, holders, right, &mut tree, left);
    }
    price_pairs(costs, rows, partners, left, right);
}
