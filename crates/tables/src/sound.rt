//! One pass over lent tables: whether their pairs are sound, and which of them are tight. What is
//! wrong of a row is gathered, and asked for once the row is through.

ghost use Rattle.std.specs.Prelude.{◌≡◌, ◌≤◌, length, IsTrue, ◌↔◌, IfNone, IfSome};
ghost use Rattle.std.specs.Bool.{OnTrue};
ghost use Rattle.std.specs.Ordering.{is_gt, is_eq};
ghost use Rattle.blockset.specs.declared.TheConstants.{SET_WIDTH};
ghost use Rattle.cost.specs.declared.TheConstants.{PRICE_LIMIT};
ghost use Rattle.cost.specs.Columns.{AreWithin, plus, lex};
ghost use Rattle.tables.specs.Said.{AreValuesWithin};
ghost use Rattle.tables.specs.Lent.{ArePriced};
ghost use Rattle.tables.specs.PairRows.{HoldsPassing, AreTightRows};
ghost use Rattle.tables.specs.Sound.{IsSound, IsSoundRow, edge_in, adds_up};

use crate::lent::Tables;
use crate::pair_tables::part_of;
use blockset::BlockSet;
use cost::{COST_LIMIT, Cost};

/// Whether two prices together are beyond a cost, and whether they are just that cost. Any cost may
/// be asked, one beyond 10^9 too, so that no pair needs a branch.
fn compare_prices<K: Cost>(left: K, right: K, cost: K) -> (bool, bool)
    requires left_near { AreWithin PRICE_LIMIT (K.meaning left) }
    requires right_near { AreWithin PRICE_LIMIT (K.meaning right) }
    ensures beyond { result.0
        ≡ is_gt (lex (plus (K.meaning left) (K.meaning right)) (K.meaning cost)) }
    ensures tight { result.1
        ≡ is_eq (lex (plus (K.meaning left) (K.meaning right)) (K.meaning cost)) }
{
    let sum = left.add_near(right);
    (cost.is_less_near(sum), cost.is_equal_near(sum))
}

/// The right blocks that are tight with one left block, if all its pairs are sound. This is its
/// price, and its parts of the pair tables.
fn sound_row<K: Cost>(costs: &[K], standing: &[u8], left: K, right: &[K]) -> Option<BlockSet>
    requires few { length right.now ≤ SET_WIDTH }
    requires costs_long { length costs.now ≡ length right.now }
    requires standing_long { length standing.now ≡ length right.now }
    requires left_near { AreWithin PRICE_LIMIT (K.meaning left) }
    requires right_near { AreValuesWithin K.Cost PRICE_LIMIT (length right.now) right.now }
    ensures unsound { IfNone result (IsSoundRow K.Cost costs.now standing.now (K.meaning left)
        right.now (length right.now) → ⊥) }
    ensures sound { IfSome result (λ _. IsSoundRow K.Cost costs.now standing.now
        (K.meaning left) right.now (length right.now)) }
    ensures tight { IfSome result (HoldsPassing (length right.now)
        (λ r. adds_up (edge_in K.Cost costs.now standing.now (K.meaning left) right.now r))) }
{
    // Each bit that some byte has, and not 0 if a standing pair has a fault.
    let mut seen = 0;
    let mut faults = 0;
    let mut row = BlockSet::empty();
    for (r, byte) in standing.iter().enumerate() {
        let byte = u64::from(*byte);
        let cost = costs[r];
        let small = cost.within(COST_LIMIT);
        let (beyond, tight) = compare_prices(left, right[r], cost);
        seen |= byte;
        faults |= byte & u64::from(!small | beyond);
        row.insert_if(r, byte & u64::from(tight) != 0);
    }
    if (seen <= 1) & (faults == 0) {
        Some(row)
    } else {
        None
    }
}

/// Makes row l the set of the right blocks that are tight with left block l, and tells whether all
/// pairs are sound. Where they are not, the rows mean nothing.
pub fn fill_sound_rows<K: Cost>(tables: &Tables<'_, K>, rows: &mut [BlockSet]) -> bool
    requires priced { ArePriced K.Cost tables.now }
    requires long { length rows.old ≡ tables.now.size }
    ensures sound { IsTrue result ↔ IsSound K.Cost tables.now }
    ensures tight { OnTrue result (AreTightRows K.Cost tables.now rows.new) }
{
    for (l, row) in rows.iter_mut().enumerate() {
        let costs = part_of(tables.size, l, tables.costs);
        let standing = part_of(tables.size, l, tables.standing);
        match sound_row(costs, standing, tables.left[l], tables.right) {
            Some(tight) => *row = tight,
            None => return false,
        }
    }
    true
}
