//! Do lent tables hold together? The answer is yes exactly if they do, whatever the tables hold and
//! however long they are, and a yes hands out what was found.

ghost use Rattle.std.specs.Prelude.{length, IsTrue, ◌↔◌, IfNone, IfSome};
ghost use Rattle.tables.specs.Said.{AreValuesWithin};
ghost use Rattle.tables.specs.Lent.{HasLengths, ArePriced};
ghost use Rattle.tables.specs.Together.{HoldTogether};
ghost use Rattle.walk.specs.Certified.{IsCertified};

use cost::{Cost, PRICE_LIMIT};
use matching::pairs_each_row;
use tables::{MOST_BLOCKS, PairRows, Tables};

/// Whether each price is within 10^12 in each column.
pub fn prices_within_limit<K: Cost>(prices: &[K]) -> bool
    ensures { IsTrue result ↔ AreValuesWithin K.Cost PRICE_LIMIT (length prices.now) prices.now }
{
    for price in prices {
        if !price.within(PRICE_LIMIT) {
            return false;
        }
    }
    true
}

/// Whether there are at most 64 blocks a plane, and each price is within 10^12 in each column.
fn are_priced<K: Cost>(tables: &Tables<'_, K>) -> bool
    requires { HasLengths tables.now }
    ensures { IsTrue result ↔ ArePriced K.Cost tables.now }
{
    tables.size <= MOST_BLOCKS
        && prices_within_limit(tables.left)
        && prices_within_limit(tables.right)
}

/// If the tables hold together, rows over which just the optimum pairings are perfect: the rows of
/// the tight pairs.
pub fn certify<K: Cost>(tables: &Tables<'_, K>) -> Option<PairRows>
    ensures apart { IfNone result (HoldTogether K.Cost tables.now → ⊥) }
    ensures certified { IfSome result (IsCertified K.Cost tables.now) }
{
    if !tables.fit() {
        return None;
    }
    certify_fitting(tables)
}

/// What `certify` does once all lengths are known to fit.
pub fn certify_fitting<K: Cost>(tables: &Tables<'_, K>) -> Option<PairRows>
    requires { HasLengths tables.now }
    ensures apart { IfNone result (HoldTogether K.Cost tables.now → ⊥) }
    ensures certified { IfSome result (IsCertified K.Cost tables.now) }
{
    if !are_priced(tables) {
        return None;
    }
    let rows = PairRows::sound(tables)?;
    if pairs_each_row(rows.as_slice(), tables.partners) {
        Some(rows)
    } else {
        None
    }
}
