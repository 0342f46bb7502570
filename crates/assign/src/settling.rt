//! Settling: the optimum pairing that is first in dictionary order, with the greatest prices that
//! prove it, for every cost kind.
ghost use Rattle.std.specs.Prelude.{◌≡◌, Ok};
ghost use Rattle.tables.specs.Lent.{lent, IsUsable};
ghost use Rattle.assign.specs.Answer.{Answers, HasOptimum, HasFirstOptimum};
ghost use Rattle.assign.specs.declared.Outcome.TheVariants.{Optimal};
ghost use Rattle.tables.specs.Together.{HoldTogether};

use crate::{Outcome, optimum};
use cost::Cost;
use matching::make_first;
use tables::{Flaw, PairRows, Tables};

/// Makes the optimum pairing of solved tables the first one: the first over the rows of their tight
/// pairs.
// As a function of its own it has its rows on the stack only once those of `optimum` are gone.
#[inline(never)]
fn make_optimum_first<K: Cost>(
    n: u16,
    costs: &[K],
    standing: &[u8],
    partners: &mut [u16],
    left: &[K],
    right: &[K],
)
    requires usable { IsUsable K.Cost
        (lent n costs.now standing.now partners.old left.now right.now) }
    requires solved { HasOptimum K.Cost
        (lent n costs.now standing.now partners.old left.now right.now) }
    ensures first { HasFirstOptimum K.Cost
        (lent n costs.now standing.now partners.new left.now right.now) }
    ensures together { HoldTogether K.Cost
        (lent n costs.now standing.now partners.new left.now right.now) }
{
    let tables = Tables {
        size: n,
        costs,
        standing,
        partners,
        left,
        right,
    };
    let rows = PairRows::tight_within(&tables);
    make_first(rows.as_slice(), partners);
}

/// Writes the first of all optimum pairings of n left and n right blocks to `partners`, and the
/// greatest valid prices with no right price above zero to `left` and `right`.
///
/// Tables and refusals are those of `assign::optimum`: where tables do not fit, are not in order or
/// hold no perfect pairing, the answer says so, and all tables stay as they were.
pub fn settle<K: Cost>(
    n: u16,
    costs: &[K],
    standing: &[u8],
    partners: &mut [u16],
    left: &mut [K],
    right: &mut [K],
) -> Result<Outcome, Flaw>
    ensures answers { let old = lent n costs.now standing.now partners.old left.old right.old in
        let new = lent n costs.now standing.now partners.new left.new right.new in
        Answers K.Cost old new (HasFirstOptimum K.Cost new) result }

    // So the walk, the marks and every other call on settled tables accept them.
    ensures together { result ≡ Ok Optimal → HoldTogether K.Cost
        (lent n costs.now standing.now partners.new left.new right.new) }
{
    let outcome = optimum(n, costs, standing, partners, left, right)?;
    if let Outcome::Optimal = outcome {
        make_optimum_first(n, costs, standing, partners, left, right);
    }
    Ok(outcome)
}
