//! Pairing by cost: an optimum pairing, and the greatest prices that prove it one, for every cost
//! kind.
//!
//! Either each right block starts at the price of its cheapest pair, and every left block that some
//! right block is cheapest with is paired at once; or all prices start at zero and nobody is
//! paired, where the first would pair few. Left blocks that are left out then take right blocks
//! from one another, as long as lower prices make up for it, for two steps a left block (augmenting
//! row reduction). Those that are left out still are paired one at a time, each along the cheapest
//! alternating path to a free right block (shortest augmenting paths). A last search finds the
//! greatest prices. There are at most 2n steps and n + 1 searches of at most n turns, and a step or
//! a turn looks at each right block at most twice: O(n³) steps, whatever the costs.
#![tactic(auto)]

ghost use Rattle.std.specs.Prelude.{◌≡◌, ℕ, ◌≤◌, List, length, MatchOption};
ghost use Rattle.blockset.specs.declared.TheConstants.{MOST_BLOCKS};
ghost use Rattle.pairing.specs.Grid.{IsPerfect};
ghost use Rattle.pairing.specs.Largest.{HasNoPerfect};
ghost use Rattle.pairing.specs.Rows.{holds};
ghost use Rattle.tables.specs.Lent.{lent};
ghost use Rattle.assign.specs.Weighed.{SearchTables};
ghost use Rattle.assign.specs.Answer.{Answers, HasOptimum, Solves};

mod growing;
mod limits;
mod pairs;
mod prices;
mod reduction;
mod search;
mod settling;
mod sums;
mod tree;

use blockset::{BlockSet, SET_WIDTH};
use cost::Cost;
pub use matching::Shortfall;
use matching::{Found, pair_most};
use pairs::{begin, pair_rest};
use prices::price_greatest;
use reduction::reduce_rows;
pub use settling::settle;
use tables::{Flaw, PairRows, Tables, check_usable};

/// What `optimum` finds.
#[derive(Clone, Copy, Debug, PartialEq, Eq)]
pub enum Outcome {
    /// The tables hold an optimum pairing and the greatest prices.
    Optimal,
    /// No pairing is perfect, and the tables are as they were.
    Unmatched(Shortfall),
}

/// Writes an optimum pairing of n left and n right blocks to `partners`, and the greatest valid
/// prices with no right price above zero to `left` and `right`.
///
/// `costs` and `standing` have n * n places, the other tables n. Refused, in this order: more than
/// 64 blocks a plane, a table of the wrong length, tables that are not in order. Where no pairing
/// is perfect the answer says why. In both cases all tables stay as they were.
pub fn optimum<K: Cost>(
    n: u16,
    costs: &[K],
    standing: &[u8],
    partners: &mut [u16],
    left: &mut [K],
    right: &mut [K],
) -> Result<Outcome, Flaw>
    ensures { let old = lent n costs.now standing.now partners.old left.old right.old in
        let new = lent n costs.now standing.now partners.new left.new right.new in
        Answers K.Cost old new (HasOptimum K.Cost new) result }
{
    check_usable(&Tables {
        size: n,
        costs,
        standing,
        partners,
        left,
        right,
    })?;
    let rows = PairRows::standing(n, standing);
    Ok(solve(costs, rows.as_slice(), partners, left, right))
}

/// Why no pairing over the rows is perfect, if none is.
// As a function of its own its lists are gone from the stack when the searches begin.
#[inline(never)]
fn find_shortfall(rows: &[BlockSet]) -> Option<Shortfall>
    requires { length rows.now ≤ MOST_BLOCKS }
    ensures { MatchOption result
        ((q : List ℕ) × IsPerfect (length rows.now) (holds rows.now) q)
        (λ s. HasNoPerfect (length rows.now) (holds rows.now) s.crowd s.short) }
{
    let n = rows.len();
    let mut any = [0u16; SET_WIDTH];
    match pair_most(rows, &mut any[0..n]) {
        Found::Perfect => None,
        Found::Short { out: _, shortfall } => Some(shortfall),
    }
}

/// Pairs all left blocks at the least cost, and finds the greatest prices. Where no pairing over
/// the rows is perfect the answer says why, and nothing is written.
// Inlined, it would have the compiler hold a second copy of the rows on the stack.
#[inline(never)]
fn solve<K: Cost>(
    costs: &[K],
    rows: &[BlockSet],
    partners: &mut [u16],
    left: &mut [K],
    right: &mut [K],
) -> Outcome
    requires lent { SearchTables K.Cost rows.now costs.now }
    requires partnered { length partners.old ≡ length rows.now }
    requires lefts { length left.old ≡ length rows.now }
    requires rights { length right.old ≡ length rows.now }
    ensures { Solves K.Cost rows.now costs.now partners.old left.old right.old partners.new left.new
        right.new result }
{
    if let Some(shortfall) = find_shortfall(rows) {
        return Outcome::Unmatched(shortfall);
    }
    let first = begin(costs, rows, partners, right);
    let reduced = reduce_rows(costs, rows, first, partners, right);
    let holders = pair_rest(costs, rows, reduced, partners, left, right);
    price_greatest(costs, rows, partners, &holders, left, right);
    Outcome::Optimal
}
