//! The walk through all optimum pairings of tables that hold together, and the pairs that occur in
//! any of them, for every cost kind.
#![tactic(auto)]

ghost use Rattle.std.specs.Prelude.{◌≡◌, ◌↔◌, length, Some, codes, IsOk, IfOk, OnOk, OnErr};
ghost use Rattle.pairing.specs.Grid.{IsOptimum};
ghost use Rattle.pairing.specs.Optima.{optima};
ghost use Rattle.pairing.specs.Places.{places_of};
ghost use Rattle.matching.specs.Answers.{IsNth, Follows, AreMarksOf};
ghost use Rattle.tables.specs.Said.{grid_of};
ghost use Rattle.tables.specs.Lent.{lent, grid};
ghost use Rattle.tables.specs.Together.{HoldTogether};

mod certificate;
mod fitting;

pub use certificate::{certify, certify_fitting, prices_within_limit};
use cost::Cost;
pub use cost::PRICE_LIMIT;
pub use fitting::{mark_fitting, start_fitting, step_fitting};
use matching::Step;
use std::error::Error;
use std::fmt;
use tables::{Tables, places};

/// Tables are refused: they do not hold together, or a table has the wrong length, or the walk list
/// is no optimum pairing. They are then left as they were.
#[derive(Clone, Copy, Debug, PartialEq, Eq)]
pub struct Apart;

// `thiserror` would write this impl without the ghost member, so that nothing pinned the text.
impl fmt::Display for Apart {
    ghost output = { λ _. Some (codes "the tables do not hold together") };

    fn fmt<W: fmt::Write>(&self, f: &mut fmt::Formatter<W>) -> fmt::Result {
        f.write_str("the tables do not hold together")
    }
}

impl Error for Apart {}

/// Writes the first of all optimum pairings to the walk list.
pub fn start<K: Cost>(
    n: u16,
    costs: &[K],
    standing: &[u8],
    partners: &[u16],
    left: &[K],
    right: &[K],
    walk: &mut [u16],
) -> Result<(), Apart>
    ensures accepted { IsOk result ↔ (length walk.old ≡ n × HoldTogether K.Cost
        (lent n costs.now standing.now partners.now left.now right.now)) }
    ensures first { OnOk result
        (IsNth (optima (grid_of K.Cost n costs.now standing.now)) 0 walk.new) }

    // So `next` accepts the list.
    ensures optimum { OnOk result (IsOptimum (grid_of K.Cost n costs.now standing.now) walk.new) }
    ensures apart { OnErr result (walk.new ≡ walk.old) }
{
    let tables = Tables {
        size: n,
        costs,
        standing,
        partners,
        left,
        right,
    };
    if !tables.fit() || walk.len() != n as usize {
        return Err(Apart);
    }
    start_fitting(&tables, walk)
}

/// Writes the optimum pairing that comes after the one in the walk list, or answers `End` and
/// leaves the list.
pub fn next<K: Cost>(
    n: u16,
    costs: &[K],
    standing: &[u8],
    partners: &[u16],
    left: &[K],
    right: &[K],
    walk: &mut [u16],
) -> Result<Step, Apart>
    ensures accepted { let t = lent n costs.now standing.now partners.now left.now right.now in
        IsOk result ↔ (HoldTogether K.Cost t × IsOptimum (grid K.Cost t) walk.old) }
    ensures steps { IfOk result
        (Follows (optima (grid_of K.Cost n costs.now standing.now)) walk.old walk.new) }

    // So the next call accepts the list too.
    ensures optimum { OnOk result (IsOptimum (grid_of K.Cost n costs.now standing.now) walk.new) }
    ensures apart { OnErr result (walk.new ≡ walk.old) }
{
    let tables = Tables {
        size: n,
        costs,
        standing,
        partners,
        left,
        right,
    };
    if !tables.fit() || walk.len() != n as usize {
        return Err(Apart);
    }
    step_fitting(&tables, walk)
}

/// Writes 1 for each pair that some optimum pairing has, and 0 for every other pair: place l × n +
/// r is that of left block l and right block r.
pub fn marks<K: Cost>(
    n: u16,
    costs: &[K],
    standing: &[u8],
    partners: &[u16],
    left: &[K],
    right: &[K],
    table: &mut [u8],
) -> Result<(), Apart>
    ensures accepted { IsOk result ↔ (length table.old ≡ places_of n × HoldTogether K.Cost
        (lent n costs.now standing.now partners.now left.now right.now)) }
    ensures marks { OnOk result
        (AreMarksOf n (optima (grid_of K.Cost n costs.now standing.now)) table.new) }
    ensures apart { OnErr result (table.new ≡ table.old) }
{
    let tables = Tables {
        size: n,
        costs,
        standing,
        partners,
        left,
        right,
    };
    if !tables.fit() || table.len() != places(n) {
        return Err(Apart);
    }
    mark_fitting(&tables, table)
}
