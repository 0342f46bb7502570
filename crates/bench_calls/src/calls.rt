//! What the calls for C do, for every cost kind: each answers a number for what the call under it
//! answers.

ghost use Rattle.std.specs.Prelude.{◌≡◌, length, Result};
ghost use Rattle.tables.specs.Lent.{lent};
ghost use Rattle.bench_calls.specs.Calls.{SettlesTables, Steps, Marks};
ghost use Rattle.bench_calls.specs.Codes.{outcome_code, fault_number};

use assign::{Outcome, settle};
use cost::Cost;
use sheet::Fault;
use tables::{Flaw, MOST_BLOCKS};

/// The number for an answer of `optimum` or `settle`.
pub fn code(outcome: Result<Outcome, Flaw>) -> u32
    ensures { result ≡ outcome_code outcome }
{
    match outcome {
        Ok(Outcome::Optimal) => 0,
        Ok(Outcome::Unmatched(_)) => 1,
        Err(_) => 1,
    }
}

/// The number for an answer of a call that refuses by a fault.
pub fn fault_number<T: Drop>(answer: Result<T, Fault>) -> u32
    ensures { result ≡ fault_number answer }
{
    match answer {
        Ok(_) => 0,
        Err(fault) => u32::from(fault.cause.number()),
    }
}

/// Settles, and answers the number for the outcome.
pub fn settle_number<K: Cost>(
    costs: &[K],
    standing: &[u8],
    partners: &mut [u16],
    left: &mut [K],
    right: &mut [K],
) -> u32
    ensures { let n = length partners.old in
        let old = lent n costs.now standing.now partners.old left.old right.old in
        let new = lent n costs.now standing.now partners.new left.new right.new in
        SettlesTables K.Cost old new result }
{
    if partners.len() > MOST_BLOCKS as usize {
        return 1;
    }
    let n = partners.len() as u16;
    code(settle(n, costs, standing, partners, left, right))
}

/// Makes a step of the walk, and answers its number, or 1 where it is refused.
pub fn step_number<K: Cost>(
    costs: &[K],
    standing: &[u8],
    partners: &[u16],
    left: &[K],
    right: &[K],
    walk: &mut [u16],
) -> u32
    ensures { let n = length partners.now in
        let t = lent n costs.now standing.now partners.now left.now right.now in
        Steps K.Cost t walk.old walk.new result }
{
    if partners.len() > MOST_BLOCKS as usize {
        return 1;
    }
    let n = partners.len() as u16;
    match walk::next(n, costs, standing, partners, left, right, walk) {
        Ok(step) => u32::from(step.number()),
        Err(_) => 1,
    }
}

/// Writes the marks, and answers 0, or 1 where that is refused.
pub fn marks_number<K: Cost>(
    costs: &[K],
    standing: &[u8],
    partners: &[u16],
    left: &[K],
    right: &[K],
    table: &mut [u8],
) -> u32
    ensures { let n = length partners.now in
        let t = lent n costs.now standing.now partners.now left.now right.now in
        Marks K.Cost t table.old table.new result }
{
    if partners.len() > MOST_BLOCKS as usize {
        return 1;
    }
    let n = partners.len() as u16;
    match walk::marks(n, costs, standing, partners, left, right, table) {
        Ok(()) => 0,
        Err(_) => 1,
    }
}
