//! Through the perfect pairings in dictionary order: to the first one, and from one to the next.

ghost use Rattle.std.specs.Prelude.{◌≡◌, ℕ, ◌+◌, ◌<◌, ◌≤◌, ◌↔◌, length, MatchBool, IsOk, IfOk};
ghost use Rattle.std.specs.Prelude.{IfErr, OnOk, OnErr};
ghost use Rattle.std.specs.List.{list_any};
ghost use Rattle.std.specs.Prelude.{drop};
ghost use Rattle.blockset.specs.declared.TheConstants.{MOST_BLOCKS};
ghost use Rattle.blockset.specs.Has.{has};
ghost use Rattle.pairing.specs.Grid.{at};
ghost use Rattle.pairing.specs.Rows.{IsPerfectOver, pairings};
ghost use Rattle.matching.specs.Fit.{FitsRows, IsUnfitBy};
ghost use Rattle.matching.specs.Exchange.{AreHoldersFrom};
ghost use Rattle.matching.specs.Improving.{IsImproved, IsUnimproved, IsFirstFrom, HasWantedFrom};
ghost use Rattle.matching.specs.Answers.{IsNth, Follows};
ghost use Rattle.matching.specs.Numbers.{step_number};

use crate::chains::{Bounds, Holders, exchange, search};
use crate::fitting::{Unfit, fit};
use blockset::BlockSet;

/// Where a step from a perfect pairing leads. The numbers are part of the interface and never move:
/// a host in C sees them.
#[derive(Clone, Copy, Debug, PartialEq, Eq)]
pub enum Step {
    /// To the next perfect pairing in dictionary order.
    Next = 0,
    /// Nowhere: it was the last one.
    End = 100,
}

impl Step {
    /// The number that stands for the step in calls from C: 0 for `Next`, 100 for `End`.
    pub fn number(self) -> u8
        ensures { result ≡ step_number self }
    {
        self as u8
    }
}

/// Sends left block `l` to the least right block from `floor` on that it can have while the left
/// blocks before it keep theirs; false, and nothing changed, if there is none. The holders tell of
/// the left blocks after `l`: only what one of them has, or `l` itself, is a candidate. So where a
/// row has none, nothing is searched.
///
/// A candidate can be had if a chain leads from it back to the right block that `l` has now. What a
/// search for one candidate reached in vain is shut to the later searches, so that all of them
/// together reach each right block at most once. They count as one search over the m left blocks
/// from `l` on, of at most 3m steps: m right blocks that are reached, m left blocks that are done
/// with, and `l` itself once for each candidate.
fn improve(rows: &[BlockSet], p: &mut [u16], holders: &mut Holders, l: usize, floor: usize) -> bool
    requires small { length rows.now ≤ MOST_BLOCKS }
    requires pairs { IsPerfectOver rows.now p.old }
    requires inside { l < length rows.now }
    requires held { AreHoldersFrom (l + 1) p.old holders.old }
    ensures improved { MatchBool result (IsImproved rows.now l floor p.old p.new)
        (IsUnimproved rows.now l floor p.old p.new) }
    ensures held { AreHoldersFrom (l + 1) p.new holders.new }
{
    let own = p[l] as usize;
    let alone = BlockSet::of(l);
    let goals = BlockSet::of(own);
    let mut live = holders.held.union(goals);
    let mut candidates = rows[l].intersection(live).difference(BlockSet::all(floor));
    while let Some(r) = candidates.least() {
        if r == own {
            return true;
        }
        let bounds = Bounds {
            roots: alone,
            offer: BlockSet::of(r),
            live,
            goals,
        };
        let reach = search(rows, holders, bounds);
        if let Some(goal) = reach.goal {
            exchange(p, holders, alone, &reach, goal);
            holders.take_out(p, l);
            return true;
        }
        live = live.difference(reach.reached);
        candidates = candidates.intersection(live);
    }
    false
}

/// Sends left block `l` to the least right block that is greater than its own and that it can have
/// while the left blocks before it keep theirs; false, and nothing changed, if there is none. The
/// left blocks after `l` may be paired with right blocks of `wanted` only: where its own is not
/// among them, no other left block can have it, so it stays, and nothing is searched.
fn raise(
    rows: &[BlockSet],
    p: &mut [u16],
    holders: &mut Holders,
    wanted: BlockSet,
    l: usize,
) -> bool
    requires small { length rows.now ≤ MOST_BLOCKS }
    requires pairs { IsPerfectOver rows.now p.old }
    requires inside { l < length rows.now }
    requires held { AreHoldersFrom (l + 1) p.old holders.old }
    requires wanted { HasWantedFrom (l + 1) rows.now (has wanted) }
    ensures improved { MatchBool result (IsImproved rows.now l (at p.old l + 1) p.old p.new)
        (IsUnimproved rows.now l (at p.old l + 1) p.old p.new) }
    ensures held { AreHoldersFrom (l + 1) p.new holders.new }
{
    let own = p[l] as usize;
    if !wanted.contains(own) {
        return false;
    }
    improve(rows, p, holders, l, own + 1)
}

/// All right blocks of these rows. There is no branch in the loop, so that it takes several rows at
/// a time.
fn union_of(rows: &[BlockSet]) -> BlockSet
    ensures { (r : ℕ) → has result r ≡ list_any (λ row. has row r) rows.now }
{
    let mut all = BlockSet::empty();
    for row in rows {
        all = all.union(*row);
    }
    all
}

/// All right blocks of the rows from `low` on.
// As a function of its own it needs no room on the stack while a left block is searched for.
#[inline(never)]
fn union_from(rows: &[BlockSet], low: usize) -> BlockSet
    requires { low ≤ length rows.now }
    ensures { (r : ℕ) → has result r ≡ list_any (λ row. has row r) (drop low rows.now) }
{
    union_of(&rows[low..])
}

/// Sends left block `l` to the least right block that it can have while the left blocks before it
/// keep theirs. Where its own stands in no row of a later left block, no other left block can have
/// it, so it stays, and nothing is searched. To see that takes one union for each later row, which
/// is far less than a search.
fn lower(rows: &[BlockSet], p: &mut [u16], holders: &mut Holders, l: usize)
    requires small { length rows.now ≤ MOST_BLOCKS }
    requires pairs { IsPerfectOver rows.now p.old }
    requires inside { l < length rows.now }
    requires held { AreHoldersFrom (l + 1) p.old holders.old }
    ensures improved { IsImproved rows.now l 0 p.old p.new }
    ensures held { AreHoldersFrom (l + 1) p.new holders.new }
{
    let own = p[l] as usize;
    if union_from(rows, l + 1).contains(own) {
        improve(rows, p, holders, l, 0);
    }
}

/// Makes `p` the first of the pairings that agree with it below `low`, by at most n searches: one
/// for each left block from `low` on. A left block whose right block no later one may have is
/// passed over. The holders tell of the left blocks from `low` on when it begins.
fn make_first_from(rows: &[BlockSet], p: &mut [u16], holders: &mut Holders, low: usize)
    requires small { length rows.now ≤ MOST_BLOCKS }
    requires pairs { IsPerfectOver rows.now p.old }
    requires inside { low ≤ length rows.now }
    requires held { AreHoldersFrom low p.old holders.old }
    ensures { IsFirstFrom rows.now low p.old p.new }
{
    for l in low..rows.len() {
        holders.take_out(p, l);
        lower(rows, p, holders, l);
    }
}

/// Makes `p`, which has to be a perfect pairing over the rows, the first one in dictionary order.
/// This is for a caller that does not know; one that does calls `make_first`.
pub fn first(rows: &[BlockSet], p: &mut [u16]) -> Result<(), Unfit>
    ensures accepted { IsOk result ↔ FitsRows rows.now p.old }
    ensures refused { IfErr result (IsUnfitBy rows.now p.old) }
    ensures first { OnOk result (IsNth (pairings rows.now) 0 p.new) }
    ensures kept { OnErr result (p.new ≡ p.old) }
{
    fit(rows, p)?;
    make_first(rows, p);
    Ok(())
}

/// What `first` does, for a caller that knows that `p` is a perfect pairing: nothing is tested.
pub fn make_first(rows: &[BlockSet], p: &mut [u16])
    requires small { length rows.now ≤ MOST_BLOCKS }
    requires pairs { IsPerfectOver rows.now p.old }
    ensures { IsNth (pairings rows.now) 0 p.new }
{
    let mut holders = Holders::of(p);
    make_first_from(rows, p, &mut holders, 0);
}

/// Makes `p`, which has to be a perfect pairing over the rows, the one that comes next in
/// dictionary order; at the last one the answer is `End`, and `p` stays. This is for a caller that
/// does not know; one that does calls `advance`.
pub fn next(rows: &[BlockSet], p: &mut [u16]) -> Result<Step, Unfit>
    ensures accepted { IsOk result ↔ FitsRows rows.now p.old }
    ensures refused { IfErr result (IsUnfitBy rows.now p.old) }
    ensures step { IfOk result (Follows (pairings rows.now) p.old p.new) }
    ensures kept { OnErr result (p.new ≡ p.old) }
{
    fit(rows, p)?;
    Ok(advance(rows, p))
}

/// What `next` does, for a caller that knows that `p` is a perfect pairing: nothing is tested.
///
/// The last left block that can have a greater right block, the ones before it keeping theirs, gets
/// the least such one, and the ones after it the least that is left. Each left block is improved at
/// most once on the way up, and each one after the last of these at most once on the way down. With
/// 3m steps for the m-th one from the end, the two sums are together at most 3n²: the work of n
/// searches over all n left blocks.
pub fn advance(rows: &[BlockSet], p: &mut [u16]) -> Step
    requires small { length rows.now ≤ MOST_BLOCKS }
    requires pairs { IsPerfectOver rows.now p.old }
    ensures { Follows (pairings rows.now) p.old p.new result }
{
    let mut holders = Holders::new();
    let mut wanted = BlockSet::empty();
    for l in (0..rows.len()).rev() {
        if raise(rows, p, &mut holders, wanted, l) {
            make_first_from(rows, p, &mut holders, l + 1);
            return Step::Next;
        }
        wanted = wanted.union(rows[l]);
        holders.put_in(p, l);
    }
    Step::End
}
