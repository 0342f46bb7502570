//! The pairs that occur in some perfect pairing.

ghost use Rattle.std.specs.Prelude.{◌≡◌, ℕ, ◌<◌, ◌≤◌, ◌&&◌, ◌||◌, ◌↔◌, length, if◌then◌else◌, IsOk};
ghost use Rattle.std.specs.Prelude.{IfErr, OnOk, OnErr, nat_lt};
ghost use Rattle.blockset.specs.declared.TheConstants.{MOST_BLOCKS};
ghost use Rattle.blockset.specs.Has.{has};
ghost use Rattle.pairing.specs.Grid.{at};
ghost use Rattle.pairing.specs.Rows.{holds, rights_in, IsPerfectOver, pairings};
ghost use Rattle.pairing.specs.Places.{places_of};
ghost use Rattle.matching.specs.Fit.{FitsRows, IsFirstCause};
ghost use Rattle.matching.specs.Search.{AreLeads};
ghost use Rattle.matching.specs.Answers.{AreMarksOf};

use crate::fitting::{Unfit, fit};
use blockset::{BlockSet, MOST_BLOCKS, SET_WIDTH};

/// The right blocks that one step leads to from each right block: what the left block that has it
/// can take.
fn steps(rows: &[BlockSet], p: &[u16]) -> [BlockSet; SET_WIDTH]
    requires small { length rows.now ≤ MOST_BLOCKS }
    requires pairs { IsPerfectOver rows.now p.now }
    ensures { (l c : ℕ) → l < length rows.now
        → holds result (at p.now l) c ≡ (holds rows.now l c && nat_lt c (rights_in rows.now)) }
{
    let all = BlockSet::all(rows.len());
    let mut led = [BlockSet::empty(); SET_WIDTH];
    for (l, row) in rows.iter().enumerate() {
        led[p[l] as usize] = row.intersection(all);
    }
    led
}

/// A set of right blocks, and those of `on` too if right block `k` is in it. There is no branch in
/// it, so that a loop over it takes several sets at a time.
fn led_on(set: BlockSet, k: usize, on: BlockSet) -> BlockSet
    requires { k < SET_WIDTH }
    ensures { (j : ℕ) → has result j ≡ (has set j || (has set k && has on j)) }
{
    let more = if set.intersection(BlockSet::of(k)).is_empty() {
        BlockSet::empty()
    } else {
        on
    };
    set.union(more)
}

/// Lets each of the first `n` right blocks that leads to right block `k` lead on from there.
fn lead_through(led: &mut [BlockSet; SET_WIDTH], n: usize, k: usize)
    requires small { n ≤ SET_WIDTH }
    requires inside { k < n }
    ensures { (i j : ℕ) → i < n
        → holds led.new i j ≡ (holds led.old i j || (holds led.old i k && holds led.old k j)) }
{
    let on = led[k];
    for i in 0..n {
        led[i] = led_on(led[i], k, on);
    }
}

/// The right blocks that chains lead to from each right block: the transitive closure of the steps.
/// Chains that pass no right block but the first k, between their ends, are known after k rounds,
/// so after n rounds all are.
fn leads(rows: &[BlockSet], p: &[u16]) -> [BlockSet; SET_WIDTH]
    requires small { length rows.now ≤ MOST_BLOCKS }
    requires pairs { IsPerfectOver rows.now p.now }
    ensures { AreLeads rows.now p.now result }
{
    let mut led = steps(rows, p);
    for k in 0..rows.len() {
        lead_through(&mut led, rows.len(), k);
    }
    led
}

/// The right blocks that chains lead to from `own` and back from there: its strongly connected
/// component.
fn class_of(led: &[BlockSet; SET_WIDTH], own: usize) -> BlockSet
    requires { own < SET_WIDTH }
    ensures { (j : ℕ) → has result j ≡ (holds led.now own j && holds led.now j own) }
{
    let mut class = BlockSet::empty();
    for c in led[own] {
        if led[c].contains(own) {
            class.insert(c);
        }
    }
    class
}

/// Notes a class at each right block that is in it.
fn note_class(classes: &mut [BlockSet; SET_WIDTH], class: BlockSet)
    ensures { (i j : ℕ) → holds classes.new i j
        ≡ (if has class i then has class j else holds classes.old i j) }
{
    for c in class {
        classes[c] = class;
    }
}

/// Marks the right blocks of a set.
fn mark_row(marks: &mut [u8], set: BlockSet)
    requires { length marks.old ≤ SET_WIDTH }
    ensures { (r : ℕ) → r < length marks.old → at marks.new r ≡ (if has set r then 1 else 0) }
{
    // The compiler shifts eight bytes at a time, but of whole sets only two.
    let bytes = set.bits().to_le_bytes();
    for (r, mark) in marks.iter_mut().enumerate() {
        *mark = (bytes[r / 8] >> (r % 8)) % 2;
    }
}

/// Writes 1 for each pair that some perfect pairing over the rows has, and 0 for every other pair:
/// place l × n + r of the table is that of left block l and right block r. `p` has to be a perfect
/// pairing over the rows. It takes n rounds over n sets. This is for a caller that does not know
/// that all this fits; one that does calls `mark_all`.
pub fn marks(rows: &[BlockSet], p: &[u16], table: &mut [u8]) -> Result<(), Unfit>
    ensures accepted { IsOk result
        ↔ (FitsRows rows.now p.now × length table.old ≡ places_of (length rows.now)) }
    ensures refused { let n = length rows.now in IfErr result (IsFirstCause n
        (length table.old ≡ places_of n × length p.now ≡ n) (IsPerfectOver rows.now p.now)) }
    ensures marks { OnOk result (AreMarksOf (length rows.now) (pairings rows.now) table.new) }
    ensures kept { OnErr result (table.new ≡ table.old) }
{
    let n = rows.len();
    if n > MOST_BLOCKS as usize {
        return Err(Unfit::Size);
    }
    if table.len() != n * n {
        return Err(Unfit::Length);
    }
    fit(rows, p)?;
    mark_all(rows, p, table);
    Ok(())
}

/// What `marks` does, for a caller that knows that the tables fit: nothing is tested.
///
/// The right blocks that chains lead to from a right block and back are a class. A left block has
/// some of the class of its own right block in turn, just those that its row holds. Each class is
/// made once.
pub fn mark_all(rows: &[BlockSet], p: &[u16], table: &mut [u8])
    requires small { length rows.now ≤ MOST_BLOCKS }
    requires pairs { IsPerfectOver rows.now p.now }
    requires square { length table.old ≡ places_of (length rows.now) }
    ensures { AreMarksOf (length rows.now) (pairings rows.now) table.new }
{
    let n = rows.len();
    let led = leads(rows, p);
    let mut classes = [BlockSet::empty(); SET_WIDTH];
    for (l, row) in rows.iter().enumerate() {
        let own = p[l] as usize;
        if classes[own].is_empty() {
            note_class(&mut classes, class_of(&led, own));
        }
        mark_row(&mut table[l * n..l * n + n], row.intersection(classes[own]));
    }
}
