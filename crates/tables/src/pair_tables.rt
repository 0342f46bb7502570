//! The two pair tables that a caller lends: where a pair lies in them, and what they say of it.

ghost use Rattle.std.specs.Prelude.{◌≡◌, ◌<◌, ◌≤◌, length, replicate, count_by};
ghost use Rattle.cost.specs.declared.TheConstants.{COST_LIMIT};
ghost use Rattle.cost.specs.Columns.{AreWithin};
ghost use Rattle.pairing.specs.Places.{place_of, places_of, rights_of};
ghost use Rattle.tables.specs.PairTables.{HavePlaces, have_places, says_stands, says_disturbed};
ghost use Rattle.tables.specs.PairTables.{part_of};
ghost use Rattle.tables.specs.PairTables.{in_order, costs_entered, standing_entered};
ghost use Rattle.tables.specs.Said.{IsInOrder};

use cost::{COST_LIMIT, Cost};

/// How many right blocks face n left blocks: as many.
pub fn rights(n: u16) -> usize
    ensures { result ≡ rights_of n }
{
    n as usize
}

/// How many places the pair tables of n left blocks have: one for each pair.
pub fn places(n: u16) -> usize
    ensures { result ≡ places_of n }
{
    n as usize * rights(n)
}

/// Whether pair tables of these lengths have a place for each pair of n left blocks and their right
/// blocks.
pub fn have_places(n: u16, costs: usize, standing: usize) -> bool
    ensures { result ≡ have_places n costs standing }
{
    costs == places(n) && standing == places(n)
}

/// The place of the pair of left block `left` and right block `right` in the pair tables.
pub fn place(n: u16, left: u16, right: u16) -> usize
    ensures { result ≡ place_of n left right }
{
    left as usize * rights(n) + right as usize
}

/// The part of a pair table that belongs to left block `l` of n.
pub fn part_of<T>(n: u16, l: usize, table: &[T]) -> &[T]
    requires inside { l < n }
    requires long { length table.now ≡ places_of n }
    ensures { result.now ≡ part_of n l table.now }
{
    let width = rights(n);
    &table[l * width..l * width + width]
}

/// Whether a standing byte says that its pair stands.
pub fn stands(byte: u8) -> bool
    ensures { result ≡ says_stands byte }
{
    byte == 1
}

/// Whether a standing byte says neither that its pair stands nor that it is absent.
pub fn disturbed(byte: u8) -> bool
    ensures { result ≡ says_disturbed byte }
{
    byte > 1
}

/// Whether no standing byte is disturbed and each standing pair's cost is within 10^9, over the
/// places that both tables have.
pub fn in_order<K: Cost>(costs: &[K], standing: &[u8]) -> bool
    ensures { result ≡ in_order K.meaning costs.now standing.now }
{
    // Each bit that some byte has, and not 0 if a standing pair costs too much.
    let mut seen = 0;
    let mut faults = 0;
    let shared = costs.len().min(standing.len());
    for (k, byte) in standing[..shared].iter().enumerate() {
        let byte = u64::from(*byte);
        seen |= byte;
        faults |= byte & u64::from(!costs[k].within(COST_LIMIT));
    }
    (seen <= 1) & (faults == 0)
}

/// Enters a reading of a pair's cost, for a caller that knows that the pair has its place in the
/// tables and that the reading is within 10^9: nothing is tested.
///
/// A pair whose byte is not 1 then stands at the reading. Of a pair that stands the worse of the
/// two costs stays, which is the greater; of two that compare as equal the earlier. Tables that
/// were in order stay so.
pub fn enter_pair<K: Cost>(
    n: u16,
    costs: &mut [K],
    standing: &mut [u8],
    left: u16,
    right: u16,
    reading: K,
)
    requires places { HavePlaces n (length costs.old) (length standing.old) }
    requires left_inside { left < n }
    requires right_inside { right < n }
    requires within { AreWithin COST_LIMIT (K.meaning reading) }
    ensures costs { costs.new ≡ costs_entered K.Cost n left right reading costs.old standing.old }
    ensures standing { standing.new ≡ standing_entered n left right standing.old }
    ensures in_order { IsInOrder K.Cost (places_of n) costs.old standing.old
        → IsInOrder K.Cost (places_of n) costs.new standing.new }
{
    let at = place(n, left, right);
    // The reading is near, so the kind need not stop what lies beyond the rail.
    if stands(standing[at]) && !costs[at].is_less_near(reading) {
        return;
    }
    costs[at] = reading;
    standing[at] = 1;
}

/// How many pairs stand.
pub fn standing_pairs(standing: &[u8]) -> usize
    ensures value { result ≡ count_by says_stands standing.now }
    ensures bound { result ≤ length standing.now }
{
    // A sum has no branch, so several bytes are counted at once.
    let mut count = 0;
    for byte in standing {
        count += usize::from(stands(*byte));
    }
    count
}

/// Writes `value` everywhere.
pub fn fill<T: Copy>(table: &mut [T], value: T)
    ensures { table.new ≡ replicate (length table.old) value }
{
    for x in table.iter_mut() {
        *x = value;
    }
}
