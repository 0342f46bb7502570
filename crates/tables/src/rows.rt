//! Rows of block sets made from a standing table: row l holds the right blocks that stand with left
//! block l.

ghost use Rattle.std.specs.Prelude.{◌≡◌, ◌≤◌, length, slice_index};
ghost use Rattle.blockset.specs.declared.TheConstants.{MOST_BLOCKS, SET_WIDTH};
ghost use Rattle.pairing.specs.Places.{places_of};
ghost use Rattle.tables.specs.PairTables.{byte_of, says_stands};
ghost use Rattle.tables.specs.PairRows.{HoldsPassing, AreStandingRows};

use crate::pair_tables::{part_of, stands};
use blockset::BlockSet;

/// The right blocks that stand with one left block, whose standing bytes these are.
fn standing_row(bytes: &[u8]) -> BlockSet
    requires { length bytes.now ≤ SET_WIDTH }
    ensures { HoldsPassing (length bytes.now) (λ r. says_stands (slice_index bytes.now r)) result }
{
    let mut row = BlockSet::empty();
    for (r, byte) in bytes.iter().enumerate() {
        row.insert_if(r, stands(*byte));
    }
    row
}

/// Makes row l the set of the right blocks that stand with left block l of n.
pub fn fill_standing_rows(n: u16, standing: &[u8], rows: &mut [BlockSet])
    requires few { n ≤ MOST_BLOCKS }
    requires long { length standing.now ≡ places_of n }
    requires rows_long { length rows.old ≡ n }
    ensures { AreStandingRows n (λ l r. says_stands (byte_of n standing.now l r)) rows.new }
{
    for (l, row) in rows.iter_mut().enumerate() {
        *row = standing_row(part_of(n, l, standing));
    }
}
