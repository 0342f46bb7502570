//! Rows of block sets as one value: which right blocks each left block may be paired with.

ghost use Rattle.std.specs.Prelude.{◌≡◌, ◌≤◌, length, IfNone, IfSome};
ghost use Rattle.blockset.specs.declared.TheConstants.{MOST_BLOCKS};
ghost use Rattle.pairing.specs.Places.{places_of};
ghost use Rattle.tables.specs.PairTables.{byte_of, says_stands};
ghost use Rattle.tables.specs.PairRows.{AreStandingRows, AreTightRows};
ghost use Rattle.tables.specs.Lent.{ArePriced};
ghost use Rattle.tables.specs.Sound.{IsSound};

use crate::lent::Tables;
use crate::rows::fill_standing_rows;
use crate::sound::fill_sound_rows;
use blockset::{BlockSet, SET_WIDTH};
use cost::Cost;
use std::marker::Model;

/// At most 64 rows of right blocks. A contract sees the list of the rows.
#[derive(Drop)]
pub struct PairRows {
    sets: [BlockSet; SET_WIDTH],
    len: usize,
}

impl Model for PairRows {
    ghost use Rattle.std.specs.Prelude.{◌≤◌, List, take};
    ghost use Rattle.blockset.specs.declared.BlockSet.{BlockSet};
    ghost use Rattle.blockset.specs.declared.TheConstants.{MOST_BLOCKS};

    ghost Value = { List BlockSet };

    ghost view = { λ rows. take rows.len rows.sets };

    ghost invariant = { λ rows. rows.len ≤ MOST_BLOCKS };
}

impl PairRows {
    /// The right blocks that stand with each of n left blocks.
    // As a function of its own it leaves its callers one copy of the rows on the stack, not two.
    #[inline(never)]
    pub fn standing(n: u16, standing: &[u8]) -> PairRows
        requires few { n ≤ MOST_BLOCKS }
        requires long { length standing.now ≡ places_of n }
        ensures long { length result ≡ n }
        ensures rows { AreStandingRows n (λ l r. says_stands (byte_of n standing.now l r)) result }
    {
        let len = n as usize;
        let mut sets = [BlockSet::empty(); SET_WIDTH];
        fill_standing_rows(n, standing, &mut sets[..len]);
        PairRows { sets, len }
    }

    /// The right blocks that are tight with each left block, if all pairs are sound: the pair
    /// tables are in order, and no standing pair costs less than its two prices. The prices are
    /// known to be within 10^12.
    pub fn sound<K: Cost>(tables: &Tables<'_, K>) -> Option<PairRows>
        requires { ArePriced K.Cost tables.now }
        ensures unsound { IfNone result (IsSound K.Cost tables.now → ⊥) }
        ensures sound { IfSome result (λ _. IsSound K.Cost tables.now) }
        ensures tight { IfSome result (AreTightRows K.Cost tables.now) }
    {
        let len = tables.size as usize;
        let mut sets = [BlockSet::empty(); SET_WIDTH];
        if fill_sound_rows(tables, &mut sets[..len]) {
            Some(PairRows { sets, len })
        } else {
            None
        }
    }

    /// The same rows, where all pairs are known to be sound, as they are once a sheet is settled.
    // As for `standing`.
    #[inline(never)]
    pub fn tight_within<K: Cost>(tables: &Tables<'_, K>) -> PairRows
        requires priced { ArePriced K.Cost tables.now }
        requires sound { IsSound K.Cost tables.now }
        ensures { AreTightRows K.Cost tables.now result }
    {
        let len = tables.size as usize;
        let mut sets = [BlockSet::empty(); SET_WIDTH];
        let _sound = fill_sound_rows(tables, &mut sets[..len]);
        PairRows { sets, len }
    }

    /// The rows, of which there are at most 64.
    pub fn as_slice(&self) -> &[BlockSet]
        ensures rows { result.now ≡ self.now }
        ensures few { length self.now ≤ MOST_BLOCKS }
    {
        &self.sets[..self.len]
    }
}
