//! The tables of a settled sheet as one value.

ghost use Rattle.std.specs.Prelude.{IsTrue, ◌↔◌, IfErr, OnOk};
ghost use Rattle.tables.specs.Lent.{HasLengths, IsUsable, IsUnusable};

use crate::flaw::Flaw;
use crate::pair_tables::{have_places, in_order, rights};
use blockset::MOST_BLOCKS;
use cost::Cost;
use std::marker::Model;

/// The tables of a settled sheet, lent for reading. A contract sees what they hold.
#[derive(Drop)]
pub struct Tables<'a, K> {
    pub size: u16,
    pub costs: &'a [K],
    pub standing: &'a [u8],
    pub partners: &'a [u16],
    pub left: &'a [K],
    pub right: &'a [K],
}

impl<'a, K> Model for Tables<'a, K> {
    ghost use Rattle.tables.specs.Lent.{Lent, lent, lent_code};

    ghost Value = { Lent K };

    ghost coded = { lent_code K.code };

    ghost view = { λ t.
        lent t.size t.costs.now t.standing.now t.partners.now t.left.now t.right.now };
}

impl<K> Tables<'_, K> {
    /// Whether all tables have the lengths that their size asks for.
    pub fn fit(&self) -> bool
        ensures { IsTrue result ↔ HasLengths self.now }
    {
        let n = self.size as usize;
        have_places(self.size, self.costs.len(), self.standing.len())
            && self.partners.len() == n
            && self.left.len() == n
            && self.right.len() == rights(self.size)
    }
}

/// Tests whether a call that pairs by cost can be made with the tables, and names their first flaw
/// if it cannot: too many blocks, a table of the wrong length, pair tables that are not in order.
pub fn check_usable<K: Cost>(tables: &Tables<'_, K>) -> Result<(), Flaw>
    ensures usable { OnOk result (IsUsable K.Cost tables.now) }
    ensures unusable { IfErr result (IsUnusable K.Cost tables.now) }
{
    if tables.size > MOST_BLOCKS {
        return Err(Flaw::Size);
    }
    if !tables.fit() {
        return Err(Flaw::Length);
    }
    if !in_order(tables.costs, tables.standing) {
        return Err(Flaw::Order);
    }
    Ok(())
}
