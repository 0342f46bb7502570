//! The calls on a walk: on to the next optimum pairing, and close the walk.

ghost use Rattle.std.specs.Prelude.{◌≡◌, length};
ghost use Rattle.tables.specs.Lent.{lent};
ghost use Rattle.sheet.specs.Needs.{Responds};
ghost use Rattle.sheet.specs.Size.{IsSize, size_of};
ghost use Rattle.sheet.specs.Walking.{next_needs, IsStep};

use super::{SettledSheet, Walk};
use crate::fault::{Cause, Fault};
use cost::Cost;
use matching::Step;
use walk::step_fitting;

impl Walk {
    /// The number of left blocks, which is that of the right blocks too.
    pub fn size(&self) -> u16
        ensures value { result ≡ size_of self.now }
        ensures range { IsSize (size_of self.now) }
    {
        self.settled.size()
    }

    /// Writes the optimum pairing that comes after the one in the walk list, in dictionary order;
    /// or answers `End`, where that was the last one, and leaves the list.
    ///
    /// Refused, in this order: a table of the wrong length; tables that do not hold together, or a
    /// walk list that is no optimum pairing. The list is then as it was.
    pub fn next<K: Cost>(
        &self,
        costs: &[K],
        standing: &[u8],
        partners: &[u16],
        left: &[K],
        right: &[K],
        list: &mut [u16],
    ) -> Result<Step, Fault>
        ensures { let t = lent (size_of self.now) costs.now standing.now partners.now left.now
            right.now in Responds (next_needs K.Cost t list.old) result
            (IsStep K.Cost t list.old list.new) (list.new ≡ list.old) }
    {
        let n = self.size();
        let tables = self.settled.lend(costs, standing, partners, left, right);
        if !tables.fit() || list.len() != n as usize {
            return Err(Cause::TableLength.at(0));
        }
        Ok(step_fitting(&tables, list)?)
    }

    /// Ends the walk, and gives the settled sheet back.
    pub fn close(self) -> SettledSheet
        ensures { result ≡ self }
    {
        let Walk { settled } = self;
        settled
    }
}
