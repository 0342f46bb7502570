//! The calls on a settled sheet: quote a pair, total the partners, mark the pairs that occur, start
//! a walk, reopen the sheet.

ghost use Rattle.std.specs.Prelude.{◌≡◌, ⊤, length, None};
ghost use Rattle.tables.specs.Lent.{lent, grid};
ghost use Rattle.pairing.specs.Grid.{total};
ghost use Rattle.sheet.specs.Needs.{Responds};
ghost use Rattle.sheet.specs.Size.{IsSize, size_of};
ghost use Rattle.sheet.specs.Walking.{quote_needs, IsQuote, total_needs, marks_needs, AreMarks};
ghost use Rattle.sheet.specs.Walking.{Starts};

use super::{OpenSheet, SettledSheet, Walk};
use crate::fault::{Cause, Fault, Refusal};
use cost::Cost;
use tables::{Tables, place, places, stands};
use walk::{certify_fitting, mark_fitting, start_fitting};

impl SettledSheet {
    /// A sheet that was just settled.
    pub(crate) fn of(sheet: OpenSheet) -> SettledSheet
        ensures { result ≡ sheet }
    {
        SettledSheet { open: sheet }
    }

    /// The number of left blocks, which is that of the right blocks too.
    pub fn size(&self) -> u16
        ensures value { result ≡ size_of self.now }
        ensures range { IsSize (size_of self.now) }
    {
        self.open.size()
    }

    /// The tables that a call was handed, as one value.
    pub(super) fn lend<'a, K>(
        &self,
        costs: &'a [K],
        standing: &'a [u8],
        partners: &'a [u16],
        left: &'a [K],
        right: &'a [K],
    ) -> Tables<'a, K>
        ensures { result ≡ lent (size_of self.now) costs.now standing.now partners.now left.now
            right.now }
    {
        Tables {
            size: self.size(),
            costs,
            standing,
            partners,
            left,
            right,
        }
    }

    /// The cost of a standing pair, and what it exceeds the pair's two prices by.
    ///
    /// Refused, in this order: a table of the wrong length, tables that do not hold together, a
    /// block number of n or more, an absent pair.
    pub fn quote<K: Cost>(
        &self,
        costs: &[K],
        standing: &[u8],
        partners: &[u16],
        left: &[K],
        right: &[K],
        left_block: u16,
        right_block: u16,
    ) -> Result<(K, K), Fault>
        ensures { let t = lent (size_of self.now) costs.now standing.now partners.now left.now
            right.now in Responds (quote_needs K.Cost t left_block right_block) result
            (IsQuote K.Cost t left_block right_block) ⊤ }
    {
        let n = self.size();
        check(&self.lend(costs, standing, partners, left, right))?;
        if left_block >= n || right_block >= n {
            return Err(Cause::Block.at(0));
        }
        let at = place(n, left_block, right_block);
        if !stands(standing[at]) {
            return Err(Cause::Absent.at(0));
        }
        let cost = costs[at];
        let prices = left[left_block as usize].add(right[right_block as usize]);
        Ok((cost, cost.take_away(prices)))
    }

    /// The total of the partners, which is the least that a perfect pairing costs.
    ///
    /// Refused, in this order: a table of the wrong length, tables that do not hold together.
    pub fn total<K: Cost>(
        &self,
        costs: &[K],
        standing: &[u8],
        partners: &[u16],
        left: &[K],
        right: &[K],
    ) -> Result<K, Fault>
        ensures { let t = lent (size_of self.now) costs.now standing.now partners.now left.now
            right.now in Responds (total_needs K.Cost t) result
            (λ sum. K.meaning sum ≡ total (grid K.Cost t) partners.now) ⊤ }
    {
        let n = self.size();
        check(&self.lend(costs, standing, partners, left, right))?;
        let mut sum = K::zero();
        for (l, r) in partners.iter().enumerate() {
            sum = sum.add(costs[place(n, l as u16, *r)]);
        }
        Ok(sum)
    }

    /// Writes 1 for each pair that some optimum pairing has, and 0 for every other pair: place
    /// l * n + r of `table` is that of left block l and right block r.
    ///
    /// Refused, in this order: a table of the wrong length, tables that do not hold together.
    /// `table` is then as it was.
    pub fn marks<K: Cost>(
        &self,
        costs: &[K],
        standing: &[u8],
        partners: &[u16],
        left: &[K],
        right: &[K],
        table: &mut [u8],
    ) -> Result<(), Fault>
        ensures { let t = lent (size_of self.now) costs.now standing.now partners.now left.now
            right.now in Responds (marks_needs K.Cost t (length table.old)) result
            (λ _. AreMarks K.Cost t table.new) (table.new ≡ table.old) }
    {
        let n = self.size();
        let tables = self.lend(costs, standing, partners, left, right);
        if !tables.fit() || table.len() != places(n) {
            return Err(Cause::TableLength.at(0));
        }
        mark_fitting(&tables, table)?;
        Ok(())
    }

    /// Writes the first of all optimum pairings to the walk list, and begins a walk.
    ///
    /// Refused, in this order: a table of the wrong length, tables that do not hold together. The
    /// settled sheet then comes back, and the list is as it was.
    pub fn start<K: Cost>(
        self,
        costs: &[K],
        standing: &[u8],
        partners: &[u16],
        left: &[K],
        right: &[K],
        list: &mut [u16],
    ) -> Result<Walk, Refusal<SettledSheet>>
        ensures { let t = lent (size_of self) costs.now standing.now partners.now left.now right.now
            in Starts K.Cost t self list.old list.new result }
    {
        let n = self.size();
        let tables = self.lend(costs, standing, partners, left, right);
        if !tables.fit() || list.len() != n as usize {
            return Err(self.unstarted(Cause::TableLength.at(0)));
        }
        match start_fitting(&tables, list) {
            Ok(()) => Ok(Walk { settled: self }),
            Err(apart) => Err(self.unstarted(Fault::from(apart))),
        }
    }

    /// Gives the open sheet back, of which pairs may be entered and struck again.
    pub fn reopen(self) -> OpenSheet
        ensures { result ≡ self }
    {
        let SettledSheet { open } = self;
        open
    }

    /// The refusal to start a walk.
    fn unstarted(self, fault: Fault) -> Refusal<SettledSheet>
        ensures same { result.state ≡ self }
        ensures fault { result.fault ≡ fault }
        ensures unexplained { result.shortfall ≡ None }
    {
        Refusal {
            fault,
            state: self,
            shortfall: None,
        }
    }
}

/// Tests the tables of a settled sheet: their lengths, and whether they hold together.
fn check<K: Cost>(tables: &Tables<'_, K>) -> Result<(), Fault>
    ensures { Responds (total_needs K.Cost tables.now) result (λ _. ⊤) ⊤ }
{
    if !tables.fit() {
        return Err(Cause::TableLength.at(0));
    }
    if certify_fitting(tables).is_none() {
        return Err(Cause::Inconsistent.at(0));
    }
    Ok(())
}
