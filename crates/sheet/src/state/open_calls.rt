//! The calls on an open sheet: open one, then enter, strike and read pairs, and settle.

ghost use Rattle.std.specs.Prelude.{◌≡◌, ◌<◌, ⊤, length, IfOk, OnOk, OnErr, Some, None};
ghost use Rattle.cost.specs.Readings.{worse};
ghost use Rattle.tables.specs.PairTables.{cell, ChangesCell, AreAllAbsent, HavePlaces};
ghost use Rattle.pairing.specs.Places.{place_of, rights_of};
ghost use Rattle.sheet.specs.Needs.{nothing, Responds};
ghost use Rattle.sheet.specs.Opening.{OpensSheet};
ghost use Rattle.sheet.specs.Pairs.{place_needs, strike_needs, Enters, Strikes, Reads};
ghost use Rattle.sheet.specs.Settling.{Settles};
ghost use Rattle.sheet.specs.Size.{IsSize, size_of};
ghost use Rattle.tables.specs.Lent.{lent};

use super::{OpenSheet, SettledSheet};
use crate::fault::{Cause, Fault, Refusal};
use assign::{Outcome, settle};
use cost::Cost;
use tables::{COST_LIMIT, MOST_BLOCKS, disturbed, enter_pair, fill, have_places, place, stands};

/// Opens a sheet of n left and n right blocks, with every pair absent and at cost zero.
///
/// `costs` and `standing` have a place for each pair, n * n. Refused, in this order: a size of 0 or
/// above 64, a table of the wrong length.
pub fn open<K: Cost>(n: u16, costs: &mut [K], standing: &mut [u8]) -> Result<OpenSheet, Fault>
    ensures call { OpensSheet K.zero n costs.old standing.old result costs.new standing.new }
    ensures cells { OnOk result (AreAllAbsent n (cell K.zero n costs.new standing.new)) }
{
    if n == 0 || n > MOST_BLOCKS {
        return Err(Cause::Size.at(0));
    }
    if !have_places(n, costs.len(), standing.len()) {
        return Err(Cause::TableLength.at(0));
    }
    fill(costs, K::zero());
    fill(standing, 0);
    Ok(OpenSheet { n })
}

impl OpenSheet {
    /// The number of left blocks, which is that of the right blocks too.
    pub fn size(&self) -> u16
        ensures value { result ≡ size_of self.now }
        ensures range { IsSize (size_of self.now) }
    {
        self.n
    }

    /// Enters a reading of a pair's cost: an absent pair then stands at it, and of a pair that
    /// stands the worse of the two costs stands, which is the greater as a whole value. Of two that
    /// compare as equal the earlier stays.
    ///
    /// Refused, in this order: a table of the wrong length, a block number of n or more, a reading
    /// that is not within 10^9, a standing byte above 1. Only this pair's byte is looked at, and
    /// not whether the cost that stands is within 10^9.
    pub fn enter<K: Cost>(
        &self,
        costs: &mut [K],
        standing: &mut [u8],
        left: u16,
        right: u16,
        reading: K,
    ) -> Result<(), Fault>
        ensures call { Enters K.Cost (size_of self.now) costs.old standing.old left right reading
            result costs.new standing.new }
        ensures cells { let n = size_of self.now in
            OnOk result (ChangesCell n left right
            (Some (worse K.Cost (cell K.zero n costs.old standing.old left right) reading))
            (cell K.zero n costs.old standing.old) (cell K.zero n costs.new standing.new)) }
    {
        let at = self.locate(costs.len(), standing.len(), left, right)?;
        if !reading.within(COST_LIMIT) {
            return Err(Cause::CostRange.at(0));
        }
        if disturbed(standing[at]) {
            return Err(Cause::Inconsistent.at(0));
        }
        enter_pair(self.n, costs, standing, left, right, reading);
        Ok(())
    }

    /// Makes a standing pair absent, with cost zero.
    ///
    /// Refused, in this order: a table of the wrong length, a block number of n or more, a standing
    /// byte above 1, an absent pair.
    pub fn strike<K: Cost>(
        &self,
        costs: &mut [K],
        standing: &mut [u8],
        left: u16,
        right: u16,
    ) -> Result<(), Fault>
        ensures call { Strikes K.Cost (size_of self.now) costs.old standing.old left right result
            costs.new standing.new }
        ensures cells { let n = size_of self.now in
            OnOk result (ChangesCell n left right None
            (cell K.zero n costs.old standing.old) (cell K.zero n costs.new standing.new)) }
    {
        let at = self.find(costs, standing, left, right)?;
        costs[at] = K::zero();
        standing[at] = 0;
        Ok(())
    }

    /// The cost of a standing pair. Refused as `strike` is.
    pub fn read<K: Cost>(
        &self,
        costs: &[K],
        standing: &[u8],
        left: u16,
        right: u16,
    ) -> Result<K, Fault>
        ensures call { Reads K.Cost (size_of self.now) costs.now standing.now left right result }
        ensures cell { let n = size_of self.now in
            IfOk result (λ cost. cell K.zero n costs.now standing.now left right ≡ Some cost) }
        ensures no_cell { let n = size_of self.now in
            HavePlaces n (length costs.now) (length standing.now) → left < n → right < rights_of n
            → OnErr result (cell K.zero n costs.now standing.now left right ≡ None) }
    {
        let at = self.find(costs, standing, left, right)?;
        Ok(costs[at])
    }

    /// Settles the sheet: writes the optimum pairing that is first in dictionary order to
    /// `partners`, and the greatest valid prices with no right price above zero to `left` and
    /// `right`, which have n places each.
    ///
    /// Refused, in this order: a table of the wrong length; a standing byte above 1, or a standing
    /// pair's cost that is not within 10^9; no perfect pairing, with the crowd set and its
    /// shortage. The open sheet then comes back, and all tables are as they were.
    pub fn settle<K: Cost>(
        self,
        costs: &[K],
        standing: &[u8],
        partners: &mut [u16],
        left: &mut [K],
        right: &mut [K],
    ) -> Result<SettledSheet, Refusal<OpenSheet>>
        ensures { let n = size_of self in
            let old = lent n costs.now standing.now partners.old left.old right.old in
            let new = lent n costs.now standing.now partners.new left.new right.new in
            Settles K.Cost self old new result }
    {
        match settle(self.n, costs, standing, partners, left, right) {
            Ok(Outcome::Optimal) => Ok(SettledSheet::of(self)),
            Ok(Outcome::Unmatched(shortfall)) => Err(Refusal {
                fault: Cause::NoPerfectPairing.at(0),
                state: self,
                shortfall: Some(shortfall),
            }),
            Err(flaw) => Err(Refusal {
                fault: Fault::from(flaw),
                state: self,
                shortfall: None,
            }),
        }
    }

    /// Refuses tables of the wrong length and blocks that do not exist, and else gives the pair's
    /// place.
    fn locate(&self, costs: usize, standing: usize, left: u16, right: u16) -> Result<usize, Fault>
        ensures answers { let n = size_of self.now in
            Responds (place_needs n costs standing left right nothing) result
            (λ at. at ≡ place_of n left right) ⊤ }
        ensures inside { IfOk result (λ at. (at < costs) × (at < standing)) }
    {
        if !have_places(self.n, costs, standing) {
            return Err(Cause::TableLength.at(0));
        }
        if left >= self.n || right >= self.n {
            return Err(Cause::Block.at(0));
        }
        Ok(place(self.n, left, right))
    }

    /// The place of a standing pair.
    fn find<K: Cost>(
        &self,
        costs: &[K],
        standing: &[u8],
        left: u16,
        right: u16,
    ) -> Result<usize, Fault>
        ensures answers { let n = size_of self.now in
            Responds (strike_needs K.Cost n costs.now standing.now left right) result
            (λ at. at ≡ place_of n left right) ⊤ }
        ensures inside { IfOk result (λ at. (at < length costs.now) × (at < length standing.now)) }
    {
        let at = self.locate(costs.len(), standing.len(), left, right)?;
        let byte = standing[at];
        if disturbed(byte) {
            return Err(Cause::Inconsistent.at(0));
        }
        if !stands(byte) {
            return Err(Cause::Absent.at(0));
        }
        Ok(at)
    }
}
