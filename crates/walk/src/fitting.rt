//! The three calls over tables as one value, where all lengths are known to fit.

ghost use Rattle.std.specs.Prelude.{◌≡◌, ◌↔◌, length, IsOk, IfOk, OnOk, OnErr};
ghost use Rattle.pairing.specs.Grid.{IsOptimum};
ghost use Rattle.pairing.specs.Optima.{optima};
ghost use Rattle.pairing.specs.Places.{places_of};
ghost use Rattle.matching.specs.Answers.{IsNth, Follows, AreMarksOf};
ghost use Rattle.tables.specs.Lent.{HasLengths, grid};
ghost use Rattle.tables.specs.Together.{HoldTogether};

use crate::Apart;
use crate::certificate::certify_fitting;
use cost::Cost;
use matching::{Step, advance, make_first, mark_all, pairs_each_row};
use tables::Tables;

/// What `start` does once all lengths are known to fit.
pub fn start_fitting<K: Cost>(tables: &Tables<'_, K>, walk: &mut [u16]) -> Result<(), Apart>
    requires fit { HasLengths tables.now }
    requires long { length walk.old ≡ tables.now.size }
    ensures accepted { IsOk result ↔ HoldTogether K.Cost tables.now }
    ensures first { OnOk result (IsNth (optima (grid K.Cost tables.now)) 0 walk.new) }
    ensures optimum { OnOk result (IsOptimum (grid K.Cost tables.now) walk.new) }
    ensures apart { OnErr result (walk.new ≡ walk.old) }
{
    let Some(rows) = certify_fitting(tables) else {
        return Err(Apart);
    };
    walk.copy_from_slice(tables.partners);
    make_first(rows.as_slice(), walk);
    Ok(())
}

/// What `next` does once all lengths are known to fit.
pub fn step_fitting<K: Cost>(tables: &Tables<'_, K>, walk: &mut [u16]) -> Result<Step, Apart>
    requires fit { HasLengths tables.now }
    requires long { length walk.old ≡ tables.now.size }
    ensures accepted { let t = tables.now in
        IsOk result ↔ (HoldTogether K.Cost t × IsOptimum (grid K.Cost t) walk.old) }
    ensures steps { IfOk result (Follows (optima (grid K.Cost tables.now)) walk.old walk.new) }
    ensures optimum { OnOk result (IsOptimum (grid K.Cost tables.now) walk.new) }
    ensures apart { OnErr result (walk.new ≡ walk.old) }
{
    let Some(rows) = certify_fitting(tables) else {
        return Err(Apart);
    };
    if !pairs_each_row(rows.as_slice(), walk) {
        return Err(Apart);
    }
    Ok(advance(rows.as_slice(), walk))
}

/// What `marks` does once all lengths are known to fit.
pub fn mark_fitting<K: Cost>(tables: &Tables<'_, K>, table: &mut [u8]) -> Result<(), Apart>
    requires fit { HasLengths tables.now }
    requires long { length table.old ≡ places_of tables.now.size }
    ensures accepted { IsOk result ↔ HoldTogether K.Cost tables.now }
    ensures marks { let t = tables.now in
        OnOk result (AreMarksOf t.size (optima (grid K.Cost t)) table.new) }
    ensures apart { OnErr result (table.new ≡ table.old) }
{
    let Some(rows) = certify_fitting(tables) else {
        return Err(Apart);
    };
    mark_all(rows.as_slice(), tables.partners, table);
    Ok(())
}
