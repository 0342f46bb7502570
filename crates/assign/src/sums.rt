//! Sums, differences and comparisons of near values: they stay so far inside the rail that nothing
//! is stopped at its ends, and so nothing tests for them.

ghost use Rattle.std.specs.Prelude.{◌≡◌, ℕ, ◌+◌, ◌≤◌, true, false, ◌+ℤ◌, ◌-ℤ◌, ◌≤ℤ◌, ◌<ℤ◌};
ghost use Rattle.cost.specs.declared.TheConstants.{RAIL, HALF_RAIL};
ghost use Rattle.cost.specs.Columns.{AreWithin};
ghost use Rattle.cost.specs.Weights.{weight};

use cost::Cost;

/// The exact sum of two near values.
pub fn exact_sum<K: Cost>(a: K, b: K) -> K
    requires first { AreWithin HALF_RAIL (K.meaning a) }
    requires second { AreWithin HALF_RAIL (K.meaning b) }
    ensures sum { weight (K.meaning result) ≡ weight (K.meaning a) +ℤ weight (K.meaning b) }
    ensures bound { (x y : ℕ) → AreWithin x (K.meaning a) → AreWithin y (K.meaning b)
        → x + y ≤ RAIL → AreWithin (x + y) (K.meaning result) }
{
    a.add_near(b)
}

/// The exact difference of two near values.
pub fn exact_difference<K: Cost>(a: K, b: K) -> K
    requires first { AreWithin HALF_RAIL (K.meaning a) }
    requires second { AreWithin HALF_RAIL (K.meaning b) }
    ensures sum { weight (K.meaning result) ≡ weight (K.meaning a) -ℤ weight (K.meaning b) }
    ensures bound { (x y : ℕ) → AreWithin x (K.meaning a) → AreWithin y (K.meaning b)
        → x + y ≤ RAIL → AreWithin (x + y) (K.meaning result) }
{
    a.take_away_near(b)
}

/// Whether the near value `a` is less than the near value `b`.
pub fn is_less<K: Cost>(a: K, b: K) -> bool
    requires first { AreWithin HALF_RAIL (K.meaning a) }
    requires second { AreWithin HALF_RAIL (K.meaning b) }
    ensures less { result ≡ true → weight (K.meaning a) <ℤ weight (K.meaning b) }
    ensures not_less { result ≡ false → weight (K.meaning b) ≤ℤ weight (K.meaning a) }
{
    a.is_less_near(b)
}
