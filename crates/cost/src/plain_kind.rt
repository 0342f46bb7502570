//! The plain kind: one column, a signed 64-bit number.

ghost use Rattle.std.specs.Prelude.{◌≡◌, ◌≤◌, ◌↔◌, [], ◌∷◌, pos, ◌+ℤ◌, ◌-ℤ◌, unsigned_abs, IsTrue};
ghost use Rattle.cost.specs.declared.TheConstants.{HALF_RAIL};
ghost use Rattle.cost.specs.Columns.{AreWithin, rail_of, sums, differences};
ghost use Rattle.std.proofs.Common.{rules};

use crate::Cost;
use std::cmp::Ordering;

const RAIL: i64 = crate::RAIL as i64;

/// Half of the rail: sums and differences of numbers within it lie on the rail.
const HALF: i64 = crate::HALF_RAIL as i64;

/// A plain cost. The type has no invariant, since plain costs lie in tables that anybody may have
/// written: a number beyond the rail means the nearer end of the rail.
#[derive(Clone, Copy, PartialEq, Eq, Debug)]
#[repr(C)]
pub struct Plain(pub i64);

/// `x`, or the end of the rail that it lies beyond.
fn on_rail(x: i64) -> i64
    ensures { result ≡ rail_of x }
{
    x.clamp(-RAIL, RAIL)
}

/// Whether `x` is within half of the rail, as nearly all numbers are: then nothing has to be
/// stopped, which saves a good part of the time of a sum.
fn is_near(x: i64) -> bool
    ensures { IsTrue result ↔ (unsigned_abs x ≤ unsigned_abs HALF) }
{
    -HALF <= x && x <= HALF
}

impl Cost for Plain {
    ghost columns = { 1 };

    ghost meaning = { λ p. rail_of p.0 ∷ [] };

    ghost zero = { record { 0 = pos 0 } };

    ghost laws = { Prim.search rules };

    fn zero() -> Plain {
        Plain(0)
    }

    // The number that is returned lies on the rail itself.
    fn add(self, other: Plain) -> Plain
        ensures means { rail_of result.0 ∷ [] ≡ sums (rail_of self.0 ∷ []) (rail_of other.0 ∷ []) }
        ensures bounded { result.0 ≡ rail_of (rail_of self.0 +ℤ rail_of other.0) }
    {
        if is_near(self.0) && is_near(other.0) {
            self.add_near(other)
        } else {
            Plain(on_rail(on_rail(self.0) + on_rail(other.0)))
        }
    }

    // The number that is returned lies on the rail itself.
    fn take_away(self, other: Plain) -> Plain
        ensures means { rail_of result.0 ∷ [] ≡ differences (rail_of self.0 ∷ [])
            (rail_of other.0 ∷ []) }
        ensures bounded { result.0 ≡ rail_of (rail_of self.0 -ℤ rail_of other.0) }
    {
        if is_near(self.0) && is_near(other.0) {
            self.take_away_near(other)
        } else {
            Plain(on_rail(on_rail(self.0) - on_rail(other.0)))
        }
    }

    fn compare(self, other: Plain) -> Ordering {
        on_rail(self.0).cmp(&on_rail(other.0))
    }

    // A near number means itself.
    fn add_near(self, other: Plain) -> Plain
        requires first { AreWithin HALF_RAIL (rail_of self.0 ∷ []) }
        requires second { AreWithin HALF_RAIL (rail_of other.0 ∷ []) }
        ensures means { rail_of result.0 ∷ [] ≡ sums (rail_of self.0 ∷ []) (rail_of other.0 ∷ []) }
        ensures exact { result.0 ≡ self.0 +ℤ other.0 }
    {
        Plain(self.0 + other.0)
    }

    fn take_away_near(self, other: Plain) -> Plain
        requires first { AreWithin HALF_RAIL (rail_of self.0 ∷ []) }
        requires second { AreWithin HALF_RAIL (rail_of other.0 ∷ []) }
        ensures means { rail_of result.0 ∷ [] ≡ differences (rail_of self.0 ∷ [])
            (rail_of other.0 ∷ []) }
        ensures exact { result.0 ≡ self.0 -ℤ other.0 }
    {
        Plain(self.0 - other.0)
    }

    // A number beyond the rail lies on the same side of a near one as the end of the rail that it
    // means, so the numbers are compared as they stand.
    fn is_less_near(self, than: Plain) -> bool {
        self.0 < than.0
    }

    fn is_equal_near(self, to: Plain) -> bool {
        self.0 == to.0
    }

    // Where the limit is short of the rail, what lies beyond the rail is beyond the limit too. Both
    // ends are looked at, so that a loop over many pairs has no branch here.
    fn within(self, limit: u64) -> bool {
        if limit >= crate::RAIL {
            return true;
        }
        let most = limit as i64;
        (-most <= self.0) & (self.0 <= most)
    }
}
