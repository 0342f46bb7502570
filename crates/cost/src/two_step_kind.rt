//! The two-step kind: two kinds in one, the first one's columns before the second one's.

ghost use Rattle.std.specs.Prelude.{◌+◌, ◌≤◌, ◌++◌, ℤ, unsigned_abs};
ghost use Rattle.std.proofs.lemmas.List.{length-append, replicate-append-replicate};
ghost use Rattle.std.proofs.lemmas.List.Elements.{All-append};
ghost use Rattle.std.proofs.lemmas.List.Elements.{All-from_recursion, recursion_from_All};
ghost use Rattle.cost.specs.declared.TheConstants.{RAIL};

use crate::Cost;
use std::cmp::Ordering;

/// A cost of two steps: the second decides only where the first ones are equal.
#[derive(Clone, Copy, PartialEq, Eq, Debug)]
pub struct TwoStep<A, B>(pub A, pub B);

impl<A: Cost, B: Cost> Cost for TwoStep<A, B> {
    ghost columns = { A.Cost.columns + B.Cost.columns };

    ghost meaning = { λ s. A.Cost.meaning s.0 ++ B.Cost.meaning s.1 };

    ghost zero = { record { 0 = A.Cost.zero; 1 = B.Cost.zero } };

    ghost laws = { record {
      column_count = λ x.
          rw (length-append, A.Cost.laws.column_count x.0, B.Cost.laws.column_count x.1);
      on_rail = λ x.
          let P : ℤ → Type 0 = λ z. unsigned_abs z ≤ RAIL in
          recursion_from_All P _ (All-append P _ _
          (All-from_recursion P _ (A.Cost.laws.on_rail x.0))
          (All-from_recursion P _ (B.Cost.laws.on_rail x.1)));
      zero_columns =
          rw (A.Cost.laws.zero_columns, B.Cost.laws.zero_columns)
          (replicate-append-replicate _ _ _);
    } };

    fn zero() -> TwoStep<A, B> {
        TwoStep(A::zero(), B::zero())
    }

    fn add(self, other: TwoStep<A, B>) -> TwoStep<A, B> {
        TwoStep(self.0.add(other.0), self.1.add(other.1))
    }

    fn take_away(self, other: TwoStep<A, B>) -> TwoStep<A, B> {
        TwoStep(self.0.take_away(other.0), self.1.take_away(other.1))
    }

    fn compare(self, other: TwoStep<A, B>) -> Ordering {
        match self.0.compare(other.0) {
            Ordering::Equal => self.1.compare(other.1),
            decided => decided,
        }
    }

    fn add_near(self, other: TwoStep<A, B>) -> TwoStep<A, B> {
        TwoStep(self.0.add_near(other.0), self.1.add_near(other.1))
    }

    fn take_away_near(self, other: TwoStep<A, B>) -> TwoStep<A, B> {
        TwoStep(
            self.0.take_away_near(other.0),
            self.1.take_away_near(other.1),
        )
    }

    // Both steps are compared whatever the first one says, so that a loop over many pairs has no
    // branch here and can take several at once.
    fn is_less_near(self, than: TwoStep<A, B>) -> bool {
        self.0.is_less_near(than.0) | (self.0.is_equal_near(than.0) & self.1.is_less_near(than.1))
    }

    fn is_equal_near(self, to: TwoStep<A, B>) -> bool {
        self.0.is_equal_near(to.0) & self.1.is_equal_near(to.1)
    }

    fn within(self, limit: u64) -> bool {
        self.0.within(limit) & self.1.within(limit)
    }
}
