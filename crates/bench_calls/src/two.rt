//! The two-step kind over two plain steps, in a layout that C can be handed.

ghost use Rattle.std.specs.Prelude.{◌≡◌, [], ◌∷◌, pos};
ghost use Rattle.cost.specs.Columns.{rail_of};
ghost use Rattle.std.proofs.Common.{rules};

use cost::{Cost, Plain, TwoStep};
use std::cmp::Ordering;

/// A cost of two plain steps. A struct with type parameters cannot be handed to C, so this one says
/// the two steps anew; all that it answers is what the two-step kind answers.
#[derive(Clone, Copy, PartialEq, Eq, Debug)]
#[repr(C)]
pub struct Two {
    pub first: Plain,
    pub second: Plain,
}

impl Two {
    fn steps(self) -> TwoStep<Plain, Plain>
        ensures { result ≡ record { 0 = self.first; 1 = self.second } }
    {
        TwoStep(self.first, self.second)
    }

    fn of(steps: TwoStep<Plain, Plain>) -> Two
        ensures { result ≡ record { first = steps.0; second = steps.1 } }
    {
        Two {
            first: steps.0,
            second: steps.1,
        }
    }
}

impl Cost for Two {
    ghost columns = { 2 };

    ghost meaning = { λ two. rail_of two.first.0 ∷ rail_of two.second.0 ∷ [] };

    ghost zero = { record { first = record { 0 = pos 0 }; second = record { 0 = pos 0 } } };

    ghost laws = { Prim.search rules };

    fn zero() -> Two {
        Two::of(TwoStep::zero())
    }

    fn add(self, other: Two) -> Two {
        Two::of(self.steps().add(other.steps()))
    }

    fn take_away(self, other: Two) -> Two {
        Two::of(self.steps().take_away(other.steps()))
    }

    fn compare(self, other: Two) -> Ordering {
        self.steps().compare(other.steps())
    }

    fn add_near(self, other: Two) -> Two {
        Two::of(self.steps().add_near(other.steps()))
    }

    fn take_away_near(self, other: Two) -> Two {
        Two::of(self.steps().take_away_near(other.steps()))
    }

    fn is_less_near(self, than: Two) -> bool {
        self.steps().is_less_near(than.steps())
    }

    fn is_equal_near(self, to: Two) -> bool {
        self.steps().is_equal_near(to.steps())
    }

    fn within(self, limit: u64) -> bool {
        self.steps().within(limit)
    }
}
