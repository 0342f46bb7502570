//! Two cost kinds as a maker of controllers would write them, in a crate of their own:
//! `Programming` is a time and a wear; `HouseCost` has a third column, and a constructor that makes
//! it from measured figures.
#![tactic(auto)]

ghost use Rattle.std.specs.Prelude.{[], ◌∷◌, pos};
ghost use Rattle.cost.specs.Columns.{rail_of};
ghost use Rattle.std.proofs.Common.{rules};

mod house;

use cost::{Cost, Plain};
pub use house::{Block, HouseCost, Unfit};
use std::cmp::Ordering;

/// What programming a pair costs: its time in microseconds, and among equal times its wear.
#[derive(Clone, Copy, PartialEq, Eq, Debug)]
pub struct Programming {
    pub time: i64,
    pub wear: i64,
}

impl Cost for Programming {
    ghost columns = { 2 };

    ghost meaning = { λ p. rail_of p.time ∷ rail_of p.wear ∷ [] };

    ghost zero = { record { time = pos 0; wear = pos 0 } };

    ghost laws = { Prim.search rules };

    fn zero() -> Programming {
        Programming { time: 0, wear: 0 }
    }

    fn add(self, other: Programming) -> Programming {
        let Plain(time) = Plain(self.time).add(Plain(other.time));
        let Plain(wear) = Plain(self.wear).add(Plain(other.wear));
        Programming { time, wear }
    }

    fn take_away(self, other: Programming) -> Programming {
        let Plain(time) = Plain(self.time).take_away(Plain(other.time));
        let Plain(wear) = Plain(self.wear).take_away(Plain(other.wear));
        Programming { time, wear }
    }

    fn compare(self, other: Programming) -> Ordering {
        match Plain(self.time).compare(Plain(other.time)) {
            Ordering::Equal => Plain(self.wear).compare(Plain(other.wear)),
            decided => decided,
        }
    }

    fn within(self, limit: u64) -> bool {
        Plain(self.time).within(limit) && Plain(self.wear).within(limit)
    }
}
