//! The cost of a pair by the rules of the house, made from what was measured: program time first,
//! then how far the erase counts of the two blocks are apart, then how far their wear classes are.

ghost use Rattle.std.specs.Prelude.{MatchResult, pos};
ghost use Rattle.std.proofs.Common.{rules};

use cost::{COST_LIMIT, Cost, Plain};
use std::cmp::Ordering;
use thiserror::Error;

/// A block as the wear table has it.
#[derive(Clone, Copy, PartialEq, Eq, Debug)]
pub struct Block {
    /// How often it was erased.
    pub erases: u32,
    /// Its wear class: the closer two numbers, the more alike are the blocks.
    pub class: u8,
}

/// What a pair costs. The third column is the rule of the house: a pair costs the distance of its
/// blocks' wear classes, so that among plans of equal time and wear the one wins that mixes
/// classes least.
#[derive(Clone, Copy, PartialEq, Eq, Debug)]
pub struct HouseCost {
    /// The time that a program of both blocks takes, in microseconds.
    pub time: i64,
    /// How far the erase counts are apart.
    pub wear: i64,
    /// How far the wear classes are apart.
    pub mixing: i64,
}

/// A figure that is too large for a cost.
#[derive(Clone, Copy, PartialEq, Eq, Debug, Error)]
pub enum Unfit {
    #[error("a program of {0} microseconds is too long: a cost is at most {COST_LIMIT}")]
    Time(u32),
    #[error("erase counts {0} apart are too far: a cost is at most {COST_LIMIT}")]
    Wear(u32),
}

impl HouseCost {
    ghost use Rattle.example_kind.specs.House.{IsCostOf, IsUnfit};

    /// The cost of a pair, of which a program took so many microseconds.
    pub fn of(time: u32, left: Block, right: Block) -> Result<HouseCost, Unfit>
        ensures { MatchResult result (IsCostOf time left right) (IsUnfit time left right) }
    {
        if u64::from(time) > COST_LIMIT {
            return Err(Unfit::Time(time));
        }
        let wear = left.erases.abs_diff(right.erases);
        if u64::from(wear) > COST_LIMIT {
            return Err(Unfit::Wear(wear));
        }
        Ok(HouseCost {
            time: i64::from(time),
            wear: i64::from(wear),
            mixing: i64::from(left.class.abs_diff(right.class)),
        })
    }
}

impl Cost for HouseCost {
    ghost use Rattle.example_kind.specs.House.{house_columns};

    ghost columns = { 3 };

    ghost meaning = { house_columns };

    ghost zero = { record { time = pos 0; wear = pos 0; mixing = pos 0 } };

    ghost laws = { Prim.search rules };

    fn zero() -> HouseCost {
        HouseCost {
            time: 0,
            wear: 0,
            mixing: 0,
        }
    }

    fn add(self, other: HouseCost) -> HouseCost {
        let Plain(time) = Plain(self.time).add(Plain(other.time));
        let Plain(wear) = Plain(self.wear).add(Plain(other.wear));
        let Plain(mixing) = Plain(self.mixing).add(Plain(other.mixing));
        HouseCost { time, wear, mixing }
    }

    fn take_away(self, other: HouseCost) -> HouseCost {
        let Plain(time) = Plain(self.time).take_away(Plain(other.time));
        let Plain(wear) = Plain(self.wear).take_away(Plain(other.wear));
        let Plain(mixing) = Plain(self.mixing).take_away(Plain(other.mixing));
        HouseCost { time, wear, mixing }
    }

    fn compare(self, other: HouseCost) -> Ordering {
        Plain(self.time)
            .compare(Plain(other.time))
            .then(Plain(self.wear).compare(Plain(other.wear)))
            .then(Plain(self.mixing).compare(Plain(other.mixing)))
    }

    fn within(self, limit: u64) -> bool {
        Plain(self.time).within(limit)
            && Plain(self.wear).within(limit)
            && Plain(self.mixing).within(limit)
    }
}
