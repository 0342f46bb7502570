//! The cost kinds, as far as a trial needs them: made from columns, and told apart by a name.

ghost use Rattle.std.specs.Prelude.{[], pos};
ghost use Rattle.std.proofs.Common.{rules};

use cost::{Cost, Free, Plain, TwoStep};
use std::cmp::Ordering;
use std::fmt::Debug;

/// The most columns that a cost of a trial has.
pub type Columns = [i64; 3];

/// A cost kind whose values can be made and told.
pub trait Trial: Cost + PartialEq + Debug {
    const NAME: &'static str;

    /// How many of the small costs differ.
    const COSTS: u8;

    /// The value made of the first columns, as many as the kind has.
    fn made(columns: Columns) -> Self;
}

/// Two plain costs, the second of which decides between equal first ones.
pub type Two = TwoStep<Plain, Plain>;

/// A two-step cost of a two-step cost and a plain one.
pub type Nested = TwoStep<Two, Plain>;

/// A two-step cost with a step that has no column.
pub type TwoFree = TwoStep<TwoStep<Plain, Free>, Plain>;

/// A two-step cost of a plain one and a two-step one.
pub type ThreeRight = TwoStep<Plain, Two>;

/// A tag that is no part of what a cost means, so that values of the same columns can be told
/// apart.
#[derive(Clone, Copy, PartialEq, Eq, Debug)]
pub struct Tag(pub i64);

impl Cost for Tag {
    ghost columns = { 0 };

    ghost meaning = { λ _. [] };

    ghost zero = { record { 0 = pos 0 } };

    ghost laws = { Prim.search rules };

    fn zero() -> Tag {
        Tag(0)
    }

    fn add(self, _other: Tag) -> Tag {
        self
    }

    fn take_away(self, _other: Tag) -> Tag {
        self
    }

    fn compare(self, _other: Tag) -> Ordering {
        Ordering::Equal
    }

    fn within(self, _limit: u64) -> bool {
        true
    }
}

/// A plain cost with a tag.
pub type Tagged = TwoStep<Plain, Tag>;

impl Trial for Plain {
    const NAME: &'static str = "plain";

    const COSTS: u8 = 3;

    fn made([first, ..]: Columns) -> Plain {
        Plain(first)
    }
}

impl Trial for Free {
    const NAME: &'static str = "free";

    const COSTS: u8 = 1;

    fn made(_columns: Columns) -> Free {
        Free
    }
}

impl Trial for TwoStep<Plain, Plain> {
    const NAME: &'static str = "two-step";

    const COSTS: u8 = 4;

    fn made([first, second, _]: Columns) -> Two {
        TwoStep(Plain(first), Plain(second))
    }
}

impl Trial for TwoStep<TwoStep<Plain, Plain>, Plain> {
    const NAME: &'static str = "nested";

    const COSTS: u8 = 4;

    fn made([first, second, third]: Columns) -> Nested {
        TwoStep(TwoStep(Plain(first), Plain(second)), Plain(third))
    }
}

impl Trial for TwoStep<TwoStep<Plain, Free>, Plain> {
    const NAME: &'static str = "two-free";

    const COSTS: u8 = 4;

    fn made([first, second, _]: Columns) -> TwoFree {
        TwoStep(TwoStep(Plain(first), Free), Plain(second))
    }
}

impl Trial for TwoStep<Plain, TwoStep<Plain, Plain>> {
    const NAME: &'static str = "three-right";

    const COSTS: u8 = 4;

    fn made([first, second, third]: Columns) -> ThreeRight {
        TwoStep(Plain(first), TwoStep(Plain(second), Plain(third)))
    }
}

impl Trial for TwoStep<Plain, Tag> {
    const NAME: &'static str = "tagged";

    const COSTS: u8 = 4;

    fn made([first, second, _]: Columns) -> Tagged {
        TwoStep(Plain(first), Tag(second))
    }
}
