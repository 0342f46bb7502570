//! The free kind: no column, so every pairing costs the same.

ghost use Rattle.std.specs.Prelude.{[]};
ghost use Rattle.std.proofs.Common.{rules};

use crate::Cost;
use std::cmp::Ordering;

/// A cost that says nothing: only which pairs stand matters.
#[derive(Clone, Copy, PartialEq, Eq, Debug)]
pub struct Free;

impl Cost for Free {
    ghost columns = { 0 };

    ghost meaning = { λ _. [] };

    ghost zero = { record {} };

    ghost laws = { Prim.search rules };

    fn zero() -> Free {
        Free
    }

    fn add(self, _other: Free) -> Free {
        Free
    }

    fn take_away(self, _other: Free) -> Free {
        Free
    }

    fn compare(self, _other: Free) -> Ordering {
        Ordering::Equal
    }

    fn within(self, _limit: u64) -> bool {
        true
    }
}
