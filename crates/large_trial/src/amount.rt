//! Costs, prices and their sums as the trial itself reckons them: three whole numbers, added one by
//! one and ordered by the first that differs. A sum that does not fit is an error of the trial.

use anyhow::Context;
use std::fmt;

/// The columns of a cost; those that its kind does not have are 0.
pub type Columns = [i64; 3];

#[derive(Clone, Copy, PartialEq, Eq, PartialOrd, Ord)]
pub struct Amount {
    first: i64,
    second: i64,
    third: i64,
}

impl fmt::Display for Amount {
    fn fmt<W: fmt::Write>(&self, f: &mut fmt::Formatter<W>) -> fmt::Result {
        let (first, second, third) = (self.first, self.second, self.third);
        write!(f, "{first} {second} {third}")
    }
}

impl Amount {
    pub const ZERO: Amount = Amount {
        first: 0,
        second: 0,
        third: 0,
    };

    pub fn of([first, second, third]: Columns) -> Self {
        Amount {
            first,
            second,
            third,
        }
    }

    pub fn plus(self, other: Amount) -> anyhow::Result<Amount> {
        Ok(Amount {
            first: sum(self.first, other.first)?,
            second: sum(self.second, other.second)?,
            third: sum(self.third, other.third)?,
        })
    }

    /// Whether each number is from `-most` to `most`.
    pub fn is_within(self, most: u64) -> bool {
        self.first.unsigned_abs() <= most
            && self.second.unsigned_abs() <= most
            && self.third.unsigned_abs() <= most
    }
}

fn sum(a: i64, b: i64) -> anyhow::Result<i64> {
    a.checked_add(b).context("a sum does not fit 64 bits")
}
