//! Cost kinds: what a pair of blocks can cost, and the arithmetic every kind has to offer.
#![tactic(auto)]

ghost use Rattle.std.specs.Prelude.{◌≡◌, ℕ, List, ℤ};
ghost use Rattle.std.specs.Ordering.{is_lt, is_eq};
ghost use Rattle.cost.specs.declared.TheConstants.{HALF_RAIL};
ghost use Rattle.cost.specs.Columns.{AreWithin, within, sums, differences, lex};
ghost use Rattle.cost.specs.Kind.{KindLaws};

mod free_kind;
mod laws;
mod plain_kind;
mod two_step_kind;

pub use free_kind::Free;
pub use laws::{exact_reach, order_chains, order_mirrors, order_shifts, weights_compare};
pub use plain_kind::Plain;
use std::cmp::Ordering;
pub use two_step_kind::TwoStep;

/// The rail: each column of a value is from -RAIL to RAIL.
pub const RAIL: u64 = 1_000_000_000_000_000;

/// Half of the rail. A value within it is near: sum and difference of two near values lie on the
/// rail, so that nothing is stopped at its ends.
pub const HALF_RAIL: u64 = 500_000_000_000_000;

/// The cost of a pair is within this in each column.
pub const COST_LIMIT: u64 = 1_000_000_000;

/// A price is within this in each column.
pub const PRICE_LIMIT: u64 = 1_000_000_000_000;

/// A cost kind. A value means a list of whole numbers, its columns: all values of a kind have the
/// same number of columns, and each column lies on the rail, from -10^15 to 10^15.
///
/// A kind answers five questions about the columns alone, so code that is generic over the kind is
/// proved once, for kinds that were written elsewhere too. The sum and the difference come again
/// for near values: their callers know how far their values can get. And two ask for one side of a
/// comparison with a near value, which a kind of several steps can tell without a branch. A kind
/// that has nothing faster to offer leaves all these out.
pub trait Cost: Copy {
    // How many columns a value has.
    ghost columns: { ℕ };

    // The columns of a value.
    ghost meaning: { Self → List ℤ };

    // The value that `zero` answers.
    ghost zero: { Self };

    /// The value with 0 in every column.
    fn zero() -> Self
        ensures { result ≡ zero };

    /// The sum, column by column; a column that would leave the rail stops at its end.
    fn add(self, other: Self) -> Self
        ensures { meaning result ≡ sums (meaning self) (meaning other) };

    /// The difference, column by column; a column that would leave the rail stops at its end.
    fn take_away(self, other: Self) -> Self
        ensures { meaning result ≡ differences (meaning self) (meaning other) };

    /// The order of two values: the first column that differs decides.
    fn compare(self, other: Self) -> Ordering
        ensures { result ≡ lex (meaning self) (meaning other) };

    /// The sum of two near values: nothing is stopped.
    fn add_near(self, other: Self) -> Self
        requires first { AreWithin HALF_RAIL (meaning self) }
        requires second { AreWithin HALF_RAIL (meaning other) }
        ensures { meaning result ≡ sums (meaning self) (meaning other) }
    {
        self.add(other)
    }

    /// The difference of two near values: nothing is stopped.
    fn take_away_near(self, other: Self) -> Self
        requires first { AreWithin HALF_RAIL (meaning self) }
        requires second { AreWithin HALF_RAIL (meaning other) }
        ensures { meaning result ≡ differences (meaning self) (meaning other) }
    {
        self.take_away(other)
    }

    /// Whether a value comes before a near one. Any value may be asked, near or not.
    fn is_less_near(self, than: Self) -> bool
        requires { AreWithin HALF_RAIL (meaning than) }
        ensures { result ≡ is_lt (lex (meaning self) (meaning than)) }
    {
        self.compare(than).is_lt()
    }

    /// Whether a value is the same as a near one in each column. Any value may be asked, near or
    /// not.
    fn is_equal_near(self, to: Self) -> bool
        requires { AreWithin HALF_RAIL (meaning to) }
        ensures { result ≡ is_eq (lex (meaning self) (meaning to)) }
    {
        self.compare(to).is_eq()
    }

    /// Whether each column is from -limit to limit.
    fn within(self, limit: u64) -> bool
        ensures { result ≡ within limit (meaning self) };

    // What each `impl` must prove: each value has `columns` columns, all on the rail, and `zero`
    // has 0 in each of them.
    ghost laws: { KindLaws columns meaning zero };
}
