//! The laws of column arithmetic, each the contract of a function. One without a result does
//! nothing: it is here for the law that it states.

ghost use Rattle.std.specs.Prelude.{ℕ, ◌≤◌};
ghost use Rattle.cost.specs.Laws.{IsExact, OrderMirrors, EqualIsSame, OrderChains, OrderShifts};
ghost use Rattle.cost.specs.Weights.{WeightsCompare, SumsWeigh, DifferencesWeigh};

use crate::RAIL;

/// How far sums and differences stay exact: where the bounds of two values add up to at most this
/// number, nothing is stopped at an end of the rail. No greater number would do.
pub fn exact_reach() -> u64
    ensures exact { IsExact result }
    ensures most { (reach : ℕ) → IsExact reach → reach ≤ result }
{
    RAIL
}

/// The other way round two values compare in reverse, and only the same columns compare as equal:
/// so the order is total.
pub fn order_mirrors()
    ensures mirrors { OrderMirrors }
    ensures equal { EqualIsSame }
{}

/// Where both pairs of neighbours of three values compare alike, the outer two do too.
pub fn order_chains()
    ensures { OrderChains }
{}

/// Adding the same to two values keeps their order.
pub fn order_shifts()
    ensures { OrderShifts }
{}

/// The weights of two values compare as the values do, and add up as they do. The weight of a value
/// is its columns read as one whole number, by which contracts speak of sums and orders at once; no
/// code computes it.
pub fn weights_compare()
    ensures order { WeightsCompare }
    ensures sum { SumsWeigh }
    ensures difference { DifferencesWeigh }
{}
