//! The mathematics of pairing: what the words mean stands in specs/, and each theorem is the
//! contract of a function here. One without a result does nothing: it is here for its theorem.
#![tactic(auto)]

ghost use Rattle.pairing.specs.Examples.{Examples};
ghost use Rattle.pairing.specs.Theorems.{ProvesOptimum, OptimumIfTight, TightAlike, ValidAlike};
ghost use Rattle.pairing.specs.Theorems.{GreatestAlike, GivenAlike, LeavesOut, Hall};
ghost use Rattle.pairing.specs.Theorems.{LargestIfStuck, CrowdIfReached, ShortBy, SendsIfChain};
ghost use Rattle.pairing.specs.Theorems.{PerfectsAre, PairsAre, OptimaAre, MarksAre, InsideMatters};

use cost::{Cost, Free, Plain, TwoStep};

/// Prices that are valid for a perfect pairing prove it optimum (weak duality).
pub fn proves_optimum()
    ensures { ProvesOptimum }
{}

/// Under valid prices a perfect pairing is optimum exactly if it is tight (complementary
/// slackness).
pub fn optimum_if_tight()
    ensures { OptimumIfTight }
{}

/// Whichever valid prices are taken, the same perfect pairings are tight.
pub fn tight_alike()
    ensures { TightAlike }
{}

/// Prices that are valid for one perfect pairing are valid for just the optimum pairings.
pub fn valid_alike()
    ensures { ValidAlike }
{}

/// There is only one system of greatest prices, and the left ones follow from the right ones.
pub fn greatest_alike()
    ensures { GreatestAlike }
{}

/// Two perfect pairings give equally many left blocks a right block of a set; where the set is
/// closed, they give them to the same left blocks.
pub fn given_alike()
    ensures { GivenAlike }
{}

/// How many left blocks every pairing leaves out at least, where `many` left blocks stand with only
/// `few` right blocks.
pub fn least_left_out(many: usize, few: usize) -> usize
    ensures { LeavesOut many few result }
{
    if few < many { many - few } else { 0 }
}

/// Hall's condition on left blocks that stand with only `few` right blocks: where it is false, no
/// pairing is perfect.
pub fn may_be_perfect(many: usize, few: usize) -> bool
    ensures { Hall many few result }
{
    many <= few
}

/// A pairing is largest exactly if no augmenting path is left, and there is always one.
pub fn largest_if_stuck()
    ensures { LargestIfStuck }
{}

/// The crowd set is what is reached from the left blocks that a largest pairing leaves out.
pub fn crowd_if_reached()
    ensures { CrowdIfReached }
{}

/// The crowd set is short of as many right blocks as a largest pairing leaves left blocks out (its
/// deficiency).
pub fn short_by()
    ensures { ShortBy }
{}

/// A left block can be sent to a right block exactly if a chain leads from there to its own right
/// block.
pub fn sends_if_chain()
    ensures { SendsIfChain }
{}

/// `perfects` is the list of the perfect pairings.
pub fn perfects_are()
    ensures { PerfectsAre }
{}

/// Some perfect pairing has a pair exactly if one in the list has it.
pub fn pairs_are()
    ensures { PairsAre }
{}

/// `optima` is the list of the optimum pairings.
pub fn optima_are()
    ensures { OptimaAre }
{}

/// Some optimum pairing has a pair exactly if one in the list has it.
pub fn marks_are()
    ensures { MarksAre }
{}

/// Grids that are the same inside have the same pairings, prices and crowd sets: nothing that a
/// grid says of other pairs matters.
pub fn inside_matters()
    ensures { InsideMatters }
{}

/// A pair of a left and a right block.
#[derive(Clone, Copy)]
pub struct Pair {
    pub left: usize,
    pub right: usize,
}

/// The numbers of the worked examples, grid by grid: the optimum pairings in dictionary order with
/// their total and greatest prices, and what else the example shows.
#[derive(Clone, Copy)]
pub struct Worked {
    pub s_optima: [[u16; 3]; 2],
    pub s_total: i64,
    pub s_left: [i64; 3],
    pub s_right: [i64; 3],
    pub s_unmarked: [[u16; 2]; 2],
    pub free_optima: [[u16; 3]; 3],
    pub two_step_optima: [[u16; 2]; 1],
    pub two_step_total: [i64; 2],
    pub crowded_set: u64,
    pub crowded_short: usize,
    pub bare_set: u64,
    pub bare_short: usize,
    pub corner_optima: [[u16; 2]; 1],
    pub corner_left: [i64; 2],
    pub corner_right: [i64; 2],
    pub corner_pair: Pair,
    pub cheap_optima: [[u16; 2]; 1],
    pub cheap_total: i64,
    pub cheap_left: [i64; 2],
    pub cheap_right: [i64; 2],
    pub level_count: usize,
    pub level_first: [u16; 3],
    pub level_last: [u16; 3],
}

/// The worked examples, which hold by the definitions themselves. Their grids are what tables of
/// plain, free and two-step costs state.
pub fn worked_examples() -> Worked
    ensures { Examples ⟦<Plain as Cost>⟧ ⟦<Free as Cost>⟧ ⟦<TwoStep<Plain, Plain> as Cost>⟧
        result }
{
    Worked {
        s_optima: [[0, 1, 2], [1, 0, 2]],
        s_total: 7,
        s_left: [4, 3, 2],
        s_right: [0, -2, 0],
        s_unmarked: [[1, 2], [2, 1]],
        free_optima: [[0, 1, 2], [0, 2, 1], [1, 0, 2]],
        two_step_optima: [[1, 0]],
        two_step_total: [4, 0],
        crowded_set: 3,
        crowded_short: 1,
        bare_set: 1,
        bare_short: 1,
        corner_optima: [[0, 1]],
        corner_left: [0, 0],
        corner_right: [0, 0],
        corner_pair: Pair { left: 0, right: 1 },
        cheap_optima: [[0, 1]],
        cheap_total: -5,
        cheap_left: [-5, 0],
        cheap_right: [0, 0],
        level_count: 6,
        level_first: [0, 1, 2],
        level_last: [2, 1, 0],
    }
}
