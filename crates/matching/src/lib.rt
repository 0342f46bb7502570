//! Pairings over rows of block sets, with no costs: row l holds the right blocks that left block l
//! may be paired with.
//!
//! A pairing, a matching of left with right blocks, is a list of right blocks, one for each left
//! block in turn. `largest` pairs as many left blocks as it can, or says which left blocks are too
//! crowded to be paired all. From a perfect pairing, which pairs every left block, `first` and
//! `next` go through all perfect pairings in dictionary order, and `marks` tells which pairs occur
//! in any of them.
//!
//! All of them go by alternating paths, called chains: from a left block to a right block of its
//! row, on to the left block that has that right block, and so on. Exchanging the pairs along a
//! chain makes another pairing. A search takes up each left block and each right block at most
//! once, so it takes at most 2n steps of a few set operations each. `marks` closes the single steps
//! instead.
#![tactic(auto)]

mod augmenting;
mod chains;
mod fitting;
mod marking;
mod stepping;

pub use augmenting::{Found, Shortfall, largest, pair_most};
pub use chains::{Holders, Reach, exchange};
pub use fitting::{Unfit, fit, is_pairing, pairs_each_row};
pub use marking::{mark_all, marks};
pub use stepping::{Step, advance, first, make_first, next};
