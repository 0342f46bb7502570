//! The tables that a caller lends: where a pair lies in them, the grid that they state, and rows of
//! the pairs that stand or are tight.
#![tactic(auto)]

mod flaw;
mod lent;
mod pair_rows;
mod pair_tables;
mod rows;
mod sound;

pub use blockset::MOST_BLOCKS;
pub use cost::COST_LIMIT;
pub use flaw::Flaw;
pub use lent::{Tables, check_usable};
pub use pair_rows::PairRows;
pub use pair_tables::{
    disturbed, enter_pair, fill, have_places, in_order, part_of, place, places, rights,
    standing_pairs, stands,
};
