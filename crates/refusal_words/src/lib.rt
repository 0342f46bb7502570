//! Refusals in words, and the line of a pairing: what several programs print alike.
#![tactic(auto)]

mod causes;
mod number_lines;
mod refusal_lines;

pub use causes::{CAUSES, meaning, remedy};
pub use number_lines::{push_numbers_line, push_pairing_line};
pub use refusal_lines::{explain, push_refusal, push_unmatched};
