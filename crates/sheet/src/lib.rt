//! A sheet of costs over tables that the caller lends: its states, the calls on it, and why a call
//! is refused.
//!
//! `open` makes an open sheet, of which pairs are entered, struck and read. `OpenSheet::settle`
//! makes it a settled one, which answers quotes, the total and marks. `SettledSheet::start` makes
//! that a walk, which goes through all optimum pairings. A state is moved by the call that leaves
//! it, so a call that a state does not allow does not compile.
#![tactic(auto)]

pub mod fault;
pub mod state;

pub use fault::{Cause, Fault, Layer, Refusal};
pub use matching::{Shortfall, Step};
pub use state::open_calls::open;
pub use state::{OpenSheet, SettledSheet, Walk};
