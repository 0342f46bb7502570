//! What the words of a command ask of a program, and what the program leaves: on its output, on its
//! errors, and as its status.
#![tactic(auto)]

mod command;
mod streams;

pub use command::{Command, means_help};
pub use streams::{Streams, WRONG_USAGE};
