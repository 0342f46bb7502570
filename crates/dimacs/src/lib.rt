//! Assignment texts in the DIMACS format: a sheet of plain costs as lines, read into the tables
//! that a caller lends.
#![tactic(auto)]

pub mod importing;
pub mod law;
pub mod line;
pub mod line_reader;
mod progress;
pub mod word;
mod words;

pub use importing::{check, import};
pub use line::Line;
pub use line_reader::LineReader;
pub use word::{Cost, Number};
