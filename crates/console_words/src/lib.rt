//! A sheet driven by typed lines: what a line asks for, what comes of it, and the answer in plain
//! words.
//!
//! `converse` reads lines and writes the answer to each at once, and `talk` is the whole program.
//! `Console` is the same without input and output: it takes one line after the other and gives the
//! text to write.
#![tactic(auto)]

mod answer_lines;
mod complaint;
mod console;
mod desk;
mod help;
mod lead;
mod opening;
mod program;
mod request;
mod sheet_size;
mod table_name;
mod turn;
mod typed_cost;
mod verb;
mod words;

pub use complaint::Complaint;
pub use console::{Console, converse};
pub use desk::Desk;
pub use lead::Lead;
pub use opening::{ColumnCount, Opening};
pub use program::{CONSOLE_USAGE, talk};
pub use request::Request;
pub use sheet_size::SheetSize;
pub use table_name::TableName;
pub use turn::Turn;
pub use typed_cost::TypedCost;
pub use verb::Verb;
pub use words::Words;
