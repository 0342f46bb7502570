//! Order files and assignment texts as text: what they state, its optimum pairings, or why they are
//! refused.
#![tactic(auto)]

mod aligned;
mod assignment_text;
mod describe_file;
mod draw_file;
mod form;
mod fresh_tables;
mod import_program;
mod input;
mod list_file;
mod listing_lines;
mod programs;
mod sheet_map;

pub use assignment_text::{describe_text, order_of_text};
pub use describe_file::{describe, refusal_line};
pub use draw_file::draw;
pub use form::Form;
pub use import_program::{IMPORT_USAGE, REFUSED_TEXT, import};
pub use input::{
    MOST_BYTES, MOST_TEXT_BYTES, describe_input, describe_text_input, draw_input, list_input,
    order_of_text_input, read_input,
};
pub use list_file::list;
pub use listing_lines::{MOST_PAIRINGS, cause_line, push_total_line};
pub use programs::{INSPECT_USAGE, LISTING_USAGE, inspect, listing};
pub use refusal_words::explain;
pub use sheet_map::Drawing;
