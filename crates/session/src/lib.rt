//! Makes any list of calls on one sheet, and states what every list of calls is promised.
//!
//! `run` opens a sheet over lent tables and makes each call of a list in turn. `law` has the main
//! theorem: whatever calls a program makes, in whatever order, the sheet keeps the plain book.
#![tactic(auto)]

pub mod answer;
pub mod call;
pub mod example;
pub mod law;
pub mod running;
pub mod sheet_tables;
pub mod state;

pub use answer::Answer;
pub use call::{Act, Call, Lengths};
pub use running::{Stopped, make, run};
pub use sheet_tables::SheetTables;
pub use state::State;
