//! Order files: a sheet of plain costs as bytes, read and written.
#![tactic(auto)]

pub mod field;
pub mod format;
pub mod law;
pub mod loading;
pub mod record;
pub mod record_reader;
pub mod saving;

pub use loading::{check, load};
pub use record::{Record, Stage, StatedPair};
pub use record_reader::RecordReader;
pub use saving::save;
