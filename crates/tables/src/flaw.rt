//! Why lent tables are refused.

ghost use Rattle.std.specs.Prelude.{Some};
ghost use Rattle.tables.specs.Flaws.{flaw_text};

use std::error::Error;
use std::fmt;

/// The first flaw that lent tables have. They are then left as they were.
#[derive(Clone, Copy, Debug, PartialEq, Eq)]
pub enum Flaw {
    /// There are more than 64 blocks a plane.
    Size,
    /// A table has the wrong length.
    Length,
    /// A standing byte is above 1, or a standing pair's cost is not within 10^9.
    Order,
}

// `thiserror` would write this impl without the ghost member, so that nothing pinned the text.
impl fmt::Display for Flaw {
    ghost output = { λ flaw. Some (flaw_text flaw) };

    fn fmt<W: fmt::Write>(&self, f: &mut fmt::Formatter<W>) -> fmt::Result {
        f.write_str(match self {
            Flaw::Size => "more than 64 blocks a plane",
            Flaw::Length => "a table of the wrong length",
            Flaw::Order => "a standing byte above 1, or a standing pair's cost not within 10^9",
        })
    }
}

impl Error for Flaw {}
