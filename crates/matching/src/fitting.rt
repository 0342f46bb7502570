//! Do the tables that a call is handed fit together?

ghost use Rattle.std.specs.Prelude.{◌≡◌, ◌≤◌, length, Some, IsTrue, ◌↔◌, IsOk, IfErr};
ghost use Rattle.blockset.specs.declared.TheConstants.{MOST_BLOCKS};
ghost use Rattle.pairing.specs.Rows.{IsPerfectOver};
ghost use Rattle.matching.specs.Fit.{FitsRows, IsUnfitBy, unfit_text};

use blockset::{BlockSet, MOST_BLOCKS};
use std::error::Error;
use std::fmt;

/// Why a call is refused: the tables that it is handed do not fit together. It then leaves them as
/// they were.
#[derive(Clone, Copy, Debug, PartialEq, Eq)]
pub enum Unfit {
    /// There are more than 64 rows.
    Size,
    /// A table has the wrong length.
    Length,
    /// The list is no perfect pairing over the rows.
    Pairing,
}

// `thiserror` would write this impl without the ghost member, so that nothing pinned the text.
impl fmt::Display for Unfit {
    ghost output = { λ unfit. Some (unfit_text unfit) };

    fn fmt<W: fmt::Write>(&self, f: &mut fmt::Formatter<W>) -> fmt::Result {
        f.write_str(match self {
            Unfit::Size => "more than 64 rows",
            Unfit::Length => "a table of the wrong length",
            Unfit::Pairing => "no perfect pairing over the rows",
        })
    }
}

impl Error for Unfit {}

/// Whether a list of as many numbers as there are rows, at most 64, is a perfect pairing over
/// them.
pub fn pairs_each_row(rows: &[BlockSet], p: &[u16]) -> bool
    requires small { length rows.now ≤ MOST_BLOCKS }
    requires sized { length p.now ≡ length rows.now }
    ensures { IsTrue result ↔ IsPerfectOver rows.now p.now }
{
    let mut free = BlockSet::all(rows.len());
    for (l, row) in rows.iter().enumerate() {
        let r = p[l] as usize;
        if !row.intersection(free).contains(r) {
            return false;
        }
        free.remove(r);
    }
    true
}

/// Whether `p` is a perfect pairing over at most 64 rows: what `fit` tests, where the cause does
/// not matter.
pub fn is_pairing(rows: &[BlockSet], p: &[u16]) -> bool
    ensures { IsTrue result ↔ FitsRows rows.now p.now }
{
    fit(rows, p).is_ok()
}

/// Refuses what is no perfect pairing over the rows, by the first cause that applies.
pub fn fit(rows: &[BlockSet], p: &[u16]) -> Result<(), Unfit>
    ensures accepted { IsOk result ↔ FitsRows rows.now p.now }
    ensures refused { IfErr result (IsUnfitBy rows.now p.now) }
{
    if rows.len() > MOST_BLOCKS as usize {
        Err(Unfit::Size)
    } else if p.len() != rows.len() {
        Err(Unfit::Length)
    } else if !pairs_each_row(rows, p) {
        Err(Unfit::Pairing)
    } else {
        Ok(())
    }
}
