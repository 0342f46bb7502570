//! The states of a sheet: a state is moved from call to call, and the tables stay with the caller.
//!
//! An open sheet becomes a settled one by `settle`, and a settled one a walk by `start`; there is
//! no other way to make one. `close` leads back from a walk, and `reopen` from a settled sheet.

ghost use Rattle.sheet.specs.Size.{Sheet, sheet_of, sheet_code, IsSize};

pub mod open_calls;
pub mod settled_calls;
pub mod walk_calls;

use std::marker::Model;

/// An open sheet of n left and n right blocks: pairs may be entered, struck and read, and the sheet
/// may be settled. A contract sees its size, n.
#[derive(Drop, Debug)]
pub struct OpenSheet {
    n: u16,
}

impl Model for OpenSheet {
    ghost Value = { Sheet };

    ghost coded = { sheet_code };

    ghost view = { λ sheet. sheet_of sheet.n };

    ghost invariant = { λ sheet. IsSize sheet.n };
}

/// A settled sheet: pairs may be quoted, the total and the marks asked for, and a walk started. A
/// contract sees its size, as it does of an open sheet.
#[derive(Drop, Debug)]
pub struct SettledSheet {
    open: OpenSheet,
}

impl Model for SettledSheet {
    ghost Value = { Sheet };

    ghost coded = { sheet_code };

    ghost view = { λ settled. settled.open };
}

/// A walk through the optimum pairings of a settled sheet. A contract sees the sheet's size.
#[derive(Drop, Debug)]
pub struct Walk {
    settled: SettledSheet,
}

impl Model for Walk {
    ghost Value = { Sheet };

    ghost coded = { sheet_code };

    ghost view = { λ walk. walk.settled };
}
