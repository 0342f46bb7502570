//! The main theorem: whatever calls a program makes, in whatever order, the sheet keeps the plain
//! book, in which the worst reading of each pair stands.

ghost use Rattle.session.specs.Program.{EveryProgramKeeps};

use cost::Cost;

/// Every program that opens a sheet and then makes calls on it, each in the state and with the
/// tables that the one before left, keeps the promise; its pair tables show the book's cells; and
/// after each call a pair's cell is the worst of the readings that were accepted since the pair was
/// last struck.
///
/// This does nothing: it is here for what it states of the calls' own contracts.
pub fn every_program_keeps<K: Cost>()
    ensures { EveryProgramKeeps K.Cost }
{}
