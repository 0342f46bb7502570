//! The run of a list of calls on one sheet.

ghost use Rattle.std.specs.Bool.{MatchBool};
ghost use Rattle.std.specs.Prelude.{◌≡◌, IfOk, OnErr, MatchResult};
ghost use Rattle.sheet.specs.Size.{size_of};
ghost use Rattle.session.specs.Lists.{lengths, right_lengths};
ghost use Rattle.session.specs.Runs.{state_of, tables_of, AreNoLonger, MakesOne, Runs};
ghost use Rattle.session.specs.Runs.{AreLent, ExceedsLent, Begins, IsSheet, IsNoSheet};

mod answers;
mod on_open;
mod on_settled;
mod on_walk;

use crate::answer::Answer;
use crate::call::{Call, Lengths};
use crate::sheet_tables::SheetTables;
use crate::state::State;
use cost::Cost;
use sheet::{Cause, Fault, open};
use std::alloc::{AllocError, Global};
use tables::MOST_BLOCKS;

/// Why a run ended before its last call.
#[derive(Drop, Debug)]
pub enum Stopped<K> {
    /// No sheet was opened: the size is 0 or above 64, or a table has the wrong length.
    Sheet(Fault),
    /// A call is handed more places of a table than are lent.
    NotLent,
    /// Memory ran out; these are the answers to the calls that were made.
    Memory(Vec<Answer<K>>),
}

/// Makes one call on a sheet, over its tables, and gives the state that it leaves and the answer.
///
/// The tables have the right lengths for the sheet, and the call is handed no more of them than
/// there is. The copies that an answer holds, to settle, marks, start and next, are made before the
/// call: where memory for them runs out, the call is not made, the state comes back, and the tables
/// are as they were.
pub fn make<K: Cost>(
    heap: Global,
    state: State,
    tables: &mut SheetTables<K>,
    call: Call<K>,
) -> (State, Result<Answer<K>, AllocError>)
    requires right { lengths (tables_of tables.old)
        ≡ right_lengths (size_of (state_of state).sheet) }
    requires lent { AreNoLonger call.handed (lengths (tables_of tables.old)) }
    ensures makes { MakesOne K.Cost state (tables_of tables.old) call result
        (tables_of tables.new) }
    ensures same_size { size_of (state_of result.0).sheet ≡ size_of (state_of state).sheet }
    ensures same_lengths { lengths (tables_of tables.new) ≡ lengths (tables_of tables.old) }
{
    match state {
        State::Open(sheet) => on_open::make(heap, sheet, tables, call),
        State::Settled(sheet) => on_settled::make(heap, sheet, tables, call),
        State::Walking(walk) => on_walk::make(heap, walk, tables, call),
    }
}

/// Opens a sheet of n left and n right blocks over the tables, makes each call of a list in turn,
/// and gives the answer to each.
///
/// A call is handed as many first places of each table as it says. Refused, in this order: a call
/// that is handed more than is lent; a size of 0 or above 64; a table of the wrong length. No call
/// is then made, and the tables are as they were. Where memory runs out, the answers to the calls
/// that were made come back, and the tables are as the last of these left them. A table that no
/// accepted call wrote is as it was lent, but for the two pair tables, in which every pair is
/// absent at first.
pub fn run<K: Cost>(
    heap: Global,
    n: u16,
    tables: &mut SheetTables<K>,
    calls: &[Call<K>],
) -> Result<Vec<Answer<K>>, Stopped<K>>
    ensures { Runs K.Cost n (tables_of tables.old) calls.now result (tables_of tables.new) }
{
    let lent = tables.lengths();
    if !all_lent(calls, lent) {
        return Err(Stopped::NotLent);
    }
    let mut state = match begin(n, tables) {
        Ok(state) => state,
        Err(fault) => return Err(Stopped::Sheet(fault)),
    };
    let mut answers = Vec::new(heap);
    for call in calls {
        if answers.reserve(1).is_err() {
            return Err(Stopped::Memory(answers));
        }
        let (next, outcome) = make(heap, state, tables, *call);
        state = next;
        match outcome {
            Ok(answer) => answers.push_reserved(answer),
            Err(_) => return Err(Stopped::Memory(answers)),
        }
    }
    Ok(answers)
}

/// Whether each call is handed no more than is lent.
fn all_lent<K: Cost>(calls: &[Call<K>], lent: Lengths) -> bool
    ensures { MatchBool result (AreLent K.Cost calls.now lent) (ExceedsLent K.Cost calls.now lent) }
{
    calls.iter().all(|call| call.handed.within(lent))
}

/// Opens a sheet over the tables, if these have the right lengths for it: a program begins.
fn begin<K: Cost>(n: u16, tables: &mut SheetTables<K>) -> Result<State, Fault>
    ensures sheet { MatchResult result (λ _. IsSheet K.Cost n (lengths (tables_of tables.old)))
        (λ f. IsNoSheet K.Cost n (lengths (tables_of tables.old)) f) }
    ensures begins { IfOk result (λ state.
        Begins K.Cost n (tables_of tables.old) state (tables_of tables.new)) }
    ensures long { lengths (tables_of tables.new) ≡ lengths (tables_of tables.old) }
    ensures others { tables_of tables.new ≡ record (tables_of tables.old) {
      costs = tables.new.costs.items;
      standing = tables.new.standing.items;
    } }
    ensures err { OnErr result (tables_of tables.new ≡ tables_of tables.old) }
{
    if n == 0 || n > MOST_BLOCKS {
        return Err(Cause::Size.at(0));
    }
    if tables.lengths() != Lengths::right(n) {
        return Err(Cause::TableLength.at(0));
    }
    let sheet = open(
        n,
        tables.costs.as_mut_slice(),
        tables.standing.as_mut_slice(),
    )?;
    Ok(State::Open(sheet))
}
