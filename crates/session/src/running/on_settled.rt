//! A call on a settled sheet.

ghost use Rattle.std.specs.Prelude.{◌≡◌};
ghost use Rattle.sheet.specs.Size.{size_of};
ghost use Rattle.session.specs.declared.call.Act.TheVariants.{Quote, Total, Marks, Start};
ghost use Rattle.session.specs.declared.state.State.TheVariants.{Settled};
ghost use Rattle.session.specs.Lists.{lengths, right_lengths};
ghost use Rattle.session.specs.Runs.{tables_of, AreNoLonger, MakesOne, WasMade};
ghost use Rattle.session.specs.Runs.{call_for};

use super::answers::{after_start, amount_answer, marks_answer, quote_answer};
use crate::answer::Answer;
use crate::call::{Act, Call, Lengths};
use crate::sheet_tables::SheetTables;
use crate::state::State;
use cost::Cost;
use sheet::SettledSheet;
use std::alloc::{AllocError, Global};

pub(super) fn make<K: Cost>(
    heap: Global,
    sheet: SettledSheet,
    tables: &mut SheetTables<K>,
    call: Call<K>,
) -> (State, Result<Answer<K>, AllocError>)
    requires right { lengths (tables_of tables.old) ≡ right_lengths (size_of sheet) }
    requires lent { AreNoLonger call.handed (lengths (tables_of tables.old)) }
    ensures { MakesOne K.Cost (Settled sheet) (tables_of tables.old) call result
        (tables_of tables.new) }
{
    let h = call.handed;
    match call.act {
        Act::Quote { left, right } => {
            let answer = quote(&sheet, tables, h, left, right);
            (State::Settled(sheet), Ok(answer))
        }
        Act::Total => {
            let answer = total(&sheet, tables, h);
            (State::Settled(sheet), Ok(answer))
        }
        Act::Marks => {
            let answer = marks(heap, &sheet, tables, h);
            (State::Settled(sheet), answer)
        }
        Act::Start => start(heap, sheet, tables, h),
        Act::Reopen => (State::Open(sheet.reopen()), Ok(Answer::Done)),
        _ => (State::Settled(sheet), Ok(Answer::NotMade)),
    }
}

fn quote<K: Cost>(
    sheet: &SettledSheet,
    tables: &SheetTables<K>,
    h: Lengths,
    left_block: u16,
    right_block: u16,
) -> Answer<K>
    requires right { lengths (tables_of tables.now) ≡ right_lengths (size_of sheet.now) }
    requires lent { AreNoLonger h (lengths (tables_of tables.now)) }
    ensures { WasMade K.Cost (Settled sheet.now) (tables_of tables.now)
        (call_for (Quote left_block right_block) h) result (Settled sheet.now)
        (tables_of tables.now) }
{
    let outcome = sheet.quote(
        &tables.costs.as_slice()[0..h.costs],
        &tables.standing.as_slice()[0..h.standing],
        &tables.partners.as_slice()[0..h.partners],
        &tables.left.as_slice()[0..h.left],
        &tables.right.as_slice()[0..h.right],
        left_block,
        right_block,
    );
    quote_answer(outcome)
}

fn total<K: Cost>(sheet: &SettledSheet, tables: &SheetTables<K>, h: Lengths) -> Answer<K>
    requires right { lengths (tables_of tables.now) ≡ right_lengths (size_of sheet.now) }
    requires lent { AreNoLonger h (lengths (tables_of tables.now)) }
    ensures { WasMade K.Cost (Settled sheet.now) (tables_of tables.now) (call_for Total h) result
        (Settled sheet.now) (tables_of tables.now) }
{
    let outcome = sheet.total(
        &tables.costs.as_slice()[0..h.costs],
        &tables.standing.as_slice()[0..h.standing],
        &tables.partners.as_slice()[0..h.partners],
        &tables.left.as_slice()[0..h.left],
        &tables.right.as_slice()[0..h.right],
    );
    amount_answer(outcome)
}

/// The copy that the answer needs is made first, here and in `start`.
fn marks<K: Cost>(
    heap: Global,
    sheet: &SettledSheet,
    tables: &mut SheetTables<K>,
    h: Lengths,
) -> Result<Answer<K>, AllocError>
    requires right { lengths (tables_of tables.old) ≡ right_lengths (size_of sheet.now) }
    requires lent { AreNoLonger h (lengths (tables_of tables.old)) }
    ensures { MakesOne K.Cost (Settled sheet.now) (tables_of tables.old) (call_for Marks h)
        (Settled sheet.now, result) (tables_of tables.new) }
{
    let table = &mut tables.marks.as_mut_slice()[0..h.marks];
    let mut copy = Vec::from_slice(heap, table)?;
    let outcome = sheet.marks(
        &tables.costs.as_slice()[0..h.costs],
        &tables.standing.as_slice()[0..h.standing],
        &tables.partners.as_slice()[0..h.partners],
        &tables.left.as_slice()[0..h.left],
        &tables.right.as_slice()[0..h.right],
        table,
    );
    copy.copy_from_slice(table);
    Ok(marks_answer(outcome, copy))
}

fn start<K: Cost>(
    heap: Global,
    sheet: SettledSheet,
    tables: &mut SheetTables<K>,
    h: Lengths,
) -> (State, Result<Answer<K>, AllocError>)
    requires right { lengths (tables_of tables.old) ≡ right_lengths (size_of sheet) }
    requires lent { AreNoLonger h (lengths (tables_of tables.old)) }
    ensures { MakesOne K.Cost (Settled sheet) (tables_of tables.old) (call_for Start h) result
        (tables_of tables.new) }
{
    let list = &mut tables.walk.as_mut_slice()[0..h.walk];
    let mut copy = match Vec::from_slice(heap, list) {
        Ok(copy) => copy,
        Err(error) => return (State::Settled(sheet), Err(error)),
    };
    let outcome = sheet.start(
        &tables.costs.as_slice()[0..h.costs],
        &tables.standing.as_slice()[0..h.standing],
        &tables.partners.as_slice()[0..h.partners],
        &tables.left.as_slice()[0..h.left],
        &tables.right.as_slice()[0..h.right],
        list,
    );
    copy.copy_from_slice(list);
    let (state, answer) = after_start(outcome, copy);
    (state, Ok(answer))
}
