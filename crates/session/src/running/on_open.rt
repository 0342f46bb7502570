//! A call on an open sheet.

ghost use Rattle.std.specs.Prelude.{◌≡◌, IfOk};
ghost use Rattle.sheet.specs.Size.{size_of};
ghost use Rattle.session.specs.declared.call.Act.TheVariants.{Enter, Strike, Read, Settle};
ghost use Rattle.session.specs.declared.state.State.TheVariants.{Open};
ghost use Rattle.session.specs.Lists.{lengths, right_lengths};
ghost use Rattle.session.specs.Runs.{tables_of, AreNoLonger, MakesOne, WasMade};
ghost use Rattle.session.specs.Runs.{call_for};

use super::answers::{after_settle, amount_answer, done_answer};
use crate::answer::Answer;
use crate::call::{Act, Call, Lengths};
use crate::sheet_tables::SheetTables;
use crate::state::State;
use cost::Cost;
use sheet::OpenSheet;
use std::alloc::{AllocError, Global};

pub(super) fn make<K: Cost>(
    heap: Global,
    sheet: OpenSheet,
    tables: &mut SheetTables<K>,
    call: Call<K>,
) -> (State, Result<Answer<K>, AllocError>)
    requires right { lengths (tables_of tables.old) ≡ right_lengths (size_of sheet) }
    requires lent { AreNoLonger call.handed (lengths (tables_of tables.old)) }
    ensures { MakesOne K.Cost (Open sheet) (tables_of tables.old) call result
        (tables_of tables.new) }
{
    let h = call.handed;
    match call.act {
        Act::Enter { left, right, cost } => {
            let answer = enter(&sheet, tables, h, left, right, cost);
            (State::Open(sheet), Ok(answer))
        }
        Act::Strike { left, right } => {
            let answer = strike(&sheet, tables, h, left, right);
            (State::Open(sheet), Ok(answer))
        }
        Act::Read { left, right } => {
            let answer = read(&sheet, tables, h, left, right);
            (State::Open(sheet), Ok(answer))
        }
        Act::Settle => settle(heap, sheet, tables, h),
        _ => (State::Open(sheet), Ok(Answer::NotMade)),
    }
}

fn enter<K: Cost>(
    sheet: &OpenSheet,
    tables: &mut SheetTables<K>,
    h: Lengths,
    left: u16,
    right: u16,
    cost: K,
) -> Answer<K>
    requires right { lengths (tables_of tables.old) ≡ right_lengths (size_of sheet.now) }
    requires lent { AreNoLonger h (lengths (tables_of tables.old)) }
    ensures { WasMade K.Cost (Open sheet.now) (tables_of tables.old)
        (call_for (Enter left right cost) h) result (Open sheet.now) (tables_of tables.new) }
{
    let costs = &mut tables.costs.as_mut_slice()[0..h.costs];
    let standing = &mut tables.standing.as_mut_slice()[0..h.standing];
    done_answer(sheet.enter(costs, standing, left, right, cost))
}

fn strike<K: Cost>(
    sheet: &OpenSheet,
    tables: &mut SheetTables<K>,
    h: Lengths,
    left: u16,
    right: u16,
) -> Answer<K>
    requires right { lengths (tables_of tables.old) ≡ right_lengths (size_of sheet.now) }
    requires lent { AreNoLonger h (lengths (tables_of tables.old)) }
    ensures { WasMade K.Cost (Open sheet.now) (tables_of tables.old)
        (call_for (Strike left right) h) result (Open sheet.now) (tables_of tables.new) }
{
    let costs = &mut tables.costs.as_mut_slice()[0..h.costs];
    let standing = &mut tables.standing.as_mut_slice()[0..h.standing];
    done_answer(sheet.strike(costs, standing, left, right))
}

fn read<K: Cost>(
    sheet: &OpenSheet,
    tables: &SheetTables<K>,
    h: Lengths,
    left: u16,
    right: u16,
) -> Answer<K>
    requires right { lengths (tables_of tables.now) ≡ right_lengths (size_of sheet.now) }
    requires lent { AreNoLonger h (lengths (tables_of tables.now)) }
    ensures { WasMade K.Cost (Open sheet.now) (tables_of tables.now) (call_for (Read left right) h)
        result (Open sheet.now) (tables_of tables.now) }
{
    let costs = &tables.costs.as_slice()[0..h.costs];
    let standing = &tables.standing.as_slice()[0..h.standing];
    amount_answer(sheet.read(costs, standing, left, right))
}

// Copies of the tables that a settle writes.
struct Copies<K> {
    partners: Vec<u16>,
    left: Vec<K>,
    right: Vec<K>,
}

fn copy_tables<K: Cost>(
    heap: Global,
    partners: &[u16],
    left: &[K],
    right: &[K],
) -> Result<Copies<K>, AllocError>
    ensures partners { IfOk result (λ made. made.partners.items ≡ partners.now) }
    ensures left { IfOk result (λ made. made.left.items ≡ left.now) }
    ensures right { IfOk result (λ made. made.right.items ≡ right.now) }
{
    Ok(Copies {
        partners: Vec::from_slice(heap, partners)?,
        left: Vec::from_slice(heap, left)?,
        right: Vec::from_slice(heap, right)?,
    })
}

/// The copies that the answer needs are made first.
fn settle<K: Cost>(
    heap: Global,
    sheet: OpenSheet,
    tables: &mut SheetTables<K>,
    h: Lengths,
) -> (State, Result<Answer<K>, AllocError>)
    requires right { lengths (tables_of tables.old) ≡ right_lengths (size_of sheet) }
    requires lent { AreNoLonger h (lengths (tables_of tables.old)) }
    ensures { MakesOne K.Cost (Open sheet) (tables_of tables.old) (call_for Settle h) result
        (tables_of tables.new) }
{
    let partners = &mut tables.partners.as_mut_slice()[0..h.partners];
    let left = &mut tables.left.as_mut_slice()[0..h.left];
    let right = &mut tables.right.as_mut_slice()[0..h.right];
    let mut copies = match copy_tables(heap, partners, left, right) {
        Ok(copies) => copies,
        Err(error) => return (State::Open(sheet), Err(error)),
    };
    let outcome = sheet.settle(
        &tables.costs.as_slice()[0..h.costs],
        &tables.standing.as_slice()[0..h.standing],
        partners,
        left,
        right,
    );
    copies.partners.copy_from_slice(partners);
    copies.left.copy_from_slice(left);
    copies.right.copy_from_slice(right);
    let Copies {
        partners,
        left,
        right,
    } = copies;
    let (state, answer) = after_settle(outcome, partners, left, right);
    (state, Ok(answer))
}
