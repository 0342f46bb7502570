//! A call on a walk.

ghost use Rattle.std.specs.Prelude.{◌≡◌};
ghost use Rattle.sheet.specs.Size.{size_of};
ghost use Rattle.session.specs.declared.call.Act.TheVariants.{Next};
ghost use Rattle.session.specs.declared.state.State.TheVariants.{Walking};
ghost use Rattle.session.specs.Lists.{lengths, right_lengths};
ghost use Rattle.session.specs.Runs.{tables_of, AreNoLonger, MakesOne};
ghost use Rattle.session.specs.Runs.{call_for};

use super::answers::step_answer;
use crate::answer::Answer;
use crate::call::{Act, Call, Lengths};
use crate::sheet_tables::SheetTables;
use crate::state::State;
use cost::Cost;
use sheet::Walk;
use std::alloc::{AllocError, Global};

pub(super) fn make<K: Cost>(
    heap: Global,
    walk: Walk,
    tables: &mut SheetTables<K>,
    call: Call<K>,
) -> (State, Result<Answer<K>, AllocError>)
    requires right { lengths (tables_of tables.old) ≡ right_lengths (size_of walk) }
    requires lent { AreNoLonger call.handed (lengths (tables_of tables.old)) }
    ensures { MakesOne K.Cost (Walking walk) (tables_of tables.old) call result
        (tables_of tables.new) }
{
    match call.act {
        Act::Next => {
            let answer = next(heap, &walk, tables, call.handed);
            (State::Walking(walk), answer)
        }
        Act::Close => (State::Settled(walk.close()), Ok(Answer::Done)),
        _ => (State::Walking(walk), Ok(Answer::NotMade)),
    }
}

/// One step of a walk. The copy that the answer needs is made first.
fn next<K: Cost>(
    heap: Global,
    walk: &Walk,
    tables: &mut SheetTables<K>,
    h: Lengths,
) -> Result<Answer<K>, AllocError>
    requires right { lengths (tables_of tables.old) ≡ right_lengths (size_of walk.now) }
    requires lent { AreNoLonger h (lengths (tables_of tables.old)) }
    ensures { MakesOne K.Cost (Walking walk.now) (tables_of tables.old) (call_for Next h)
        (Walking walk.now, result) (tables_of tables.new) }
{
    let list = &mut tables.walk.as_mut_slice()[0..h.walk];
    let mut copy = Vec::from_slice(heap, list)?;
    let outcome = walk.next(
        &tables.costs.as_slice()[0..h.costs],
        &tables.standing.as_slice()[0..h.standing],
        &tables.partners.as_slice()[0..h.partners],
        &tables.left.as_slice()[0..h.left],
        &tables.right.as_slice()[0..h.right],
        list,
    );
    copy.copy_from_slice(list);
    Ok(step_answer(outcome, copy))
}
