//! Importing: a text is read whole, and then entered into the caller's tables.

ghost use Rattle.std.specs.Prelude.{◌≡◌, ◌≤◌, [], ◌∷◌, length, unsigned_abs};
ghost use Rattle.cost.specs.declared.TheConstants.{COST_LIMIT};
ghost use Rattle.tables.specs.PairTables.{HavePlaces};
ghost use Rattle.orderfile.specs.Format.{StatedOrder};
ghost use Rattle.orderfile.specs.Loading.{IsChecked, Loads, costs_after, standing_after};
ghost use Rattle.dimacs.specs.Texts.{States, FirstFault, AreNodes, pair_of};

use crate::line::Line;
use crate::line_reader::LineReader;
use crate::progress::Progress;
use cost::Plain;
use sheet::{Fault, OpenSheet, open};
use tables::enter_pair;

/// The blocks of a plane that a text states, once all of it has been read; or its first fault.
pub fn check(text: &[u8]) -> Result<u16, Fault>
    ensures { IsChecked (States text.now) (FirstFault text.now) result }
{
    let mut lines = LineReader::new(text);
    let mut progress = Progress::Start;
    let mut place = 0;
    while let Some(line) = lines.next()? {
        progress.advance(line, place)?;
        place = lines.place();
    }
    progress.conclude(place)
}

/// Imports the sheet that a text states into the caller's tables: as `open` and one `enter` for
/// each arc in turn leave them. Of a pair that has several arcs the greatest cost stands.
///
/// The whole text is read before anything is written. Refused: the first fault of the text, and
/// then tables that do not have n * n places, for the n blocks a plane that the text states.
pub fn import(text: &[u8], costs: &mut [Plain], standing: &mut [u8]) -> Result<OpenSheet, Fault>
    ensures { Loads (States text.now) (FirstFault text.now) costs.old standing.old result costs.new
        standing.new }
{
    let n = check(text)?;
    let sheet = open(n, costs, standing)?;
    enter_all(n, text, costs, standing);
    Ok(sheet)
}

/// Enters the arcs of a text of n blocks a plane, which is known to have no fault: so the reader,
/// which looks at its lines again, hands out all of them.
fn enter_all(n: u16, text: &[u8], costs: &mut [Plain], standing: &mut [u8])
    requires stated { (order : StatedOrder) × States text.now order × (order.size ≡ n) }
    requires places { HavePlaces n (length costs.old) (length standing.old) }
    ensures { (order : StatedOrder) → States text.now order
        → (costs.new ≡ costs_after order.size order.pairs costs.old standing.old)
        × (standing.new ≡ standing_after order.size order.pairs standing.old) }
{
    let mut lines = LineReader::new(text);
    while let Ok(Some(line)) = lines.next() {
        if let Line::Arc { left, right, cost } = line {
            enter_arc(n, costs, standing, left.value, right.value, cost.value);
        }
    }
}

/// Enters an arc between a left and a right node, which are known to be nodes, at a cost that is
/// known to be within 10^9.
fn enter_arc(n: u16, costs: &mut [Plain], standing: &mut [u8], left: u64, right: u64, cost: i64)
    requires places { HavePlaces n (length costs.old) (length standing.old) }
    requires nodes { AreNodes n left right }
    requires within { unsigned_abs cost ≤ COST_LIMIT }
    ensures costs { costs.new
        ≡ costs_after n (pair_of n left right cost ∷ []) costs.old standing.old }
    ensures standing { standing.new
        ≡ standing_after n (pair_of n left right cost ∷ []) standing.old }
{
    let left = (left - 1) as u16;
    let right = (right - u64::from(n) - 1) as u16;
    enter_pair(n, costs, standing, left, right, Plain(cost));
}
