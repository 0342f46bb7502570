//! What the lines of a text stated so far, and the rules for the line that comes next.

ghost use Rattle.std.specs.Prelude.{ℕ, ℤ, ◌<◌, ◌↔◌, IsTrue, unsigned_abs};
ghost use Rattle.cost.specs.declared.TheConstants.{COST_LIMIT};
ghost use Rattle.dimacs.specs.Lines.{States};
ghost use Rattle.dimacs.specs.Progresses.{Tells, Advances, Concludes};
ghost use Rattle.dimacs.specs.Statements.{Statement, problem, node, arc};
ghost use Rattle.dimacs.specs.Texts.{Stage, AreNodes};
ghost use Rattle.dimacs.specs.Words.{Writes, WritesCost};

use crate::line::Line;
use crate::word::{Cost, Number};
use sheet::{Cause, Fault};
use tables::{COST_LIMIT, MOST_BLOCKS};

/// The largest cost: `COST_LIMIT` with a sign.
const LARGEST_COST: i64 = COST_LIMIT as i64;

/// How far the lines of a text have come.
#[derive(Clone, Copy, Debug)]
pub(crate) enum Progress {
    /// The problem line has to come.
    Start,
    /// It came, and so many left nodes were named; some have yet to be.
    Naming { head: Head, named: u16 },
    /// All left nodes were named, and so many arcs came.
    Arcs { head: Head, came: u64 },
}

/// What the problem line states.
#[derive(Clone, Copy, Debug)]
pub(crate) struct Head {
    /// The offset of the line.
    place: usize,
    /// The blocks of a plane: half of the nodes, rounded down.
    size: u16,
    /// Whether the number of nodes is odd.
    odd: bool,
    /// The stated number of arcs, or 2^64 - 1 where it is more.
    arcs: u64,
}

impl Progress {
    /// Goes on behind a line at a place. Refused, and then it stays as it was: a line that may not
    /// come here, and then a size that no sheet has, nodes that are none of their side, a cost that
    /// is not within 10^9.
    // inlined, with the case of an arc, since most lines are arcs: a loop over lines then keeps
    // each field by itself, and what it knows of a line leads right to the case here
    #[inline(always)]
    pub(crate) fn advance(&mut self, line: Line<'_>, place: usize) -> Result<(), Fault>
        ensures { (s : Stage) (statement : Statement) → Tells place self.old s
            → States line.entry statement → Advances s place statement self.old result self.new }
    {
        match line {
            Line::Arc { left, right, cost } => self.count(left, right, cost, place),
            Line::Comment(_) => Ok(()),
            Line::Node(number) => self.name(number, place),
            Line::Problem { nodes, arcs } => self.begin(nodes, arcs, place),
        }
    }

    /// Goes on behind the problem line, which comes first.
    fn begin(&mut self, nodes: Number<'_>, arcs: Number<'_>, place: usize) -> Result<(), Fault>
        ensures { (s : Stage) (n m : ℕ) → Tells place self.old s → Writes nodes.entry n
            → Writes arcs.entry m
            → Advances s place (problem n m) self.old result self.new }
    {
        let Progress::Start = self else {
            return Err(Cause::Line.at(place));
        };
        let size = nodes.value / 2;
        if size == 0 || size > u64::from(MOST_BLOCKS) {
            return Err(Cause::Size.at(place));
        }
        let head = Head {
            place,
            size: size as u16,
            odd: nodes.value % 2 == 1,
            arcs: arcs.value,
        };
        *self = Progress::Naming { head, named: 0 };
        Ok(())
    }

    /// Goes on behind a left node, which has to be the next one.
    fn name(&mut self, number: Number<'_>, place: usize) -> Result<(), Fault>
        ensures { (s : Stage) (i : ℕ) → Tells place self.old s → Writes number.entry i
            → Advances s place (node i) self.old result self.new }
    {
        let Progress::Naming { head, named } = *self else {
            return Err(Cause::Line.at(place));
        };
        // exact: it is not above the size
        let next = named.saturating_add(1);
        if number.value != u64::from(next) {
            return Err(Cause::Line.at(place));
        }
        *self = if next < head.size {
            Progress::Naming { head, named: next }
        } else {
            Progress::Arcs { head, came: 0 }
        };
        Ok(())
    }

    /// Goes on behind an arc, which comes behind the last left node.
    #[inline(always)]
    fn count(
        &mut self,
        left: Number<'_>,
        right: Number<'_>,
        cost: Cost<'_>,
        place: usize,
    ) -> Result<(), Fault>
        ensures { (s : Stage) (i j : ℕ) (z : ℤ) → Tells place self.old s → Writes left.entry i
            → Writes right.entry j → WritesCost cost.entry z
            → Advances s place (arc i j z) self.old result self.new }
    {
        let Progress::Arcs { head, came } = self else {
            return Err(Cause::Line.at(place));
        };
        if !head.are_nodes(left.value, right.value) {
            return Err(Cause::Block.at(place));
        }
        if is_beyond(cost.value) {
            return Err(Cause::CostRange.at(place));
        }
        // exact: each arc takes up bytes, so there are fewer than 2^64
        *came = came.wrapping_add(1);
        Ok(())
    }

    /// The size of the sheet, where the text ends at a place. Refused: an end before the last left
    /// node, and then counts that are not met.
    pub(crate) fn conclude(self, place: usize) -> Result<u16, Fault>
        ensures { (s : Stage) → Tells place self s → Concludes s place result }
    {
        match self {
            Progress::Arcs { head, came } if !head.odd && came == head.arcs => Ok(head.size),
            Progress::Arcs { head, .. } => Err(Cause::Counts.at(head.place)),
            _ => Err(Cause::Line.at(place)),
        }
    }
}

impl Head {
    /// Whether two numbers are those of a left and of a right node.
    // one comparison each: a number below the first node gives a large difference
    fn are_nodes(&self, left: u64, right: u64) -> bool
        ensures { IsTrue result ↔ AreNodes self.now.size left right }
    {
        let size = u64::from(self.size);
        left.wrapping_sub(1) < size && right.wrapping_sub(size + 1) < size
    }
}

/// Whether a cost is not within 10^9. It is compared with both ends, since its absolute value would
/// take two instructions more, for each arc of a text.
fn is_beyond(cost: i64) -> bool
    ensures { IsTrue result ↔ COST_LIMIT < unsigned_abs cost }
{
    cost < -LARGEST_COST || cost > LARGEST_COST
}
