//! The plain book: what a list of calls on one sheet is to answer, told from the calls alone.

use crate::kinds::Trial;
use crate::orders::Orders;
use crate::plain_sheet::{Sheet, pairs};
use crate::solution::{Optimum, Solution, solve};
use session::{Act, Answer, Call, Lengths, SheetTables};
use sheet::{Cause, Fault, Layer};
use std::alloc::{AllocError, Global};

/// What a cost is within, in each column.
pub const COST_LIMIT: u64 = 1_000_000_000;

#[derive(Clone, Copy)]
enum State {
    Open,
    Settled,
    /// A walk that has handed out so many pairings.
    Walking(usize),
}

/// A sheet with its state, what the last settling that was not refused came to, and how many
/// readings were of a pair that stood.
#[derive(Drop)]
pub struct Book<K: Trial> {
    sheet: Sheet<K>,
    state: State,
    optimum: Option<Optimum<K>>,
    pub readings: Readings,
}

/// The readings of pairs that stood already.
#[derive(Clone, Copy)]
pub struct Readings {
    pub again: u64,
    /// Those of them that compare as equal to what stood.
    pub equal: u64,
}

/// The refusal of a call on a sheet.
pub fn fault(cause: Cause) -> Fault {
    Fault {
        cause,
        place: 0,
        layer: Layer::Sheet,
    }
}

fn refused<K>(cause: Cause) -> Answer<K> {
    Answer::Refused(fault(cause))
}

/// The lengths that the tables of n blocks a plane have.
pub fn right_lengths(n: u16) -> Lengths {
    let (pairs, blocks) = (pairs(n), usize::from(n));
    Lengths {
        costs: pairs,
        standing: pairs,
        partners: blocks,
        left: blocks,
        right: blocks,
        walk: blocks,
        marks: pairs,
    }
}

/// What stands at a pair after a reading: the greater of it and of what stood there, and of two
/// that compare as equal the earlier.
pub fn worse<K: Trial>(earlier: Option<K>, reading: K) -> K {
    match earlier {
        Some(earlier) if !earlier.compare(reading).is_lt() => earlier,
        _ => reading,
    }
}

impl Readings {
    fn count<K: Trial>(&mut self, earlier: Option<K>, reading: K) {
        if let Some(earlier) = earlier {
            self.again = self.again.saturating_add(1);
            let equal = earlier.compare(reading).is_eq();
            self.equal = self.equal.saturating_add(u64::from(equal));
        }
    }
}

impl<K: Trial> Book<K> {
    /// The book of a sheet that was just opened.
    pub fn open(heap: Global, n: u16) -> Result<Self, AllocError> {
        Ok(Book {
            sheet: Sheet::absent(heap, n)?,
            state: State::Open,
            optimum: None,
            readings: Readings { again: 0, equal: 0 },
        })
    }

    pub fn sheet(&self) -> &Sheet<K> {
        &self.sheet
    }

    /// What the last settling that was not refused came to.
    pub fn optimum(&self) -> Option<&Optimum<K>> {
        self.optimum.as_ref()
    }

    /// Takes a call, and tells its answer.
    pub fn answer(
        &mut self,
        heap: Global,
        orders: &Orders,
        call: &Call<K>,
    ) -> Result<Answer<K>, AllocError> {
        match self.state {
            State::Open => self.on_open(heap, orders, call),
            State::Settled => self.on_settled(heap, call),
            State::Walking(handed_out) => self.on_walk(heap, call, handed_out),
        }
    }

    fn on_open(
        &mut self,
        heap: Global,
        orders: &Orders,
        call: &Call<K>,
    ) -> Result<Answer<K>, AllocError> {
        let handed = call.handed;
        match call.act {
            Act::Enter { left, right, cost } => Ok(self.enter(handed, left, right, cost)),
            Act::Strike { left, right } => Ok(self.strike(handed, left, right)),
            Act::Read { left, right } => Ok(self.read(handed, left, right)),
            Act::Settle => self.settle(heap, orders, handed),
            _ => Ok(Answer::NotMade),
        }
    }

    fn enter(&mut self, handed: Lengths, left: u16, right: u16, cost: K) -> Answer<K> {
        if let Some(cause) = self.misplaced(handed, left, right) {
            return refused(cause);
        }
        if !cost.within(COST_LIMIT) {
            return refused(Cause::CostRange);
        }
        let earlier = self.sheet.cell(left, right);
        self.readings.count(earlier, cost);
        self.sheet.put(left, right, Some(worse(earlier, cost)));
        Answer::Done
    }

    fn strike(&mut self, handed: Lengths, left: u16, right: u16) -> Answer<K> {
        match self.find(handed, left, right) {
            Ok(_) => {
                self.sheet.put(left, right, None);
                Answer::Done
            }
            Err(cause) => refused(cause),
        }
    }

    fn read(&self, handed: Lengths, left: u16, right: u16) -> Answer<K> {
        match self.find(handed, left, right) {
            Ok(cost) => Answer::Amount(cost),
            Err(cause) => refused(cause),
        }
    }

    fn settle(
        &mut self,
        heap: Global,
        orders: &Orders,
        handed: Lengths,
    ) -> Result<Answer<K>, AllocError> {
        if !self.has_prices(handed) {
            return Ok(refused(Cause::TableLength));
        }
        match solve(heap, &self.sheet, orders.of(self.sheet.n))? {
            Solution::Unmatched(shortfall) => {
                let fault = fault(Cause::NoPerfectPairing);
                Ok(Answer::Unmatched(fault, shortfall))
            }
            Solution::Optimal(optimum) => {
                let answer = settled(heap, &optimum)?;
                self.state = State::Settled;
                self.optimum = Some(optimum);
                Ok(answer)
            }
        }
    }

    fn on_settled(&mut self, heap: Global, call: &Call<K>) -> Result<Answer<K>, AllocError> {
        let handed = call.handed;
        let Some(optimum) = &self.optimum else {
            return Ok(Answer::NotMade);
        };
        match call.act {
            Act::Quote { left, right } => Ok(self.quote(handed, optimum, left, right)),
            Act::Total if !self.has_prices(handed) => Ok(refused(Cause::TableLength)),
            Act::Total => Ok(Answer::Amount(optimum.total)),
            Act::Marks if !self.has_marks(handed) => Ok(refused(Cause::TableLength)),
            Act::Marks => Ok(Answer::Marked(optimum.marks.clone()?)),
            Act::Start if !self.has_list(handed) => Ok(refused(Cause::TableLength)),
            Act::Start => {
                let first = handed_out(heap, optimum, 0)?;
                self.state = State::Walking(1);
                Ok(first)
            }
            Act::Reopen => {
                self.state = State::Open;
                Ok(Answer::Done)
            }
            _ => Ok(Answer::NotMade),
        }
    }

    fn quote(&self, handed: Lengths, optimum: &Optimum<K>, left: u16, right: u16) -> Answer<K> {
        if !self.has_prices(handed) {
            return refused(Cause::TableLength);
        }
        match self.find(handed, left, right) {
            Ok(cost) => Answer::Quoted {
                cost,
                slack: optimum.slack(cost, left, right),
            },
            Err(cause) => refused(cause),
        }
    }

    fn on_walk(
        &mut self,
        heap: Global,
        call: &Call<K>,
        count: usize,
    ) -> Result<Answer<K>, AllocError> {
        let Some(optimum) = &self.optimum else {
            return Ok(Answer::NotMade);
        };
        match call.act {
            Act::Next if !self.has_list(call.handed) => Ok(refused(Cause::TableLength)),
            Act::Next => {
                let next = handed_out(heap, optimum, count)?;
                self.state = State::Walking(count.saturating_add(1));
                Ok(next)
            }
            Act::Close => {
                self.state = State::Settled;
                Ok(Answer::Done)
            }
            _ => Ok(Answer::NotMade),
        }
    }

    /// Why a call at a pair is refused whatever is there.
    fn misplaced(&self, handed: Lengths, left: u16, right: u16) -> Option<Cause> {
        if !self.has_pairs(handed) {
            Some(Cause::TableLength)
        } else if left >= self.sheet.n || right >= self.sheet.n {
            Some(Cause::Block)
        } else {
            None
        }
    }

    /// The cost of a pair that stands.
    fn find(&self, handed: Lengths, left: u16, right: u16) -> Result<K, Cause> {
        match self.misplaced(handed, left, right) {
            Some(cause) => Err(cause),
            None => self.sheet.cell(left, right).ok_or(Cause::Absent),
        }
    }

    fn has_pairs(&self, handed: Lengths) -> bool {
        let pairs = pairs(self.sheet.n);
        handed.costs == pairs && handed.standing == pairs
    }

    fn has_prices(&self, handed: Lengths) -> bool {
        let n = usize::from(self.sheet.n);
        let blocks = handed.partners == n && handed.left == n && handed.right == n;
        self.has_pairs(handed) && blocks
    }

    fn has_marks(&self, handed: Lengths) -> bool {
        self.has_prices(handed) && handed.marks == pairs(self.sheet.n)
    }

    fn has_list(&self, handed: Lengths) -> bool {
        self.has_prices(handed) && handed.walk == usize::from(self.sheet.n)
    }

    /// Whether the two pair tables show the cells: a cost zero where a pair is absent.
    pub fn is_shown_by(&self, tables: &SheetTables<K>) -> bool {
        let cells = self.sheet.cells();
        let shown = tables.costs.iter().zip(&tables.standing);
        for ((cost, byte), cell) in shown.zip(cells) {
            let stands = u8::from(cell.is_some());
            if *byte != stands || *cost != cell.unwrap_or(K::zero()) {
                return false;
            }
        }
        tables.costs.len() == cells.len() && tables.standing.len() == cells.len()
    }
}

fn settled<K: Trial>(heap: Global, optimum: &Optimum<K>) -> Result<Answer<K>, AllocError> {
    Ok(Answer::Settled {
        partners: optimum.pairing(heap, 0)?,
        left: optimum.left.clone()?,
        right: optimum.right.clone()?,
    })
}

/// What a walk answers that has handed out so many pairings.
fn handed_out<K: Trial>(
    heap: Global,
    optimum: &Optimum<K>,
    count: usize,
) -> Result<Answer<K>, AllocError> {
    if count < optimum.pairings.len() {
        Ok(Answer::Pairing(optimum.pairing(heap, count)?))
    } else {
        Ok(Answer::End)
    }
}
