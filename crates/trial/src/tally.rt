//! What was compared, counted.

use crate::book::Readings;
use crate::orders::MOST_BLOCKS;
use cost::Cost;
use session::Answer;
use std::fmt;

/// How many causes a call on a sheet can be refused for: their numbers are 1 to 7.
const CAUSES: usize = 7;

#[derive(Clone, Copy)]
pub struct Tally {
    /// Sheets by the number of blocks a plane, from 1 on.
    sheets: [u64; MOST_BLOCKS as usize],
    pub settled: u64,
    pub pairings: u64,
    pub calls: u64,
    pub lists: u64,
    pub disturbed: u64,
    /// Readings of pairs that stood already, and entries over tables that something else wrote
    /// into.
    pub readings: Readings,
    pub entered: u64,
    /// Sheets that were tried without a sheet's calls, and the pairings of their walks.
    pub below: u64,
    pub walked: u64,
    /// Refusals by their number, from 1 on.
    refusals: [u64; CAUSES],
}

/// Counts one more at a number from 1 on.
fn count(counts: &mut [u64], number: usize) {
    for (k, counted) in counts.iter_mut().enumerate() {
        if k + 1 == number {
            *counted = counted.saturating_add(1);
        }
    }
}

impl Tally {
    pub fn new() -> Self {
        Tally {
            sheets: [0; MOST_BLOCKS as usize],
            settled: 0,
            pairings: 0,
            calls: 0,
            lists: 0,
            disturbed: 0,
            readings: Readings { again: 0, equal: 0 },
            entered: 0,
            below: 0,
            walked: 0,
            refusals: [0; CAUSES],
        }
    }

    pub fn count_sheet(&mut self, n: u16) {
        count(&mut self.sheets, usize::from(n));
    }

    pub fn count_list(&mut self) {
        self.lists = self.lists.saturating_add(1);
    }

    pub fn count_disturbed(&mut self) {
        self.disturbed = self.disturbed.saturating_add(1);
    }

    pub fn count_readings(&mut self, more: Readings) {
        let counted = &mut self.readings;
        counted.again = counted.again.saturating_add(more.again);
        counted.equal = counted.equal.saturating_add(more.equal);
    }

    pub fn count_entered(&mut self) {
        self.entered = self.entered.saturating_add(1);
    }

    pub fn count_below(&mut self) {
        self.below = self.below.saturating_add(1);
    }

    pub fn count_walked(&mut self, pairings: u64) {
        self.walked = self.walked.saturating_add(pairings);
    }

    pub fn count_call(&mut self, refused_by: Option<u8>) {
        self.calls = self.calls.saturating_add(1);
        if let Some(number) = refused_by {
            count(&mut self.refusals, usize::from(number));
        }
    }

    pub fn count_answer<K: Cost>(&mut self, answer: &Answer<K>) {
        match answer {
            Answer::Refused(fault) => self.count_call(Some(fault.cause.number())),
            Answer::Unmatched(fault, _) => self.count_call(Some(fault.cause.number())),
            Answer::Settled { .. } => {
                self.settled = self.settled.saturating_add(1);
                self.count_call(None);
            }
            Answer::Pairing(_) => {
                self.pairings = self.pairings.saturating_add(1);
                self.count_call(None);
            }
            _ => self.count_call(None),
        }
    }
}

impl fmt::Display for Tally {
    fn fmt<W: fmt::Write>(&self, f: &mut fmt::Formatter<W>) -> fmt::Result {
        let (sheets, lists, disturbed) = (self.sheets, self.lists, self.disturbed);
        let (calls, settled, pairings) = (self.calls, self.settled, self.pairings);
        let (Readings { again, equal }, entered) = (self.readings, self.entered);
        let (below, walked, refusals) = (self.below, self.walked, self.refusals);
        writeln!(
            f,
            "  sheets of 1 to {MOST_BLOCKS} blocks a plane {sheets:?}"
        )?;
        writeln!(
            f,
            "  lists of calls {lists}, disturbed tables {disturbed}, calls {calls}"
        )?;
        writeln!(
            f,
            "  readings of standing pairs {again}, equal {equal}; over written tables {entered}"
        )?;
        writeln!(
            f,
            "  settled {settled} times, pairings handed out {pairings}"
        )?;
        writeln!(f, "  refused by numbers 1 to {CAUSES} {refusals:?}")?;
        write!(
            f,
            "  below the calls of a sheet: sheets {below}, pairings handed out {walked}"
        )
    }
}
