//! What a picture shows of an order file: its sheet, settled, with marks and the first pairings.

use cost::Plain;
use orderfile::loading::{check, load};
use sheet::{Fault, OpenSheet, Refusal, SettledSheet, Shortfall, Step};
use std::alloc::{AllocError, Global};
use tables::places;

/// A picture shows at most this many optimum pairings.
const MOST_SHOWN: usize = 4;

/// An order file, settled: the tables of its sheet, the least total, and the first optimum
/// pairings, each as the right blocks of the left blocks in turn.
#[derive(Drop)]
pub struct Solved {
    pub size: u16,
    pub costs: Vec<Plain>,
    pub standing: Vec<u8>,
    pub partners: Vec<u16>,
    pub left: Vec<Plain>,
    pub right: Vec<Plain>,
    pub marks: Vec<u8>,
    pub total: Plain,
    pub pairings: Vec<Vec<u16>>,
    /// Whether there are more optimum pairings than these.
    pub more: bool,
}

/// Why an order file has no picture.
#[derive(Debug, Drop, thiserror::Error)]
pub enum Trouble {
    #[error("{0}")]
    Refused(#[from] Fault),
    /// No pairing is perfect: the crowd set and its shortage.
    #[error("no pairing is perfect")]
    Unmatched(Shortfall),
    #[error("{0}")]
    Memory(#[from] AllocError),
}

/// Why a sheet could not be settled.
fn trouble_of(refusal: Refusal<OpenSheet>) -> Trouble {
    match refusal.shortfall {
        Some(shortfall) => Trouble::Unmatched(shortfall),
        None => Trouble::Refused(refusal.fault),
    }
}

/// Settles an order file, or tells why that cannot be done.
pub fn solve(heap: Global, file: &[u8]) -> Result<Solved, Trouble> {
    let size = check(file)?;
    let (n, pairs) = (size as usize, places(size));
    let (mut costs, mut standing) = (vec![in heap; Plain(0); pairs]?, vec![in heap; 0u8; pairs]?);
    let sheet = load(file, costs.as_mut_slice(), standing.as_mut_slice())?;
    let mut partners = vec![in heap; 0u16; n]?;
    let (mut left, mut right) = (vec![in heap; Plain(0); n]?, vec![in heap; Plain(0); n]?);
    let settled = sheet
        .settle(
            costs.as_slice(),
            standing.as_slice(),
            partners.as_mut_slice(),
            left.as_mut_slice(),
            right.as_mut_slice(),
        )
        .map_err(trouble_of)?;
    let mut solved = Solved {
        size,
        costs,
        standing,
        partners,
        left,
        right,
        marks: vec![in heap; 0u8; pairs]?,
        total: Plain(0),
        pairings: Vec::new(heap),
        more: false,
    };
    solved.look_at(&settled)?;
    let (pairings, more) = solved.first_pairings(heap, settled)?;
    solved.pairings = pairings;
    solved.more = more;
    Ok(solved)
}

impl Solved {
    /// Fills in the total and the marks.
    fn look_at(&mut self, sheet: &SettledSheet) -> Result<(), Fault> {
        let (costs, standing) = (self.costs.as_slice(), self.standing.as_slice());
        let (left, right) = (self.left.as_slice(), self.right.as_slice());
        let partners = self.partners.as_slice();
        self.total = sheet.total(costs, standing, partners, left, right)?;
        let marks = self.marks.as_mut_slice();
        sheet.marks(costs, standing, partners, left, right, marks)
    }

    /// The first optimum pairings, and whether there are more.
    fn first_pairings(
        &self,
        heap: Global,
        sheet: SettledSheet,
    ) -> Result<(Vec<Vec<u16>>, bool), Trouble> {
        let (costs, standing) = (self.costs.as_slice(), self.standing.as_slice());
        let (left, right) = (self.left.as_slice(), self.right.as_slice());
        let partners = self.partners.as_slice();
        let mut list = vec![in heap; 0u16; self.size as usize]?;
        let walk = sheet
            .start(costs, standing, partners, left, right, list.as_mut_slice())
            .map_err(Fault::from)?;
        let mut pairings = Vec::new(heap);
        for _ in 0..MOST_SHOWN {
            show(&mut pairings, list.clone()?)?;
            let step = walk.next(costs, standing, partners, left, right, list.as_mut_slice())?;
            if let Step::End = step {
                return Ok((pairings, false));
            }
        }
        Ok((pairings, true))
    }
}

/// Adds a pairing to those that are shown.
fn show(pairings: &mut Vec<Vec<u16>>, pairing: Vec<u16>) -> Result<(), AllocError> {
    Ok(pairings.push(pairing)?)
}
