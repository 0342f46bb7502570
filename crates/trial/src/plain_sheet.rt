//! A sheet as plain cells: the cost of each pair that stands.

use crate::draw::{Draw, Rules};
use crate::kinds::{Columns, Trial};
use std::alloc::{AllocError, Global};

/// The costs of which the sheets are made that are all gone through, in the order in which they are
/// taken: as a first column, 0, 1 and -1 come before a tie that a later column decides.
const SMALL: [Columns; 4] = [[0, 1, 0], [1, 0, -1], [-1, 0, 1], [0, 0, 1]];

/// What n left and n right blocks cost in pairs, row by row; nothing where a pair is absent.
#[derive(Clone, Drop, PartialEq, Debug)]
pub struct Sheet<K: Trial> {
    pub n: u16,
    cells: Vec<Option<K>>,
}

/// How many pairs n left and n right blocks have.
pub fn pairs(n: u16) -> usize {
    usize::from(n) * usize::from(n)
}

/// The place of a pair, row by row.
pub fn place(n: u16, left: u16, right: u16) -> usize {
    usize::from(left) * usize::from(n) + usize::from(right)
}

/// The left and the right block of the pair at a place.
pub fn pair_at(n: u16, place: usize) -> (u16, u16) {
    let n = usize::from(n).max(1);
    (narrow(place / n), narrow(place % n))
}

fn narrow(number: usize) -> u16 {
    u16::try_from(number).unwrap_or(u16::MAX)
}

impl<K: Trial> Sheet<K> {
    /// The sheet in which no pair stands.
    pub fn absent(heap: Global, n: u16) -> Result<Self, AllocError> {
        let mut cells = Vec::new(heap);
        for _ in 0..pairs(n) {
            cells.push(None)?;
        }
        Ok(Sheet { n, cells })
    }

    /// A sheet by rules.
    pub fn drawn(heap: Global, n: u16, rules: Rules, draw: &mut Draw) -> Result<Self, AllocError> {
        let mut sheet = Sheet::absent(heap, n)?;
        for cell in sheet.cells.iter_mut() {
            *cell = draw.cell(rules);
        }
        Ok(sheet)
    }

    /// The sheet whose cells are the digits of a number: digit 0 is an absent pair, and each other
    /// one of the first `costs` small costs.
    pub fn numbered(heap: Global, n: u16, costs: u8, number: u64) -> Result<Self, AllocError> {
        let mut sheet = Sheet::absent(heap, n)?;
        let base = u64::from(costs) + 1;
        let mut rest = number;
        for cell in sheet.cells.iter_mut() {
            *cell = small((rest % base) as usize);
            rest /= base;
        }
        Ok(sheet)
    }

    /// How many such sheets there are.
    pub fn count(n: u16, costs: u8) -> u64 {
        let base = u64::from(costs) + 1;
        base.saturating_pow(u32::from(n) * u32::from(n))
    }

    /// The cost of a pair that stands.
    pub fn cell(&self, left: u16, right: u16) -> Option<K> {
        if right < self.n {
            self.cells
                .get(place(self.n, left, right))
                .copied()
                .flatten()
        } else {
            None
        }
    }

    /// Writes a pair's cost, or that it is absent.
    pub fn put(&mut self, left: u16, right: u16, cell: Option<K>) {
        if let Some(old) = self.cells.get_mut(place(self.n, left, right)) {
            *old = cell;
        }
    }

    pub fn cells(&self) -> &[Option<K>] {
        self.cells.as_slice()
    }
}

/// The cell of a digit.
fn small<K: Trial>(digit: usize) -> Option<K> {
    let columns = SMALL.get(digit.checked_sub(1)?)?;
    Some(K::made(*columns))
}
