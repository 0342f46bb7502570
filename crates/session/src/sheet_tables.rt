//! The tables of one sheet as one value, and their lengths.

ghost use Rattle.std.specs.Prelude.{◌≡◌, IfOk, ◌↔◌, IsTrue, replicate};
ghost use Rattle.session.specs.Runs.{tables_of, AreNoLonger};
ghost use Rattle.session.specs.Lists.{lengths, right_lengths};
ghost use Rattle.session.specs.Zeros.{zero_lists};

use crate::call::Lengths;
use cost::Cost;
use std::alloc::{AllocError, Global};
use tables::{fill, places};

/// The tables of a sheet of n left and n right blocks: a cost, a standing byte and a mark for each
/// pair, n * n; a partner, a left price, a right price and a place of the walk for each block, n.
#[derive(Drop, Debug)]
pub struct SheetTables<K> {
    pub costs: Vec<K>,
    pub standing: Vec<u8>,
    pub partners: Vec<u16>,
    pub left: Vec<K>,
    pub right: Vec<K>,
    pub walk: Vec<u16>,
    pub marks: Vec<u8>,
}

impl<K: Cost> SheetTables<K> {
    /// Tables of the right lengths for n blocks a plane, with zero in every place.
    pub fn new(heap: Global, n: u16) -> Result<SheetTables<K>, AllocError>
        ensures lengths { IfOk result (λ made. lengths (tables_of made) ≡ right_lengths n) }
        ensures zero_lists { IfOk result (λ made. tables_of made ≡ zero_lists K.zero n) }
    {
        let blocks = n as usize;
        let pairs = places(n);
        Ok(SheetTables {
            costs: table(heap, K::zero(), pairs)?,
            standing: table(heap, 0u8, pairs)?,
            partners: table(heap, 0u16, blocks)?,
            left: table(heap, K::zero(), blocks)?,
            right: table(heap, K::zero(), blocks)?,
            walk: table(heap, 0u16, blocks)?,
            marks: table(heap, 0u8, pairs)?,
        })
    }

    /// How long the tables are.
    pub fn lengths(&self) -> Lengths
        ensures { result ≡ lengths (tables_of self.now) }
    {
        Lengths {
            costs: self.costs.len(),
            standing: self.standing.len(),
            partners: self.partners.len(),
            left: self.left.len(),
            right: self.right.len(),
            walk: self.walk.len(),
            marks: self.marks.len(),
        }
    }
}

impl Lengths {
    /// The right lengths for n blocks a plane.
    pub fn right(n: u16) -> Lengths
        ensures { result ≡ right_lengths n }
    {
        let blocks = n as usize;
        let pairs = places(n);
        Lengths {
            costs: pairs,
            standing: pairs,
            partners: blocks,
            left: blocks,
            right: blocks,
            walk: blocks,
            marks: pairs,
        }
    }

    /// Whether each length is at most the other.
    pub fn within(self, most: Lengths) -> bool
        ensures { IsTrue result ↔ AreNoLonger self most }
    {
        self.costs <= most.costs
            && self.standing <= most.standing
            && self.partners <= most.partners
            && self.left <= most.left
            && self.right <= most.right
            && self.walk <= most.walk
            && self.marks <= most.marks
    }
}

/// A table with the same value in each place. What `vec!` makes are clones, which need not be the
/// value.
fn table<T: Copy>(heap: Global, value: T, places: usize) -> Result<Vec<T>, AllocError>
    ensures { IfOk result (λ made. made.items ≡ replicate places value) }
{
    let mut made = vec![in heap; value; places]?;
    fill(made.as_mut_slice(), value);
    Ok(made)
}
