//! Sets of blocks. A block is a number below 64, so that a set of them is one 64-bit number.
#![tactic(auto)]

ghost use Rattle.std.specs.Prelude.{◌≡◌, ℕ, ◌<◌, true, false, not, ◌&&◌, ◌||◌, IsTrue, ◌↔◌};
ghost use Rattle.std.specs.Prelude.{MatchOption, ◌==◌, nat_lt};
ghost use Rattle.blockset.specs.Sets.{members, bit};
ghost use Rattle.std.specs.Iterator.{at_most};
ghost use Rattle.blockset.specs.declared.TheConstants.{SET_WIDTH};
ghost use Rattle.blockset.specs.Has.{has, IsEmpty, IsLeast};
ghost use Rattle.blockset.specs.Taking.{TakesLeast};

use std::marker::Model;

/// How many block numbers a set has room for: those from 0 on below it. So long is a list with a
/// place for each of them.
pub const SET_WIDTH: usize = 64;

/// The largest number of blocks of a plane: as many as a set has room for.
pub const MOST_BLOCKS: u16 = SET_WIDTH as u16;

/// A set of the block numbers 0 to 63. A number of 64 or more is no block: it is in no set, and
/// inserting it changes nothing.
#[derive(Clone, Copy, Debug, Default, PartialEq, Eq, Hash)]
#[repr(C)]
pub struct BlockSet(u64);

impl BlockSet {
    /// The set without blocks.
    pub const fn empty() -> Self
        ensures { IsEmpty result }
    {
        BlockSet(0)
    }

    /// The set of one block, or of none where the number is 64 or more.
    pub fn of(block: usize) -> Self
        ensures { (j : ℕ) → has result j ≡ (nat_lt j SET_WIDTH && j == block) }
    {
        if block < SET_WIDTH {
            BlockSet(1 << block)
        } else {
            BlockSet::empty()
        }
    }

    /// The blocks below `n`: all 64 where `n` is more.
    pub fn all(n: usize) -> Self
        ensures { (j : ℕ) → has result j ≡ (nat_lt j SET_WIDTH && nat_lt j n) }
    {
        if n < SET_WIDTH {
            BlockSet((1 << n) - 1)
        } else {
            BlockSet(u64::MAX)
        }
    }

    /// The set whose blocks are the bits of a number, the lowest bit for block 0.
    pub fn from_bits(number: u64) -> Self
        ensures { (j : ℕ) → has result j ≡ bit number j }
    {
        BlockSet(number)
    }

    /// The number whose bits are the blocks of the set.
    pub fn bits(self) -> u64
        ensures { (j : ℕ) → bit result j ≡ has self j }
    {
        let BlockSet(bits) = self;
        bits
    }

    pub fn contains(self, block: usize) -> bool
        ensures { result ≡ has self block }
    {
        block < SET_WIDTH && (self.0 >> block) & 1 == 1
    }

    pub fn is_empty(self) -> bool
        ensures { IsTrue result ↔ IsEmpty self }
    {
        self.0 == 0
    }

    /// How many blocks the set has.
    pub fn len(self) -> usize
        ensures { result ≡ members SET_WIDTH (has self) }
    {
        self.0.count_ones() as usize
    }

    /// The least block of the set.
    pub fn least(self) -> Option<usize>
        ensures { MatchOption result (IsEmpty self) (IsLeast self) }
    {
        if self.is_empty() {
            None
        } else {
            Some(self.0.trailing_zeros() as usize)
        }
    }

    /// The set without its least block. The number of that block is not waited for: so a loop over
    /// a set can take the next block while it works on this one.
    fn without_least(self) -> Self
        ensures { (c j : ℕ) → IsLeast self c → has result j ≡ (has self j && not (j == c)) }
    {
        BlockSet(self.0 & self.0.wrapping_sub(1))
    }

    pub fn union(self, other: Self) -> Self
        ensures { (j : ℕ) → has result j ≡ (has self j || has other j) }
    {
        BlockSet(self.0 | other.0)
    }

    pub fn intersection(self, other: Self) -> Self
        ensures { (j : ℕ) → has result j ≡ (has self j && has other j) }
    {
        BlockSet(self.0 & other.0)
    }

    /// The blocks of this set that are not in the other.
    pub fn difference(self, other: Self) -> Self
        ensures { (j : ℕ) → has result j ≡ (has self j && not (has other j)) }
    {
        BlockSet(self.0 & !other.0)
    }

    /// Puts a block into the set; a number of 64 or more leaves the set as it is.
    pub fn insert(&mut self, block: usize)
        ensures { (j : ℕ)
            → has self.new j ≡ ((nat_lt j SET_WIDTH && j == block) || has self.old j) }
    {
        if block < SET_WIDTH {
            self.0 |= 1 << block;
        }
    }

    /// Puts a block into the set if it is wanted there, and asks nothing on the way: a loop that
    /// gathers a set has no branch on what it gathers.
    pub fn insert_if(&mut self, block: usize, wanted: bool)
        requires { block < SET_WIDTH }
        ensures { (j : ℕ) → has self.new j ≡ ((wanted && j == block) || has self.old j) }
    {
        self.0 |= u64::from(wanted) << block;
    }

    /// Takes a block out of the set, if it is in it.
    pub fn remove(&mut self, block: usize)
        ensures { (j : ℕ) → has self.new j ≡ (has self.old j && not (j == block)) }
    {
        if block < SET_WIDTH {
            self.0 &= !(1 << block);
        }
    }
}

impl IntoIterator for BlockSet {
    type Item = usize;

    type IntoIter = Blocks;

    ghost into_iter_gives = { λ set blocks. blocks ≡ set };

    fn into_iter(self) -> Blocks {
        Blocks { rest: self }
    }
}

/// The blocks of a set, the least first. A contract sees the set of those that are left.
#[derive(Debug, Drop)]
pub struct Blocks {
    rest: BlockSet,
}

impl Model for Blocks {
    ghost use Rattle.blockset.specs.declared.BlockSet.{BlockSet};

    ghost Value = { BlockSet };

    ghost view = { λ blocks. blocks.rest };
}

impl Iterator for Blocks {
    type Item = usize;

    ghost next_gives = { TakesLeast };

    ghost remaining = { λ blocks. at_most (members SET_WIDTH (has blocks)) };

    fn next(&mut self) -> Option<usize> {
        let least = self.rest.least()?;
        self.rest = self.rest.without_least();
        Some(least)
    }
}
