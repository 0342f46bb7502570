//! What the steps of the assignment hand to one another.

ghost use Rattle.std.specs.Prelude.{◌≡◌, replicate};
ghost use Rattle.blockset.specs.declared.TheConstants.{SET_WIDTH};
ghost use Rattle.assign.specs.Trees.{IsFresh};

use blockset::{BlockSet, SET_WIDTH};
use matching::{Holders, Reach};

/// A right block, and how far it is beyond its price.
#[derive(Clone, Copy)]
pub struct Nearby<K> {
    pub block: usize,
    pub key: K,
}

/// The nearest right block, and the nearest of the others.
#[derive(Clone, Copy)]
pub struct TwoNearest<K> {
    pub near: Nearby<K>,
    pub next: Nearby<K>,
}

impl<K> TwoNearest<K> {
    /// Two right blocks with their keys.
    pub fn of(near: usize, near_key: K, next: usize, next_key: K) -> TwoNearest<K>
        ensures near { result.near ≡ record { block = near; key = near_key } }
        ensures next { result.next ≡ record { block = next; key = next_key } }
    {
        TwoNearest {
            near: Nearby {
                block: near,
                key: near_key,
            },
            next: Nearby {
                block: next,
                key: next_key,
            },
        }
    }
}

/// A right block for a left block to take, and the price that it has then.
#[derive(Clone, Copy)]
pub struct Bid<K> {
    pub block: usize,
    pub price: K,
}

/// How far a search has come.
#[derive(Drop)]
pub struct Tree<K> {
    /// The right blocks that it has come to, taken or not.
    pub seen: BlockSet,
    /// Those that it has taken, whose distances are for good: their ranks are the turns, and the
    /// goal, if there is one, is the only one of them that is free. `from` is also known of what is
    /// seen and had and not yet taken.
    pub taken: Reach,
    /// The goal, with how far it is beyond its price; there is none where no free right block was
    /// come to.
    pub free: Option<Nearby<K>>,
}

impl<K> Tree<K> {
    /// A search that has come to nothing yet.
    pub fn new() -> Tree<K>
        ensures { IsFresh result }
    {
        Tree {
            seen: BlockSet::empty(),
            taken: Reach {
                reached: BlockSet::empty(),
                from: [0u8; SET_WIDTH],
                rank: [0u8; SET_WIDTH],
                goal: None,
            },
            free: None,
        }
    }
}

impl<K: Copy> Tree<K> {
    /// What the search has come to by now; what it has taken stays.
    pub fn keep(&mut self, seen: BlockSet, free: Option<Nearby<K>>)
        ensures { self.new ≡ record { seen = seen; taken = self.old.taken; free = free } }
    {
        self.seen = seen;
        self.free = free;
    }
}

/// For each left block the nearest of the free right blocks that it stands with and the nearest of
/// the others, as they were when all of them were looked at last; 64, which is no block, where none
/// is noted. A free right block keeps its price until it is taken: so the first of the two that is
/// free still is the nearest still, and no other need be looked at.
#[derive(Drop)]
pub struct Noted {
    pub near: [u8; SET_WIDTH],
    pub next: [u8; SET_WIDTH],
}

impl Noted {
    /// Nothing is noted of any left block.
    pub fn nothing() -> Noted
        ensures { result ≡ record {
          near = replicate SET_WIDTH SET_WIDTH;
          next = replicate SET_WIDTH SET_WIDTH;
        } }
    {
        Noted {
            near: [SET_WIDTH as u8; SET_WIDTH],
            next: [SET_WIDTH as u8; SET_WIDTH],
        }
    }
}

/// The right blocks that have a price, and `owner`, the left block that each is cheapest with.
#[derive(Drop)]
pub struct Cheapest {
    pub priced: BlockSet,
    pub owner: [u8; SET_WIDTH],
}

/// What the start and the row reduction leave to do: the left blocks that are still `out`, and the
/// holders of the right blocks so far.
#[derive(Drop)]
pub struct FirstPairs {
    pub out: BlockSet,
    pub holders: Holders,
}
