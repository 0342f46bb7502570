//! Searching along alternating paths, and exchanging the pairs along one: from a left block to a
//! right block of its row, on to the left block that has that right block, and so on. Such a path
//! is called a chain here.

ghost use Rattle.std.specs.Prelude.{◌≡◌, ℕ, ◌<◌, ◌≤◌, true, false, ◌||◌, length, IfSome, IfNone};
ghost use Rattle.std.specs.Prelude.{◌==◌, ◌≢◌, ◌+◌};
ghost use Rattle.blockset.specs.declared.TheConstants.{MOST_BLOCKS, SET_WIDTH};
ghost use Rattle.blockset.specs.Has.{has, IsEmpty};
ghost use Rattle.pairing.specs.Grid.{at};
ghost use Rattle.pairing.specs.Rows.{rights_in};
ghost use Rattle.matching.specs.Exchange.{without, GivesDistinct, AreHolders, AreHoldersFrom};
ghost use Rattle.matching.specs.Exchange.{HasWaysBack};
ghost use Rattle.matching.specs.Exchange.{IsExchanged};
ghost use Rattle.matching.specs.Search.{is_along, IsReach, HasEnded};

use blockset::{BlockSet, SET_WIDTH};

/// Which right blocks are had by a left block, and by which.
#[derive(Drop)]
pub struct Holders {
    pub held: BlockSet,
    pub owner: [u8; SET_WIDTH],
}

impl Holders {
    /// Holders that tell of no left block yet.
    pub(crate) fn new() -> Holders
        ensures { IsEmpty result.held }
    {
        Holders {
            held: BlockSet::empty(),
            owner: [0; SET_WIDTH],
        }
    }

    /// The holders that `p` has, one for each right block that it gives.
    pub(crate) fn of(p: &[u16]) -> Holders
        requires small { length p.now ≤ MOST_BLOCKS }
        requires blocks { (l : ℕ) → l < length p.now → at p.now l < SET_WIDTH }
        ensures { AreHoldersFrom 0 p.now result }
    {
        let mut holders = Holders::new();
        for l in (0..p.len()).rev() {
            holders.put_in(p, l);
        }
        holders
    }

    /// Tells of left block `l` too, where it told of those after it.
    pub fn put_in(&mut self, p: &[u16], l: usize)
        requires small { length p.now ≤ MOST_BLOCKS }
        requires inside { l < length p.now }
        requires block { at p.now l < SET_WIDTH }
        requires later { AreHoldersFrom (l + 1) p.now self.old }
        ensures { AreHoldersFrom l p.now self.new }
    {
        let block = p[l] as usize;
        self.held.insert(block);
        self.owner[block] = l as u8;
    }

    /// Tells no more of left block `l`, the first that it told of.
    pub fn take_out(&mut self, p: &[u16], l: usize)
        requires inside { l < length p.now }
        requires once { (m : ℕ) → m < length p.now → at p.now m ≡ at p.now l → m ≡ l }
        requires first { AreHoldersFrom l p.now self.old }
        ensures { AreHoldersFrom (l + 1) p.now self.new }
    {
        self.held.remove(p[l] as usize);
    }
}

/// What a search may use: the left blocks that it starts from, the right blocks that these may
/// take, those that any other left block may take, and those at which the search has found what it
/// looks for.
#[derive(Clone, Copy)]
pub struct Bounds {
    pub roots: BlockSet,
    pub offer: BlockSet,
    pub live: BlockSet,
    pub goals: BlockSet,
}

/// The right blocks that a search reached: from which left block each, and how many others before
/// it. The left block is a root, or has a right block that was reached before; so going back from
/// block to block comes to a root.
#[derive(Drop)]
pub struct Reach {
    pub reached: BlockSet,
    pub from: [u8; SET_WIDTH],
    pub rank: [u8; SET_WIDTH],
    pub goal: Option<usize>,
}

/// A right block that left block `l` leads to and that is not reached yet: one of the goals, if
/// there is any.
fn fresh(rows: &[BlockSet], bounds: Bounds, reached: BlockSet, l: usize) -> Option<usize>
    requires { l < length rows.now }
    ensures none { IfNone result
        ((c : ℕ) → is_along rows.now bounds l c ≡ true → has reached c ≡ true) }
    ensures new { IfSome result
        (λ c. (c < SET_WIDTH) × (is_along rows.now bounds l c ≡ true) × (has reached c ≡ false)) }
    ensures goal { IfSome result (λ c. has bounds.goals c ≡ false → (d : ℕ)
        → is_along rows.now bounds l d ≡ true → has reached d ≡ false
        → has bounds.goals d ≡ false) }
{
    let may = if bounds.roots.contains(l) {
        bounds.offer
    } else {
        bounds.live
    };
    let new = rows[l].intersection(may).difference(reached);
    match new.intersection(bounds.goals).least() {
        Some(c) => Some(c),
        None => new.least(),
    }
}

/// Searches from the roots along alternating paths, the least pending left block first, so neither
/// by breadth nor by depth. Every step reaches a right block or is done with a left block, each of
/// which happens at most once to each.
pub fn search(rows: &[BlockSet], holders: &Holders, bounds: Bounds) -> Reach
    requires small { length rows.now ≤ MOST_BLOCKS }
    requires roots { (l : ℕ) → has bounds.roots l ≡ true → l < length rows.now }
    requires inside { (l c : ℕ) → is_along rows.now bounds l c ≡ true → c < rights_in rows.now }
    requires held { (c : ℕ) → has holders.now.held c ≡ true
        → at holders.now.owner c < length rows.now }
    ensures reached { IsReach rows.now bounds holders.now result }
    ensures goal { HasEnded rows.now bounds holders.now result result.goal }
{
    let mut reached = BlockSet::empty();
    let mut from = [0u8; SET_WIDTH];
    let mut rank = [0u8; SET_WIDTH];
    let mut pending = bounds.roots;
    while let Some(l) = pending.least() {
        if let Some(c) = fresh(rows, bounds, reached, l) {
            from[c] = l as u8;
            rank[c] = reached.len() as u8;
            reached.insert(c);
            if bounds.goals.contains(c) {
                return Reach {
                    reached,
                    from,
                    rank,
                    goal: Some(c),
                };
            }
            if holders.held.contains(c) {
                pending.insert(holders.owner[c] as usize);
            }
        } else {
            pending.remove(l);
        }
    }
    Reach {
        reached,
        from,
        rank,
        goal: None,
    }
}

/// Exchanges the pairs along the chain that a search came to the free right block `goal` by, an
/// augmenting path: the left block before it takes it and gives up the right block that it had,
/// which the left block before takes, and so on back to a left block of `out`, the answer. The
/// holders change with them. Ranks fall along the chain, so it has at most n steps.
pub fn exchange(
    p: &mut [u16],
    holders: &mut Holders,
    out: BlockSet,
    reach: &Reach,
    goal: usize,
) -> usize
    requires small { length p.old ≤ MOST_BLOCKS }
    requires distinct { GivesDistinct (length p.old) p.old (has out) }
    requires ways { HasWaysBack p.old (has out) reach.now }
    requires reached { has reach.now.reached goal ≡ true }
    requires free { (l : ℕ) → l < length p.old → has out l ≡ false → at p.old l ≢ goal }
    ensures exchanged { IsExchanged p.old p.new (has out) reach.now result }

    // One right block more is had.
    ensures held { (c : ℕ) → has holders.new.held c ≡ (c == goal || has holders.old.held c) }

    // Holders that told of the left blocks from k on do so still, where the search came by no other
    // one. From 0 on it never does.
    ensures told { (k : ℕ)
        → ((c : ℕ) → has reach.now.reached c ≡ true → k ≤ at reach.now.from c)
        → AreHolders k p.old (has out) holders.old
        → AreHolders k p.new (without (has out) result) holders.new }
{
    holders.held.insert(goal);
    let mut block = goal;
    'chain: loop {
        let l = reach.from[block] as usize;
        let given_up = p[l] as usize;
        p[l] = block as u16;
        holders.owner[block] = l as u8;
        if out.contains(l) {
            return l;
        }
        block = given_up;
    }
}
