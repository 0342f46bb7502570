//! What is drawn: numbers that look random, and the rules that make pairs and costs of them.

use crate::kinds::{Columns, Trial};

/// The largest cost of a column.
const MOST: i64 = 1_000_000_000;

/// What a column of a cost can be.
#[derive(Clone, Copy, Debug)]
pub enum Costs {
    /// From -1 to 1, so that many pairings cost the same.
    Tiny,
    /// From -4 to 4.
    Small,
    /// The same everywhere.
    Equal,
    /// At one of the two ends of what a cost can be, or up to 2 nearer to zero.
    Ends,
    /// Any cost.
    Wide,
}

/// Which pairs stand.
#[derive(Clone, Copy)]
pub enum Pairs {
    All,
    /// Four of five.
    Most,
    /// One of two.
    Half,
    /// Two of five.
    Few,
    /// Three of ten.
    Fewest,
}

/// The rules by which a sheet is drawn.
#[derive(Clone, Copy)]
pub struct Rules {
    pub costs: Costs,
    pub pairs: Pairs,
}

impl Rules {
    /// How many rules there are: each of the costs with each of the pairs but the fewest.
    pub const COUNT: u64 = 20;

    pub fn numbered(number: u64) -> Self {
        let costs = match number % 5 {
            0 => Costs::Tiny,
            1 => Costs::Small,
            2 => Costs::Equal,
            3 => Costs::Ends,
            _ => Costs::Wide,
        };
        let pairs = match number / 5 % 4 {
            0 => Pairs::All,
            1 => Pairs::Most,
            2 => Pairs::Half,
            _ => Pairs::Few,
        };
        Rules { costs, pairs }
    }
}

/// A sequence of numbers: xorshift with a product, as `xorshift64*`.
#[derive(Clone, Copy)]
pub struct Draw {
    state: u64,
}

impl Draw {
    /// The sequence of a seed. The sequence of a state 0 would be 0 for ever.
    pub fn new(seed: u64) -> Self {
        Draw {
            state: seed.wrapping_mul(0x9e37_79b9_7f4a_7c15) | 1,
        }
    }

    /// The next number, below 2^32.
    fn number(&mut self) -> u64 {
        let mut x = self.state;
        x ^= x >> 12;
        x ^= x << 25;
        x ^= x >> 27;
        self.state = x;
        x.wrapping_mul(0x2545_f491_4f6c_dd1d) >> 32
    }

    /// A number below `bound`; 0 where there is none.
    pub fn below(&mut self, bound: u64) -> u64 {
        self.number().checked_rem(bound).unwrap_or(0)
    }

    /// A block number of a sheet of n blocks a plane.
    pub fn block(&mut self, n: u16) -> u16 {
        u16::try_from(self.below(u64::from(n))).unwrap_or(0)
    }

    /// A number from `-most` to `most`.
    fn around_zero(&mut self, most: u32) -> i64 {
        let drawn = self.number();
        (drawn % (2 * u64::from(most) + 1)) as i64 - i64::from(most)
    }

    fn column(&mut self, costs: Costs) -> i64 {
        match costs {
            Costs::Tiny => self.around_zero(1),
            Costs::Small => self.around_zero(4),
            Costs::Equal => 7,
            Costs::Ends => self.end(),
            Costs::Wide => self.around_zero(1_000_000_000),
        }
    }

    fn end(&mut self) -> i64 {
        let inside = (self.number() % 3) as i64;
        if self.below(2) == 0 {
            MOST - inside
        } else {
            inside - MOST
        }
    }

    pub fn columns(&mut self, costs: Costs) -> Columns {
        [self.column(costs), self.column(costs), self.column(costs)]
    }

    fn stands(&mut self, pairs: Pairs) -> bool {
        let drawn = self.below(10);
        match pairs {
            Pairs::All => true,
            Pairs::Most => drawn < 8,
            Pairs::Half => drawn < 5,
            Pairs::Few => drawn < 4,
            Pairs::Fewest => drawn < 3,
        }
    }

    /// What is at a pair: its cost, if it stands.
    pub fn cell<K: Trial>(&mut self, rules: Rules) -> Option<K> {
        let columns = self.columns(rules.costs);
        if self.stands(rules.pairs) {
            Some(K::made(columns))
        } else {
            None
        }
    }
}
