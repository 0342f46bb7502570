//! What the tables of a sheet hold: random numbers, and the rules that make costs and standing
//! pairs of them.

use crate::line::{Costs, Order, Pairs};
use crate::shape::{MOST, end};

/// Number `k` of the sequence splitmix64 that starts at `seed`.
fn random(seed: u64, k: u64) -> u64 {
    let x = seed.wrapping_add(k.wrapping_add(1).wrapping_mul(0x9e37_79b9_7f4a_7c15));
    let y = (x ^ (x >> 30)).wrapping_mul(0xbf58_476d_1ce4_e5b9);
    let z = (y ^ (y >> 27)).wrapping_mul(0x94d0_49bb_1331_11eb);
    z ^ (z >> 31)
}

fn narrow(number: usize) -> u16 {
    u16::try_from(number).unwrap_or(u16::MAX)
}

/// A pair of a sheet.
#[derive(Clone, Copy)]
pub struct Pair {
    order: Order,
    left: u16,
    right: u16,
}

impl Pair {
    /// The pair at a place of the pair tables.
    pub fn at(order: Order, place: usize) -> Self {
        let n = usize::from(order.n).max(1);
        Pair {
            order,
            left: narrow(place / n),
            right: narrow(place % n),
        }
    }

    /// One of the eight random numbers of the pair.
    fn number(self, which: u16) -> u64 {
        let place = u64::from(self.left) * 64 + u64::from(self.right);
        random(self.order.seed, place * 8 + u64::from(which))
    }

    /// Whether the pair stands.
    pub fn stands(self) -> bool {
        let (left, right, n) = (self.left as u32, self.right as u32, self.order.n as u32);
        match self.order.pairs {
            Pairs::Full => true,
            Pairs::Percent(share) => self.number(7) % 100 < share,
            Pairs::Chain if left + 1 == n => right == 0,
            Pairs::Chain => right == left || right == left + 1,
            Pairs::Band => right.abs_diff(left) <= 2,
            Pairs::Crowded => left > n / 2 || right < n / 2,
        }
    }

    /// The columns of the cost; any numbers where the pair does not stand.
    pub fn columns(self) -> [i64; 4] {
        [
            self.column(0),
            self.column(1),
            self.column(2),
            self.column(3),
        ]
    }

    fn column(self, column: u16) -> i64 {
        let drawn = self.number(column);
        if self.stands() {
            self.value(drawn, column)
        } else {
            i64::from_le_bytes(drawn.to_le_bytes())
        }
    }

    /// What the rule of the sheet makes of a random number.
    fn value(self, drawn: u64, column: u16) -> i64 {
        let (left, right) = (i64::from(self.left), i64::from(self.right));
        let column = i64::from(column);
        match self.order.costs {
            Costs::Wide => between(drawn, 1_000_000_000),
            Costs::Small => between(drawn, 3),
            Costs::Bits => (drawn % 2) as i64,
            Costs::Mixed if column == 0 => between(drawn, 1),
            Costs::Mixed => between(drawn, 1_000_000_000),
            Costs::Equal => 7,
            Costs::High => MOST,
            Costs::Low => -MOST,
            Costs::Checks => end((left + right + column) % 2 == 0),
            Costs::ByLeft => end((left + column) % 2 == 0),
            Costs::ByRight => end((right + column) % 2 == 0),
            Costs::Corner => end((left < right) == (column % 2 == 0)),
            Costs::Signs => end(drawn % 2 == 0),
            Costs::Edge if drawn % 2 == 0 => MOST - (drawn / 2 % 4) as i64,
            Costs::Edge => (drawn / 2 % 4) as i64 - MOST,
            Costs::Products => (left + 1) * (right + 1),
            Costs::Steep => (left + 1) * (right + 1) * 240_000,
            Costs::Apart => (left - right).abs(),
        }
    }
}

/// A number from `-most` to `most`.
fn between(drawn: u64, most: u32) -> i64 {
    (drawn % (2 * u64::from(most) + 1)) as i64 - i64::from(most)
}
