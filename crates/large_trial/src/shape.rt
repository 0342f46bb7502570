//! The sheets that are built to hurt: what each pair of 64 left and 64 right blocks costs.

use crate::amount::Columns;

/// How many blocks a plane has.
pub const BLOCKS: u16 = 64;

/// The largest cost of a column.
pub const MOST: i64 = 1_000_000_000;

/// A rule for the costs of a sheet, and for which of its pairs stand.
#[derive(Clone, Copy, Debug)]
pub enum Shape {
    /// 7 everywhere: every pairing is optimum.
    Equal,
    /// Eight planes of eight blocks beside each other, with 5 in each pair; no other pair stands.
    Diagonal,
    /// Each left block stands with the right block of its number and the one after, at 0: one cycle
    /// through all blocks, so that a step to the next pairing changes every pair.
    Cycle,
    /// The product of the block numbers: augmenting chains are long.
    Products,
    /// The same near the largest cost.
    Steep,
    /// Half a billion, less 1 at every third pair or so.
    NearTies,
    /// 10^9 and -10^9 like the fields of a chessboard, the other way round in the second column.
    Chessboard,
    /// 10^9 above the diagonal and -10^9 elsewhere, the other way round in the second column.
    Corner,
}

pub const SHAPES: [Shape; 8] = [
    Shape::Equal,
    Shape::Diagonal,
    Shape::Cycle,
    Shape::Products,
    Shape::Steep,
    Shape::NearTies,
    Shape::Chessboard,
    Shape::Corner,
];

/// One of the two ends of what a cost can be.
pub fn end(high: bool) -> i64 {
    if high { MOST } else { -MOST }
}

impl Shape {
    /// What a pair costs, if it stands.
    pub fn cell(self, left: u16, right: u16) -> Option<Columns> {
        let stands = match self {
            Shape::Diagonal => left / 8 == right / 8,
            Shape::Cycle => right == left || right == (left % BLOCKS + 1) % BLOCKS,
            _ => true,
        };
        stands.then_some([
            self.column(left, right, 0),
            self.column(left, right, 1),
            self.column(right, left, 2),
        ])
    }

    fn column(self, left: u16, right: u16, column: u16) -> i64 {
        let (l, r, column) = (i64::from(left), i64::from(right), i64::from(column));
        match self {
            Shape::Equal => 7,
            Shape::Diagonal => 5,
            Shape::Cycle => 0,
            Shape::Products => l * r,
            Shape::Steep => l * r * 240_000,
            Shape::NearTies => MOST / 2 - i64::from((l * 31 + r * 17 + column) % 64 % 3 == 0),
            Shape::Chessboard => end((l + r + column) % 2 == 0),
            Shape::Corner => end((l < r) == (column % 2 == 0)),
        }
    }
}
