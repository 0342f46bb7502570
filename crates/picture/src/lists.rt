//! The optimum pairings of a picture of many blocks, below its table: a list of numbers each, the
//! right block of each left block in turn.

use crate::canvas::{ROW, SIDE, down};
use crate::solved::Solved;
use std::alloc::AllocError;

// The width of a number's column.
const COLUMN: u64 = 26;
// How far the lists stand below the table.
const GAP: u64 = 34;
// What stands below the last line of the lists.
const REST: u64 = 8;

/// How high the lists are: a line of words, one of the left blocks, and one for each pairing.
pub fn lists_height(solved: &Solved) -> u64 {
    (solved.pairings.len() as u64)
        .saturating_add(1)
        .saturating_mul(ROW)
        .saturating_add(GAP + REST)
}

/// Appends the number of a block in the column of a left block.
fn push_number(
    text: &mut String,
    style: &str,
    left: u16,
    y: u64,
    block: u16,
) -> Result<(), AllocError> {
    let x = SIDE + COLUMN * left as u64 + COLUMN / 2;
    write!(
        text,
        "<text class=\"{style}\" x=\"{x}\" y=\"{y}\">{block}</text>\n"
    )
}

/// Appends what the lists tell, and the left blocks above them.
fn push_head(text: &mut String, y: u64, size: u16) -> Result<(), AllocError> {
    let below = y.saturating_add(ROW);
    write!(
        text,
        "<text class=\"note\" x=\"16\" y=\"{y}\">optimum pairings: the right block of each left \
         block</text>\n<text class=\"note\" x=\"16\" y=\"{below}\">left block</text>\n"
    )?;
    for left in 0..size {
        push_number(text, "head", left, below, left)?;
    }
    Ok(())
}

/// Appends the list of a pairing.
fn push_list(text: &mut String, y: u64, number: usize, pairing: &[u16]) -> Result<(), AllocError> {
    write!(
        text,
        "<text class=\"note\" x=\"16\" y=\"{y}\">no. {number}</text>\n"
    )?;
    for (left, right) in (0..u16::MAX).zip(pairing) {
        push_number(text, "cost", left, y, *right)?;
    }
    Ok(())
}

/// Appends the first optimum pairings, below the table.
pub fn push_lists(text: &mut String, solved: &Solved) -> Result<(), AllocError> {
    let mut y = down(solved.size).saturating_add(GAP);
    push_head(text, y, solved.size)?;
    y = y.saturating_add(ROW);
    for (number, pairing) in (1..usize::MAX).zip(&solved.pairings) {
        y = y.saturating_add(ROW);
        push_list(text, y, number, pairing.as_slice())?;
    }
    Ok(())
}
