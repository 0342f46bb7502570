//! The optimum pairings of a picture: a ladder each, with a line from each left block to its right
//! block.

use crate::canvas::{HEAD, LADDER, Measures, ROW, down};
use crate::solved::Solved;
use std::alloc::AllocError;

// How far a ladder's two sides stand apart.
const APART: u64 = 60;

/// The height at which a block's dot stands.
fn level(block: u16) -> u64 {
    down(block) + ROW / 2
}

/// Appends the line of a left block and its right block, and the dots at both ends.
fn push_way(text: &mut String, x: u64, left: u16, right: u16) -> Result<(), AllocError> {
    let (far, y, end) = (x.saturating_add(APART), level(left), level(right));
    write!(
        text,
        "<line class=\"way\" x1=\"{x}\" y1=\"{y}\" x2=\"{far}\" y2=\"{end}\"/>\
         <circle class=\"dot\" cx=\"{x}\" cy=\"{y}\" r=\"4\"/>\
         <circle class=\"dot\" cx=\"{far}\" cy=\"{end}\" r=\"4\"/>\n"
    )
}

/// Appends the number of a pairing, and which side of its ladder is which.
fn push_head(text: &mut String, x: u64, number: usize) -> Result<(), AllocError> {
    let (middle, far) = (x.saturating_add(APART / 2), x.saturating_add(APART));
    let (above, y) = (HEAD - 32, HEAD - 8);
    write!(
        text,
        "<text class=\"head\" x=\"{middle}\" y=\"{above}\">no. {number}</text>\
         <text class=\"side\" x=\"{x}\" y=\"{y}\">left</text>\
         <text class=\"side\" x=\"{far}\" y=\"{y}\">right</text>\n"
    )
}

/// Appends the ladder of a pairing.
fn push_ladder(
    text: &mut String,
    x: u64,
    number: usize,
    pairing: &[u16],
) -> Result<(), AllocError> {
    push_head(text, x, number)?;
    for (left, right) in (0..u16::MAX).zip(pairing) {
        push_way(text, x, left, *right)?;
    }
    Ok(())
}

/// Appends the first optimum pairings, beside the table.
pub fn push_ladders(
    text: &mut String,
    measures: Measures,
    solved: &Solved,
) -> Result<(), AllocError> {
    let mut x = measures.across(solved.size).saturating_add(LADDER / 2);
    for (number, pairing) in (1..usize::MAX).zip(&solved.pairings) {
        push_ladder(text, x, number, pairing.as_slice())?;
        x = x.saturating_add(LADDER);
    }
    Ok(())
}
