//! The table of a picture: a cell for each pair, the numbers of the blocks, their planes and their
//! prices.

use crate::canvas::{HEAD, Measures, ROW, down};
use crate::solved::Solved;
use cost::Plain;
use std::alloc::AllocError;
use tables::{place, stands};

// The base line of the text in a row.
const BASE: u64 = 18;

/// How a pair looks: the class of its cell and the class of its text.
fn look(solved: &Solved, left: u16, right: u16) -> (&'static str, &'static str) {
    let at = place(solved.size, left, right);
    if solved.partners.get(left as usize) == Some(&right) {
        ("first", "strong")
    } else if solved.marks.get(at) == Some(&1) {
        ("some", "cost")
    } else {
        ("pair", "cost")
    }
}

/// Appends the cell of a pair: its cost, or a dot where the pair is absent.
fn push_cell(
    text: &mut String,
    measures: Measures,
    solved: &Solved,
    left: u16,
    right: u16,
) -> Result<(), AllocError> {
    let at = place(solved.size, left, right);
    let (cell, word) = look(solved, left, right);
    let (x, y, width) = (measures.across(right), down(left), measures.column());
    let (middle, base) = (measures.middle(right), y + BASE);
    write!(
        text,
        "<rect class=\"{cell}\" x=\"{x}\" y=\"{y}\" width=\"{width}\" height=\"{ROW}\"/>"
    )?;
    let standing = solved.standing.get(at).is_some_and(|byte| stands(*byte));
    match solved.costs.get(at) {
        Some(Plain(cost)) if standing => write!(
            text,
            "<text class=\"{word}\" x=\"{middle}\" y=\"{base}\">{cost}</text>\n"
        ),
        _ => write!(
            text,
            "<text class=\"far\" x=\"{middle}\" y=\"{base}\">·</text>\n"
        ),
    }
}

/// Appends the row of a left block: its number, its price, and its cells.
fn push_row(
    text: &mut String,
    measures: Measures,
    solved: &Solved,
    left: u16,
) -> Result<(), AllocError> {
    let base = down(left) + BASE;
    write!(
        text,
        "<text class=\"head\" x=\"28\" y=\"{base}\">{left}</text>"
    )?;
    if let Some(Plain(price)) = solved.left.get(left as usize) {
        let x = measures.price();
        write!(
            text,
            "<text class=\"price\" x=\"{x}\" y=\"{base}\">{price}</text>\n"
        )?;
    }
    for right in 0..solved.size {
        push_cell(text, measures, solved, left, right)?;
    }
    Ok(())
}

/// Appends which blocks have the columns and which the rows.
fn push_sides(text: &mut String, measures: Measures) -> Result<(), AllocError> {
    let side = measures.side();
    let (right, left, plane) = (HEAD - 54, HEAD - 32, HEAD - 14);
    write!(
        text,
        "<text class=\"note\" x=\"{side}\" y=\"{right}\">right blocks (plane 1)</text>\n\
         <text class=\"note\" x=\"16\" y=\"{left}\">left blocks</text>\
         <text class=\"note\" x=\"16\" y=\"{plane}\">(plane 0)</text>\n"
    )
}

/// Appends the numbers of the right blocks and their prices, above the rows.
fn push_heads(text: &mut String, measures: Measures, solved: &Solved) -> Result<(), AllocError> {
    let (number, amount) = (HEAD - 28, HEAD - 8);
    for right in 0..solved.size {
        let x = measures.middle(right);
        write!(
            text,
            "<text class=\"head\" x=\"{x}\" y=\"{number}\">{right}</text>"
        )?;
        if let Some(Plain(price)) = solved.right.get(right as usize) {
            write!(
                text,
                "<text class=\"price\" x=\"{x}\" y=\"{amount}\">{price}</text>\n"
            )?;
        }
    }
    Ok(())
}

/// Appends the table of a settled order file.
pub fn push_table(
    text: &mut String,
    measures: Measures,
    solved: &Solved,
) -> Result<(), AllocError> {
    push_sides(text, measures)?;
    push_heads(text, measures, solved)?;
    for left in 0..solved.size {
        push_row(text, measures, solved, left)?;
    }
    Ok(())
}
