//! The picture as a whole: its measures, its frame and its legend.

ghost use Rattle.std.specs.Prelude.{◌<◌, ◌^◌};

use crate::ladder::push_ladders;
use crate::lists::{lists_height, push_lists};
use crate::solved::Solved;
use crate::table::push_table;
use cost::Plain;
use std::alloc::{AllocError, Global};

/// The height of a row of the table and of a step of a ladder.
pub const ROW: u64 = 26;
/// What stands above the first row.
pub const HEAD: u64 = 108;
/// What stands to the left of the first column, or more where a left price is long.
pub const SIDE: u64 = 96;
/// The width of a ladder with the space beside it.
pub const LADDER: u64 = 110;

// What the numbers of the left blocks take of the side.
const NUMBERS: u64 = 36;

// The height of the legend, with the space around it.
const FOOT: u64 = 78;

// Pairings of at most this many blocks are drawn as ladders; those of more are listed as numbers.
const MOST_IN_LADDERS: u16 = 16;

// How the parts of a picture look.
const STYLE: &str = "\
<style>
text { font: 13px sans-serif; fill: #24292f; text-anchor: middle }
.title { font-size: 16px; font-weight: bold; text-anchor: start }
.note { fill: #57606a; text-anchor: start }
.head { font-weight: bold }
.side { fill: #57606a }
.price { fill: #8250df }
.far { fill: #8c959f }
.pair { fill: #ffffff; stroke: #d0d7de }
.some { fill: #b6d8ff; stroke: #d0d7de }
.first { fill: #2f81f7; stroke: #d0d7de }
.strong { fill: #ffffff; font-weight: bold }
.way { stroke: #2f81f7; stroke-width: 2 }
.dot { fill: #24292f }
</style>
";

/// How wide the longest of some numbers is, of two digits at least.
fn widest(heap: Global, numbers: &[Plain]) -> Result<u64, AllocError> {
    let mut longest = 2;
    for Plain(number) in numbers {
        longest = longest.max(format!(in heap; "{number}")?.len());
    }
    Ok((longest as u64).saturating_mul(9))
}

/// The measures of a picture: how wide its side and a column of its table are, and where things
/// stand.
#[derive(Clone, Copy, Drop)]
pub struct Measures {
    side: u64,
    column: u64,
}

impl Measures {
    /// Measures that leave room for the longest number of a sheet.
    fn of(heap: Global, solved: &Solved) -> Result<Measures, AllocError> {
        let left = widest(heap, solved.left.as_slice())?;
        let right = widest(heap, solved.right.as_slice())?;
        let cost = widest(heap, solved.costs.as_slice())?;
        Ok(Measures {
            side: left.saturating_add(NUMBERS + 16).max(SIDE),
            column: right.max(cost).saturating_add(16),
        })
    }

    /// Where the table begins.
    pub fn side(&self) -> u64 {
        self.side
    }

    /// The middle of the left prices.
    pub fn price(&self) -> u64 {
        self.side.saturating_add(NUMBERS) / 2
    }

    /// The width of a column of the table.
    pub fn column(&self) -> u64 {
        self.column
    }

    /// Where the column of a right block begins.
    pub fn across(&self, right: u16) -> u64 {
        self.column
            .saturating_mul(right as u64)
            .saturating_add(self.side)
    }

    /// The middle of the column of a right block.
    pub fn middle(&self, right: u16) -> u64 {
        self.across(right).saturating_add(self.column / 2)
    }
}

/// Where the row of a left block begins.
pub fn down(left: u16) -> u64
    ensures { result < 2 ^ 21 }
{
    HEAD + ROW * left as u64
}

/// Whether the pairings of a picture are listed as numbers.
fn are_listed(solved: &Solved) -> bool {
    solved.size > MOST_IN_LADDERS
}

/// How wide a picture is.
fn width(measures: Measures, solved: &Solved) -> u64 {
    let ladders = if are_listed(solved) {
        0
    } else {
        (solved.pairings.len() as u64).saturating_mul(LADDER)
    };
    let table = measures.across(solved.size);
    table.saturating_add(ladders).saturating_add(SIDE).max(560)
}

/// Where the legend begins: below the table, and below the lists of pairings.
fn bottom(solved: &Solved) -> u64 {
    let lists = if are_listed(solved) {
        lists_height(solved)
    } else {
        0
    };
    down(solved.size).saturating_add(lists)
}

/// The words above the table.
fn push_title(text: &mut String, solved: &Solved) -> Result<(), AllocError> {
    let Plain(total) = solved.total;
    let (shown, size) = (solved.pairings.len(), solved.size);
    let count = if solved.more { "more than " } else { "" };
    let word = if shown == 1 { "pairing" } else { "pairings" };
    write!(
        text,
        "<text class=\"title\" x=\"16\" y=\"28\">{size} × {size} blocks, least total {total}, \
         {count}{shown} optimum {word}</text>\n"
    )
}

/// What the colours mean.
fn push_legend(text: &mut String, top: u64) -> Result<(), AllocError> {
    let (square, y) = (top.saturating_add(17), top.saturating_add(30));
    let below = top.saturating_add(54);
    write!(
        text,
        "<rect class=\"first\" x=\"16\" y=\"{square}\" width=\"16\" height=\"16\"/>\
         <text class=\"note\" x=\"40\" y=\"{y}\">in the first optimum pairing</text>\
         <rect class=\"some\" x=\"250\" y=\"{square}\" width=\"16\" height=\"16\"/>\
         <text class=\"note\" x=\"274\" y=\"{y}\">in some other one</text>\n\
         <text class=\"note\" x=\"16\" y=\"{below}\">violet: the greatest prices; they add up \
         to a pair's cost or less</text>\n"
    )
}

/// The picture of a settled order file, as an SVG file.
pub fn draw(heap: Global, solved: &Solved) -> Result<String, AllocError> {
    let measures = Measures::of(heap, solved)?;
    let (width, bottom) = (width(measures, solved), bottom(solved));
    let height = bottom.saturating_add(FOOT);
    let mut text = String::new(heap);
    write!(
        text,
        "<svg xmlns=\"http://www.w3.org/2000/svg\" viewBox=\"0 0 {width} {height}\" \
         width=\"{width}\" height=\"{height}\">\n{STYLE}\
         <rect width=\"{width}\" height=\"{height}\" fill=\"#ffffff\"/>\n"
    )?;
    push_title(&mut text, solved)?;
    push_table(&mut text, measures, solved)?;
    if are_listed(solved) {
        push_lists(&mut text, solved)?;
    } else {
        push_ladders(&mut text, measures, solved)?;
    }
    push_legend(&mut text, bottom)?;
    text.push_str("</svg>\n")?;
    Ok(text)
}
