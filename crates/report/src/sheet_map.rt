//! A sheet as a table for people: a row of costs for each left block, with marks at the pairs of
//! optimum pairings.

ghost use Rattle.std.specs.Prelude.{◌≡◌, length};
ghost use Rattle.pairing.specs.Places.{places_of};

use crate::aligned::{push_number, push_right};
use cost::Plain;
use std::alloc::{AllocError, Global};
use tables::{place, stands};

/// What a map of a sheet shows: its pair tables, an optimum pairing in `partners`, and in `marks`,
/// by 1 or 0 at the place of each pair, whether any optimum pairing has it.
#[derive(Drop)]
pub struct Drawing<'a> {
    pub size: u16,
    pub costs: &'a [Plain],
    pub standing: &'a [u8],
    pub partners: &'a [u16],
    pub marks: &'a [u8],
    ghost costs_long: { length costs.now ≡ places_of size },
    ghost standing_long: { length standing.now ≡ places_of size },
    ghost partners_long: { length partners.now ≡ size },
    ghost marks_long: { length marks.now ≡ places_of size },
}

impl Drawing<'_> {
    ghost use Rattle.std.specs.Prelude.{◌<◌, ◌++◌, IfOk, OnOk, codes, decimal, string_bytes};
    ghost use Rattle.report.specs.Mapping.{view_of, cell_of, mark_text, row_width, rows_width};
    ghost use Rattle.report.specs.Mapping.{right_in};
    ghost use Rattle.report.specs.Mapping.{head_line, table_row, table_rows, map_text};

    /// The mark of a pair.
    fn mark(&self, left: u16, right: u16) -> &'static str
        requires inside { (left < self.now.size) × (right < self.now.size) }
        ensures { let v = view_of self.now in
            result.now ≡ mark_text (v.first left right) (v.occurs left right) }
    {
        if self.partners[left as usize] == right {
            "*"
        } else if self.marks[place(self.size, left, right)] == 1 {
            "+"
        } else {
            ""
        }
    }

    /// The cell of a pair.
    fn cell(&self, heap: Global, left: u16, right: u16) -> Result<String, AllocError>
        requires inside { (left < self.now.size) × (right < self.now.size) }
        ensures { IfOk result (λ text. string_bytes text ≡ cell_of (view_of self.now) left right) }
    {
        let at = place(self.size, left, right);
        if !stands(self.standing[at]) {
            return format!(in heap; ".");
        }
        let Plain(cost) = self.costs[at];
        let mark = self.mark(left, right);
        format!(in heap; "{mark}{cost}")
    }

    /// The length of the longest cell of a row.
    fn row_width(&self, heap: Global, left: u16) -> Result<usize, AllocError>
        requires inside { left < self.now.size }
        ensures { let v = view_of self.now in
            IfOk result (λ width. width ≡ row_width (cell_of v) left v.size) }
    {
        let mut width = 0;
        for right in 0..self.size {
            let cell = self.cell(heap, left, right)?;
            width = width.max(cell.len());
        }
        Ok(width)
    }

    /// The length of the longest cell.
    fn rows_width(&self, heap: Global) -> Result<usize, AllocError>
        ensures { let v = view_of self.now in
            IfOk result (λ width. width ≡ rows_width v.size (cell_of v) v.size) }
    {
        let mut width = 0;
        for left in 0..self.size {
            width = width.max(self.row_width(heap, left)?);
        }
        Ok(width)
    }

    /// Appends the line above the rows: the numbers of the right blocks.
    fn push_heads(&self, text: &mut String, heap: Global, width: usize) -> Result<(), AllocError>
        ensures { OnOk result
            (string_bytes text.new ≡ string_bytes text.old ++ head_line self.now.size width) }
    {
        text.push_str("  ")?;
        for right in 0..self.size {
            text.push_str(" ")?;
            push_number(text, heap, width, right)?;
        }
        text.push_str("\n")
    }

    /// Appends the cell of a pair behind a blank.
    fn push_cell(
        &self,
        text: &mut String,
        heap: Global,
        width: usize,
        left: u16,
        right: u16,
    ) -> Result<(), AllocError>
        requires inside { (left < self.now.size) × (right < self.now.size) }
        ensures { OnOk result (string_bytes text.new ≡ string_bytes text.old
            ++ (codes " " ++ right_in width (cell_of (view_of self.now) left right))) }
    {
        let cell = self.cell(heap, left, right)?;
        text.push_str(" ")?;
        push_right(text, width, cell.as_str())
    }

    /// Appends a row: the number of its left block, and the cell of each right block.
    fn push_row(
        &self,
        text: &mut String,
        heap: Global,
        width: usize,
        left: u16,
    ) -> Result<(), AllocError>
        requires inside { left < self.now.size }
        ensures { let v = view_of self.now in OnOk result (string_bytes text.new
            ≡ string_bytes text.old ++ table_row v.size (cell_of v) width left) }
    {
        push_number(text, heap, 2, left)?;
        for right in 0..self.size {
            self.push_cell(text, heap, width, left, right)?;
        }
        text.push_str("\n")
    }

    /// Appends all rows.
    fn push_rows(&self, text: &mut String, heap: Global, width: usize) -> Result<(), AllocError>
        ensures { let v = view_of self.now in OnOk result (string_bytes text.new
            ≡ string_bytes text.old ++ table_rows v.size (cell_of v) width v.size) }
    {
        for left in 0..self.size {
            self.push_row(text, heap, width, left)?;
        }
        Ok(())
    }

    /// Appends the map: the numbers of the right blocks, a row for each left block, and what the
    /// marks mean.
    pub fn push_map(&self, text: &mut String, heap: Global) -> Result<(), AllocError>
        ensures { OnOk result
            (string_bytes text.new ≡ string_bytes text.old ++ map_text (view_of self.now)) }
    {
        let width = self.rows_width(heap)?.max(2);
        self.push_heads(text, heap, width)?;
        self.push_rows(text, heap, width)?;
        text.push_str("* first optimum pairing, + another optimum pairing, . absent\n")
    }
}
