//! Order files in lines: the pairs that a file states, or why it is refused.

ghost use Rattle.std.specs.Prelude.{◌≡◌, ◌<◌, ◌++◌, length, IfOk, OnOk, string_bytes};
ghost use Rattle.sheet.specs.Size.{size_of};
ghost use Rattle.tables.specs.PairTables.{HavePlaces};
ghost use Rattle.report.specs.Describing.{Describes};
ghost use Rattle.report.specs.Text.{pair_line, pair_cost, row_lines, all_lines, sheet_text};
ghost use Rattle.report.specs.Text.{refusal};

use crate::fresh_tables::{LoadedSheet, load_afresh};
use cost::Plain;
use sheet::{Fault, OpenSheet};
use std::alloc::{AllocError, Global};

/// The line that tells a refusal: `refused NUMBER at PLACE layer LAYER`.
pub fn refusal_line(heap: Global, fault: Fault) -> Result<String, AllocError>
    ensures { IfOk result (λ text. string_bytes text ≡ refusal fault) }
{
    format!(in heap; "{fault}\n")
}

/// Appends the line of a pair, if it stands: `pair L R COST`.
fn push_pair(
    text: &mut String,
    sheet: &OpenSheet,
    costs: &[Plain],
    standing: &[u8],
    left: u16,
    right: u16,
) -> Result<(), AllocError>
    requires places { HavePlaces (size_of sheet.now) (length costs.now) (length standing.now) }
    requires inside { (left < size_of sheet.now) × (right < size_of sheet.now) }
    ensures { OnOk result (string_bytes text.new ≡ string_bytes text.old ++ pair_line left right
        (pair_cost (size_of sheet.now) costs.now standing.now left right)) }
{
    if let Ok(cost) = sheet.read(costs, standing, left, right) {
        let Plain(cost) = cost;
        write!(text, "pair {left} {right} {cost}\n")?;
    }
    Ok(())
}

/// Appends the lines of the pairs of a left block.
fn push_row(
    text: &mut String,
    sheet: &OpenSheet,
    costs: &[Plain],
    standing: &[u8],
    left: u16,
) -> Result<(), AllocError>
    requires places { HavePlaces (size_of sheet.now) (length costs.now) (length standing.now) }
    requires inside { left < size_of sheet.now }
    ensures { OnOk result (string_bytes text.new ≡ string_bytes text.old
        ++ row_lines (size_of sheet.now) costs.now standing.now left (size_of sheet.now)) }
{
    for right in 0..sheet.size() {
        push_pair(text, sheet, costs, standing, left, right)?;
    }
    Ok(())
}

/// Appends the lines of all pairs.
fn push_rows(
    text: &mut String,
    sheet: &OpenSheet,
    costs: &[Plain],
    standing: &[u8],
) -> Result<(), AllocError>
    requires { HavePlaces (size_of sheet.now) (length costs.now) (length standing.now) }
    ensures { OnOk result (string_bytes text.new ≡ string_bytes text.old
        ++ all_lines (size_of sheet.now) costs.now standing.now (size_of sheet.now)) }
{
    for left in 0..sheet.size() {
        push_row(text, sheet, costs, standing, left)?;
    }
    Ok(())
}

/// The text of a sheet: `size N`, a line for each standing pair, `end`.
pub(crate) fn tell(heap: Global, loaded: &LoadedSheet) -> Result<String, AllocError>
    requires { HavePlaces (size_of loaded.now.sheet) (length loaded.now.costs.items)
        (length loaded.now.standing.items) }
    ensures { IfOk result (λ text. string_bytes text ≡ sheet_text (size_of loaded.now.sheet)
        loaded.now.costs.items loaded.now.standing.items) }
{
    let n = loaded.sheet.size();
    let (costs, standing) = (loaded.costs.as_slice(), loaded.standing.as_slice());
    let mut text = format!(in heap; "size {n}\n")?;
    push_rows(&mut text, &loaded.sheet, costs, standing)?;
    text.push_str("end\n")?;
    Ok(text)
}

/// What an order file states, as text: `size N`, then `pair L R COST` for each standing pair by
/// left and right block, then `end`, a line each; or else the line of its first fault.
pub fn describe(heap: Global, file: &[u8]) -> Result<String, AllocError>
    ensures { IfOk result (λ text. Describes file.now (string_bytes text)) }
{
    match load_afresh(heap, file)? {
        Ok(loaded) => tell(heap, &loaded),
        Err(fault) => refusal_line(heap, fault),
    }
}
