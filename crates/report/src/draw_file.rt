//! Order files as maps: the costs that a file states with the optimum pairings marked, or in words
//! why it is refused.

ghost use Rattle.std.specs.Prelude.{◌≡◌, IfOk, string_bytes};
ghost use Rattle.tables.specs.Lent.{grid};
ghost use Rattle.tables.specs.Together.{HoldTogether, ArePairTables};
ghost use Rattle.assign.specs.Answer.{HasFirstOptimum};
ghost use Rattle.sheet.specs.Size.{size_of};
ghost use Rattle.orderfile.specs.Loading.{plain_kind, plain_grid};
ghost use Rattle.report.specs.Text.{pair_cost};
ghost use Rattle.report.specs.Drawing.{IsMap, Draws, no_map};

use crate::fresh_tables::{LoadedSheet, load_afresh, settle_afresh};
use crate::listing_lines::push_total_line;
use crate::sheet_map::Drawing;
use cost::Plain;
use refusal_words::{explain, push_unmatched};
use sheet::{Cause, SettledSheet, Shortfall};
use std::alloc::{AllocError, Global};
use tables::{Tables, places};

/// The map of a sheet that was just settled.
fn draw_settled(
    heap: Global,
    sheet: &SettledSheet,
    tables: &Tables<'_, Plain>,
) -> Result<String, AllocError>
    requires size { size_of sheet.now ≡ tables.now.size }
    requires together { HoldTogether plain_kind tables.now }
    requires settled { HasFirstOptimum plain_kind tables.now }
    ensures { let t = tables.now in IfOk result (λ text.
        IsMap (pair_cost t.size t.costs t.standing) (grid plain_kind t) (string_bytes text)) }
{
    let Tables {
        size,
        costs,
        standing,
        partners,
        left,
        right,
    } = *tables;
    let Ok(total) = sheet.total(costs, standing, partners, left, right) else {
        unreachable!();
    };
    let mut table = vec![in heap; 0u8; places(size)]?;
    let marks = table.as_mut_slice();
    let Ok(()) = sheet.marks(costs, standing, partners, left, right, marks) else {
        unreachable!();
    };
    let drawing = Drawing {
        size,
        costs,
        standing,
        partners,
        marks,
    };
    let mut text = String::new(heap);
    push_total_line(&mut text, total)?;
    drawing.push_map(&mut text, heap)?;
    Ok(text)
}

/// What stands in place of the map of a sheet that holds no perfect pairing.
fn draw_unmatched(heap: Global, shortfall: Shortfall) -> Result<String, AllocError>
    ensures { IfOk result (λ text. string_bytes text ≡ no_map shortfall) }
{
    let mut text = String::new(heap);
    push_unmatched(&mut text, Cause::NoPerfectPairing, shortfall)?;
    Ok(text)
}

/// The map of a sheet: it is settled, or no pairing is perfect.
fn draw_sheet(heap: Global, loaded: LoadedSheet) -> Result<String, AllocError>
    requires { ArePairTables plain_kind (size_of loaded.sheet) loaded.costs.items
        loaded.standing.items }
    ensures { let n = size_of loaded.sheet in IfOk result (λ text. IsMap
        (pair_cost n loaded.costs.items loaded.standing.items)
        (plain_grid n loaded.costs.items loaded.standing.items) (string_bytes text)) }
{
    let LoadedSheet {
        sheet,
        costs,
        standing,
    } = loaded;
    let (costs, standing) = (costs.as_slice(), standing.as_slice());
    let settlement = match settle_afresh(heap, sheet, costs, standing)? {
        Ok(settlement) => settlement,
        Err(shortfall) => return draw_unmatched(heap, shortfall),
    };
    let tables = Tables {
        size: settlement.sheet.size(),
        costs,
        standing,
        partners: settlement.partners.as_slice(),
        left: settlement.left.as_slice(),
        right: settlement.right.as_slice(),
    };
    draw_settled(heap, &settlement.sheet, &tables)
}

/// The map of an order file: `total T`, and the table of the costs that the file states, in which
/// the pairs of the first optimum pairing have a mark, and those of any other one another; or else,
/// in words, why the file is refused or that no pairing is perfect, with the crowd set and its
/// shortage.
pub fn draw(heap: Global, file: &[u8]) -> Result<String, AllocError>
    ensures { IfOk result (λ text. Draws file.now (string_bytes text)) }
{
    match load_afresh(heap, file)? {
        Ok(loaded) => draw_sheet(heap, loaded),
        Err(fault) => explain(heap, fault),
    }
}
