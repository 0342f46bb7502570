//! Order files as listings: all optimum pairings of what a file states, or why it is refused.

ghost use Rattle.std.specs.Prelude.{◌≡◌, ◌++◌, IfOk, OnOk, string_bytes};
ghost use Rattle.pairing.specs.Grid.{IsOptimum};
ghost use Rattle.pairing.specs.Optima.{optima};
ghost use Rattle.matching.specs.Answers.{IsNth, Follows};
ghost use Rattle.tables.specs.Lent.{grid};
ghost use Rattle.tables.specs.Together.{HoldTogether, ArePairTables};
ghost use Rattle.assign.specs.Answer.{HasFirstOptimum};
ghost use Rattle.sheet.specs.Size.{size_of};
ghost use Rattle.orderfile.specs.Loading.{plain_kind, plain_grid};
ghost use Rattle.report.specs.Listing.{listed, listing_text, Lists};

use crate::fresh_tables::{LoadedSheet, Settlement, load_afresh, settle_afresh};
use crate::listing_lines::{MOST_PAIRINGS, cause_line, push_total_line};
use cost::Plain;
use refusal_words::push_pairing_line;
use sheet::{Cause, SettledSheet, Step, Walk};
use std::alloc::{AllocError, Global};
use tables::Tables;

/// Goes on to the next pairing of a walk over tables that hold together.
fn step(walk: &Walk, tables: &Tables<'_, Plain>, list: &mut [u16]) -> Step
    requires size { size_of walk.now ≡ tables.now.size }
    requires together { HoldTogether plain_kind tables.now }
    requires optimum { IsOptimum (grid plain_kind tables.now) list.old }
    ensures { Follows (optima (grid plain_kind tables.now)) list.old list.new result }
{
    let Tables {
        costs,
        standing,
        partners,
        left,
        right,
        ..
    } = *tables;
    let Ok(step) = walk.next(costs, standing, partners, left, right, list) else {
        unreachable!();
    };
    step
}

/// Appends the lines of the pairings from the first one on, as far as a listing goes, and the last
/// line.
fn push_pairings(
    text: &mut String,
    walk: &Walk,
    tables: &Tables<'_, Plain>,
    list: &mut [u16],
) -> Result<(), AllocError>
    requires size { size_of walk.now ≡ tables.now.size }
    requires together { HoldTogether plain_kind tables.now }
    requires first { IsNth (optima (grid plain_kind tables.now)) 0 list.old }
    ensures { OnOk result (string_bytes text.new
        ≡ string_bytes text.old ++ listed (optima (grid plain_kind tables.now))) }
{
    for _ in 0..MOST_PAIRINGS {
        push_pairing_line(text, list)?;
        if let Step::End = step(walk, tables, list) {
            return text.push_str("end\n");
        }
    }
    text.push_str("more\n")
}

/// The listing of a sheet that was just settled.
fn list_settled(
    heap: Global,
    sheet: SettledSheet,
    tables: &Tables<'_, Plain>,
) -> Result<String, AllocError>
    requires size { size_of sheet ≡ tables.now.size }
    requires together { HoldTogether plain_kind tables.now }
    requires settled { HasFirstOptimum plain_kind tables.now }
    ensures { IfOk result
        (λ text. string_bytes text ≡ listing_text (grid plain_kind tables.now)) }
{
    let Tables {
        costs,
        standing,
        partners,
        left,
        right,
        ..
    } = *tables;
    let Ok(total) = sheet.total(costs, standing, partners, left, right) else {
        unreachable!();
    };
    let mut text = String::new(heap);
    push_total_line(&mut text, total)?;
    let mut list = vec![in heap; 0u16; tables.size as usize]?;
    let first = list.as_mut_slice();
    let Ok(walk) = sheet.start(costs, standing, partners, left, right, first) else {
        unreachable!();
    };
    push_pairings(&mut text, &walk, tables, first)?;
    Ok(text)
}

/// The listing of a sheet: it is settled, or no pairing is perfect.
fn list_sheet(heap: Global, loaded: LoadedSheet) -> Result<String, AllocError>
    requires { ArePairTables plain_kind (size_of loaded.sheet) loaded.costs.items
        loaded.standing.items }
    ensures { IfOk result (λ text. string_bytes text ≡ listing_text
        (plain_grid (size_of loaded.sheet) loaded.costs.items loaded.standing.items)) }
{
    let LoadedSheet {
        sheet,
        costs,
        standing,
    } = loaded;
    let (costs, standing) = (costs.as_slice(), standing.as_slice());
    let settlement = match settle_afresh(heap, sheet, costs, standing)? {
        Ok(settlement) => settlement,
        Err(_) => return cause_line(heap, Cause::NoPerfectPairing),
    };
    let Settlement {
        sheet,
        partners,
        left,
        right,
    } = settlement;
    let tables = Tables {
        size: sheet.size(),
        costs,
        standing,
        partners: partners.as_slice(),
        left: left.as_slice(),
        right: right.as_slice(),
    };
    list_settled(heap, sheet, &tables)
}

/// The listing of an order file: `total T`, then up to 1,000 lines `pairing R0 R1 ..`, the optimum
/// pairings of what the file states in dictionary order, then `end`, or `more` where others
/// remain; or else `refused N`, with 6 where no pairing is perfect.
pub fn list(heap: Global, file: &[u8]) -> Result<String, AllocError>
    ensures { IfOk result (λ text. Lists file.now (string_bytes text)) }
{
    match load_afresh(heap, file)? {
        Ok(loaded) => list_sheet(heap, loaded),
        Err(fault) => cause_line(heap, fault.cause),
    }
}
