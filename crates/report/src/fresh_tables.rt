//! A file or a text is loaded into fresh tables, and a sheet settled with fresh tables.

ghost use Rattle.std.specs.Prelude.{IfOk, MatchResult};
ghost use Rattle.tables.specs.Together.{ArePairTables};
ghost use Rattle.sheet.specs.Size.{size_of};
ghost use Rattle.orderfile.specs.Faults.{FirstFault};
ghost use Rattle.orderfile.specs.Format.{States};
ghost use Rattle.orderfile.specs.Loading.{plain_kind, HasOneVerdict};
ghost use Rattle.dimacs.specs.Texts.{States as TextStates, FirstFault as TextFault};
ghost use Rattle.report.specs.Afresh.{IsLoaded, IsSettledAfresh, HasNoPairing};

use cost::Plain;
use orderfile::loading::{check, load};
use sheet::{Fault, OpenSheet, SettledSheet, Shortfall};
use std::alloc::{AllocError, Global};
use tables::places;

/// A loaded sheet, with its pair tables.
#[derive(Drop)]
pub struct LoadedSheet {
    pub sheet: OpenSheet,
    pub costs: Vec<Plain>,
    pub standing: Vec<u8>,
}

/// A settled sheet, with the tables that settling wrote.
#[derive(Drop)]
pub struct Settlement {
    pub sheet: SettledSheet,
    pub partners: Vec<u16>,
    pub left: Vec<Plain>,
    pub right: Vec<Plain>,
}

/// Loads a file into fresh tables of the right lengths, or tells its first fault.
pub fn load_afresh(heap: Global, file: &[u8]) -> Result<Result<LoadedSheet, Fault>, AllocError>
    ensures { IfOk result
        (λ answer. MatchResult answer (IsLoaded (States file.now)) (FirstFault file.now)) }
{
    let size = match check(file) {
        Ok(size) => size,
        Err(fault) => return Ok(Err(fault)),
    };
    let mut costs = vec![in heap; Plain(0); places(size)]?;
    let mut standing = vec![in heap; 0u8; places(size)]?;
    match load(file, costs.as_mut_slice(), standing.as_mut_slice()) {
        Ok(sheet) => Ok(Ok(LoadedSheet {
            sheet,
            costs,
            standing,
        })),
        Err(fault) => Ok(Err(fault)),
    }
}

/// Imports an assignment text likewise, of which one of the two holds, and never both.
pub fn import_afresh(heap: Global, text: &[u8]) -> Result<Result<LoadedSheet, Fault>, AllocError>
    ensures verdict { HasOneVerdict (TextStates text.now) (TextFault text.now) }
    ensures loaded { IfOk result
        (λ answer. MatchResult answer (IsLoaded (TextStates text.now)) (TextFault text.now)) }
{
    let size = match dimacs::check(text) {
        Ok(size) => size,
        Err(fault) => return Ok(Err(fault)),
    };
    let mut costs = vec![in heap; Plain(0); places(size)]?;
    let mut standing = vec![in heap; 0u8; places(size)]?;
    match dimacs::import(text, costs.as_mut_slice(), standing.as_mut_slice()) {
        Ok(sheet) => Ok(Ok(LoadedSheet {
            sheet,
            costs,
            standing,
        })),
        Err(fault) => Ok(Err(fault)),
    }
}

/// Settles a sheet with fresh tables, or tells why it cannot be settled: where its pair tables are
/// in order, for want of a perfect pairing alone, so by the crowd set and its shortage.
pub fn settle_afresh(
    heap: Global,
    sheet: OpenSheet,
    costs: &[Plain],
    standing: &[u8],
) -> Result<Result<Settlement, Shortfall>, AllocError>
    requires { ArePairTables plain_kind (size_of sheet) costs.now standing.now }
    ensures { IfOk result (λ answer. MatchResult answer
        (λ settlement. IsSettledAfresh (size_of sheet) costs.now standing.now settlement)
        (λ s. HasNoPairing (size_of sheet) costs.now standing.now s)) }
{
    let size = sheet.size() as usize;
    let mut partners = vec![in heap; 0u16; size]?;
    let mut left = vec![in heap; Plain(0); size]?;
    let mut right = vec![in heap; Plain(0); size]?;
    let (mates, lefts, rights) = (
        partners.as_mut_slice(),
        left.as_mut_slice(),
        right.as_mut_slice(),
    );
    match sheet.settle(costs, standing, mates, lefts, rights) {
        Ok(sheet) => Ok(Ok(Settlement {
            sheet,
            partners,
            left,
            right,
        })),
        Err(refusal) => {
            let Some(shortfall) = refusal.shortfall else {
                unreachable!();
            };
            Ok(Err(shortfall))
        }
    }
}
