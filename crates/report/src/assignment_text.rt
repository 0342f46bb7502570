//! Assignment texts: the sheet that a text states in lines or as an order file, or why the text is
//! refused.

ghost use Rattle.std.specs.Prelude.{IfOk, MatchResult, string_bytes};
ghost use Rattle.tables.specs.Together.{ArePairTables};
ghost use Rattle.sheet.specs.Size.{size_of};
ghost use Rattle.dimacs.specs.Texts.{States, FirstFault};
ghost use Rattle.orderfile.specs.Loading.{plain_kind};
ghost use Rattle.report.specs.Describing.{DescribesText};
ghost use Rattle.report.specs.Exporting.{IsFileOfTables, IsOrderOf};

use crate::describe_file::{refusal_line, tell};
use crate::fresh_tables::{LoadedSheet, import_afresh};
use orderfile::format::{END_FIELD, PAIR_FIELD, SIZE_FIELD};
use orderfile::save;
use sheet::Fault;
use std::alloc::{AllocError, Global};
use tables::places;

/// What an assignment text states, as text: what `describe` tells of an order file that states the
/// same; or else the line of its first fault.
pub fn describe_text(heap: Global, text: &[u8]) -> Result<String, AllocError>
    ensures { IfOk result (λ told. DescribesText text.now (string_bytes told)) }
{
    match import_afresh(heap, text)? {
        Ok(loaded) => tell(heap, &loaded),
        Err(fault) => refusal_line(heap, fault),
    }
}

/// The order file of a loaded sheet.
fn order_of_sheet(heap: Global, loaded: &LoadedSheet) -> Result<Vec<u8>, AllocError>
    requires { ArePairTables plain_kind (size_of loaded.now.sheet) loaded.now.costs.items
        loaded.now.standing.items }
    ensures { IfOk result (λ file. IsFileOfTables (size_of loaded.now.sheet)
        loaded.now.costs.items loaded.now.standing.items file.items) }
{
    let (costs, standing) = (loaded.costs.as_slice(), loaded.standing.as_slice());
    // Room for a file in which all pairs stand.
    let room = SIZE_FIELD + PAIR_FIELD * places(loaded.sheet.size()) + END_FIELD;
    let mut file = vec![in heap; 0u8; room]?;
    let Ok(length) = save(&loaded.sheet, costs, standing, file.as_mut_slice()) else {
        unreachable!();
    };
    file.truncate(length);
    Ok(file)
}

/// The order file of the sheet that an assignment text states, with a field for each pair that it
/// states a cost for; or else the first fault of the text.
pub fn order_of_text(heap: Global, text: &[u8]) -> Result<Result<Vec<u8>, Fault>, AllocError>
    ensures { IfOk result (λ answer. MatchResult answer
        (λ file. IsOrderOf (States text.now) file.items) (FirstFault text.now)) }
{
    match import_afresh(heap, text)? {
        Ok(loaded) => Ok(Ok(order_of_sheet(heap, &loaded)?)),
        Err(fault) => Ok(Err(fault)),
    }
}
