//! A text is told, checked and imported, and the answers are compared.

use crate::lent_tables::Lent;
use anyhow::{bail, ensure};
use dimacs::check;
use report::describe_text;
use sheet::{Cause, Fault};
use std::alloc::Global;

/// Sees that an import into tables of so many places is refused, and leaves them as they were.
fn see_refused(
    heap: Global,
    text: &[u8],
    costs: usize,
    standing: usize,
    wanted: Fault,
) -> anyhow::Result<()> {
    let mut lent = Lent::new(heap, costs, standing)?;
    match lent.import(text) {
        Ok(_) => bail!("{costs} and {standing} places are not refused"),
        Err(fault) => ensure!(
            fault == wanted,
            "{costs} and {standing} places: {fault}, not {wanted}"
        ),
    }
    ensure!(
        lent.are_untouched(),
        "a refused import wrote into its tables"
    );
    Ok(())
}

/// Sees that a text of n blocks a plane is imported as it is told, and that tables which are one
/// place too short or too long are refused.
fn see_imported(heap: Global, text: &[u8], n: u16, told: &str) -> anyhow::Result<()> {
    let places = usize::from(n) * usize::from(n);
    let mut lent = Lent::new(heap, places, places)?;
    let sheet = lent.import(text)?;
    ensure!(sheet.size() == n, "a sheet of another size");
    let stated = lent.tell(heap, n)?;
    ensure!(stated.as_str() == told, "the tables hold another sheet");
    let fault = Cause::TableLength.at(0);
    for wrong in [places.saturating_sub(1), places + 1] {
        see_refused(heap, text, wrong, places, fault)?;
        see_refused(heap, text, places, wrong, fault)?;
        see_refused(heap, text, wrong, wrong, fault)?;
    }
    Ok(())
}

/// What a text states, or why it is refused, as text; an error where the calls do not agree.
pub fn tell(heap: Global, text: &[u8]) -> anyhow::Result<String> {
    let told = describe_text(heap, text)?;
    match check(text) {
        Ok(n) => see_imported(heap, text, n, &told)?,
        Err(fault) => {
            let line = format!(in heap; "{fault}\n")?;
            ensure!(line.as_str() == told.as_str(), "it is told otherwise");
            see_refused(heap, text, 4, 4, fault)?;
        }
    }
    Ok(told)
}
