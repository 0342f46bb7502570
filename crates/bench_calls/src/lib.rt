//! Calls for C, for the benchmarks in bench/: the walk through the perfect pairings, where a row is
//! a 64-bit number, bit r for right block r; settling, a step of the walk and the marks of a sheet,
//! at plain costs and at two-step ones, with as many blocks a plane as there are places for
//! partners; the order file of a sheet; and the assignment text of one.
#![tactic(auto)]

ghost use Rattle.std.specs.Prelude.{◌≡◌, ◌⊎◌, ℕ, length, Result};
ghost use Rattle.pairing.specs.Rows.{pairings};
ghost use Rattle.matching.specs.declared.stepping.Step.{Step};
ghost use Rattle.matching.specs.declared.fitting.Unfit.{Unfit};
ghost use Rattle.matching.specs.Fit.{FitsRows, IsUnfitBy};
ghost use Rattle.matching.specs.Answers.{IsNth, Follows};
ghost use Rattle.matching.specs.Numbers.{step_number};
ghost use Rattle.tables.specs.declared.flaw.Flaw.{Flaw};
ghost use Rattle.tables.specs.Lent.{lent};
ghost use Rattle.assign.specs.declared.Outcome.{Outcome};
ghost use Rattle.assign.specs.Answer.{Answers, HasOptimum};
ghost use Rattle.sheet.specs.Opening.{OpensSheet};
ghost use Rattle.sheet.specs.Size.{Sheet};
ghost use Rattle.sheet.specs.declared.fault.Fault.{Fault};
ghost use Rattle.orderfile.specs.Faults.{FirstFault};
ghost use Rattle.orderfile.specs.Format.{States};
ghost use Rattle.orderfile.specs.Loading.{IsChecked, Loads};
ghost use Rattle.dimacs.specs.Texts.{States as TextStates, FirstFault as TextFault};
ghost use Rattle.bench_calls.specs.Codes.{outcome_code, fault_number};
ghost use Rattle.bench_calls.specs.Calls.{SettlesTables, Steps, Marks, Saves};

mod calls;
mod two;

use assign::optimum;
use blockset::BlockSet;
use calls::{code, fault_number, marks_number, settle_number, step_number};
use cost::{Cost, Plain};
use dimacs::{check, import};
use matching::first;
use orderfile::loading::load;
use orderfile::saving::save;
use sheet::open;
use tables::MOST_BLOCKS;
pub use two::Two;

/// 0 where `p` is now the first perfect pairing, and 1 where the tables were refused.
#[unsafe(no_mangle)]
pub extern "C" fn bench_first(rows: &[BlockSet], p: &mut [u16]) -> u32
    ensures { ((result ≡ 0) × FitsRows rows.now p.old × IsNth (pairings rows.now) 0 p.new)
        ⊎ ((result ≡ 1) × ((e : Unfit) × IsUnfitBy rows.now p.old e) × (p.new ≡ p.old)) }
{
    match first(rows, p) {
        Ok(()) => 0,
        Err(_) => 1,
    }
}

/// 0 where `p` is now the next perfect pairing, 100 at the last one, and 1 where the tables were
/// refused.
#[unsafe(no_mangle)]
pub extern "C" fn bench_next(rows: &[BlockSet], p: &mut [u16]) -> u32
    ensures { ((s : Step) × (result ≡ step_number s) × FitsRows rows.now p.old
        × Follows (pairings rows.now) p.old p.new s)
        ⊎ ((result ≡ 1) × ((e : Unfit) × IsUnfitBy rows.now p.old e) × (p.new ≡ p.old)) }
{
    match matching::next(rows, p) {
        Ok(step) => u32::from(step.number()),
        Err(_) => 1,
    }
}

/// 0 where the tables now hold an optimum pairing and the greatest prices, and 1 where they were
/// refused or no pairing is perfect: then they are as they were.
#[unsafe(no_mangle)]
pub extern "C" fn bench_optimum(
    costs: &[Plain],
    standing: &[u8],
    partners: &mut [u16],
    left: &mut [Plain],
    right: &mut [Plain],
) -> u32
    // The number stands for what `optimum` answers.
    ensures { let kind = ⟦<Plain as Cost>⟧ in let n = length partners.old in
        let old = lent n costs.now standing.now partners.old left.old right.old in
        let new = lent n costs.now standing.now partners.new left.new right.new in
        (r : Result Outcome Flaw) × (result ≡ outcome_code r)
        × Answers kind old new (HasOptimum kind new) r }
{
    if partners.len() > MOST_BLOCKS as usize {
        return 1;
    }
    let n = partners.len() as u16;
    code(optimum(n, costs, standing, partners, left, right))
}

/// 0 where the tables now hold the first optimum pairing and the greatest prices, and 1 where they
/// were refused or no pairing is perfect: then they are as they were.
#[unsafe(no_mangle)]
pub extern "C" fn bench_settle(
    costs: &[Plain],
    standing: &[u8],
    partners: &mut [u16],
    left: &mut [Plain],
    right: &mut [Plain],
) -> u32
    ensures { let n = length partners.old in
        let old = lent n costs.now standing.now partners.old left.old right.old in
        let new = lent n costs.now standing.now partners.new left.new right.new in
        SettlesTables ⟦<Plain as Cost>⟧ old new result }
{
    settle_number::<Plain>(costs, standing, partners, left, right)
}

/// 0 where `walk` is now the optimum pairing that comes after the one that it held, 100 where that
/// was the last one, and 1 where the tables were refused: in both it is as it was.
#[unsafe(no_mangle)]
pub extern "C" fn bench_cost_next(
    costs: &[Plain],
    standing: &[u8],
    partners: &[u16],
    left: &[Plain],
    right: &[Plain],
    walk: &mut [u16],
) -> u32
    ensures { let n = length partners.now in
        let t = lent n costs.now standing.now partners.now left.now right.now in
        Steps ⟦<Plain as Cost>⟧ t walk.old walk.new result }
{
    step_number::<Plain>(costs, standing, partners, left, right, walk)
}

/// 0 where `table` now says of each pair whether some optimum pairing has it, and 1 where the
/// tables were refused: then it is as it was.
#[unsafe(no_mangle)]
pub extern "C" fn bench_marks(
    costs: &[Plain],
    standing: &[u8],
    partners: &[u16],
    left: &[Plain],
    right: &[Plain],
    table: &mut [u8],
) -> u32
    ensures { let n = length partners.now in
        let t = lent n costs.now standing.now partners.now left.now right.now in
        Marks ⟦<Plain as Cost>⟧ t table.old table.new result }
{
    marks_number::<Plain>(costs, standing, partners, left, right, table)
}

/// `bench_settle` at two-step costs.
#[unsafe(no_mangle)]
pub extern "C" fn bench_two_settle(
    costs: &[Two],
    standing: &[u8],
    partners: &mut [u16],
    left: &mut [Two],
    right: &mut [Two],
) -> u32
    ensures { let n = length partners.old in
        let old = lent n costs.now standing.now partners.old left.old right.old in
        let new = lent n costs.now standing.now partners.new left.new right.new in
        SettlesTables ⟦<Two as Cost>⟧ old new result }
{
    settle_number::<Two>(costs, standing, partners, left, right)
}

/// `bench_cost_next` at two-step costs.
#[unsafe(no_mangle)]
pub extern "C" fn bench_two_next(
    costs: &[Two],
    standing: &[u8],
    partners: &[u16],
    left: &[Two],
    right: &[Two],
    walk: &mut [u16],
) -> u32
    ensures { let n = length partners.now in
        let t = lent n costs.now standing.now partners.now left.now right.now in
        Steps ⟦<Two as Cost>⟧ t walk.old walk.new result }
{
    step_number::<Two>(costs, standing, partners, left, right, walk)
}

/// `bench_marks` at two-step costs.
#[unsafe(no_mangle)]
pub extern "C" fn bench_two_marks(
    costs: &[Two],
    standing: &[u8],
    partners: &[u16],
    left: &[Two],
    right: &[Two],
    table: &mut [u8],
) -> u32
    ensures { let n = length partners.now in
        let t = lent n costs.now standing.now partners.now left.now right.now in
        Marks ⟦<Two as Cost>⟧ t table.old table.new result }
{
    marks_number::<Two>(costs, standing, partners, left, right, table)
}

/// 0 where the tables now hold the sheet that an order file states, else the number of the refusal:
/// then they are as they were.
#[unsafe(no_mangle)]
pub extern "C" fn bench_load(file: &[u8], costs: &mut [Plain], standing: &mut [u8]) -> u32
    ensures { (r : Result Sheet Fault) × (result ≡ fault_number r)
        × Loads (States file.now) (FirstFault file.now) costs.old standing.old r costs.new
        standing.new }
{
    fault_number(load(file, costs, standing))
}

/// 0 where the tables are now those of an open sheet, else the number of the refusal: then they are
/// as they were.
#[unsafe(no_mangle)]
pub extern "C" fn bench_open(n: u16, costs: &mut [Plain], standing: &mut [u8]) -> u32
    ensures { (r : Result Sheet Fault) × (result ≡ fault_number r)
        × OpensSheet ⟦<Plain as Cost>⟧.zero n costs.old standing.old r costs.new standing.new }
{
    fault_number(open(n, costs, standing))
}

/// 0 where the front of `out` is now the order file of the sheet of n blocks a plane in `costs` and
/// `standing`, else the number of the refusal: then `out` is as it was.
///
/// Saving wants a sheet, and a sheet is had by opening one. So that opening does not clear the
/// tables that are to be saved, it is handed others, as `bench_open` is, whose time is known.
#[unsafe(no_mangle)]
pub extern "C" fn bench_save(
    n: u16,
    opened_costs: &mut [Plain],
    opened_standing: &mut [u8],
    costs: &[Plain],
    standing: &[u8],
    out: &mut [u8],
) -> u32
    ensures { (r : Result Sheet Fault)
        × OpensSheet ⟦<Plain as Cost>⟧.zero n opened_costs.old opened_standing.old r
        opened_costs.new opened_standing.new
        × Saves n costs.now standing.now out.old r out.new result }
{
    match open(n, opened_costs, opened_standing) {
        Ok(sheet) => fault_number(save(&sheet, costs, standing, out)),
        Err(fault) => u32::from(fault.cause.number()),
    }
}

/// 0 where an assignment text states a sheet, else the number of its first fault.
#[unsafe(no_mangle)]
pub extern "C" fn bench_dimacs_check(text: &[u8]) -> u32
    ensures { (r : Result ℕ Fault) × (result ≡ fault_number r)
        × IsChecked (TextStates text.now) (TextFault text.now) r }
{
    fault_number(check(text))
}

/// 0 where the tables now hold the sheet that an assignment text states, else the number of the
/// refusal: then they are as they were.
#[unsafe(no_mangle)]
pub extern "C" fn bench_dimacs_import(text: &[u8], costs: &mut [Plain], standing: &mut [u8]) -> u32
    ensures { (r : Result Sheet Fault) × (result ≡ fault_number r)
        × Loads (TextStates text.now) (TextFault text.now) costs.old standing.old r costs.new
        standing.new }
{
    fault_number(import(text, costs, standing))
}
