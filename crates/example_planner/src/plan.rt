//! A settled sheet with its tables, and what is printed of it.

ghost use Rattle.std.specs.Prelude.{◌<◌, ◌≤◌, All};
ghost use Rattle.blockset.specs.declared.TheConstants.{MOST_BLOCKS};

use crate::figures::Figures;
use anyhow::{Context, anyhow};
use blockset::BlockSet;
use cost::Cost;
use example_kind::HouseCost;
use refusal_words::{meaning, remedy};
use sheet::{Fault, OpenSheet, Refusal, SettledSheet, Shortfall, Step, open};
use std::alloc::Global;
use tables::{place, places, stands};

/// How many pairings are printed at most.
const MOST_PAIRINGS: usize = 10;

/// The tables that are lent to the sheet at each call.
#[derive(Drop)]
struct Tables {
    costs: Vec<HouseCost>,
    standing: Vec<u8>,
    partners: Vec<u16>,
    left: Vec<HouseCost>,
    right: Vec<HouseCost>,
}

/// A plan of least cost.
#[derive(Drop)]
pub struct Plan {
    settled: SettledSheet,
    tables: Tables,
}

/// How many blocks a plane has: one more than the largest number that a pair names.
fn size(figures: &[Figures]) -> u16
    ensures room { All (λ pair. (pair.left < result) × (pair.right < result)) figures.now }
    ensures few { result ≤ MOST_BLOCKS }
{
    figures
        .iter()
        .map(|pair| pair.left.max(pair.right) + 1)
        .max()
        .unwrap_or(0)
}

/// A refusal in words.
fn in_words(fault: Fault) -> anyhow::Error {
    anyhow!("{}. {}", meaning(fault.cause), remedy(fault.cause))
}

impl Tables {
    fn new(heap: Global, n: u16) -> anyhow::Result<Tables> {
        let (pairs, blocks) = (places(n), n as usize);
        Ok(Tables {
            costs: vec![in heap; HouseCost::zero(); pairs]?,
            standing: vec![in heap; 0u8; pairs]?,
            partners: vec![in heap; 0u16; blocks]?,
            left: vec![in heap; HouseCost::zero(); blocks]?,
            right: vec![in heap; HouseCost::zero(); blocks]?,
        })
    }
}

/// Why no pairing is perfect: the left blocks that compete for too few right blocks.
fn shortage(heap: Global, shortfall: Shortfall) -> anyhow::Result<String> {
    let short = shortfall.short;
    let mut text = format!(in heap; "{short} too few right blocks for the left blocks")?;
    for block in BlockSet::from_bits(shortfall.crowd) {
        write!(text, " {block}")?;
    }
    Ok(text)
}

/// Why a sheet cannot be settled, in words.
fn unsettled(heap: Global, refusal: Refusal<OpenSheet>) -> anyhow::Result<SettledSheet> {
    let error = in_words(refusal.fault);
    match refusal.shortfall {
        Some(shortfall) => Err(error.context(shortage(heap, shortfall)?)),
        None => Err(error),
    }
}

/// Enters what each pair costs.
fn enter(sheet: &OpenSheet, tables: &mut Tables, figures: &[Figures]) -> anyhow::Result<()> {
    let (costs, standing) = (&mut tables.costs, &mut tables.standing);
    for pair in figures {
        let (left, right) = (pair.left, pair.right);
        let cost = HouseCost::of(pair.time, pair.left_wear, pair.right_wear).context(format_args!(
            "the pair {left} {right}"
        ))?;
        sheet
            .enter(
                costs.as_mut_slice(),
                standing.as_mut_slice(),
                left,
                right,
                cost,
            )
            .map_err(in_words)?;
    }
    Ok(())
}

/// Finds the prices and a pairing of least cost.
fn settle(heap: Global, sheet: OpenSheet, tables: &mut Tables) -> anyhow::Result<SettledSheet> {
    let settled = sheet.settle(
        tables.costs.as_slice(),
        tables.standing.as_slice(),
        tables.partners.as_mut_slice(),
        tables.left.as_mut_slice(),
        tables.right.as_mut_slice(),
    );
    match settled {
        Ok(settled) => Ok(settled),
        Err(refusal) => unsettled(heap, refusal),
    }
}

/// Prints a pairing: each left block with its right block.
fn print_pairing(rt: &impl Print, list: &[u16]) -> anyhow::Result<()> {
    print!(rt; "pairing")?;
    for (left, right) in list.iter().enumerate() {
        print!(rt; " {left}-{right}")?;
    }
    println!(rt; "")?;
    Ok(())
}

impl Plan {
    /// The plan for the pairs that were measured.
    pub fn of(heap: Global, figures: &[Figures]) -> anyhow::Result<Plan> {
        let n = size(figures);
        let mut tables = Tables::new(heap, n)?;
        let (costs, standing) = (&mut tables.costs, &mut tables.standing);
        let sheet = open(n, costs.as_mut_slice(), standing.as_mut_slice()).map_err(in_words)?;
        enter(&sheet, &mut tables, figures)?;
        let settled = settle(heap, sheet, &mut tables)?;
        Ok(Plan { settled, tables })
    }

    /// Prints what the plan costs, column by column.
    pub fn print_total(&self, rt: &impl Print) -> anyhow::Result<()> {
        let tables = &self.tables;
        let total = self
            .settled
            .total(
                tables.costs.as_slice(),
                tables.standing.as_slice(),
                tables.partners.as_slice(),
                tables.left.as_slice(),
                tables.right.as_slice(),
            )
            .map_err(in_words)?;
        let HouseCost { time, wear, mixing } = total;
        println!(rt; "time {time} microseconds, wear {wear}, mixing {mixing}")?;
        Ok(())
    }

    /// The marks: 1 for each pair that occurs in a pairing of least cost.
    fn marks(&self, heap: Global) -> anyhow::Result<Vec<u8>> {
        let tables = &self.tables;
        let mut marks = vec![in heap; 0u8; tables.standing.len()]?;
        self.settled
            .marks(
                tables.costs.as_slice(),
                tables.standing.as_slice(),
                tables.partners.as_slice(),
                tables.left.as_slice(),
                tables.right.as_slice(),
                marks.as_mut_slice(),
            )
            .map_err(in_words)?;
        Ok(marks)
    }

    /// What the map shows of a pair.
    fn cell(&self, marks: &[u8], left: u16, right: u16) -> &'static str {
        let at = place(self.settled.size(), left, right);
        let byte = self.tables.standing.as_slice().get(at);
        let measured = byte.is_some_and(|byte| stands(*byte));
        match (measured, marks.get(at).copied()) {
            (true, Some(1)) => "*",
            (true, _) => ".",
            (false, _) => "-",
        }
    }

    /// Prints a row of the map.
    fn print_row(&self, rt: &impl Print, marks: &[u8], left: u16) -> anyhow::Result<()> {
        print!(rt; "{left:>2}")?;
        for right in 0..self.settled.size() {
            print!(rt; " {:>2}", self.cell(marks, left, right))?;
        }
        println!(rt; "")?;
        Ok(())
    }

    /// Prints the line above the rows: the right blocks.
    fn print_heads(&self, rt: &impl Print) -> anyhow::Result<()> {
        print!(rt; "  ")?;
        for right in 0..self.settled.size() {
            print!(rt; " {right:>2}")?;
        }
        println!(rt; "")?;
        Ok(())
    }

    /// Prints a map: a row for each left block, a column for each right block.
    pub fn print_map(&self, heap: Global, rt: &impl Print) -> anyhow::Result<()> {
        let marks = self.marks(heap)?;
        self.print_heads(rt)?;
        for left in 0..self.settled.size() {
            self.print_row(rt, marks.as_slice(), left)?;
        }
        println!(rt; "* in a best pairing, . in none, - not measured")?;
        Ok(())
    }

    /// Prints the pairings of least cost in dictionary order, at most so many.
    pub fn print_pairings(self, heap: Global, rt: &impl Print) -> anyhow::Result<()> {
        let Plan { settled, tables } = self;
        let costs = tables.costs.as_slice();
        let standing = tables.standing.as_slice();
        let partners = tables.partners.as_slice();
        let (left, right) = (tables.left.as_slice(), tables.right.as_slice());
        let mut list = vec![in heap; 0u16; partners.len()]?;
        let walk = match settled.start(
            costs,
            standing,
            partners,
            left,
            right,
            list.as_mut_slice(),
        ) {
            Ok(walk) => walk,
            Err(refusal) => return Err(in_words(refusal.fault)),
        };
        for _ in 0..MOST_PAIRINGS {
            print_pairing(rt, list.as_slice())?;
            let step = walk
                .next(costs, standing, partners, left, right, list.as_mut_slice())
                .map_err(in_words)?;
            if let Step::End = step {
                return Ok(());
            }
        }
        println!(rt; "there are more")?;
        Ok(())
    }
}
