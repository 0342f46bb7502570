//! What the two calls do: read the file, settle the sheet that it states, write a pairing.

ghost use Rattle.std.specs.Prelude.{◌≡◌, ◌≤◌, length};
ghost use Rattle.blockset.specs.declared.TheConstants.{MOST_BLOCKS};
ghost use Rattle.chost.specs.declared.answering.TheConstants.{MOST_PLACES};
ghost use Rattle.pairing.specs.Places.{places_of};
ghost use Rattle.tables.specs.Lent.{lent};
ghost use Rattle.tables.specs.Said.{grid_of};
ghost use Rattle.tables.specs.Together.{HoldTogether};
ghost use Rattle.sheet.specs.Size.{size_of};
ghost use Rattle.orderfile.specs.Format.{StatedOrder, States};
ghost use Rattle.chost.specs.Answers.{AnswersHost, TellsHost, HasRoomFor, StepsOn};

use crate::blocks::{read_blocks, write_blocks};
use cost::{Cost, Plain};
use orderfile::{check, load};
use sheet::{Cause, Fault, SettledSheet, Step};
use tables::{MOST_BLOCKS, places};

/// The most blocks of a plane, as the length of a table with a place for each.
const MOST: usize = MOST_BLOCKS as usize;

/// The most pairs of two planes: the length of a pair table with a place for each.
const MOST_PLACES: usize = MOST * MOST;

/// Which of the two calls is made.
#[derive(Clone, Copy, PartialEq, Eq, Debug)]
pub enum HostCall {
    /// For the first optimum pairing.
    First,
    /// For the one that follows the pairing in the buffer.
    After,
}

/// The answer to a call as the number that a host in C sees.
pub fn answer_number(call: HostCall, file: &[u8], out: &mut [u8]) -> u32
    ensures { TellsHost call file.now out.old result out.new }
{
    match answer(call, file, out) {
        Ok(step) => u32::from(step.number()),
        Err(fault) => u32::from(fault.cause.number()),
    }
}

/// Reads the file, and makes the call if the buffer is long enough.
fn answer(call: HostCall, file: &[u8], out: &mut [u8]) -> Result<Step, Fault>
    ensures { AnswersHost call file.now out.old result out.new }
{
    let size = check(file)?;
    if out.len() < size as usize {
        return Err(Cause::ShortBuffer.at(0));
    }
    answer_for(call, file, size, out)
}

/// Lends the call tables for a sheet of so many blocks a plane.
fn answer_for(call: HostCall, file: &[u8], size: u16, out: &mut [u8]) -> Result<Step, Fault>
    requires stated { (o : StatedOrder) × States file.now o × (o.size ≡ size) }
    requires few { size ≤ MOST_BLOCKS }
    requires places { places_of size ≤ MOST_PLACES }
    requires room { size ≤ length out.old }
    ensures { AnswersHost call file.now out.old result out.new }
{
    let mut costs = [Plain(0); MOST_PLACES];
    let mut standing = [0u8; MOST_PLACES];
    let mut partners = [0u16; MOST];
    let mut left = [Plain(0); MOST];
    let mut right = [Plain(0); MOST];
    let mut list = [0u16; MOST];
    let n = size as usize;
    let places = places(size);
    answer_over(
        call,
        file,
        &mut costs[..places],
        &mut standing[..places],
        &mut partners[..n],
        &mut left[..n],
        &mut right[..n],
        &mut list[..n],
        out,
    )
}

/// Settles the sheet of a file in tables that fit it, and makes the call on the settled sheet.
fn answer_over(
    call: HostCall,
    file: &[u8],
    costs: &mut [Plain],
    standing: &mut [u8],
    partners: &mut [u16],
    left: &mut [Plain],
    right: &mut [Plain],
    list: &mut [u16],
    out: &mut [u8],
) -> Result<Step, Fault>
    requires { (order : StatedOrder) → States file.now order
        → HasRoomFor order.size (length costs.old)
        (length standing.old) (length partners.old) (length left.old) (length right.old)
        (length list.old) (length out.old) }
    ensures { AnswersHost call file.now out.old result out.new }
{
    let sheet = load(file, costs, standing)?;
    let settled = sheet.settle(costs, standing, partners, left, right)?;
    match call {
        HostCall::First => {
            write_blocks(partners, out);
            Ok(Step::Next)
        }
        HostCall::After => step_on(settled, costs, standing, partners, left, right, list, out),
    }
}

/// Writes over the optimum pairing at the front of the buffer the one that follows it.
fn step_on<K: Cost>(
    settled: SettledSheet,
    costs: &[K],
    standing: &[u8],
    partners: &[u16],
    left: &[K],
    right: &[K],
    list: &mut [u16],
    out: &mut [u8],
) -> Result<Step, Fault>
    requires together { HoldTogether K.Cost
        (lent (size_of settled) costs.now standing.now partners.now left.now right.now) }
    requires list_long { length list.old ≡ size_of settled }
    requires room { size_of settled ≤ length out.old }
    ensures { let g = grid_of K.Cost (size_of settled) costs.now standing.now in
        StepsOn g out.old result out.new }
{
    let walk = settled.start(costs, standing, partners, left, right, list)?;
    read_blocks(out, list);
    let step = walk.next(costs, standing, partners, left, right, list)?;
    write_blocks(list, out);
    Ok(step)
}
