//! Saving: a sheet of plain costs as an order file in the caller's buffer.

ghost use Rattle.std.specs.Prelude.{◌≡◌, ◌+◌, ◌<◌, ◌≤◌, ◌++◌, length, take, drop};
ghost use Rattle.std.specs.Int.{w64};
ghost use Rattle.std.specs.List.{flat_map};
ghost use Rattle.std.proofs.Common.{of_z};
ghost use Rattle.blockset.specs.declared.TheConstants.{MOST_BLOCKS};
ghost use Rattle.pairing.specs.Places.{place_of, places_of};
ghost use Rattle.tables.specs.PairTables.{HavePlaces};
ghost use Rattle.sheet.specs.Size.{size_of};
ghost use Rattle.orderfile.specs.declared.format.TheConstants.{SIZE_FIELD, PAIR_FIELD};
ghost use Rattle.orderfile.specs.Format.{pair_field, eight_bytes, file_of};
ghost use Rattle.orderfile.specs.Saving.{saved_length, pair_at, pairs_listed, IsSaved};

use crate::format::{
    END_FIELD, END_LENGTH, END_TAG, PAIR_FIELD, PAIR_LENGTH, PAIR_TAG, SIZE_FIELD, SIZE_LENGTH,
    SIZE_TAG,
};
use crate::record::StatedPair;
use cost::Plain;
use sheet::{Cause, Fault, OpenSheet};
use tables::{have_places, in_order, place, standing_pairs, stands};

/// Writes the sheet as an order file to the front of `out` and answers the file's length, which is
/// 7 and 13 for each standing pair; the bytes behind it stay.
///
/// Refused, in this order: a table of the wrong length; a standing byte above 1 or a standing cost
/// that is not within 10^9; a buffer that is too short.
pub fn save(
    sheet: &OpenSheet,
    costs: &[Plain],
    standing: &[u8],
    out: &mut [u8],
) -> Result<usize, Fault>
    ensures { IsSaved (size_of sheet.now) costs.now standing.now out.old result out.new }
{
    let n = sheet.size();
    if !have_places(n, costs.len(), standing.len()) {
        return Err(Cause::TableLength.at(0));
    }
    if !in_order(costs, standing) {
        return Err(Cause::Inconsistent.at(0));
    }
    let length = SIZE_FIELD + PAIR_FIELD * standing_pairs(standing) + END_FIELD;
    if out.len() < length {
        return Err(Cause::ShortBuffer.at(0));
    }
    write_file(n, costs, standing, out);
    Ok(length)
}

/// Writes the whole file.
fn write_file(n: u16, costs: &[Plain], standing: &[u8], out: &mut [u8])
    requires some { 1 ≤ n }
    requires few { n ≤ MOST_BLOCKS }
    requires places { HavePlaces n (length costs.now) (length standing.now) }
    requires room { saved_length standing.now ≤ length out.old }
    ensures { out.new ≡ file_of
        (record { size = n; pairs = pairs_listed n costs.now standing.now 0 (places_of n) })
        ++ drop (saved_length standing.now) out.old }
{
    put(out, 0, &[SIZE_TAG, 0, SIZE_LENGTH, n as u8]);
    let at = write_pairs(n, costs, standing, out);
    put(out, at, &[END_TAG, 0, END_LENGTH]);
}

/// Writes the standing pairs behind the size field, by left and then by right block, and answers
/// the offset behind them.
fn write_pairs(n: u16, costs: &[Plain], standing: &[u8], out: &mut [u8]) -> usize
    requires some { 1 ≤ n }
    requires few { n ≤ MOST_BLOCKS }
    requires places { HavePlaces n (length costs.now) (length standing.now) }
    requires room { let pairs = pairs_listed n costs.now standing.now 0 (places_of n) in
        SIZE_FIELD + length (flat_map pair_field pairs) ≤ length out.old }
    ensures behind { let pairs = pairs_listed n costs.now standing.now 0 (places_of n) in
        result ≡ SIZE_FIELD + length (flat_map pair_field pairs) }
    ensures writes { let pairs = pairs_listed n costs.now standing.now 0 (places_of n) in
        out.new ≡ (take SIZE_FIELD out.old ++ flat_map pair_field pairs) ++ drop result out.old }
{
    let mut at = SIZE_FIELD;
    for left in 0..n {
        at = write_row(n, left, costs, standing, out, at);
    }
    at
}

/// Writes the standing pairs of a left block at an offset, by right block, and answers the offset
/// behind them.
fn write_row(
    n: u16,
    left: u16,
    costs: &[Plain],
    standing: &[u8],
    out: &mut [u8],
    start: usize,
) -> usize
    requires few { n ≤ MOST_BLOCKS }
    requires inside { left < n }
    requires places { HavePlaces n (length costs.now) (length standing.now) }
    requires room { let pairs = pairs_listed n costs.now standing.now (place_of n left 0) n in
        start + length (flat_map pair_field pairs) ≤ length out.old }
    ensures behind { let pairs = pairs_listed n costs.now standing.now (place_of n left 0) n in
        result ≡ start + length (flat_map pair_field pairs) }
    ensures writes { let pairs = pairs_listed n costs.now standing.now (place_of n left 0) n in
        out.new ≡ (take start out.old ++ flat_map pair_field pairs) ++ drop result out.old }
{
    let mut at = start;
    for right in 0..n {
        if stands(standing[place(n, left, right)]) {
            put_pair(out, at, pair_at(n, costs, left, right));
            at += PAIR_FIELD;
        }
    }
    at
}

/// The pair of two blocks, with its cost in the table.
fn pair_at(n: u16, costs: &[Plain], left: u16, right: u16) -> StatedPair
    requires few { n ≤ MOST_BLOCKS }
    requires places { length costs.now ≡ places_of n }
    requires left_inside { left < n }
    requires right_inside { right < n }
    ensures { result ≡ pair_at n costs.now (place_of n left right) }
{
    StatedPair {
        left: left as u8,
        right: right as u8,
        cost: costs[place(n, left, right)].0,
    }
}

/// Writes the field of a pair at an offset, in parts that are a store each.
fn put_pair(out: &mut [u8], at: usize, pair: StatedPair)
    requires { at + PAIR_FIELD ≤ length out.old }
    ensures { out.new ≡ take at out.old ++ (pair_field pair ++ drop (at + PAIR_FIELD) out.old) }
{
    put(out, at, &[PAIR_TAG, 0, PAIR_LENGTH, pair.left]);
    put(out, at + 4, &[pair.right]);
    put(out, at + 5, &cost_bytes(pair));
}

/// The bytes of a pair's cost, the high byte first.
fn cost_bytes(pair: StatedPair) -> [u8; 8]
    ensures { result ≡ eight_bytes (of_z w64 pair.cost) }
{
    pair.cost.cast_unsigned().to_be_bytes()
}

/// Writes bytes at an offset.
fn put(out: &mut [u8], at: usize, bytes: &[u8])
    requires { at + length bytes.now ≤ length out.old }
    ensures { out.new ≡ take at out.old ++ (bytes.now ++ drop (at + length bytes.now) out.old) }
{
    out[at..at + bytes.len()].copy_from_slice(bytes);
}
