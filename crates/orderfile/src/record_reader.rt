//! Records: what each field states, with the rules for its tag, its length and its value.

ghost use Rattle.std.specs.Prelude.{◌≡◌, length, nat_lt, unsigned_abs};
ghost use Rattle.cost.specs.declared.TheConstants.{COST_LIMIT};
ghost use Rattle.sheet.specs.Refusals.{first_of, answer};
ghost use Rattle.orderfile.specs.Faults.{size_checks, pair_checks, end_checks, record_fault};
ghost use Rattle.orderfile.specs.Format.{pair_in};
ghost use Rattle.orderfile.specs.Records.{size_in, record_in, stage_after};
ghost use Rattle.orderfile.specs.Readers.{rest_of, offset_of, fields_of, stage_of, ReadsOn};
ghost use Rattle.orderfile.specs.declared.format.TheConstants.{PAIR_LENGTH};
ghost use Rattle.orderfile.specs.declared.record.Record.TheVariants.{End as EndRecord};
ghost use Rattle.orderfile.specs.declared.record.Stage.TheVariants.{Start as AtStart};

use crate::field::{Field, FieldReader};
use crate::format::{END_LENGTH, END_TAG, PAIR_LENGTH, PAIR_TAG, SIZE_LENGTH, SIZE_TAG};
use crate::record::{Record, Stage, StatedPair};
use sheet::{Cause, Fault};
use tables::{COST_LIMIT, MOST_BLOCKS};

/// The largest cost of a pair.
const LARGEST_COST: i64 = COST_LIMIT as i64;

/// Moves over the records of a file.
#[derive(Clone, Copy)]
pub struct RecordReader<'a> {
    fields: FieldReader<'a>,
    stage: Stage,
}

impl<'a> RecordReader<'a> {
    /// A reader that stands before the first record.
    pub fn new(file: &'a [u8]) -> RecordReader<'a>
        ensures whole { rest_of (fields_of result) ≡ file.now }
        ensures first { offset_of (fields_of result) ≡ 0 }
        ensures starts { stage_of result ≡ AtStart }
    {
        RecordReader {
            fields: FieldReader::new(file),
            stage: Stage::Start,
        }
    }

    /// The next record, or none where the file is at its end; a fault leaves the reader before it.
    pub fn next(&mut self) -> Result<Option<Record>, Fault>
        ensures { ReadsOn self.old result self.new }
    {
        if let Stage::Ended(_) = self.stage {
            return if self.fields.is_done() {
                Ok(None)
            } else {
                Err(Cause::Tag.at(self.fields.place()))
            };
        }
        let mut fields = self.fields;
        let record = interpret(self.stage, fields.next()?)?;
        self.stage = stage_after(self.stage, record);
        self.fields = fields;
        Ok(Some(record))
    }
}

/// The stage behind a record that has no fault.
fn stage_after(stage: Stage, by: Record) -> Stage
    ensures { result ≡ stage_after stage by }
{
    match (stage, by) {
        (_, Record::Size(n)) => Stage::Sized(n),
        (Stage::Sized(n), Record::End) => Stage::Ended(n),
        (stage, _) => stage,
    }
}

/// What a field states where this stage is reached, or its first fault.
fn interpret(stage: Stage, field: Field<'_>) -> Result<Record, Fault>
    ensures { result ≡ answer
        (record_fault stage field.entry.tag field.entry.value.now field.entry.place)
        (record_in field.entry.tag field.entry.value.now) }
{
    match (stage, field.tag) {
        (Stage::Start, SIZE_TAG) => Ok(Record::Size(size(field)?)),
        (Stage::Sized(n), PAIR_TAG) => Ok(Record::Pair(pair(n, field)?)),
        (Stage::Sized(_), END_TAG) => end(field),
        _ => Err(Cause::Tag.at(field.place)),
    }
}

/// The size that a size field states.
fn size(field: Field<'_>) -> Result<u8, Fault>
    ensures { result ≡ answer (first_of (size_checks field.entry.value.now field.entry.place))
        (size_in field.entry.value.now) }
{
    if field.value.len() != SIZE_LENGTH as usize {
        return Err(Cause::FieldLength.at(field.place));
    }
    let n = field.value[0];
    if n == 0 || u16::from(n) > MOST_BLOCKS {
        return Err(Cause::Size.at(field.place));
    }
    Ok(n)
}

/// The pair that a pair field states in a file of size n.
fn pair(n: u8, field: Field<'_>) -> Result<StatedPair, Fault>
    ensures { result ≡ answer (first_of (pair_checks n field.entry.value.now field.entry.place))
        (pair_in field.entry.value.now) }
{
    if field.value.len() != PAIR_LENGTH as usize {
        return Err(Cause::FieldLength.at(field.place));
    }
    let pair = stated_pair(field.value);
    if pair.left >= n || pair.right >= n {
        return Err(Cause::Block.at(field.place));
    }
    if is_beyond(pair.cost) {
        return Err(Cause::CostRange.at(field.place));
    }
    Ok(pair)
}

/// Whether a cost is not within 10^9. It is compared with both ends, since its absolute value would
/// take two instructions more, for each pair of a file.
fn is_beyond(cost: i64) -> bool
    ensures { result ≡ nat_lt COST_LIMIT (unsigned_abs cost) }
{
    cost < -LARGEST_COST || cost > LARGEST_COST
}

/// The pair in the bytes of a value.
fn stated_pair(value: &[u8]) -> StatedPair
    requires { length value.now ≡ PAIR_LENGTH }
    ensures { result ≡ pair_in value.now }
{
    let cost = u64::from_be_bytes([
        value[2], value[3], value[4], value[5], value[6], value[7], value[8], value[9],
    ]);
    StatedPair {
        left: value[0],
        right: value[1],
        cost: cost.cast_signed(),
    }
}

/// The end, which has no value.
fn end(field: Field<'_>) -> Result<Record, Fault>
    ensures { result ≡ answer (first_of (end_checks field.entry.value.now field.entry.place))
        EndRecord }
{
    if field.value.len() != END_LENGTH as usize {
        return Err(Cause::FieldLength.at(field.place));
    }
    Ok(Record::End)
}
