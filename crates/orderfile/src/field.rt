//! Fields: a file is cut into tagged parts, with no regard to what they state.

ghost use Rattle.std.specs.Prelude.{◌≡◌, ◌+◌, ◌^◌, ◌<◌, length, drop, if◌then◌else◌, MatchResult};
ghost use Rattle.std.specs.Prelude.{◌==◌};
ghost use Rattle.orderfile.specs.Faults.{IsHandedOut, RunsPast};
ghost use Rattle.orderfile.specs.Format.{overruns, extent};

use crate::format::HEADER_LENGTH;
use sheet::{Cause, Fault};

/// A field as a part of the file: its tag, its value, and the offset of its tag.
#[derive(Clone, Copy)]
pub struct Field<'a> {
    pub tag: u8,
    pub value: &'a [u8],
    pub place: usize,
}

/// Moves over the fields of a file and hands out each one as a part of the file.
#[derive(Clone, Copy)]
pub struct FieldReader<'a> {
    // the bytes from the next field on, and its offset
    rest: &'a [u8],
    at: usize,
    ghost fits: { at + length rest.now < 2 ^ 64 },
}

impl<'a> FieldReader<'a> {
    ghost use Rattle.orderfile.specs.Readers.{rest_of, offset_of};

    /// A reader that stands before the first field.
    pub fn new(file: &'a [u8]) -> FieldReader<'a>
        ensures whole { rest_of result ≡ file.now }
        ensures first { offset_of result ≡ 0 }
    {
        FieldReader { rest: file, at: 0 }
    }

    /// The offset of the next field's tag.
    pub fn place(&self) -> usize
        ensures { result ≡ offset_of self.now }
    {
        self.at
    }

    /// Whether no byte is left.
    pub fn is_done(&self) -> bool
        ensures { result ≡ (length (rest_of self.now) == 0) }
    {
        self.rest.is_empty()
    }

    /// Hands out the next field and moves behind it; refuses a field that runs past the file, and
    /// then stays before it.
    pub fn next(&mut self) -> Result<Field<'a>, Fault>
        ensures hands { MatchResult result
            (λ field. IsHandedOut (rest_of self.old) (offset_of self.old) field.tag field.value.now
            field.place) (RunsPast (rest_of self.old) (offset_of self.old)) }
        ensures passes { let rest = rest_of self.old in
            rest_of self.new ≡ (if overruns rest then rest else drop (extent rest) rest) }
        ensures moves { let rest = rest_of self.old in let at = offset_of self.old in
            offset_of self.new ≡ (if overruns rest then at else at + extent rest) }
    {
        let rest = self.rest;
        if rest.len() < HEADER_LENGTH {
            return Err(Cause::Overrun.at(self.at));
        }
        // Where the next field begins waits for the length, which is therefore the last thing that
        // is added.
        let length = u16::from_be_bytes([rest[1], rest[2]]) as usize;
        let behind = &rest[HEADER_LENGTH..];
        if behind.len() < length {
            return Err(Cause::Overrun.at(self.at));
        }
        let field = Field {
            tag: rest[0],
            value: &behind[..length],
            place: self.at,
        };
        *self = FieldReader {
            rest: &behind[length..],
            at: self.at + HEADER_LENGTH + length,
        };
        Ok(field)
    }
}
