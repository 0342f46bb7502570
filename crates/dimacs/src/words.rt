//! The reader of words: it moves over a line and takes number after number.

ghost use Rattle.std.specs.Prelude.{◌≡◌, ◌+◌, ◌-◌, ◌≤◌, length, drop, MatchOption, if◌then◌else◌};
ghost use Rattle.std.specs.Str.Parse.{starts_with_minus, AllDigits, digits_value};
ghost use Rattle.dimacs.specs.Words.{HasNumber, HasNoNumber, EndsWord, stopped, between};

use crate::word::{Cost, Number};

/// The most that is handed out in place of a cost, with either sign.
const MOST_COST: u64 = i64::MAX as u64;

/// The byte of the digit 0.
const ZERO: u64 = b'0' as u64;

/// So many digits fit into 64 bits, whatever they are.
const SHORT: usize = 18;

/// Moves over the words of a text. A line is handed out by some fifteen words; unless all that
/// makes one is inlined into the loop that takes it, it goes through memory at each step.
#[derive(Clone, Copy)]
pub(crate) struct Words<'a> {
    text: &'a [u8],
    // the offset of the next word
    at: usize,
    ghost inside: { at ≤ length text.now },
}

impl<'a> Words<'a> {
    ghost use Rattle.dimacs.specs.Taking.{rest_of, offset_of, TakesNumber, TakesCost};
    ghost use Rattle.dimacs.specs.Taking.{IsAhead, PassesTo};

    /// The words from an offset of the text on.
    #[inline(always)]
    pub(crate) fn new(text: &'a [u8], at: usize) -> Words<'a>
        requires { at ≤ length text.now }
        ensures rest { rest_of result ≡ drop at text.now }
        ensures at { offset_of result ≡ at }
    {
        Words { text, at }
    }

    /// The offset of the next word.
    #[inline(always)]
    pub(crate) fn place(&self) -> usize
        ensures { result ≡ offset_of self.now }
    {
        self.at
    }

    /// The number that stands next and ends at the byte `end`, if there is one; that byte is
    /// passed too.
    #[inline(always)]
    pub(crate) fn number(&mut self, end: u8) -> Option<Number<'a>>
        requires { EndsWord end }
        ensures { TakesNumber end self.old result self.new }
    {
        let place = self.at;
        let found = number_from(self.text, place, end)?;
        let text = self.pass(found.end);
        Some(Number {
            text,
            place,
            value: found.value,
        })
    }

    /// The cost that stands next and ends at the byte `end`, likewise.
    #[inline(always)]
    pub(crate) fn cost(&mut self, end: u8) -> Option<Cost<'a>>
        requires { EndsWord end }
        ensures { TakesCost end self.old result self.new }
    {
        let place = self.at;
        let sign = sign_length(&self.text[place..]);
        let found = number_from(self.text, place + sign, end)?;
        let text = self.pass(found.end);
        let size = found.value.min(MOST_COST) as i64;
        Some(Cost {
            text,
            place,
            value: if sign == 1 { -size } else { size },
        })
    }

    /// The word from here to an offset, where the byte that ends it stands; that byte is passed
    /// too.
    #[inline(always)]
    fn pass(&mut self, to: usize) -> &'a [u8]
        requires { IsAhead self.old to }
        ensures { PassesTo self.old to result.now self.new }
    {
        let word = &self.text[self.at..to];
        self.at = to + 1;
        word
    }
}

/// How many bytes the sign of a cost takes: one where a minus stands in front, else none.
#[inline(always)]
fn sign_length(bytes: &[u8]) -> usize
    ensures { result ≡ (if starts_with_minus bytes.now then 1 else 0) }
{
    match bytes {
        [b'-', ..] => 1,
        _ => 0,
    }
}

/// A number of a text: the offset behind it, and what is handed out of it.
#[derive(Clone, Copy)]
struct Found {
    end: usize,
    value: u64,
}

/// The number that stands at an offset and ends at the byte `end`, if there is one.
#[inline(always)]
fn number_from(text: &[u8], at: usize, end: u8) -> Option<Found>
    requires inside { at ≤ length text.now }
    requires ends { EndsWord end }
    ensures { MatchOption result (HasNoNumber text.now at end)
        (λ found. HasNumber text.now at end found.end found.value) }
{
    let mut i = at;
    let mut value: u64 = 0;
    while i < text.len() {
        // one comparison: a byte below the digits gives a large difference
        let digit = u64::from(text[i]).wrapping_sub(ZERO);
        if digit > 9 {
            if text[i] != end || i == at {
                return None;
            }
            return Some(told(text, at, i, value));
        }
        // of a long number this wraps, and is not handed out
        value = value.wrapping_mul(10).wrapping_add(digit);
        i += 1;
    }
    None
}

/// What is handed out of the digits between two offsets, whose number is known if they are few.
#[inline(always)]
fn told(text: &[u8], at: usize, end: usize, known: u64) -> Found
    requires within { (at ≤ end) × (end ≤ length text.now) }
    requires digits { AllDigits 10 (between at end text.now) }
    requires known { end - at ≤ 18 → known ≡ digits_value 10 (between at end text.now) }
    ensures end { result.end ≡ end }
    ensures value { result.value ≡ stopped (digits_value 10 (between at end text.now)) }
{
    if end - at <= SHORT {
        return Found { end, value: known };
    }
    long_number(text, at, end)
}

/// The same of any number of digits.
// hands out the offset too: so that the compiler takes it for a new one, and counts the bytes of
// the next word by one counter
#[cold]
#[inline(never)]
fn long_number(text: &[u8], at: usize, end: usize) -> Found
    requires within { (at ≤ end) × (end ≤ length text.now) }
    requires digits { AllDigits 10 (between at end text.now) }
    ensures end { result.end ≡ end }
    ensures value { result.value ≡ stopped (digits_value 10 (between at end text.now)) }
{
    let mut value: u64 = 0;
    for byte in &text[at..end] {
        let digit = u64::from(*byte - b'0');
        value = value.saturating_mul(10).saturating_add(digit);
    }
    Found { end, value }
}
