//! The words of a line, taken one after the other.

ghost use Rattle.std.specs.Prelude.{◌≡◌, ◌≢◌, ◌↔◌, [], ◌∷◌, drop, pos};
ghost use Rattle.std.specs.Prelude.{IsTrue, IfOk, IfErr, OnOk};
ghost use Rattle.std.specs.Str.{IsUtf8};
ghost use Rattle.std.specs.Str.Iter.{split_whitespace_rest};
ghost use Rattle.console_words.specs.Forms.{IsOverflow};

use crate::complaint::Complaint;
use std::num::{IntErrorKind, ParseIntError};
use std::str::SplitWhitespace;

/// The words of a line that were not taken yet, and the form that the line should have, for a
/// complaint of too few or too many.
#[derive(Drop)]
pub struct Words<'a> {
    rest: SplitWhitespace<'a>,
    form: &'static str,
    ghost text: { ∥ IsUtf8 (split_whitespace_rest rest) ∥₁ },
}

impl<'a> Words<'a> {
    ghost use Rattle.console_words.specs.Words.{words_of, words_left, form_of};
    ghost use Rattle.console_words.specs.Forms.{a_block, a_number, Takes, Fails};
    ghost use Rattle.console_words.specs.Forms.{IsTooFew, IsTooMany};

    /// All words of a line.
    pub fn of(line: &'a str, form: &'static str) -> Words<'a>
        ensures words { words_left result ≡ words_of line.now }
        ensures form { form_of result ≡ form.now }
    {
        Words {
            rest: line.split_whitespace(),
            form,
        }
    }

    /// From here on the line should have this form.
    pub fn expect_form(&mut self, form: &'static str)
        ensures words { words_left self.new ≡ words_left self.old }
        ensures form { form_of self.new ≡ form.now }
    {
        self.form = form;
    }

    /// The next word.
    pub fn next_word(&mut self) -> Result<&'a str, Complaint<'a>>
        ensures form { form_of self.new ≡ form_of self.old }
        ensures rest { words_left self.new ≡ drop 1 (words_left self.old) }
        ensures word { IfOk result (λ word. words_left self.old ≡ word.now ∷ words_left self.new) }
        ensures missing { IfErr result (λ complaint. (words_left self.old ≡ [])
            × IsTooFew (form_of self.old) complaint) }
    {
        self.rest.next().ok_or(Complaint::TooFew(self.form))
    }

    /// The next word as a block number: decimal digits, behind a `+` or nothing. Whether the sheet
    /// has such a block is not asked here.
    pub fn next_block(&mut self) -> Result<u16, Complaint<'a>>
        ensures form { form_of self.new ≡ form_of self.old }
        ensures rest { words_left self.new ≡ drop 1 (words_left self.old) }
        ensures told { IfOk result (λ told. Takes (a_block ∷ []) (words_left self.old)
            (words_left self.new) (pos told ∷ [])) }
        ensures failed { IfErr result
            (Fails (form_of self.old) (a_block ∷ []) (words_left self.old)) }
    {
        let word = self.next_word()?;
        match word.parse::<u16>() {
            Ok(block) => Ok(block),
            Err(error) if is_overflow(&error) => Err(Complaint::LargeBlock(word)),
            Err(_) => Err(Complaint::NotFromZero(word)),
        }
    }

    /// The next word as a signed whole number: decimal digits, behind a `+`, a `-` or nothing.
    /// Whether a cost may be so large is not asked here.
    pub fn next_number(&mut self) -> Result<i64, Complaint<'a>>
        ensures form { form_of self.new ≡ form_of self.old }
        ensures rest { words_left self.new ≡ drop 1 (words_left self.old) }
        ensures told { IfOk result (λ told. Takes (a_number ∷ []) (words_left self.old)
            (words_left self.new) (told ∷ [])) }
        ensures failed { IfErr result
            (Fails (form_of self.old) (a_number ∷ []) (words_left self.old)) }
    {
        let word = self.next_word()?;
        match word.parse::<i64>() {
            Ok(number) => Ok(number),
            Err(error) if is_overflow(&error) => Err(Complaint::LargeCost(word)),
            Err(_) => Err(Complaint::NotANumber(word)),
        }
    }

    /// Complains if a word is left.
    pub fn end(&mut self) -> Result<(), Complaint<'a>>
        ensures form { form_of self.new ≡ form_of self.old }
        ensures rest { words_left self.new ≡ drop 1 (words_left self.old) }
        ensures whole { OnOk result (words_left self.old ≡ []) }
        ensures left { IfErr result (λ complaint. (words_left self.old ≢ [])
            × IsTooMany (form_of self.old) complaint) }
    {
        match self.next_word() {
            Ok(_) => Err(Complaint::TooMany(self.form)),
            // none is left, as it should be
            Err(_) => Ok(()),
        }
    }
}

/// Whether a word is a whole number that is beyond its type.
pub(crate) fn is_overflow(error: &ParseIntError) -> bool
    ensures { IsTrue result ↔ IsOverflow error.now }
{
    matches!(
        error.kind(),
        IntErrorKind::PosOverflow | IntErrorKind::NegOverflow
    )
}
