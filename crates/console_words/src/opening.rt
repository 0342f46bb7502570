//! Lines before a sheet is open.

ghost use Rattle.std.specs.Prelude.{◌≡◌, ◌≢◌, ◌↔◌, [], ◌∷◌, Ok, codes, IfOk, IfErr};
ghost use Rattle.console_words.specs.declared.opening.ColumnCount.TheVariants.{One, Two};
ghost use Rattle.console_words.specs.declared.complaint.Complaint.{Complaint};
ghost use Rattle.console_words.specs.Forms.{a_count, Blames, IsTooMany};
ghost use Rattle.console_words.specs.Lines.{AsksOpening, IsWrongOpening, IsWrongBehind};
ghost use Rattle.console_words.specs.Naming.{columns_words, lead_word};
ghost use Rattle.console_words.specs.Words.{words_of, words_left, form_of};

use crate::complaint::Complaint;
use crate::lead::Lead;
use crate::sheet_size::SheetSize;
use crate::words::Words;

/// How many columns a cost has.
#[derive(Clone, Copy)]
pub enum ColumnCount {
    One,
    Two,
}

impl ColumnCount {
    /// The count that a word tells.
    pub fn from_word(word: &str) -> Result<ColumnCount, Complaint<'_>>
        ensures one { (result ≡ Ok One) ↔ (word.now ≡ codes "1") }
        ensures two { (result ≡ Ok Two) ↔ (word.now ≡ codes "2") }
        ensures other { IfErr result (Blames a_count word.now) }
    {
        match word {
            "1" => Ok(ColumnCount::One),
            "2" => Ok(ColumnCount::Two),
            _ => Err(Complaint::Columns(word)),
        }
    }

    /// What is said of it.
    pub fn in_words(self) -> &'static str
        ensures { result.now ≡ columns_words self }
    {
        match self {
            ColumnCount::One => "a cost is one number",
            ColumnCount::Two => "a cost is two numbers, and the first decides before the second",
        }
    }
}

/// What a line asks for before a sheet is open.
#[derive(Clone, Copy)]
pub enum Opening {
    Columns(ColumnCount),
    Size(SheetSize),
    Help,
    Quit,
}

impl Opening {
    /// What a line asks for.
    pub fn from_line(line: &str) -> Result<Opening, Complaint<'_>>
        ensures asked { IfOk result (AsksOpening (words_of line.now)) }
        ensures wrong { IfErr result (IsWrongOpening (words_of line.now)) }
    {
        let mut words = Words::of(line, "size N");
        let word = words.next_word()?;
        let Some(lead) = Lead::from_word(word) else {
            return Err(Complaint::Unknown(word));
        };
        let opening = opening_after(lead, word, &mut words)?;
        words.end()?;
        Ok(opening)
    }
}

/// What a line asks for by its first word and those behind it.
fn opening_after<'a>(
    lead: Lead,
    word: &'a str,
    words: &mut Words<'a>,
) -> Result<Opening, Complaint<'a>>
    requires { lead_word lead ≡ word.now }
    ensures whole { IfOk result (λ opening. words_left words.new ≡ []
        → AsksOpening (word.now ∷ words_left words.old) opening) }
    ensures longer { IfOk result (λ opening. (complaint : Complaint) → words_left words.new ≢ []
        → IsTooMany (form_of words.new) complaint
        → IsWrongBehind lead (words_left words.old) complaint) }
    ensures wrong { IfErr result (IsWrongBehind lead (words_left words.old)) }
{
    match lead {
        Lead::Columns => {
            words.expect_form("columns 1` or `columns 2");
            Ok(Opening::Columns(ColumnCount::from_word(words.next_word()?)?))
        }
        Lead::Size => {
            words.expect_form("size N");
            Ok(Opening::Size(SheetSize::from_word(words.next_word()?)?))
        }
        Lead::Help => {
            words.expect_form("help");
            Ok(Opening::Help)
        }
        Lead::Quit => {
            words.expect_form("quit");
            Ok(Opening::Quit)
        }
        Lead::Short | Lead::Call(_) => Err(Complaint::NoSheet(word)),
    }
}
