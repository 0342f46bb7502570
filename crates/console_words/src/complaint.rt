//! Why a line is not understood, in words for the one who typed it.

ghost use Rattle.std.specs.Prelude.{◌≡◌, ◌++◌, Some};
ghost use Rattle.console_words.specs.Complaining.{complaint_text};

use std::error::Error;
use std::fmt;

/// What is wrong with a line. A word or a form that the text names comes along.
#[derive(Clone, Copy)]
pub enum Complaint<'a> {
    /// The bytes of the line are no text.
    NotText,
    /// The first word, or the one behind `short TABLE`, is no call.
    Unknown(&'a str),
    /// A word is missing of this form.
    TooFew(&'static str),
    /// Words follow the whole of this form.
    TooMany(&'static str),
    /// A cost is not a whole number.
    NotANumber(&'a str),
    /// A block number or a size is not a whole number from 0.
    NotFromZero(&'a str),
    /// A block number does not fit 16 bits.
    LargeBlock(&'a str),
    /// A cost does not fit a signed number of 64 bits.
    LargeCost(&'a str),
    /// A cost has one or two columns, and not so many.
    Columns(&'a str),
    /// A size is 0 or above 64.
    Size(&'a str),
    /// No table has this name.
    UnknownTable(&'a str),
    /// This call needs a sheet, and none is open yet.
    NoSheet(&'a str),
    /// This is for before a sheet is open, and one is.
    SheetIsOpen(&'a str),
}

impl<'a> Complaint<'a> {
    /// What is said before the word or the form that is named, that, and what is said behind it.
    fn parts(&self) -> (&'static str, &'a str, &'static str)
        ensures { complaint_text self.now ≡ result.0.now ++ (result.1.now ++ result.2.now) }
    {
        match *self {
            Complaint::NotText => ("this is not text in UTF-8", "", ""),
            Complaint::Unknown(word) => ("`", word, "` is no call; `help` lists the calls"),
            Complaint::TooFew(form) => ("a word is missing: write `", form, "`"),
            Complaint::TooMany(form) => ("there are too many words: write `", form, "`"),
            Complaint::NotANumber(word) => ("`", word, "` is not a whole number"),
            Complaint::NotFromZero(word) => ("`", word, "` is not a whole number from 0"),
            Complaint::LargeBlock(word) => ("`", word, "` is too large for a block number"),
            Complaint::LargeCost(word) => (
                "`",
                word,
                "` is too large: a cost fits a signed number of 64 bits",
            ),
            Complaint::Columns(word) => ("a cost has 1 or 2 columns, not `", word, "`"),
            // the meaning of the sheet's own cause and its remedy, which the clause holds them to
            Complaint::Size(word) => (
                "`",
                word,
                "`: the size is 0 or above 64. State a size from 1 to 64.",
            ),
            Complaint::UnknownTable(word) => (
                "`",
                word,
                "` is no table: write costs, standing, partners, left, right, walk or marks",
            ),
            Complaint::NoSheet(word) => (
                "no sheet is open yet: write `size N` before `",
                word,
                "`",
            ),
            Complaint::SheetIsOpen(word) => (
                "a sheet is open already: `",
                word,
                "` comes only before it is opened",
            ),
        }
    }
}

impl fmt::Display for Complaint<'_> {
    ghost output = { λ complaint. Some (complaint_text complaint) };

    fn fmt<W: fmt::Write>(&self, f: &mut fmt::Formatter<W>) -> fmt::Result {
        let (before, named, behind) = self.parts();
        write!(f, "{before}{named}{behind}")
    }
}

/// As it is printed.
impl fmt::Debug for Complaint<'_> {
    fn fmt<W: fmt::Write>(&self, f: &mut fmt::Formatter<W>) -> fmt::Result {
        fmt::Display::fmt(self, f)
    }
}

impl Error for Complaint<'_> {}
