//! A conversation about one sheet: a line is taken, and the answer to it is given.

ghost use Rattle.std.specs.Prelude.{◌≡◌, ◌↔◌, IsTrue, IfOk, OnOk, IfSome, string_bytes};
ghost use Rattle.console_words.specs.declared.console.Console.TheVariants.{Unopened};
ghost use Rattle.console_words.specs.declared.opening.ColumnCount.TheVariants.{One};
ghost use Rattle.console_words.specs.declared.opening.Opening.TheVariants.{Size};
ghost use Rattle.console_words.specs.Complaining.{complained_line};
ghost use Rattle.console_words.specs.Conversing.{Opens, Turns, TakesLine, Converses, opened_line};
ghost use Rattle.console_words.specs.Moving.{IsPrinted, Moves};
ghost use Rattle.console_words.specs.Words.{words_of, IsSkipped};

use crate::complaint::Complaint;
use crate::desk::Desk;
use crate::help::HELP;
use crate::opening::{ColumnCount, Opening};
use crate::request::Request;
use crate::sheet_size::SheetSize;
use crate::turn::Turn;
use crate::typed_cost::TypedCost;
use cost::{Plain, TwoStep};
use std::alloc::{AllocError, Global};
use std::io::{BufRead, Write};
use std::{io, str};

/// A conversation about one sheet: whether one is open, and of which kind.
#[derive(Drop)]
pub enum Console {
    /// None is. If one is opened, its costs have so many columns.
    Unopened(ColumnCount),
    /// One of plain costs is.
    Plain(Desk<Plain>),
    /// One is whose costs have two columns.
    TwoStep(Desk<TwoStep<Plain, Plain>>),
}

/// The text of a complaint about a line.
fn complaint_turn(heap: Global, number: usize, complaint: Complaint<'_>) -> Result<Turn, AllocError>
    ensures { IfOk result (IsPrinted (complained_line number complaint.entry)) }
{
    Ok(Turn::Said(format!(in heap; "line {number}: {complaint}\n")?))
}

/// Whether a line is passed over, as blank or as a comment, which may stand behind white space.
fn is_skipped(line: &str) -> bool
    ensures { IsTrue result ↔ IsSkipped (words_of line.now) }
{
    match line.split_whitespace().next() {
        Some(word) => word.starts_with('#'),
        None => true,
    }
}

/// What is said of a sheet that was opened.
fn opened_text(heap: Global, blocks: u16, columns: ColumnCount) -> Result<String, AllocError>
    ensures { IfOk result (λ text. string_bytes text ≡ opened_line blocks columns) }
{
    let costs = columns.in_words();
    format!(in heap; "sheet of {blocks} left and {blocks} right blocks; {costs}\n")
}

/// Opens a sheet.
fn open_console(
    heap: Global,
    size: SheetSize,
    columns: ColumnCount,
) -> Result<(Console, Turn), AllocError>
    ensures { IfOk result (λ made. Opens columns (Size size) made.0 made.1) }
{
    let console = match columns {
        ColumnCount::One => Console::Plain(Desk::open(heap, size)?),
        ColumnCount::Two => Console::TwoStep(Desk::open(heap, size)?),
    };
    let text = opened_text(heap, size.blocks, columns)?;
    Ok((console, Turn::Said(text)))
}

/// Takes a line before a sheet is open.
fn take_unopened(
    heap: Global,
    columns: ColumnCount,
    number: usize,
    line: &str,
) -> Result<(Console, Turn), AllocError>
    ensures { IfOk result (λ taken. Turns number (words_of line.now) (Unopened columns) taken.0
        taken.1) }
{
    let opening = match Opening::from_line(line) {
        Ok(opening) => opening,
        Err(complaint) => {
            return Ok((
                Console::Unopened(columns),
                complaint_turn(heap, number, complaint)?,
            ));
        }
    };
    match opening {
        Opening::Columns(columns) => {
            let text = format!(in heap; "{}\n", columns.in_words())?;
            Ok((Console::Unopened(columns), Turn::Said(text)))
        }
        Opening::Size(size) => open_console(heap, size, columns),
        Opening::Help => {
            let text = String::from_str(heap, HELP)?;
            Ok((Console::Unopened(columns), Turn::Said(text)))
        }
        Opening::Quit => Ok((Console::Unopened(columns), Turn::Over)),
    }
}

/// Takes a line on an open sheet.
fn take_opened<K: TypedCost>(
    heap: Global,
    desk: Desk<K>,
    number: usize,
    line: &str,
) -> Result<(Desk<K>, Turn), AllocError>
    ensures { IfOk result (λ taken. Moves K.Cost K.written K.numbers K.entering number
        (words_of line.now) desk taken.0 taken.1) }
{
    match Request::from_line(line) {
        Ok(request) => desk.serve(heap, request),
        Err(complaint) => Ok((desk, complaint_turn(heap, number, complaint)?)),
    }
}

impl Console {
    /// A conversation in which no sheet is open yet, and a cost has one column.
    pub fn new() -> Console
        ensures { result ≡ Unopened One }
    {
        Console::Unopened(ColumnCount::One)
    }

    /// Takes a line that is no blank and no comment.
    fn take_words(
        self,
        heap: Global,
        number: usize,
        line: &str,
    ) -> Result<(Console, Turn), AllocError>
        ensures { IfOk result (λ taken. Turns number (words_of line.now) self taken.0 taken.1) }
    {
        match self {
            Console::Unopened(columns) => take_unopened(heap, columns, number, line),
            Console::Plain(desk) => {
                let (desk, turn) = take_opened(heap, desk, number, line)?;
                Ok((Console::Plain(desk), turn))
            }
            Console::TwoStep(desk) => {
                let (desk, turn) = take_opened(heap, desk, number, line)?;
                Ok((Console::TwoStep(desk), turn))
            }
        }
    }

    /// Takes a line, of which this is the number in the input, without its line break.
    ///
    /// A blank line and one whose first word begins with `#` come to no text. A line that is not
    /// understood, or is no text in UTF-8 whatever it begins with, comes to a complaint with its
    /// number, and changes nothing. An error is want of memory.
    pub fn take(
        self,
        heap: Global,
        number: usize,
        line: &[u8],
    ) -> Result<(Console, Turn), AllocError>
        ensures { IfOk result (λ taken. TakesLine number line.now self taken.0 taken.1) }
    {
        let Ok(line) = str::from_utf8(line) else {
            return Ok((self, complaint_turn(heap, number, Complaint::NotText)?));
        };
        if is_skipped(line) {
            return Ok((self, Turn::Said(String::new(heap))));
        }
        self.take_words(heap, number, line)
    }
}

/// Reads lines up to the end of the input or a line that asks for the end, and writes what each
/// comes to before the next is read. An error is the reader's, the writer's, or want of memory.
pub fn converse<R: BufRead + Drop, W: Write>(
    heap: Global,
    input: R,
    output: &mut W,
) -> io::Result<()>
    ensures { OnOk result (IfSome (R.remaining input)
        (λ bytes. Converses bytes (W.contents output.old) (W.contents output.new))) }
{
    let mut console = Console::new();
    for (k, line) in input.split(heap, b'\n').enumerate() {
        let line = line?;
        let (next, turn) = console.take(heap, k + 1, line.as_slice())?;
        console = next;
        match turn {
            Turn::Said(text) => output.write_all(text.as_bytes())?,
            Turn::Over => break,
        }
    }
    Ok(())
}
