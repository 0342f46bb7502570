//! The program `import`: what it writes, by the words of a command and an input.

ghost use Rattle.std.specs.Prelude.{IfOk};
ghost use Rattle.report.specs.Programs.{Exports, Imports};

use crate::form::Form;
use crate::input::{describe_text_input, order_of_text_input};
use command::{Streams, WRONG_USAGE};
use refusal_words::explain;
use std::alloc::Global;
use std::io;
use std::io::{Read, Write};
use std::process::ExitCode;

/// What `import` says of itself.
pub const IMPORT_USAGE: &str = "\
usage: import [order] < ASSIGNMENT-TEXT
Reads a text in the DIMACS assignment format from standard input, and prints the sheet that it
states: `size N`, `pair L R COST` for each pair, and `end`; or `refused NUMBER at PLACE layer LAYER`
of a text that is refused.
  order       write the order file of the sheet; of a text that is refused say in words why
  -h, --help  print this text
";

/// The status of a program that was to make something of a text that is refused.
pub const REFUSED_TEXT: u8 = 1;

/// Prints the order file of the input; or, if it is refused, nothing, and complains of why.
fn export<R: Read + Drop, W: Write, E: Write>(
    heap: Global,
    input: R,
    to: &mut Streams<W, E>,
) -> io::Result<ExitCode>
    ensures { IfOk result (Exports W.contents E.contents to.old to.new (R.remaining input)) }
{
    match order_of_text_input(heap, input)? {
        Ok(file) => to.print_bytes(file.as_slice()),
        Err(fault) => to.complain(explain(heap, fault)?.as_str(), REFUSED_TEXT),
    }
}

/// Does what the words of a command ask of `import`: prints what the input states, in lines or as
/// an order file, or its usage; and complains by its usage of words that it does not know, and in
/// words of an input that has no order file. An error is the reader's or a writer's, or want of
/// memory.
pub fn import<R: Read + Drop, W: Write, E: Write>(
    heap: Global,
    words: &[String],
    input: R,
    to: &mut Streams<W, E>,
) -> io::Result<ExitCode>
    ensures { IfOk result (Imports W.contents E.contents to.old to.new (R.remaining input)
        words.now) }
{
    match Form::asked(words, "order") {
        Some(Form::Lines) => to.print(describe_text_input(heap, input)?.as_str()),
        Some(Form::ByWord) => export(heap, input, to),
        Some(Form::Help) => to.print(IMPORT_USAGE),
        None => to.complain(IMPORT_USAGE, WRONG_USAGE),
    }
}
