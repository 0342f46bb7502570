//! The programs `inspect` and `listing`: what they write, by the words of a command and an input.

ghost use Rattle.std.specs.Prelude.{IfOk};
ghost use Rattle.report.specs.Programs.{Inspects, ListsInput};

use crate::form::Form;
use crate::input::{describe_input, draw_input, list_input};
use command::{Command, Streams, WRONG_USAGE};
use std::alloc::Global;
use std::io;
use std::io::{Read, Write};
use std::process::ExitCode;

/// What `inspect` says of itself.
pub const INSPECT_USAGE: &str = "\
usage: inspect [map] < ORDER-FILE
Reads an order file from standard input, and prints what it states: `size N`, `pair L R COST` for
each pair, and `end`; or `refused NUMBER at PLACE layer LAYER` of a file that is refused.
  map         print its costs as a table in which the optimum pairings are marked, or in words why
              it is refused
  -h, --help  print this text
";

/// What `listing` says of itself.
pub const LISTING_USAGE: &str = "\
usage: listing < ORDER-FILE
Reads an order file from standard input, and prints `total T`, its least total; `pairing R0 R1 ..`
for each pairing of that cost, in dictionary order, with the right block of each left block; and
`end`, or `more` after 1,000 pairings where others remain. Of a file that is refused, or that has no
perfect pairing, it prints `refused NUMBER`.
  -h, --help  print this text
";

/// Does what the words of a command ask of `inspect`: prints what the input states, in lines or as
/// a map, or its usage; and complains by its usage of words that it does not know. An error is the
/// reader's or a writer's, or want of memory.
pub fn inspect<R: Read + Drop, W: Write, E: Write>(
    heap: Global,
    words: &[String],
    input: R,
    to: &mut Streams<W, E>,
) -> io::Result<ExitCode>
    ensures { IfOk result (Inspects W.contents E.contents to.old to.new (R.remaining input)
        words.now) }
{
    match Form::asked(words, "map") {
        Some(Form::Lines) => to.print(describe_input(heap, input)?.as_str()),
        Some(Form::ByWord) => to.print(draw_input(heap, input)?.as_str()),
        Some(Form::Help) => to.print(INSPECT_USAGE),
        None => to.complain(INSPECT_USAGE, WRONG_USAGE),
    }
}

/// Does what the words of a command ask of `listing`: prints the listing of the input, or its
/// usage; and complains by its usage of words that it does not know. An error is as `inspect` has
/// it.
pub fn listing<R: Read + Drop, W: Write, E: Write>(
    heap: Global,
    words: &[String],
    input: R,
    to: &mut Streams<W, E>,
) -> io::Result<ExitCode>
    ensures { IfOk result (ListsInput W.contents E.contents to.old to.new (R.remaining input)
        words.now) }
{
    match Command::asked(words) {
        Some(Command::Run) => to.print(list_input(heap, input)?.as_str()),
        Some(Command::Help) => to.print(LISTING_USAGE),
        None => to.complain(LISTING_USAGE, WRONG_USAGE),
    }
}
