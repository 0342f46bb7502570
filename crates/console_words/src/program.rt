//! The program `console`: what it writes, by the words of a command and the lines of an input.

ghost use Rattle.std.specs.Prelude.{IfOk};
ghost use Rattle.console_words.specs.Program.{Talks};

use crate::console::converse;
use command::{Command, Streams, WRONG_USAGE};
use std::alloc::Global;
use std::io;
use std::io::{BufRead, Write};
use std::process::ExitCode;

/// What `console` says of itself.
pub const CONSOLE_USAGE: &str = "\
usage: console
Reads lines from standard input, makes the call on a sheet that each line asks for, and prints the
answer before it reads the next. The line `size N` opens a sheet of N left and N right blocks;
`help` lists all lines that can be typed, and `quit` ends the program.
  -h, --help  print this text
";

/// Does what the words of a command ask of `console`: converses, or prints its usage; and complains
/// by its usage of words that it does not know. An error is the reader's or a writer's, or want of
/// memory.
pub fn talk<R: BufRead + Drop, W: Write, E: Write>(
    heap: Global,
    words: &[String],
    input: R,
    to: &mut Streams<W, E>,
) -> io::Result<ExitCode>
    ensures { IfOk result (Talks W.contents E.contents to.old to.new (R.remaining input)
        words.now) }
{
    match Command::asked(words) {
        Some(Command::Run) => {
            converse(heap, input, &mut to.output)?;
            Ok(ExitCode::SUCCESS)
        }
        Some(Command::Help) => to.print(CONSOLE_USAGE),
        None => to.complain(CONSOLE_USAGE, WRONG_USAGE),
    }
}
