//! What a program writes to, with the status that it ends with.

ghost use Rattle.std.specs.Prelude.{IfOk};
ghost use Rattle.command.specs.Ending.{Prints, Complains};

use std::io;
use std::io::{Printer, Stderr, Write};
use std::process::ExitCode;

/// The status of a program that was asked for something else than it does.
pub const WRONG_USAGE: u8 = 2;

/// The output of a program, and where it writes what is wrong.
#[derive(Drop)]
pub struct Streams<W, E> {
    pub output: W,
    pub errors: E,
}

impl<'a> Streams<Printer<'a, HostRuntime>, Stderr> {
    /// Those of the process. std promises nothing of a process's own streams, so the type alone
    /// tells which is the output and which takes the errors.
    pub fn of(rt: &'a HostRuntime) -> Self {
        Streams {
            output: io::writer(rt),
            errors: rt.stderr(),
        }
    }
}

impl<W: Write, E: Write> Streams<W, E> {
    /// Writes a text to the output, of a program that did what it was asked for.
    pub fn print(&mut self, text: &str) -> io::Result<ExitCode>
        ensures { IfOk result (Prints W.contents E.contents self.old self.new text.now) }
    {
        self.print_bytes(text.as_bytes())
    }

    /// Writes bytes that need not be a text to the output, of such a program.
    pub fn print_bytes(&mut self, bytes: &[u8]) -> io::Result<ExitCode>
        ensures { IfOk result (Prints W.contents E.contents self.old self.new bytes.now) }
    {
        self.output.write_all(bytes)?;
        Ok(ExitCode::SUCCESS)
    }

    /// Writes a text to the errors, of a program that ends with a status of its own for it.
    pub fn complain(&mut self, text: &str, status: u8) -> io::Result<ExitCode>
        ensures { IfOk result (Complains W.contents E.contents self.old self.new text.now status) }
    {
        self.errors.write_all(text.as_bytes())?;
        Ok(ExitCode::from(status))
    }
}
