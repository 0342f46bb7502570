//! What the words of a command ask of a program that takes no other word than `--help`.

ghost use Rattle.std.specs.Prelude.{◌≡◌, ◌≤◌, ◌↔◌, Some, IsTrue, length};
ghost use Rattle.command.specs.Asking.{AsksHelp, MeansHelp};

/// What a program is asked for.
#[derive(Clone, Copy, PartialEq, Eq, Debug)]
pub enum Command {
    /// To do its work.
    Run,
    /// To say what it does.
    Help,
}

impl Command {
    ghost use Rattle.command.specs.declared.command.Command.TheVariants.{Run, Help};

    /// What the words of a command ask for, of which the first is the program's name: the
    /// program's work with no other word, its help with `--help` or `-h` alone, and else nothing
    /// that it knows.
    pub fn asked(words: &[String]) -> Option<Command>
        ensures run { (result ≡ Some Run) ↔ (length words.now ≤ 1) }
        ensures help { (result ≡ Some Help) ↔ AsksHelp words.now }
    {
        match words {
            [] | [_] => Some(Command::Run),
            [_, word] if means_help(word.as_str()) => Some(Command::Help),
            _ => None,
        }
    }
}

/// Whether a word asks a program what it does.
pub fn means_help(word: &str) -> bool
    ensures { IsTrue result ↔ MeansHelp word.now }
{
    word == "--help" || word == "-h"
}
