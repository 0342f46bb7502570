//! What a person asks of a program that prints in two forms: lines, the form that a word of its own
//! asks for, or what the program does.

ghost use Rattle.std.specs.Prelude.{◌≡◌, ◌≤◌, ◌↔◌, Some, length};
ghost use Rattle.command.specs.Asking.{AsksHelp, MeansHelp};
ghost use Rattle.report.specs.Asking.{AsksFor};

use command::means_help;

/// What is asked of such a program.
#[derive(Clone, Copy, PartialEq, Eq, Debug)]
pub enum Form {
    /// With no word: lines.
    Lines,
    /// With the program's own word: of `inspect` a map, of `import` an order file.
    ByWord,
    /// With a word for its usage: what it does.
    Help,
}

impl Form {
    ghost use Rattle.report.specs.declared.form.Form.TheVariants.{Lines, ByWord, Help};

    /// What the words of a command ask for, of which the first is the program's name: lines with
    /// no other word, the other form with the program's own word alone, help with `--help` or `-h`
    /// alone, and else nothing that it knows.
    pub fn asked(words: &[String], own: &str) -> Option<Form>
        requires { ¬ MeansHelp own.now }
        ensures lines { (result ≡ Some Lines) ↔ (length words.now ≤ 1) }
        ensures own { (result ≡ Some ByWord) ↔ AsksFor own.now words.now }
        ensures help { (result ≡ Some Help) ↔ AsksHelp words.now }
    {
        match words {
            [] | [_] => Some(Form::Lines),
            [_, word] if word.as_str() == own => Some(Form::ByWord),
            [_, word] if means_help(word.as_str()) => Some(Form::Help),
            _ => None,
        }
    }
}
