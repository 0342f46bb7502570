//! The first words of lines.

ghost use Rattle.std.specs.Prelude.{◌≡◌, ◌≢◌, IfSome, IfNone};
ghost use Rattle.console_words.specs.declared.lead.Lead.{Lead};
ghost use Rattle.console_words.specs.Naming.{lead_word};

use crate::verb::Verb;

/// What the first word of a line begins.
#[derive(Clone, Copy)]
pub enum Lead {
    Help,
    Quit,
    Columns,
    Size,
    Short,
    Call(Verb),
}

impl Lead {
    /// What a word begins.
    pub fn from_word(word: &str) -> Option<Lead>
        ensures found { IfSome result (λ lead. lead_word lead ≡ word.now) }
        ensures unknown { IfNone result ((lead : Lead) → lead_word lead ≢ word.now) }
    {
        match word {
            "help" => Some(Lead::Help),
            "quit" => Some(Lead::Quit),
            "columns" => Some(Lead::Columns),
            "size" => Some(Lead::Size),
            "short" => Some(Lead::Short),
            _ => Some(Lead::Call(Verb::from_word(word)?)),
        }
    }
}
