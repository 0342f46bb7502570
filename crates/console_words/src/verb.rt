//! The calls on a sheet by name.

ghost use Rattle.std.specs.Prelude.{◌≡◌, ◌≢◌, IfSome, IfNone};
ghost use Rattle.console_words.specs.declared.verb.Verb.{Verb};
ghost use Rattle.console_words.specs.Naming.{verb_word, verb_of, form_words};

use crate::typed_cost::TypedCost;
use session::Act;

/// Which call a line asks for.
#[derive(Clone, Copy)]
pub enum Verb {
    Enter,
    Strike,
    Read,
    Settle,
    Quote,
    Total,
    Marks,
    Start,
    Next,
    Close,
    Reopen,
}

impl Verb {
    /// The call that a word names.
    pub fn from_word(word: &str) -> Option<Verb>
        ensures found { IfSome result (λ verb. verb_word verb ≡ word.now) }
        ensures unknown { IfNone result ((verb : Verb) → verb_word verb ≢ word.now) }
    {
        match word {
            "enter" => Some(Verb::Enter),
            "strike" => Some(Verb::Strike),
            "read" => Some(Verb::Read),
            "settle" => Some(Verb::Settle),
            "quote" => Some(Verb::Quote),
            "total" => Some(Verb::Total),
            "marks" => Some(Verb::Marks),
            "start" => Some(Verb::Start),
            "next" => Some(Verb::Next),
            "close" => Some(Verb::Close),
            "reopen" => Some(Verb::Reopen),
            _ => None,
        }
    }

    /// The word that names the call.
    pub fn word(self) -> &'static str
        ensures { result.now ≡ verb_word self }
    {
        match self {
            Verb::Enter => "enter",
            Verb::Strike => "strike",
            Verb::Read => "read",
            Verb::Settle => "settle",
            Verb::Quote => "quote",
            Verb::Total => "total",
            Verb::Marks => "marks",
            Verb::Start => "start",
            Verb::Next => "next",
            Verb::Close => "close",
            Verb::Reopen => "reopen",
        }
    }

    /// The form of a line that makes the call, on a sheet of this kind of costs.
    pub fn form<K: TypedCost>(self) -> &'static str
        ensures { result.now ≡ form_words K.entering self }
    {
        match self {
            Verb::Enter => K::enter_form(),
            Verb::Strike => "strike L R",
            Verb::Read => "read L R",
            Verb::Quote => "quote L R",
            other => other.word(),
        }
    }

    /// The call that an act is.
    pub fn of<K>(act: &Act<K>) -> Verb
        ensures { result ≡ verb_of act.now }
    {
        match act {
            Act::Enter { .. } => Verb::Enter,
            Act::Strike { .. } => Verb::Strike,
            Act::Read { .. } => Verb::Read,
            Act::Settle => Verb::Settle,
            Act::Quote { .. } => Verb::Quote,
            Act::Total => Verb::Total,
            Act::Marks => Verb::Marks,
            Act::Start => Verb::Start,
            Act::Next => Verb::Next,
            Act::Close => Verb::Close,
            Act::Reopen => Verb::Reopen,
        }
    }
}
