//! Lines on an open sheet.

ghost use Rattle.std.specs.Prelude.{◌≡◌, ◌≢◌, ◌⊎◌, List, [], ◌∷◌, pos, IfOk, IfErr};
ghost use Rattle.console_words.specs.declared.complaint.Complaint.{Complaint};
ghost use Rattle.console_words.specs.declared.lead.Lead.TheVariants.{Short};
ghost use Rattle.console_words.specs.declared.verb.Verb.TheVariants.{Enter, Strike, Read, Quote};
ghost use Rattle.console_words.specs.Forms.{a_block, Takes, Fails, IsTooMany};
ghost use Rattle.console_words.specs.Lines.{slots_of, numbers_of, Asks, IsWrong};
ghost use Rattle.console_words.specs.Lines.{IsWrongAfter, IsWrongShort};
ghost use Rattle.console_words.specs.Naming.{lead_word, verb_of, form_words};
ghost use Rattle.console_words.specs.Words.{words_of, words_left, form_of};

use crate::complaint::Complaint;
use crate::lead::Lead;
use crate::table_name::TableName;
use crate::typed_cost::TypedCost;
use crate::verb::Verb;
use crate::words::Words;
use session::Act;

/// What a line asks for on an open sheet.
#[derive(Clone, Copy)]
pub enum Request<K> {
    /// A call, which is handed this table one place short.
    Make {
        act: Act<K>,
        short: Option<TableName>,
    },
    Help,
    Quit,
}

impl<K: TypedCost> Request<K> {
    /// What a line asks for.
    pub fn from_line(line: &str) -> Result<Request<K>, Complaint<'_>>
        ensures asked { IfOk result (Asks K.Cost K.numbers (words_of line.now)) }
        ensures wrong { IfErr result (IsWrong K.Cost K.entering (words_of line.now)) }
    {
        let mut words = Words::of(line, "help");
        let word = words.next_word()?;
        let Some(lead) = Lead::from_word(word) else {
            return Err(Complaint::Unknown(word));
        };
        let request = request_after(lead, word, &mut words)?;
        words.end()?;
        Ok(request)
    }
}

/// What a line asks for by its first word and those behind it.
fn request_after<'a, K: TypedCost>(
    lead: Lead,
    word: &'a str,
    words: &mut Words<'a>,
) -> Result<Request<K>, Complaint<'a>>
    requires { lead_word lead ≡ word.now }
    ensures whole { IfOk result (λ request. words_left words.new ≡ []
        → Asks K.Cost K.numbers (word.now ∷ words_left words.old) request) }
    ensures longer { IfOk result (λ request. (complaint : Complaint) → words_left words.new ≢ []
        → IsTooMany (form_of words.new) complaint
        → IsWrongAfter K.Cost K.entering lead (words_left words.old) complaint) }
    ensures wrong { IfErr result (IsWrongAfter K.Cost K.entering lead (words_left words.old)) }
{
    match lead {
        Lead::Help => {
            words.expect_form("help");
            Ok(Request::Help)
        }
        Lead::Quit => {
            words.expect_form("quit");
            Ok(Request::Quit)
        }
        Lead::Columns | Lead::Size => Err(Complaint::SheetIsOpen(word)),
        Lead::Short => short_request(words),
        Lead::Call(verb) => {
            let act = typed_act(verb, words)?;
            Ok(Request::Make { act, short: None })
        }
    }
}

/// What is asked for by the words behind `short`: a table, and a call that it is short for.
fn short_request<'a, K: TypedCost>(words: &mut Words<'a>) -> Result<Request<K>, Complaint<'a>>
    ensures whole { IfOk result (λ request. words_left words.new ≡ []
        → Asks K.Cost K.numbers (lead_word Short ∷ words_left words.old) request) }
    ensures longer { IfOk result (λ request. (complaint : Complaint) → words_left words.new ≢ []
        → IsTooMany (form_of words.new) complaint
        → IsWrongShort K.Cost K.entering (words_left words.old) complaint) }
    ensures wrong { IfErr result (IsWrongShort K.Cost K.entering (words_left words.old)) }
{
    words.expect_form("short TABLE CALL ..");
    let word = words.next_word()?;
    let Some(table) = TableName::from_word(word) else {
        return Err(Complaint::UnknownTable(word));
    };
    let word = words.next_word()?;
    let Some(verb) = Verb::from_word(word) else {
        return Err(Complaint::Unknown(word));
    };
    let act = typed_act(verb, words)?;
    Ok(Request::Make {
        act,
        short: Some(table),
    })
}

/// The call of this name, with what the words behind it say.
fn typed_act<'a, K: TypedCost>(verb: Verb, words: &mut Words<'a>) -> Result<Act<K>, Complaint<'a>>
    ensures form { form_of words.new ≡ form_words K.entering verb }
    ensures verb { IfOk result (λ act. verb_of act ≡ verb) }
    ensures told { IfOk result (λ act. Takes (slots_of K.Cost verb) (words_left words.old)
        (words_left words.new) (numbers_of K.Cost K.numbers act)) }
    ensures failed { IfErr result (Fails (form_words K.entering verb) (slots_of K.Cost verb)
        (words_left words.old)) }
{
    words.expect_form(verb.form::<K>());
    match verb {
        Verb::Enter => typed_enter(words),
        Verb::Strike | Verb::Read | Verb::Quote => {
            let (left, right) = typed_pair(words)?;
            Ok(act_on_pair(verb, left, right))
        }
        Verb::Settle => Ok(Act::Settle),
        Verb::Total => Ok(Act::Total),
        Verb::Marks => Ok(Act::Marks),
        Verb::Start => Ok(Act::Start),
        Verb::Next => Ok(Act::Next),
        Verb::Close => Ok(Act::Close),
        Verb::Reopen => Ok(Act::Reopen),
    }
}

/// The call that enters a pair, with the pair and the cost that the next words say.
fn typed_enter<'a, K: TypedCost>(words: &mut Words<'a>) -> Result<Act<K>, Complaint<'a>>
    ensures form { form_of words.new ≡ form_of words.old }
    ensures verb { IfOk result (λ act. verb_of act ≡ Enter) }
    ensures told { IfOk result (λ act. Takes (slots_of K.Cost Enter) (words_left words.old)
        (words_left words.new) (numbers_of K.Cost K.numbers act)) }
    ensures failed { IfErr result (Fails (form_of words.old) (slots_of K.Cost Enter)
        (words_left words.old)) }
{
    let (left, right) = typed_pair(words)?;
    let cost = K::take_from(words)?;
    Ok(Act::Enter { left, right, cost })
}

/// The call of this name on a pair.
fn act_on_pair<K: TypedCost>(verb: Verb, left: u16, right: u16) -> Act<K>
    requires { (verb ≡ Strike) ⊎ (verb ≡ Read) ⊎ (verb ≡ Quote) }
    ensures verb { verb_of result ≡ verb }
    ensures numbers { numbers_of K.Cost K.numbers result ≡ pos left ∷ (pos right ∷ []) }
{
    match verb {
        Verb::Strike => Act::Strike { left, right },
        Verb::Read => Act::Read { left, right },
        _ => Act::Quote { left, right },
    }
}

/// The next two words as a left and a right block.
fn typed_pair<'a>(words: &mut Words<'a>) -> Result<(u16, u16), Complaint<'a>>
    ensures form { form_of words.new ≡ form_of words.old }
    ensures told { IfOk result (λ told. Takes (a_block ∷ (a_block ∷ [])) (words_left words.old)
        (words_left words.new) (pos told.0 ∷ (pos told.1 ∷ []))) }
    ensures failed { IfErr result (Fails (form_of words.old) (a_block ∷ (a_block ∷ []))
        (words_left words.old)) }
{
    let left = words.next_block()?;
    let right = words.next_block()?;
    Ok((left, right))
}
