//! Answers to calls in plain words.

ghost use Rattle.std.specs.Prelude.{◌≡◌, ◌++◌, OnOk, slice_get, string_bytes};
ghost use Rattle.session.specs.declared.call.Act.TheVariants.{Enter};
ghost use Rattle.console_words.specs.Answering.{cost_line, partners_line, prices_line, mark_row};
ghost use Rattle.console_words.specs.Answering.{mark_rows, done_words, not_made_words};
ghost use Rattle.console_words.specs.Answering.{answer_words, mark_word, settled_lines};
ghost use Rattle.console_words.specs.Answering.{state_words, state_calls};

use crate::typed_cost::TypedCost;
use crate::verb::Verb;
use refusal_words::{push_numbers_line, push_pairing_line, push_refusal, push_unmatched};
use session::{Act, Answer, State};
use std::alloc::AllocError;
use tables::place;

/// Appends the line of one cost behind a word.
fn push_cost_line<K: TypedCost>(text: &mut String, word: &str, cost: K) -> Result<(), AllocError>
    ensures { OnOk result (string_bytes text.new
        ≡ string_bytes text.old ++ cost_line K.written word.now cost) }
{
    text.push_str(word)?;
    text.push_str(" ")?;
    cost.push_to(text)?;
    text.push_str("\n")
}

/// Appends the line of the right block of each left block.
fn push_partners(text: &mut String, partners: &[u16]) -> Result<(), AllocError>
    ensures { OnOk result (string_bytes text.new
        ≡ string_bytes text.old ++ partners_line partners.now) }
{
    push_numbers_line(text, "partners", partners)
}

/// Appends the line of the prices of one plane.
fn push_prices<K: TypedCost>(text: &mut String, plane: &str, prices: &[K]) -> Result<(), AllocError>
    ensures { OnOk result (string_bytes text.new
        ≡ string_bytes text.old ++ prices_line K.written plane.now prices.now) }
{
    write!(text, "{plane} prices")?;
    for price in prices {
        text.push_str(" ")?;
        price.push_to(text)?;
    }
    text.push_str("\n")
}

/// Appends a mark, if there is one.
fn push_mark(text: &mut String, mark: Option<u8>) -> Result<(), AllocError>
    ensures { OnOk result (string_bytes text.new ≡ string_bytes text.old ++ mark_word mark) }
{
    match mark {
        Some(mark) => write!(text, "{mark}"),
        None => Ok(()),
    }
}

/// The mark at a place, if there is one.
fn mark_at(marks: &[u8], place: usize) -> Option<u8>
    ensures { result ≡ slice_get marks.now place }
{
    marks.get(place).copied()
}

/// Appends the marks of one of n left blocks.
fn push_mark_row(text: &mut String, n: u16, marks: &[u8], left: u16) -> Result<(), AllocError>
    ensures { OnOk result (string_bytes text.new
        ≡ string_bytes text.old ++ mark_row n marks.now left) }
{
    for right in 0..n {
        push_mark(text, mark_at(marks, place(n, left, right)))?;
    }
    text.push_str("\n")
}

/// Appends a row of marks for each of n left blocks.
fn push_marks(text: &mut String, n: u16, marks: &[u8]) -> Result<(), AllocError>
    ensures { OnOk result (string_bytes text.new
        ≡ string_bytes text.old ++ mark_rows n marks.now) }
{
    for left in 0..n {
        push_mark_row(text, n, marks, left)?;
    }
    Ok(())
}

/// Appends what a settle wrote.
fn push_settled<K: TypedCost>(
    text: &mut String,
    partners: &[u16],
    left: &[K],
    right: &[K],
) -> Result<(), AllocError>
    ensures { OnOk result (string_bytes text.new
        ≡ string_bytes text.old ++ settled_lines K.written partners.now left.now right.now) }
{
    text.push_str("settled\n")?;
    push_partners(text, partners)?;
    push_prices(text, "left", left)?;
    push_prices(text, "right", right)
}

/// Appends what was done by a call that enters a pair.
fn push_entered<K: TypedCost>(
    text: &mut String,
    left: u16,
    right: u16,
    cost: K,
) -> Result<(), AllocError>
    ensures { OnOk result (string_bytes text.new
        ≡ string_bytes text.old ++ done_words K.written (Enter left right cost)) }
{
    write!(text, "entered {left} {right} at ")?;
    cost.push_to(text)?;
    text.push_str("\n")
}

/// Appends what was done by a call that tells nothing.
fn push_done<K: TypedCost>(text: &mut String, act: Act<K>) -> Result<(), AllocError>
    ensures { OnOk result (string_bytes text.new
        ≡ string_bytes text.old ++ done_words K.written act) }
{
    match act {
        Act::Enter { left, right, cost } => push_entered(text, left, right, cost),
        Act::Strike { left, right } => write!(text, "struck {left} {right}\n"),
        Act::Close => text.push_str("closed: the sheet is settled\n"),
        Act::Reopen => text.push_str("reopened: the sheet is open\n"),
        // no other call is answered so
        _ => text.push_str("done\n"),
    }
}

/// What state a sheet is in.
fn state_words(state: &State) -> &'static str
    ensures { result.now ≡ state_words state.now }
{
    match state {
        State::Open(_) => "the sheet is open, and an open sheet",
        State::Settled(_) => "the sheet is settled, and a settled sheet",
        State::Walking(_) => "the sheet is in a walk, and a walk",
    }
}

/// Which calls a state has.
fn state_calls(state: &State) -> &'static str
    ensures { result.now ≡ state_calls state.now }
{
    match state {
        State::Open(_) => "enter, strike, read and settle",
        State::Settled(_) => "quote, total, marks, start and reopen",
        State::Walking(_) => "next and close",
    }
}

/// Appends that the sheet's state has no such call, and which calls it has.
fn push_not_made(text: &mut String, state: &State, verb: Verb) -> Result<(), AllocError>
    ensures { OnOk result (string_bytes text.new
        ≡ string_bytes text.old ++ not_made_words state.now verb) }
{
    let place = state_words(state);
    let word = verb.word();
    let calls = state_calls(state);
    write!(text, "not made: {place} has no {word}\nIt has {calls}.\n")
}

/// Appends the answer to a call, which left the sheet in this state.
pub(crate) fn push_answer<K: TypedCost>(
    text: &mut String,
    act: Act<K>,
    state: &State,
    answer: Answer<K>,
) -> Result<(), AllocError>
    ensures { OnOk result (string_bytes text.new
        ≡ string_bytes text.old ++ answer_words K.written act state.now answer) }
{
    match answer {
        Answer::NotMade => push_not_made(text, state, Verb::of(&act)),
        Answer::Refused(fault) => push_refusal(text, fault.cause),
        Answer::Unmatched(fault, shortfall) => push_unmatched(text, fault.cause, shortfall),
        Answer::Done => push_done(text, act),
        Answer::Settled {
            partners,
            left,
            right,
        } => { push_settled(text, partners.as_slice(), left.as_slice(), right.as_slice()) }
        Answer::Quoted { cost, slack } => {
            push_cost_line(text, "cost", cost)?;
            push_cost_line(text, "above its two prices by", slack)
        }
        Answer::Amount(amount) => {
            let word = match act {
                Act::Total => "total",
                _ => "cost",
            };
            push_cost_line(text, word, amount)
        }
        Answer::Marked(marks) => push_marks(text, state.size(), marks.as_slice()),
        Answer::Pairing(pairing) => push_pairing_line(text, pairing.as_slice()),
        Answer::End => text.push_str("end\n"),
    }
}
