//! The answers that say what came of a call.

ghost use Rattle.std.specs.Prelude.{◌≡◌, MatchResult};
ghost use Rattle.session.specs.Book.{opened, settled, walking};
ghost use Rattle.session.specs.Program.{state_after};
ghost use Rattle.session.specs.Runs.{state_of, IsSettleAnswer, IsStartAnswer, IsStepAnswer};
ghost use Rattle.session.specs.Runs.{IsRefusalAnswer};
ghost use Rattle.session.specs.declared.answer.Answer.TheVariants.{Done, Amount, Quoted, Marked};
ghost use Rattle.session.specs.declared.answer.Answer.TheVariants.{Refused};

use crate::answer::Answer;
use crate::state::State;
use cost::Cost;
use sheet::{Fault, OpenSheet, Refusal, SettledSheet, Shortfall, Step, Walk};

/// The answer to a call that gives nothing.
pub(super) fn done_answer<K: Cost>(outcome: Result<(), Fault>) -> Answer<K>
    ensures { MatchResult outcome (λ u. result ≡ Done) (λ f. result ≡ Refused f) }
{
    match outcome {
        Ok(()) => Answer::Done,
        Err(fault) => Answer::Refused(fault),
    }
}

/// The answer to a call that gives an amount.
pub(super) fn amount_answer<K: Cost>(outcome: Result<K, Fault>) -> Answer<K>
    ensures { MatchResult outcome (λ x. result ≡ Amount x) (λ f. result ≡ Refused f) }
{
    match outcome {
        Ok(amount) => Answer::Amount(amount),
        Err(fault) => Answer::Refused(fault),
    }
}

/// The answer to a quote.
pub(super) fn quote_answer<K: Cost>(outcome: Result<(K, K), Fault>) -> Answer<K>
    ensures { MatchResult outcome (λ q. result ≡ Quoted q.0 q.1) (λ f. result ≡ Refused f) }
{
    match outcome {
        Ok((cost, slack)) => Answer::Quoted { cost, slack },
        Err(fault) => Answer::Refused(fault),
    }
}

/// The answer to a call that writes marks, with a copy of the table as the call left it.
pub(super) fn marks_answer<K: Cost>(outcome: Result<(), Fault>, table: Vec<u8>) -> Answer<K>
    ensures { MatchResult outcome (λ u. result ≡ Marked table) (λ f. result ≡ Refused f) }
{
    match outcome {
        Ok(()) => Answer::Marked(table),
        Err(fault) => Answer::Refused(fault),
    }
}

/// The answer to a step of a walk, with a copy of the walk list as the call left it.
pub(super) fn step_answer<K: Cost>(outcome: Result<Step, Fault>, list: Vec<u16>) -> Answer<K>
    ensures { IsStepAnswer outcome list result }
{
    match outcome {
        Ok(Step::Next) => Answer::Pairing(list),
        Ok(Step::End) => Answer::End,
        Err(fault) => Answer::Refused(fault),
    }
}

/// The state and the answer that a start leaves, with a copy of the walk list as it left it.
pub(super) fn after_start<K: Cost>(
    outcome: Result<Walk, Refusal<SettledSheet>>,
    list: Vec<u16>,
) -> (State, Answer<K>)
    ensures state { state_of result.0 ≡ state_after walking settled outcome }
    ensures answer { IsStartAnswer outcome list result.1 }
{
    match outcome {
        Ok(walk) => (State::Walking(walk), Answer::Pairing(list)),
        Err(refusal) => {
            let Refusal {
                fault,
                state,
                shortfall,
            } = refusal;
            (State::Settled(state), refusal_answer(fault, shortfall))
        }
    }
}

/// The state and the answer that a settle leaves, with copies of the tables as it left them.
pub(super) fn after_settle<K: Cost>(
    outcome: Result<SettledSheet, Refusal<OpenSheet>>,
    partners: Vec<u16>,
    left: Vec<K>,
    right: Vec<K>,
) -> (State, Answer<K>)
    ensures state { state_of result.0 ≡ state_after settled opened outcome }
    ensures answer { IsSettleAnswer outcome partners left right result.1 }
{
    match outcome {
        Ok(settled) => {
            let answer = Answer::Settled {
                partners,
                left,
                right,
            };
            (State::Settled(settled), answer)
        }
        Err(refusal) => {
            let Refusal {
                fault,
                state,
                shortfall,
            } = refusal;
            (State::Open(state), refusal_answer(fault, shortfall))
        }
    }
}

/// The answer to a call that was refused, perhaps with a crowd set.
fn refusal_answer<K: Cost>(fault: Fault, shortfall: Option<Shortfall>) -> Answer<K>
    ensures { IsRefusalAnswer fault shortfall result }
{
    match shortfall {
        Some(shortfall) => Answer::Unmatched(fault, shortfall),
        None => Answer::Refused(fault),
    }
}
