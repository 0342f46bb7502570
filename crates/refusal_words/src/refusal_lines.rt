//! Refusals in lines, with the crowd set of a sheet that holds no perfect pairing.

ghost use Rattle.std.specs.Prelude.{◌≡◌, ◌++◌, IfOk, OnOk, string_bytes};
ghost use Rattle.refusal_words.specs.Lines.{up_to};
ghost use Rattle.refusal_words.specs.Refusing.{meaning_line, remedy_line, block_word, crowd_lines};
ghost use Rattle.refusal_words.specs.Refusing.{refusal_lines, unmatched_lines};
ghost use Rattle.refusal_words.specs.Words.{explanation};

use crate::causes::{has_place, meaning, remedy};
use blockset::{BlockSet, MOST_BLOCKS};
use sheet::{Cause, Fault, Shortfall};
use std::alloc::{AllocError, Global};

/// Appends the line that says what a cause means, behind its number.
fn push_meaning(text: &mut String, cause: Cause) -> Result<(), AllocError>
    ensures { OnOk result (string_bytes text.new ≡ string_bytes text.old ++ meaning_line cause) }
{
    let number = cause.number();
    let meaning = meaning(cause);
    write!(text, "refused {number}: {meaning}\n")
}

/// Appends the line that says what to do.
fn push_remedy(text: &mut String, cause: Cause) -> Result<(), AllocError>
    ensures { OnOk result (string_bytes text.new ≡ string_bytes text.old ++ remedy_line cause) }
{
    let remedy = remedy(cause);
    write!(text, "{remedy}\n")
}

/// Appends the numbers of the left blocks of a crowd set.
fn push_blocks(text: &mut String, crowd: u64) -> Result<(), AllocError>
    ensures { OnOk result (string_bytes text.new
        ≡ string_bytes text.old ++ up_to MOST_BLOCKS (block_word crowd)) }
{
    let blocks = BlockSet::from_bits(crowd);
    for block in 0..MOST_BLOCKS {
        if blocks.contains(block as usize) {
            write!(text, " {block}")?;
        }
    }
    Ok(())
}

/// Appends the lines of a crowd set: its left blocks, and how many right blocks they are short of.
fn push_crowd(text: &mut String, shortfall: Shortfall) -> Result<(), AllocError>
    ensures { OnOk result (string_bytes text.new ≡ string_bytes text.old ++ crowd_lines shortfall) }
{
    let short = shortfall.short;
    text.push_str("crowd set: left blocks")?;
    push_blocks(text, shortfall.crowd)?;
    write!(text, "\nshortage: {short}\n")
}

/// Appends a refusal on two lines: the number of its cause and what that means, and what to do.
pub fn push_refusal(text: &mut String, cause: Cause) -> Result<(), AllocError>
    ensures { OnOk result (string_bytes text.new ≡ string_bytes text.old ++ refusal_lines cause) }
{
    push_meaning(text, cause)?;
    push_remedy(text, cause)
}

/// Appends the refusal of a sheet that holds no perfect pairing. The crowd set and its shortage
/// stand, a line each, before what to do.
pub fn push_unmatched(
    text: &mut String,
    cause: Cause,
    shortfall: Shortfall,
) -> Result<(), AllocError>
    ensures { OnOk result (string_bytes text.new
        ≡ string_bytes text.old ++ unmatched_lines cause shortfall) }
{
    push_meaning(text, cause)?;
    push_crowd(text, shortfall)?;
    push_remedy(text, cause)
}

/// A refusal in words, on two lines: its number, for a fault of a field or of a line the byte where
/// that begins, and what the cause means; and what to do.
pub fn explain(heap: Global, fault: Fault) -> Result<String, AllocError>
    ensures { IfOk result (λ text. string_bytes text ≡ explanation fault) }
{
    let number = fault.cause.number();
    let place = fault.place;
    let meaning = meaning(fault.cause);
    let remedy = remedy(fault.cause);
    if has_place(fault.cause) {
        format!(in heap; "refused {number} at byte {place}: {meaning}\n{remedy}\n")
    } else {
        format!(in heap; "refused {number}: {meaning}\n{remedy}\n")
    }
}
