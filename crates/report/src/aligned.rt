//! Words and numbers set right in columns.

ghost use Rattle.std.specs.Prelude.{◌≡◌, ◌++◌, OnOk, decimal, string_bytes};
ghost use Rattle.report.specs.Mapping.{right_in};

use std::alloc::{AllocError, Global};

/// Appends a word behind as many blanks as it falls short of a width.
pub(crate) fn push_right(text: &mut String, width: usize, word: &str) -> Result<(), AllocError>
    ensures { OnOk result
        (string_bytes text.new ≡ string_bytes text.old ++ right_in width word.now) }
{
    for _ in 0..width.saturating_sub(word.len()) {
        text.push_str(" ")?;
    }
    text.push_str(word)
}

/// Appends a number likewise.
pub(crate) fn push_number(
    text: &mut String,
    heap: Global,
    width: usize,
    number: u16,
) -> Result<(), AllocError>
    ensures { OnOk result
        (string_bytes text.new ≡ string_bytes text.old ++ right_in width (decimal number)) }
{
    let word = format!(in heap; "{number}")?;
    push_right(text, width, word.as_str())
}
