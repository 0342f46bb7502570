//! Lines of a word and numbers, and that of a pairing.

ghost use Rattle.std.specs.Prelude.{◌≡◌, ◌++◌, OnOk, string_bytes};
ghost use Rattle.refusal_words.specs.Lines.{numbers_line, pairing_line};

use std::alloc::AllocError;

/// Appends the line of a word and numbers behind it.
pub fn push_numbers_line(text: &mut String, word: &str, numbers: &[u16]) -> Result<(), AllocError>
    ensures { OnOk result
        (string_bytes text.new ≡ string_bytes text.old ++ numbers_line word.now numbers.now) }
{
    text.push_str(word)?;
    for number in numbers {
        write!(text, " {number}")?;
    }
    text.push_str("\n")
}

/// Appends the line of a pairing: `pairing R0 R1 ..`, the right block of each left block in turn.
pub fn push_pairing_line(text: &mut String, pairing: &[u16]) -> Result<(), AllocError>
    ensures { OnOk result
        (string_bytes text.new ≡ string_bytes text.old ++ pairing_line pairing.now) }
{
    push_numbers_line(text, "pairing", pairing)
}
