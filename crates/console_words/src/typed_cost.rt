//! Costs as they are typed and printed: one whole number, or two.

ghost use Rattle.std.specs.Prelude.{◌≡◌, ℕ, ℤ, List, [], ◌∷◌, ◌++◌, codes};
ghost use Rattle.std.specs.Prelude.{OnOk, IfOk, IfErr, replicate, string_bytes};
ghost use Rattle.std.specs.Fmt.{signed_decimal};
ghost use Rattle.console_words.specs.Forms.{a_number, Takes, Fails};
ghost use Rattle.console_words.specs.Words.{words_left, form_of};

use crate::complaint::Complaint;
use crate::words::Words;
use cost::{Cost, Plain, TwoStep};
use std::alloc::AllocError;

/// A kind of costs that can be typed.
pub trait TypedCost: Cost {
    // How a cost is written.
    ghost written: { Self → List ℕ };

    // The numbers that it is typed as.
    ghost numbers: { Self → List ℤ };

    // The form of a line that enters a pair.
    ghost entering: { List ℕ };

    /// The form of a line that enters a pair.
    fn enter_form() -> &'static str
        ensures { result.now ≡ entering };

    /// Takes the words of a cost, a number for each column. Which words are left where one of them
    /// is missing or wrong is not said.
    fn take_from<'a>(words: &mut Words<'a>) -> Result<Self, Complaint<'a>>
        ensures form { form_of words.new ≡ form_of words.old }
        ensures told { IfOk result (λ cost. Takes (replicate Self.columns a_number)
            (words_left words.old) (words_left words.new) (numbers cost)) }
        ensures failed { IfErr result (Fails (form_of words.old)
            (replicate Self.columns a_number) (words_left words.old)) };

    /// Appends the cost.
    fn push_to(self, text: &mut String) -> Result<(), AllocError>
        ensures { OnOk result (string_bytes text.new ≡ string_bytes text.old ++ written self) };
}

/// A plain cost is its number.
impl TypedCost for Plain {
    ghost written = { λ cost. signed_decimal cost.0 };

    ghost numbers = { λ cost. cost.0 ∷ [] };

    ghost entering = { codes "enter L R COST" };

    fn enter_form() -> &'static str {
        "enter L R COST"
    }

    fn take_from<'a>(words: &mut Words<'a>) -> Result<Plain, Complaint<'a>> {
        Ok(Plain(words.next_number()?))
    }

    fn push_to(self, text: &mut String) -> Result<(), AllocError> {
        let Plain(number) = self;
        write!(text, "{number}")
    }
}

/// A cost of two steps is typed as two numbers, and printed as `(FIRST, SECOND)`.
impl TypedCost for TwoStep<Plain, Plain> {
    ghost written = { λ cost. codes "(" ++ (signed_decimal cost.0.0
        ++ (codes ", " ++ (signed_decimal cost.1.0 ++ codes ")"))) };

    ghost numbers = { λ cost. cost.0.0 ∷ cost.1.0 ∷ [] };

    ghost entering = { codes "enter L R COST COST" };

    fn enter_form() -> &'static str {
        "enter L R COST COST"
    }

    fn take_from<'a>(words: &mut Words<'a>) -> Result<TwoStep<Plain, Plain>, Complaint<'a>> {
        let first = Plain(words.next_number()?);
        let second = Plain(words.next_number()?);
        Ok(TwoStep(first, second))
    }

    fn push_to(self, text: &mut String) -> Result<(), AllocError> {
        let TwoStep(Plain(first), Plain(second)) = self;
        write!(text, "({first}, {second})")
    }
}
