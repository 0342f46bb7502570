//! The cost kinds, as far as a trial needs them: made from columns, and shown as columns.

use crate::amount::Amount;
use cost::{Cost, Free, Plain, TwoStep};
use std::alloc::AllocError;

/// A cost kind whose values can be made and shown column by column.
pub trait Trial: Cost {
    /// The value made of the first columns, which are taken away.
    fn made(columns: &mut &[i64]) -> Self;

    /// Appends the columns, each behind a space.
    fn show(self, text: &mut String) -> Result<(), AllocError>;
}

/// A cost kind whose values the trial adds up on its own.
pub trait Summed: Trial {
    const NAME: &'static str;

    fn amount(self) -> Amount;
}

/// Two plain costs, the second of which decides between equal first ones.
pub type Two = TwoStep<Plain, Plain>;

/// A two-step cost of a two-step cost and a plain one.
pub type Nested = TwoStep<Two, Plain>;

impl Trial for Plain {
    fn made(columns: &mut &[i64]) -> Plain {
        let [first, rest @ ..] = *columns else {
            return Plain(0);
        };
        *columns = rest;
        Plain(*first)
    }

    fn show(self, text: &mut String) -> Result<(), AllocError> {
        let column = self.0;
        write!(text, " {column}")
    }
}

impl Trial for Free {
    fn made(_columns: &mut &[i64]) -> Free {
        Free
    }

    fn show(self, _text: &mut String) -> Result<(), AllocError> {
        Ok(())
    }
}

impl<A: Trial, B: Trial> Trial for TwoStep<A, B> {
    fn made(columns: &mut &[i64]) -> TwoStep<A, B> {
        let first = A::made(columns);
        TwoStep(first, B::made(columns))
    }

    fn show(self, text: &mut String) -> Result<(), AllocError> {
        self.0.show(text)?;
        self.1.show(text)
    }
}

impl Summed for Plain {
    const NAME: &'static str = "plain";

    fn amount(self) -> Amount {
        Amount::of([self.0, 0, 0])
    }
}

impl Summed for TwoStep<Plain, Plain> {
    const NAME: &'static str = "two-step";

    fn amount(self) -> Amount {
        let TwoStep(Plain(first), Plain(second)) = self;
        Amount::of([first, second, 0])
    }
}

impl Summed for TwoStep<TwoStep<Plain, Plain>, Plain> {
    const NAME: &'static str = "nested";

    fn amount(self) -> Amount {
        let TwoStep(TwoStep(Plain(first), Plain(second)), Plain(third)) = self;
        Amount::of([first, second, third])
    }
}
