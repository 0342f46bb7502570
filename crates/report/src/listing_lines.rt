//! The lines of a listing beside its pairings: the total, and a refusal by its number alone.

ghost use Rattle.std.specs.Prelude.{◌≡◌, ◌++◌, [], ◌∷◌, IfOk, OnOk, string_bytes};
ghost use Rattle.report.specs.Listing.{cause_line, total_line};

use cost::Plain;
use sheet::Cause;
use std::alloc::{AllocError, Global};

/// A listing has at most this many pairings.
pub const MOST_PAIRINGS: usize = 1_000;

/// The line that tells a refusal by the number of its cause alone: `refused NUMBER`.
pub fn cause_line(heap: Global, cause: Cause) -> Result<String, AllocError>
    ensures { IfOk result (λ text. string_bytes text ≡ cause_line cause) }
{
    let number = cause.number();
    format!(in heap; "refused {number}\n")
}

/// Appends the line of a total: `total NUMBER`.
pub fn push_total_line(text: &mut String, total: Plain) -> Result<(), AllocError>
    ensures { OnOk result
        (string_bytes text.new ≡ string_bytes text.old ++ total_line (total.0 ∷ [])) }
{
    let Plain(total) = total;
    write!(text, "total {total}\n")
}
