//! What each cause of a refusal means, and what to do about it: one table, which the code and the
//! contracts read.

ghost use Rattle.std.specs.Prelude.{◌≡◌};
ghost use Rattle.refusal_words.specs.Words.{meaning_of, remedy_for, has_place};

use sheet::Cause;

/// A row for each cause, in the order of their numbers: whether the cause is found in a field of a
/// file or in a line of a text, so that the place of its refusal is where that begins; what it
/// means; and what to do about it. The rows are tuples, since a definition reads no constant of a
/// struct.
pub const CAUSES: [(bool, &str, &str); 13] = [
    (
        true,
        "the size is 0 or above 64",
        "State a size from 1 to 64.",
    ),
    (
        false,
        "a table has the wrong length",
        "Lend pair tables with n * n places and lists with n places.",
    ),
    (
        true,
        "a block number is not below the size",
        "Number the blocks of each plane from 0.",
    ),
    (
        true,
        "a cost is not within 10^9",
        "Scale the costs down, all by the same factor.",
    ),
    (
        false,
        "the pair is absent",
        "Enter the pair with a cost first.",
    ),
    (
        false,
        "the standing pairs hold no perfect pairing",
        "Enter more pairs: some left blocks stand with too few right blocks.",
    ),
    (
        false,
        "the tables do not hold together",
        "Begin the sheet anew: enter its pairs, and settle it.",
    ),
    (
        true,
        "a field runs past the end of the file",
        "Look whether the file is cut short, or the length of this field wrong.",
    ),
    (
        true,
        "the tag of a field is unknown or out of order",
        "Write one size, then the pairs, then one end, and nothing behind it.",
    ),
    (
        true,
        "the length of a field is not the one of its tag",
        "Give a size 1 byte, a pair 10 bytes and the end none.",
    ),
    (
        false,
        "the output buffer is too short",
        "Lend 7 bytes, and 13 more for each standing pair.",
    ),
    (
        true,
        "a line has none of the forms that may come where it stands",
        "Write the problem line, then the nodes from 1 on, then the arcs; one space between words.",
    ),
    (
        true,
        "the number of nodes is odd, or that of the arcs is not the stated one",
        "State an even number of nodes, and as many arcs as there are arc lines.",
    ),
];

/// What a cause means.
pub fn meaning(cause: Cause) -> &'static str
    ensures { result.now ≡ meaning_of cause }
{
    CAUSES[cause.number() as usize - 1].1
}

/// What to do about a refusal for a cause.
pub fn remedy(cause: Cause) -> &'static str
    ensures { result.now ≡ remedy_for cause }
{
    CAUSES[cause.number() as usize - 1].2
}

/// Whether a cause is found in a field of a file or in a line of a text, so that the place of its
/// refusal says where.
pub(crate) fn has_place(cause: Cause) -> bool
    ensures { result ≡ has_place cause }
{
    CAUSES[cause.number() as usize - 1].0
}
