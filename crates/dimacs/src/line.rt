//! Lines: the cases that a line can be, by its words.

use crate::word::{Cost, Number};

/// A line by its words, which are parts of the text.
#[derive(Clone, Copy, Debug)]
pub enum Line<'a> {
    /// A line that states nothing; what stands behind its letter.
    Comment(&'a [u8]),
    /// How many nodes and arcs there are.
    Problem {
        nodes: Number<'a>,
        arcs: Number<'a>,
    },
    /// A left node.
    Node(Number<'a>),
    /// An arc from a left to a right node, and its cost.
    Arc {
        left: Number<'a>,
        right: Number<'a>,
        cost: Cost<'a>,
    },
}
