//! The answer to a call on a sheet as a value.

use sheet::{Fault, Shortfall};

/// The answer to a call.
#[derive(Drop, Debug)]
pub enum Answer<K> {
    /// The sheet's state has no such call, so none was made.
    NotMade,
    /// The call was refused.
    Refused(Fault),
    /// The sheet was not settled, since no pairing is perfect: the crowd set, and its shortage.
    Unmatched(Fault, Shortfall),
    /// The call is done and tells nothing: a pair was entered or struck, a walk closed, a sheet
    /// reopened.
    Done,
    /// The sheet was settled; these partners and prices were written.
    Settled {
        partners: Vec<u16>,
        left: Vec<K>,
        right: Vec<K>,
    },
    /// The cost of a pair, and what it exceeds its two prices by.
    Quoted {
        cost: K,
        slack: K,
    },
    /// The cost of the pair that was read, or the total of the partners.
    Amount(K),
    /// These marks were written.
    Marked(Vec<u8>),
    /// This pairing was written to the walk list.
    Pairing(Vec<u16>),
    /// The walk has no further pairing.
    End,
}
