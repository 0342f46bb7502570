//! A call on a sheet as a value: what it asks for, and how long the tables are that it is handed.

/// What a call asks for. `left` and `right` are block numbers from 0.
#[derive(Clone, Copy, Debug)]
pub enum Act<K> {
    Enter { left: u16, right: u16, cost: K },
    Strike { left: u16, right: u16 },
    Read { left: u16, right: u16 },
    Settle,
    Quote { left: u16, right: u16 },
    Total,
    Marks,
    Start,
    Next,
    Close,
    Reopen,
}

/// How many places of each table a call is handed.
#[derive(Clone, Copy, PartialEq, Eq, Debug)]
pub struct Lengths {
    pub costs: usize,
    pub standing: usize,
    pub partners: usize,
    pub left: usize,
    pub right: usize,
    pub walk: usize,
    pub marks: usize,
}

/// A call: what it asks for, and the lengths of the tables that it is handed.
#[derive(Clone, Copy, Debug)]
pub struct Call<K> {
    pub act: Act<K>,
    pub handed: Lengths,
}
