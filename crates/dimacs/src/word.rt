//! Words: the numbers and costs of a line, each as a part of the text.

/// A number: its digits as a part of the text, the offset at which they begin, and the number that
/// they write, or 2^64 - 1 where it is more.
#[derive(Clone, Copy, Debug)]
pub struct Number<'a> {
    pub text: &'a [u8],
    pub place: usize,
    pub value: u64,
}

/// A cost: its sign and digits as a part of the text, the offset at which they begin, and the cost
/// that they write, or 2^63 - 1 with its sign where it is beyond.
#[derive(Clone, Copy, Debug)]
pub struct Cost<'a> {
    pub text: &'a [u8],
    pub place: usize,
    pub value: i64,
}
