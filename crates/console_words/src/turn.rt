//! What a line comes to.

/// What the one who typed a line is to see of it.
#[derive(Drop)]
pub enum Turn {
    /// This text, whole lines or nothing.
    Said(String),
    /// Nothing more: the line asked for the end.
    Over,
}
