//! A sheet in one of its states, as one value.

ghost use Rattle.std.specs.Prelude.{◌≡◌};
ghost use Rattle.session.specs.Runs.{state_of};
ghost use Rattle.sheet.specs.Size.{size_of};

use sheet::{OpenSheet, SettledSheet, Walk};

/// A sheet in one of its states.
#[derive(Drop, Debug)]
pub enum State {
    Open(OpenSheet),
    Settled(SettledSheet),
    Walking(Walk),
}

impl State {
    /// The number of left blocks, which is that of the right blocks too.
    pub fn size(&self) -> u16
        ensures { result ≡ size_of (state_of self.now).sheet }
    {
        match self {
            State::Open(sheet) => sheet.size(),
            State::Settled(sheet) => sheet.size(),
            State::Walking(walk) => walk.size(),
        }
    }
}
