//! A size that a sheet can have.

ghost use Rattle.std.specs.Prelude.{◌≡◌, ◌≤◌, ◌↔◌, IsOk, IfOk, IfErr};
ghost use Rattle.blockset.specs.declared.TheConstants.{MOST_BLOCKS};

use crate::complaint::Complaint;
use crate::words::is_overflow;
use tables::MOST_BLOCKS;

/// How many left blocks a sheet has, and as many right blocks: from 1 to 64.
#[derive(Clone, Copy)]
pub struct SheetSize {
    pub blocks: u16,
    ghost some: { 1 ≤ blocks },
    ghost few: { blocks ≤ MOST_BLOCKS },
}

impl SheetSize {
    ghost use Rattle.console_words.specs.Forms.{a_size, Blames};
    ghost use Rattle.console_words.specs.Sizing.{TellsSize, number_in};

    /// The size that a word tells, in decimal digits behind a `+` or nothing.
    pub fn from_word(word: &str) -> Result<SheetSize, Complaint<'_>>
        ensures told { IsOk result ↔ TellsSize word.now }
        ensures value { IfOk result (λ size. size.blocks ≡ number_in word.now) }
        ensures other { IfErr result (Blames a_size word.now) }
    {
        match word.parse::<u16>() {
            Ok(blocks) if 1 <= blocks && blocks <= MOST_BLOCKS => Ok(SheetSize { blocks }),
            Ok(_) => Err(Complaint::Size(word)),
            Err(error) if is_overflow(&error) => Err(Complaint::Size(word)),
            Err(_) => Err(Complaint::NotFromZero(word)),
        }
    }
}
