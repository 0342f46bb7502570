//! What was measured of a pair, as a line of text has it.

ghost use Rattle.std.specs.Prelude.{◌<◌, IfOk};
ghost use Rattle.blockset.specs.declared.TheConstants.{MOST_BLOCKS};

use blockset::MOST_BLOCKS;
use example_kind::Block;
use std::num::ParseIntError;
use std::str::{FromStr, SplitWhitespace};
use thiserror::Error;

/// What was measured of a pair of blocks, whose numbers a sheet can have.
#[derive(Clone, Copy, Debug)]
pub struct Figures {
    pub left: u16,
    pub right: u16,
    /// The time that a program of both took, in microseconds.
    pub time: u32,
    pub left_wear: Block,
    pub right_wear: Block,
    ghost left_exists: { left < MOST_BLOCKS },
    ghost right_exists: { right < MOST_BLOCKS },
}

/// Why a line has no figures.
#[derive(Debug, Drop, Error)]
pub enum LineError {
    #[error("a number is missing: write LEFT RIGHT TIME ERASES ERASES CLASS CLASS")]
    TooFew,
    #[error("there is more than the seven numbers LEFT RIGHT TIME ERASES ERASES CLASS CLASS")]
    TooMany,
    #[error("a word is no whole number, or a number is too large")]
    Number(#[from] ParseIntError),
    #[error("there is no block {0}: a plane has at most {MOST_BLOCKS}, numbered from 0")]
    Block(u16),
}

/// The next word as a number.
fn number<'a, T: FromStr>(words: &mut SplitWhitespace<'a>) -> Result<T, LineError>
where
    LineError: From<T::Err>,
{
    let word = words.next().ok_or(LineError::TooFew)?;
    Ok(word.parse::<T>()?)
}

/// The next word as the number of a block.
fn block(words: &mut SplitWhitespace<'_>) -> Result<u16, LineError>
    ensures { IfOk result (λ block. block < MOST_BLOCKS) }
{
    let block = number(words)?;
    if block >= MOST_BLOCKS {
        return Err(LineError::Block(block));
    }
    Ok(block)
}

/// A line is `LEFT RIGHT TIME ERASES ERASES CLASS CLASS`: the two blocks and the time, then the
/// erase counts and the wear classes, each of the left block before that of the right one.
impl FromStr for Figures {
    type Err = LineError;

    fn from_str(line: &str) -> Result<Figures, LineError> {
        let mut words = line.split_whitespace();
        let (left, right) = (block(&mut words)?, block(&mut words)?);
        let time = number(&mut words)?;
        let (left_erases, right_erases) = (number(&mut words)?, number(&mut words)?);
        let (left_class, right_class) = (number(&mut words)?, number(&mut words)?);
        if words.next().is_some() {
            return Err(LineError::TooMany);
        }
        let (left_wear, right_wear) = (
            Block {
                erases: left_erases,
                class: left_class,
            },
            Block {
                erases: right_erases,
                class: right_class,
            },
        );
        Ok(Figures {
            left,
            right,
            time,
            left_wear,
            right_wear,
        })
    }
}
