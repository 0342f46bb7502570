//! A line of the input: `KIND N SEED COSTS PAIRS`, the cost kind, the number of blocks a plane,
//! where the random numbers start, how the costs are made, and which pairs stand.

use std::num::ParseIntError;
use std::str::{FromStr, Split};
use thiserror::Error;

/// A cost kind; its name tells the number of columns and how two-step kinds are nested.
#[derive(Clone, Copy)]
pub enum Kind {
    Plain,
    Free,
    Two,
    TwoFree,
    ThreeLeft,
    ThreeRight,
    FourEven,
    FourRight,
}

/// How each column of a cost is made.
#[derive(Clone, Copy)]
pub enum Costs {
    /// At random within 10^9.
    Wide,
    /// At random from -3 to 3.
    Small,
    /// At random 0 or 1.
    Bits,
    /// The first column from -1 to 1, the others within 10^9.
    Mixed,
    /// 7 everywhere.
    Equal,
    /// 10^9 everywhere.
    High,
    /// -10^9 everywhere.
    Low,
    /// 10^9 and -10^9 like the fields of a chessboard.
    Checks,
    /// 10^9 and -10^9 by the left block.
    ByLeft,
    /// 10^9 and -10^9 by the right block.
    ByRight,
    /// 10^9 above the diagonal and -10^9 elsewhere, or the other way round.
    Corner,
    /// 10^9 and -10^9 at random.
    Signs,
    /// 10^9 and -10^9 at random, and up to 3 nearer to zero.
    Edge,
    /// The product of the block numbers, counted from 1: rows added one at a time take long chains.
    Products,
    /// The same times 240,000.
    Steep,
    /// How far the block numbers are apart.
    Apart,
}

/// Which pairs stand.
#[derive(Clone, Copy)]
pub enum Pairs {
    Full,
    /// So many in a hundred, at random.
    Percent(u64),
    /// Each left block with the right block of its own number and the next one, but the last left
    /// block with the first right block alone.
    Chain,
    /// Block numbers that are at most 2 apart.
    Band,
    /// All but those of the first half of the left blocks, and one more, with the second half of
    /// the right blocks: so no pairing is perfect.
    Crowded,
}

/// The sheet that a line names.
#[derive(Clone, Copy)]
pub struct Order {
    pub kind: Kind,
    pub n: u16,
    pub seed: u64,
    pub costs: Costs,
    pub pairs: Pairs,
}

/// Why a line names no sheet.
#[derive(Debug, Drop, Error)]
pub enum LineError {
    #[error("a word is missing: a line is KIND N SEED COSTS PAIRS")]
    MissingWord,
    #[error("no such cost kind")]
    Kind,
    #[error("no such rule for costs")]
    Costs,
    #[error("no number where one has to be")]
    Number,
}

impl From<ParseIntError> for LineError {
    fn from(_error: ParseIntError) -> LineError {
        LineError::Number
    }
}

impl FromStr for Kind {
    type Err = LineError;

    fn from_str(word: &str) -> Result<Kind, LineError> {
        match word {
            "plain" => Ok(Kind::Plain),
            "free" => Ok(Kind::Free),
            "two" => Ok(Kind::Two),
            "two-free" => Ok(Kind::TwoFree),
            "three-left" => Ok(Kind::ThreeLeft),
            "three-right" => Ok(Kind::ThreeRight),
            "four-even" => Ok(Kind::FourEven),
            "four-right" => Ok(Kind::FourRight),
            _ => Err(LineError::Kind),
        }
    }
}

impl FromStr for Costs {
    type Err = LineError;

    fn from_str(word: &str) -> Result<Costs, LineError> {
        match word {
            "wide" => Ok(Costs::Wide),
            "small" => Ok(Costs::Small),
            "bits" => Ok(Costs::Bits),
            "mixed" => Ok(Costs::Mixed),
            "equal" => Ok(Costs::Equal),
            "high" => Ok(Costs::High),
            "low" => Ok(Costs::Low),
            "checks" => Ok(Costs::Checks),
            "by-left" => Ok(Costs::ByLeft),
            "by-right" => Ok(Costs::ByRight),
            "corner" => Ok(Costs::Corner),
            "signs" => Ok(Costs::Signs),
            "edge" => Ok(Costs::Edge),
            "products" => Ok(Costs::Products),
            "steep" => Ok(Costs::Steep),
            "apart" => Ok(Costs::Apart),
            _ => Err(LineError::Costs),
        }
    }
}

impl FromStr for Pairs {
    type Err = LineError;

    fn from_str(word: &str) -> Result<Pairs, LineError> {
        match word {
            "full" => Ok(Pairs::Full),
            "chain" => Ok(Pairs::Chain),
            "band" => Ok(Pairs::Band),
            "crowded" => Ok(Pairs::Crowded),
            _ => Ok(Pairs::Percent(word.parse()?)),
        }
    }
}

/// The next word as a value.
fn word<'a, T: FromStr>(words: &mut Split<'a, char>) -> Result<T, LineError>
where
    LineError: From<T::Err>,
{
    let word = words.next().ok_or(LineError::MissingWord)?;
    Ok(word.parse::<T>()?)
}

impl FromStr for Order {
    type Err = LineError;

    fn from_str(line: &str) -> Result<Order, LineError> {
        let mut words = line.split(' ');
        Ok(Order {
            kind: word(&mut words)?,
            n: word(&mut words)?,
            seed: word(&mut words)?,
            costs: word(&mut words)?,
            pairs: word(&mut words)?,
        })
    }
}
