//! Draws the order file on standard input as a picture, in SVG on standard output; a file that is
//! refused, or whose sheet holds no perfect pairing, is told in words on standard error.
#![tactic(auto)]

mod canvas;
mod ladder;
mod lists;
mod solved;
mod table;

use command::{Command, Streams, WRONG_USAGE};
use refusal_words::{explain, push_unmatched};
use report::read_input;
use sheet::Cause;
use solved::{Trouble, solve};
use std::alloc::{AllocError, Global};
use std::env;
use std::process::ExitCode;

const HELP: &str = "\
usage: picture < ORDER-FILE > PICTURE.svg

Draws the costs of an order file as a table, with a row for each left block
(plane 0) and a column for each right block (plane 1): the pairs that some
optimum pairing has are tinted, those of the first one are strong, and the
greatest prices stand beside the blocks. The first optimum pairings follow, as
lines between blocks, or of more than 16 blocks as lists of right blocks.
A file that is refused is told in words on standard error, with status 1; so is
a sheet without a perfect pairing, with its crowd set and shortage.
";

// The status of a program whose order file is refused.
const REFUSED: u8 = 1;

/// Why there is no picture, in words.
fn reason(heap: Global, trouble: Trouble) -> Result<String, AllocError> {
    match trouble {
        Trouble::Refused(fault) => explain(heap, fault),
        Trouble::Unmatched(shortfall) => {
            let mut text = String::new(heap);
            push_unmatched(&mut text, Cause::NoPerfectPairing, shortfall)?;
            Ok(text)
        }
        Trouble::Memory(error) => Err(error),
    }
}

fn draw_input(rt: &HostRuntime) -> anyhow::Result<ExitCode> {
    let heap = rt.alloc();
    let file = read_input(heap, rt.stdin())?;
    let mut to = Streams::of(rt);
    match solve(heap, file.as_slice()) {
        Ok(solved) => Ok(to.print(canvas::draw(heap, &solved)?.as_str())?),
        Err(trouble) => Ok(to.complain(reason(heap, trouble)?.as_str(), REFUSED)?),
    }
}

fn main(rt: HostRuntime) -> anyhow::Result<ExitCode> {
    let words = env::args(&rt)?.collect::<Vec<String>>(rt.alloc())?;
    match Command::asked(&words) {
        Some(Command::Run) => draw_input(&rt),
        Some(Command::Help) => Ok(Streams::of(&rt).print(HELP)?),
        None => Ok(Streams::of(&rt).complain(HELP, WRONG_USAGE)?),
    }
}
