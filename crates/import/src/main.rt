//! Prints the sheet that the assignment text on standard input states, or why it is refused: in
//! lines, or with the argument `order` as an order file.
#![tactic(auto)]

use command::Streams;
use report::import;
use std::env;
use std::process::ExitCode;

fn main(rt: HostRuntime) -> anyhow::Result<ExitCode> {
    let words = env::args(&rt)?.collect::<Vec<String>>(rt.alloc())?;
    Ok(import(rt.alloc(), &words, rt.stdin(), &mut Streams::of(&rt))?)
}
