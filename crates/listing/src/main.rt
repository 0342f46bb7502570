//! Prints the least total and the optimum pairings of the order file on standard input, or the
//! number of its refusal.
#![tactic(auto)]

use command::Streams;
use report::listing;
use std::env;
use std::process::ExitCode;

fn main(rt: HostRuntime) -> anyhow::Result<ExitCode> {
    let words = env::args(&rt)?.collect::<Vec<String>>(rt.alloc())?;
    Ok(listing(rt.alloc(), &words, rt.stdin(), &mut Streams::of(&rt))?)
}
