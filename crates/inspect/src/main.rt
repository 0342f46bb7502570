//! Prints what the order file on standard input states, or why it is refused: in lines, or with the
//! argument `map` as a table of the costs with the optimum pairings marked.
#![tactic(auto)]

use command::Streams;
use report::inspect;
use std::env;
use std::process::ExitCode;

fn main(rt: HostRuntime) -> anyhow::Result<ExitCode> {
    let words = env::args(&rt)?.collect::<Vec<String>>(rt.alloc())?;
    Ok(inspect(rt.alloc(), &words, rt.stdin(), &mut Streams::of(&rt))?)
}
