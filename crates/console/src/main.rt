//! Drives one sheet by the lines on standard input, as one would type them, and prints the answer
//! to each line at once.
#![tactic(auto)]

use command::Streams;
use console_words::talk;
use std::env;
use std::io::BufReader;
use std::process::ExitCode;

fn main(rt: HostRuntime) -> anyhow::Result<ExitCode> {
    let words = env::args(&rt)?.collect::<Vec<String>>(rt.alloc())?;
    let input = BufReader::new(rt.alloc(), rt.reader())?;
    Ok(talk(rt.alloc(), &words, input, &mut Streams::of(&rt))?)
}
