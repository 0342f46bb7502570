//! Imports assignment texts, and prints what each states, or why it is refused. Standard input has
//! a text a line, its bytes in hex; the texts and what has to be printed are made by
//! tools/dimacs.py, which knows nothing of the core. Each text is also checked, and imported into
//! tables that fit and into such that do not; where two of these calls do not agree, the program
//! ends with an error.
#![tactic(auto)]

mod lent_tables;
mod text;

use anyhow::Context;
use std::io;
use text::tell;

fn run(rt: &HostRuntime) -> anyhow::Result<()> {
    let lines = io::read_to_string(rt.alloc(), rt.stdin())?;
    for (k, line) in lines.lines().enumerate() {
        let bytes = hex::decode(rt.alloc(), line)?;
        let told = tell(rt.alloc(), &bytes).context(format_args!("line {}", k + 1))?;
        rt.print(told)?;
    }
    Ok(())
}

fn main(rt: HostRuntime) -> anyhow::Result<()> {
    run(&rt)
}
