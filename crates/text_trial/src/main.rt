//! Runs the programs that print texts, each time with words and an input of their own, and prints
//! what they write and how they end; and every refusal in words. Standard input has one run after
//! the other; the runs and what has to be printed are made by tools/texts.py, which knows nothing
//! of the core.
#![tactic(auto)]

mod run;

use command::Streams;
use run::Run;
use std::io::Read;
use std::process::ExitCode;

/// Prints an output; of one that is no text, but an order file, and so has a byte 0, the bytes in
/// hex.
fn tell_output(rt: &HostRuntime, output: &[u8]) -> anyhow::Result<()> {
    if output.contains(&0) {
        let digits = hex::encode(rt.alloc(), output)?;
        println!(rt; "{digits}")?;
    } else {
        rt.write_all(output)?;
    }
    Ok(())
}

/// Makes a run, and prints its command and its output; and if it does not end well, how it ends and
/// what it complains of.
fn tell(rt: &HostRuntime, run: &Run) -> anyhow::Result<()> {
    let mut to = Streams {
        output: Vec::new(rt.alloc()),
        errors: Vec::new(rt.alloc()),
    };
    let code = run.make(rt.alloc(), &mut to)?;
    let command = &run.command;
    println!(rt; "$ {command}")?;
    tell_output(rt, &to.output)?;
    if code != ExitCode::SUCCESS || !to.errors.is_empty() {
        println!(rt; "{code:?} after the complaint")?;
        rt.write_all(&to.errors)?;
    }
    Ok(())
}

fn main(rt: HostRuntime) -> anyhow::Result<()> {
    let mut input = Vec::new(rt.alloc());
    rt.stdin().read_to_end(&mut input)?;
    let mut rest = input.as_slice();
    for _ in 0..input.len() {
        let Some(run) = Run::read_from(rt.alloc(), &mut rest)? else {
            break;
        };
        tell(&rt, &run)?;
    }
    Ok(())
}
