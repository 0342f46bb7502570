//! A run of a program: a line `PROGRAM WORD .. LENGTH`, and so many bytes of input behind it.

use anyhow::Context;
use command::Streams;
use console_words::talk;
use refusal_words::explain;
use report::{import, inspect, listing};
use sheet::Cause;
use std::alloc::{AllocError, Global};
use std::io::{BufRead, Read};
use std::process::ExitCode;
use std::str::FromStr;
use thiserror::Error;

/// The programs.
#[derive(Clone, Copy)]
enum Program {
    Inspect,
    Listing,
    Import,
    Console,
    /// No program, but every refusal in words.
    Refusals,
}

/// All causes, in the order of their numbers.
const CAUSES: [Cause; 13] = [
    Cause::Size,
    Cause::TableLength,
    Cause::Block,
    Cause::CostRange,
    Cause::Absent,
    Cause::NoPerfectPairing,
    Cause::Inconsistent,
    Cause::Overrun,
    Cause::Tag,
    Cause::FieldLength,
    Cause::ShortBuffer,
    Cause::Line,
    Cause::Counts,
];

#[derive(Debug, Drop, Error)]
#[error("there is no such program")]
struct NoProgram;

impl FromStr for Program {
    type Err = NoProgram;

    fn from_str(name: &str) -> Result<Program, NoProgram> {
        match name {
            "inspect" => Ok(Program::Inspect),
            "listing" => Ok(Program::Listing),
            "import" => Ok(Program::Import),
            "console" => Ok(Program::Console),
            "refusals" => Ok(Program::Refusals),
            _ => Err(NoProgram),
        }
    }
}

/// A run: the program, the words of its command, and its input.
#[derive(Drop)]
pub struct Run {
    program: Program,
    /// The program's name and the words behind it, as they are typed.
    pub command: String,
    input: Vec<u8>,
}

/// The words of a text, one by one.
fn words_of(heap: Global, text: &str) -> Result<Vec<String>, AllocError> {
    let mut words = Vec::new(heap);
    for word in text.split(' ') {
        words.push(String::from_str(heap, word)?)?;
    }
    Ok(words)
}

/// Writes what each cause is explained by, at a place of its own.
fn explain_all(heap: Global, output: &mut Vec<u8>) -> Result<ExitCode, AllocError> {
    for (k, cause) in CAUSES.iter().enumerate() {
        let text = explain(heap, cause.at(k + 100))?;
        output.extend_from_slice(text.as_bytes())?;
    }
    Ok(ExitCode::SUCCESS)
}

impl Run {
    /// Reads a run off the bytes, if any are left.
    pub fn read_from(heap: Global, bytes: &mut &[u8]) -> anyhow::Result<Option<Run>> {
        let mut line = String::new(heap);
        if bytes.read_line(&mut line)? == 0 {
            return Ok(None);
        }
        let (command, length) = line
            .trim_end()
            .rsplit_once(' ')
            .context("a word is missing")?;
        let mut input = vec![in heap; 0u8; length.parse::<usize>()?]?;
        bytes.read_exact(&mut input)?;
        let name = command.split(' ').next().context("a name is missing")?;
        Ok(Some(Run {
            program: name.parse::<Program>()?,
            command: String::from_str(heap, command)?,
            input,
        }))
    }

    /// Makes the run.
    pub fn make(
        &self,
        heap: Global,
        to: &mut Streams<Vec<u8>, Vec<u8>>,
    ) -> anyhow::Result<ExitCode> {
        let (words, input) = (words_of(heap, &self.command)?, self.input.as_slice());
        Ok(match self.program {
            Program::Inspect => inspect(heap, &words, input, to)?,
            Program::Listing => listing(heap, &words, input, to)?,
            Program::Import => import(heap, &words, input, to)?,
            Program::Console => talk(heap, &words, input, to)?,
            Program::Refusals => explain_all(heap, &mut to.output)?,
        })
    }
}
