//! The reader of lines: it moves over a text and hands out line after line.

ghost use Rattle.std.specs.Prelude.{◌≡◌, ◌≢◌, ◌+◌, ◌<◌, ◌≤◌, ◌^◌, length, take, drop, slice_index};
ghost use Rattle.std.specs.Prelude.{MatchOption, codes};
ghost use Rattle.std.specs.List.{All};
ghost use Rattle.dimacs.specs.Lines.{ReadsOn};
ghost use Rattle.dimacs.specs.Reading.{ReadsLine, ReadsBehind, ReadsWords};

use crate::line::Line;
use crate::words::Words;
use sheet::{Cause, Fault};

/// Moves over the lines of a text and hands out each one by its words.
#[derive(Clone, Copy)]
pub struct LineReader<'a> {
    text: &'a [u8],
    // the offset of the next line
    at: usize,
    ghost inside: { at ≤ length text.now },
}

impl<'a> LineReader<'a> {
    ghost use Rattle.dimacs.specs.Readers.{text_of, offset_of};

    /// A reader that stands before the first line.
    pub fn new(text: &'a [u8]) -> LineReader<'a>
        ensures whole { text_of result ≡ text.now }
        ensures first { offset_of result ≡ 0 }
    {
        LineReader { text, at: 0 }
    }

    /// The offset of the next line.
    pub fn place(&self) -> usize
        ensures { result ≡ offset_of self.now }
    {
        self.at
    }

    /// Hands out the next line and moves behind it, or answers none at the end of the text.
    /// Refused with 12: bytes that no line begins; the reader then stays before them.
    #[inline(always)]
    pub fn next(&mut self) -> Result<Option<Line<'a>>, Fault>
        ensures same { text_of self.new ≡ text_of self.old }
        ensures reads { ReadsOn (text_of self.old) (offset_of self.old) result
            (offset_of self.new) }
    {
        let rest = &self.text[self.at..];
        if rest.is_empty() {
            return Ok(None);
        }
        let Some(read) = line_of(rest, self.text, self.at) else {
            return Err(Cause::Line.at(self.at));
        };
        self.at = read.end;
        Ok(Some(read.line))
    }
}

/// A line, and the offset behind it.
#[derive(Clone, Copy)]
struct Read<'a> {
    line: Line<'a>,
    end: usize,
}

/// The line that begins what is left of a text from an offset on, if one does. Most are arcs.
#[inline(always)]
fn line_of<'a>(rest: &[u8], text: &'a [u8], at: usize) -> Option<Read<'a>>
    requires { rest.now ≡ drop at text.now }
    ensures { ReadsLine rest.now at result }
{
    match rest {
        [b'a', b' ', ..] => arc(Words::new(text, at + 2)),
        [b'n', b' ', ..] => node(Words::new(text, at + 2)),
        [b'c', ..] => comment(text, at + 1),
        [b'p', b' ', b'a', b's', b'n', b' ', ..] => problem(Words::new(text, at + 6)),
        _ => None,
    }
}

/// What stands behind the letter of a comment, from an offset on and up to its newline.
#[inline(always)]
fn comment(text: &[u8], at: usize) -> Option<Read<'_>>
    requires { at ≤ length text.now }
    ensures { ReadsBehind (codes "c") (drop at text.now) at result }
{
    let bytes = &text[at..];
    let length = first_newline(bytes)?;
    Some(Read {
        line: Line::Comment(&bytes[..length]),
        end: at + length + 1,
    })
}

/// Where the first newline stands, if one does.
#[inline(never)]
fn first_newline(bytes: &[u8]) -> Option<usize>
    ensures { MatchOption result (All (λ byte. byte ≢ 10) bytes.now)
        (λ i. (i < length bytes.now) × All (λ byte. byte ≢ 10) (take i bytes.now)
        × (slice_index bytes.now i ≡ 10)) }
{
    bytes.iter().position(|byte| *byte == b'\n')
}

/// The two numbers of a problem line, from the first on.
#[inline(always)]
fn problem(words: Words<'_>) -> Option<Read<'_>>
    ensures { ReadsWords (codes "p asn ") words.entry result }
{
    let mut words = words;
    let nodes = words.number(b' ')?;
    let arcs = words.number(b'\n')?;
    Some(Read {
        line: Line::Problem { nodes, arcs },
        end: words.place(),
    })
}

/// The number of a node line.
#[inline(always)]
fn node(words: Words<'_>) -> Option<Read<'_>>
    ensures { ReadsWords (codes "n ") words.entry result }
{
    let mut words = words;
    let node = words.number(b'\n')?;
    Some(Read {
        line: Line::Node(node),
        end: words.place(),
    })
}

/// The two numbers and the cost of an arc line, from the first on.
#[inline(always)]
fn arc(words: Words<'_>) -> Option<Read<'_>>
    ensures { ReadsWords (codes "a ") words.entry result }
{
    let mut words = words;
    let left = words.number(b' ')?;
    let right = words.number(b' ')?;
    let cost = words.cost(b'\n')?;
    Some(Read {
        line: Line::Arc { left, right, cost },
        end: words.place(),
    })
}
