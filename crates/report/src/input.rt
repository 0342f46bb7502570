//! An input as text: what the order file or the assignment text that a reader gives states, its
//! listing, its map, or why it is refused.

ghost use Rattle.std.specs.Prelude.{◌≡◌, IfOk, IfSome, MatchResult, take, string_bytes};
ghost use Rattle.dimacs.specs.Texts.{States, FirstFault};
ghost use Rattle.report.specs.Describing.{Describes, DescribesText};
ghost use Rattle.report.specs.Drawing.{Draws};
ghost use Rattle.report.specs.Exporting.{IsOrderOf};
ghost use Rattle.report.specs.Listing.{Lists};

use crate::assignment_text::{describe_text, order_of_text};
use crate::describe_file::describe;
use crate::draw_file::draw;
use crate::list_file::list;
use sheet::Fault;
use std::alloc::Global;
use std::io;
use std::io::Read;

/// An input of an order file is cut at this many bytes.
pub const MOST_BYTES: u64 = 65_536;

/// An input of an assignment text is cut at this many bytes.
pub const MOST_TEXT_BYTES: u64 = 1_048_576;

/// The first bytes of an input, up to so many. An error is the reader's, or want of memory.
fn read_first<R: Read + Drop>(heap: Global, reader: R, most: u64) -> io::Result<Vec<u8>>
    ensures { IfOk result (λ file. IfSome (R.remaining reader)
        (λ bytes. file.items ≡ take most bytes)) }
{
    let mut file = Vec::new(heap);
    reader.take(most).read_to_end(&mut file)?;
    Ok(file)
}

/// The bytes of an input of an order file, up to the cut. An error is the reader's, or want of
/// memory.
pub fn read_input<R: Read + Drop>(heap: Global, reader: R) -> io::Result<Vec<u8>>
    ensures { IfOk result (λ file. IfSome (R.remaining reader)
        (λ bytes. file.items ≡ take MOST_BYTES bytes)) }
{
    read_first(heap, reader, MOST_BYTES)
}

/// What an input states, as `describe` tells it of a file. An input of more than 65,536 bytes is
/// judged by its first 65,536 bytes, as if the file ended there. An error is the reader's, or want
/// of memory.
pub fn describe_input<R: Read + Drop>(heap: Global, reader: R) -> io::Result<String>
    ensures { IfOk result (λ text. IfSome (R.remaining reader)
        (λ bytes. Describes (take MOST_BYTES bytes) (string_bytes text))) }
{
    let file = read_input(heap, reader)?;
    Ok(describe(heap, file.as_slice())?)
}

/// The listing of an input, as `list` gives it of a file. An input is cut as `describe_input` cuts
/// it, and an error is the reader's, or want of memory.
pub fn list_input<R: Read + Drop>(heap: Global, reader: R) -> io::Result<String>
    ensures { IfOk result (λ text. IfSome (R.remaining reader)
        (λ bytes. Lists (take MOST_BYTES bytes) (string_bytes text))) }
{
    let file = read_input(heap, reader)?;
    Ok(list(heap, file.as_slice())?)
}

/// The map of an input, as `draw` gives it of a file. An input is cut as `describe_input` cuts it,
/// and an error is the reader's, or want of memory.
pub fn draw_input<R: Read + Drop>(heap: Global, reader: R) -> io::Result<String>
    ensures { IfOk result (λ text. IfSome (R.remaining reader)
        (λ bytes. Draws (take MOST_BYTES bytes) (string_bytes text))) }
{
    let file = read_input(heap, reader)?;
    Ok(draw(heap, file.as_slice())?)
}

/// What an input states, as `describe_text` tells it of an assignment text. An input of more than
/// 1,048,576 bytes is judged by its first 1,048,576 bytes, as if the text ended there. An error is
/// the reader's, or want of memory.
pub fn describe_text_input<R: Read + Drop>(heap: Global, reader: R) -> io::Result<String>
    ensures { IfOk result (λ told. IfSome (R.remaining reader)
        (λ bytes. DescribesText (take MOST_TEXT_BYTES bytes) (string_bytes told))) }
{
    let text = read_first(heap, reader, MOST_TEXT_BYTES)?;
    Ok(describe_text(heap, text.as_slice())?)
}

/// The order file of an input, as `order_of_text` makes it of an assignment text, or the first
/// fault of the input. An input is cut as `describe_text_input` cuts it, and an error is the
/// reader's, or want of memory.
pub fn order_of_text_input<R: Read + Drop>(
    heap: Global,
    reader: R,
) -> io::Result<Result<Vec<u8>, Fault>>
    ensures { IfOk result (λ answer. IfSome (R.remaining reader) (λ bytes. MatchResult answer
        (λ file. IsOrderOf (States (take MOST_TEXT_BYTES bytes)) file.items)
        (FirstFault (take MOST_TEXT_BYTES bytes)))) }
{
    let text = read_first(heap, reader, MOST_TEXT_BYTES)?;
    Ok(order_of_text(heap, text.as_slice())?)
}
