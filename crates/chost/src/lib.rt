//! Two calls for a host in C: `tulvasne_first` settles an order file and writes the first of its
//! optimum pairings, `tulvasne_after` writes the one that follows.
//!
//! Nothing is kept between two calls and nothing is allocated: each call reads the file anew, into
//! tables on its stack.
#![tactic(auto)]

ghost use Rattle.chost.specs.Answers.{TellsHost};
ghost use Rattle.chost.specs.declared.answering.HostCall.TheVariants.{First, After};

mod answering;
mod blocks;

use answering::{HostCall, answer_number};

/// Settles an order file and writes the first of its optimum pairings in dictionary order to the
/// front of `out`: a byte for each left block, the number of its right block.
///
/// Answers 0, or the number of the refusal: the file's first fault as `check` finds it (8, 9, 10,
/// 1, 3 or 4), 11 where `out` has fewer bytes than there are left blocks, 6 where no pairing is
/// perfect. On a refusal `out` is as it was; the bytes behind the pairing always are.
#[unsafe(no_mangle)]
pub extern "C" fn tulvasne_first(file: &[u8], out: &mut [u8]) -> u32
    ensures { TellsHost First file.now out.old result out.new }
{
    answer_number(HostCall::First, file, out)
}

/// Settles an order file and writes over the optimum pairing at the front of `out` the one that
/// follows in dictionary order.
///
/// Answers 0; 100 where there is none, and `out` is as it was; or the number of the refusal: those
/// of `tulvasne_first`, and then 7 where the bytes at the front of `out` are no optimum pairing. On
/// a refusal `out` is as it was; the bytes behind the pairing always are.
#[unsafe(no_mangle)]
pub extern "C" fn tulvasne_after(file: &[u8], out: &mut [u8]) -> u32
    ensures { TellsHost After file.now out.old result out.new }
{
    answer_number(HostCall::After, file, out)
}
