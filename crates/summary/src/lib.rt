// The work of the program: what it prints for an input.
#![tactic(auto)]

ghost use Rattle.std.specs.Prelude.{◌≡◌, IfOk, string_bytes};
ghost use Rattle.summary.specs.Line.{line_of};

use kinds::{EntryKind, Paragraphs};
use parcels::Parcel;
use std::alloc::{AllocError, Global};

// The line for an input, read as a parcel of paragraphs: how many messages and notes it has, or why it is refused.
pub fn summarize(heap: Global, input: &[u8]) -> Result<String, AllocError>
    ensures { IfOk result (λ line. string_bytes line ≡ line_of input.now) }
{
    match Parcel::read(input, Paragraphs::NUMBER, Paragraphs::WIDTH) {
        Ok(parcel) => {
            let counts = parcel.counts();
            format!(in heap; "{counts}\n")
        }
        Err(fault) => format!(in heap; "refused {fault}\n"),
    }
}
