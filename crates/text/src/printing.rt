//! What is printed of a sheet.
ghost use Rattle.std.specs.Prelude.{◌≡◌};
ghost use Rattle.frame.specs.Values.{answer_of};
ghost use Rattle.paper.specs.Maps.{into_output, long_enough};
ghost use Rattle.paper.specs.Printed.{printed};

use crate::buffer::Text;
use crate::layout_lines::layout_lines;
use crate::refusing::refusal_line;
use frame::{Refusal, put};
use layout::LaidOut;

/// What people read of a sheet's bytes: the lines of its layout, or the line of its refusal.
pub fn text_of(bytes: &[u8]) -> Text
    ensures { result.items ≡ printed bytes.now }
{
    match LaidOut::read(bytes) {
        Ok(laid) => layout_lines(bytes, &laid),
        Err(refusal) => refusal_line(refusal),
    }
}

/// Puts what people read of a sheet's bytes to the front of `out`, and answers how many bytes it has. That the sheet is refused is
/// itself what they read, so the only refusal here is that of an output which is too short; it is kept then.
pub fn print(bytes: &[u8], out: &mut [u8]) -> Result<usize, Refusal>
    ensures answer { answer_of result ≡ (into_output (long_enough out.old (printed bytes.now)) out.old).answer }
    ensures output { out.new ≡ (into_output (long_enough out.old (printed bytes.now)) out.old).output }
{
    put(&text_of(bytes), out)
}
