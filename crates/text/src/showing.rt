//! What is shown of a map.
ghost use Rattle.std.specs.Prelude.{◌≡◌};
ghost use Rattle.frame.specs.Values.{answer_of};
ghost use Rattle.paper.specs.Maps.{into_output, long_enough};
ghost use Rattle.text.specs.Shown.{shown};

use crate::buffer::Text;
use crate::map_lines::map_lines;
use crate::refusing::refusal_line;
use frame::{Refusal, put};

/// What people read of a map's bytes: its lines, or the line of its refusal.
pub fn map_text_of(bytes: &[u8]) -> Text
    ensures { result.items ≡ shown bytes.now }
{
    match map::read(bytes) {
        Ok(map) => map_lines(&map),
        Err(refusal) => refusal_line(refusal),
    }
}

/// Puts what people read of a map's bytes to the front of `out`, and answers how many bytes it has. That the map is refused is
/// itself what they read, so the only refusal here is that of an output which is too short; it is kept then.
pub fn show(bytes: &[u8], out: &mut [u8]) -> Result<usize, Refusal>
    ensures answer { answer_of result ≡ (into_output (long_enough out.old (shown bytes.now)) out.old).answer }
    ensures output { out.new ≡ (into_output (long_enough out.old (shown bytes.now)) out.old).output }
{
    put(&map_text_of(bytes), out)
}
