//! Bytes in a lent output.
ghost use Rattle.std.specs.Prelude.{◌≡◌};
ghost use Rattle.frame.specs.Values.{answer_of};
ghost use Rattle.paper.specs.Maps.{into_output, long_enough};

use crate::Refusal;

/// Puts some bytes to the front of an output that is long enough, and answers how many they are; later bytes are kept.
pub fn put(bytes: &[u8], out: &mut [u8]) -> Result<usize, Refusal>
    ensures answer { answer_of result ≡ (into_output (long_enough out.old bytes.now) out.old).answer }
    ensures output { out.new ≡ (into_output (long_enough out.old bytes.now) out.old).output }
{
    let needed = bytes.len();
    if out.len() < needed {
        return Err(Refusal::TooShort { needed });
    }
    out[..needed].copy_from_slice(bytes);
    Ok(needed)
}
