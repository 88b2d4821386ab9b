//! The map of a sheet, written into a lent output.
ghost use Rattle.std.specs.Prelude.{◌≡◌};
ghost use Rattle.frame.specs.Values.{answer_of};
ghost use Rattle.paper.specs.Maps.{build};

use crate::image::image;
use frame::{Refusal, put};
use layout::LaidOut;

/// Lays out the sheet that some bytes say, and puts the bytes of its map to the front of `output`; later bytes are kept.
/// Answers how many bytes the map has.
pub fn build(bytes: &[u8], output: &mut [u8]) -> Result<usize, Refusal>
    ensures answer { answer_of result ≡ (build bytes.now output.old).answer }
    ensures output { output.new ≡ (build bytes.now output.old).output }
{
    let laid = LaidOut::read(bytes)?;
    put(&image(&laid.layout), output)
}
