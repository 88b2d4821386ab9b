//! The layout as two lent lists of 32-bit numbers, addresses and sizes in task order.
ghost use Rattle.std.specs.Prelude.{◌≡◌, ◌≤◌, map, length};
ghost use Rattle.paper.specs.Bytes.{over};
ghost use Rattle.frame.specs.Values.{answer_of};
ghost use Rattle.paper.specs.Places.{layout_lists};

use crate::{LaidOut, Place};
use frame::Refusal;

// Writes the places over the front of the two lists.
fn fill(places: &[Place], addresses: &mut [u32], sizes: &mut [u32])
    requires addresses_fit { length places.now ≤ length addresses.old }
    requires sizes_fit { length places.now ≤ length sizes.old }
    ensures addresses { addresses.new ≡ over (map (λ p. p.address) places.now) addresses.old }
    ensures sizes { sizes.new ≡ over (map (λ p. p.size) places.now) sizes.old }
{
    for (i, place) in places.iter().enumerate() {
        addresses[i] = place.address;
        sizes[i] = place.size;
    }
}

/// Fills two lists with the addresses and the sizes of the tasks, and tells how many these are; later entries are kept.
pub fn lists(bytes: &[u8], addresses: &mut [u32], sizes: &mut [u32]) -> Result<usize, Refusal>
    ensures answer { answer_of result ≡ (layout_lists bytes.now addresses.old sizes.old).answer }
    ensures addresses { addresses.new ≡ (layout_lists bytes.now addresses.old sizes.old).addresses }
    ensures sizes { sizes.new ≡ (layout_lists bytes.now addresses.old sizes.old).sizes }
{
    let laid = LaidOut::read(bytes)?;
    let needed = laid.layout.places.len();
    if addresses.len() < needed || sizes.len() < needed {
        return Err(Refusal::TooShort { needed });
    }
    fill(&laid.layout.places, addresses, sizes);
    Ok(needed)
}
