//! Writing a map from bare values: each place and each link is checked where its record would start.
ghost use Rattle.std.specs.Prelude.{◌≡◌, ◌<◌, ◌≤◌, [], length, IfOk};
ghost use Rattle.std.specs.Result.{result_map_both};
ghost use Rattle.frame.specs.Values.{answer_of, values_of};
ghost use Rattle.map.specs.Values.{paper_map};
ghost use Rattle.map.specs.Writing.{bare_value, walk_of, start_of, put_places};
ghost use Rattle.paper.specs.Maps.{count_of, places_of, write_links, map_of_bare, write_map};

use crate::image::image;
use crate::rules::{ends_at_total, head_fault, is_link, is_place, total_is_greatest_end};
use crate::{Layout, Place};
use frame::{Fault, Refusal, put};
use slots::Slots;

/// What a map is written from: its places as three lists, and the identities of its chain, bottom first.
#[derive(Clone, Copy)]
pub struct Bare<'a> {
    pub alignment: u16,
    pub total: u32,
    pub identities: &'a [u16],
    pub addresses: &'a [u32],
    pub sizes: &'a [u32],
    pub links: &'a [u16],
}

// How many places three lists tell of: lists that differ in length count for none.
fn count(bare: &Bare<'_>) -> usize
    ensures { result ≡ count_of (bare_value bare.now) }
{
    let count = bare.identities.len();
    if bare.addresses.len() == count && bare.sizes.len() == count {
        count
    } else {
        0
    }
}

// Where the next record of a map would start, behind those of its places and links.
fn next_at(map: &Layout) -> usize
    ensures { result ≡ (walk_of map.now).at }
{
    12 + 14 * map.places.len() + 6 * map.chain.len()
}

// The map of the head and the places.
fn with_places(bare: &Bare<'_>) -> Result<Layout, Refusal>
    requires aligned { 0 < bare.now.alignment }
    requires addresses { length bare.now.addresses.now ≡ length bare.now.identities.now }
    requires sizes { length bare.now.sizes.now ≡ length bare.now.identities.now }
    requires few { length bare.now.identities.now ≤ 64 }
    ensures unlinked { IfOk result (λ m. m.chain.items ≡ []) }
    ensures places { result_map_both walk_of values_of result
        ≡ put_places (places_of bare.now.identities.now bare.now.addresses.now bare.now.sizes.now) (start_of (bare_value bare.now)) }
{
    let mut map = Layout {
        alignment: bare.alignment,
        total: bare.total,
        places: Slots::new(),
        chain: Slots::new(),
    };
    for i in 0..bare.identities.len() {
        let place = Place {
            identity: bare.identities[i],
            address: bare.addresses[i],
            size: bare.sizes[i],
        };
        if !is_place(&map, &place) {
            return Err(Fault::Place.at(next_at(&map)));
        }
        map.places.push(place);
    }
    Ok(map)
}

// The map, once its chain has links and ends at the total.
#[tactic(auto, unfolding(paper::specs::Maps::write_links))]
fn ended(map: Layout) -> Result<Layout, Refusal>
    ensures { result_map_both paper_map values_of result ≡ write_links [] (walk_of map) }
{
    if map.chain.is_empty() {
        return Err(Fault::Kind.at(next_at(&map)));
    }
    if !ends_at_total(&map) {
        return Err(Fault::Chain.at(next_at(&map)));
    }
    Ok(map)
}

// The map with its links. No place is linked twice, so there are no more links than places.
fn with_links(map: Layout, links: &[u16]) -> Result<Layout, Refusal>
    requires few { length map.places.items ≤ 64 }
    requires unlinked { map.chain.items ≡ [] }
    ensures { result_map_both paper_map values_of result ≡ write_links links.now (walk_of map) }
{
    let mut map = map;
    for &link in links {
        if !is_link(&map, link) {
            return Err(Fault::Chain.at(next_at(&map)));
        }
        map.chain.push(link);
    }
    ended(map)
}

// The map of bare values.
fn map_of_bare(bare: &Bare<'_>) -> Result<Layout, Refusal>
    ensures { result_map_both paper_map values_of result ≡ map_of_bare (bare_value bare.now) }
{
    if let Some(fault) = head_fault(bare.alignment, bare.total, count(bare)) {
        return Err(fault.at(0));
    }
    let map = with_places(bare)?;
    if !total_is_greatest_end(&map) {
        return Err(Fault::Total.at(0));
    }
    with_links(map, bare.links)
}

/// Writes a map from bare values to the front of `output`, under the rules by which a map is read; later bytes are kept.
/// Answers how many bytes the map has.
pub fn write(bare: &Bare<'_>, output: &mut [u8]) -> Result<usize, Refusal>
    ensures answer { answer_of result ≡ (write_map (bare_value bare.now) output.old).answer }
    ensures output { output.new ≡ (write_map (bare_value bare.now) output.old).output }
{
    let map = map_of_bare(bare)?;
    put(&image(&map), output)
}
