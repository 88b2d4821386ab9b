//! The rules of a map's fields over values, which reader and writer share. Sums are taken wide: an end may be past 32 bits.
ghost use Rattle.std.specs.Prelude.{◌≡◌, ◌<◌, ◌==◌};
ghost use Rattle.std.specs.Option.{option_map};
ghost use Rattle.frame.specs.Values.{fault_number};
ghost use Rattle.map.specs.Values.{paper_place, paper_places, paper_map};
ghost use Rattle.std.specs.List.{find};
ghost use Rattle.paper.specs.Maps.{end_of, no_place, place_of, greatest_end, linked_end, map_head_rules, is_place, is_link};
ghost use Rattle.paper.specs.Refusals.{first};
ghost use Rattle.paper.specs.Words.{last};

use crate::{Layout, Place};
use frame::Fault;
use sheet::{Sheet, is_alignment};

/// The first rule that a map's head breaks.
pub(crate) fn head_fault(alignment: u16, total: u32, count: usize) -> Option<Fault>
    ensures { option_map fault_number result ≡ first (map_head_rules alignment total count) }
{
    if !is_alignment(alignment) {
        return Some(Fault::Alignment);
    }
    if total > Layout::MOST_TOTAL {
        return Some(Fault::Total);
    }
    if count == 0 || count > Sheet::MOST_TASKS {
        return Some(Fault::TaskCount);
    }
    None
}

// Where a place ends.
fn end(place: &Place) -> u64
    ensures { result ≡ end_of (paper_place place.now) }
{
    u64::from(place.address) + u64::from(place.size)
}

// The identity of the last place, 0 where there is none.
fn last_identity(places: &[Place]) -> u16
    ensures { result ≡ (last no_place (paper_places places.now)).identity }
{
    match places.last() {
        Some(place) => place.identity,
        None => 0,
    }
}

/// Whether a place may follow those of a map.
pub(crate) fn is_place(map: &Layout, place: &Place) -> bool
    requires { 0 < map.now.alignment }
    ensures { result ≡ is_place (paper_map map.now) (paper_place place.now) }
{
    let alignment = u32::from(map.alignment);
    last_identity(&map.places) < place.identity
        && place.address % alignment == 0
        && place.size % alignment == 0
        && place.size <= Place::MOST_SIZE
        && end(place) <= u64::from(map.total)
}

// The greatest end of some places.
fn greatest_end(places: &[Place]) -> u64
    ensures { result ≡ greatest_end (paper_places places.now) }
{
    let mut greatest = 0;
    for place in places {
        greatest = greatest.max(end(place));
    }
    greatest
}

/// Whether the total of a map is the greatest end of its places.
pub(crate) fn total_is_greatest_end(map: &Layout) -> bool
    ensures { result ≡ ((paper_map map.now).total == greatest_end (paper_map map.now).places) }
{
    u64::from(map.total) == greatest_end(&map.places)
}

// The first place that an identity names.
fn place_of(places: &[Place], identity: u16) -> Option<&Place>
    ensures { option_map (λ place. place.now) result ≡ find (λ place. place.identity == identity) places.now }
{
    places.iter().find(|place| place.identity == identity)
}

// Where the place that an identity names ends, 0 where it names none.
fn end_of(places: &[Place], identity: u16) -> u64
    ensures { result ≡ end_of (place_of (paper_places places.now) identity) }
{
    match place_of(places, identity) {
        Some(place) => end(place),
        None => 0,
    }
}

// Where the chain of a map ends so far; 0 before the first link.
#[tactic(auto, using(crate::proofs::Found::last_read))]
fn linked_end(map: &Layout) -> u64
    ensures { result ≡ linked_end (paper_map map.now) }
{
    end_of(&map.places, map.chain.last().copied().unwrap_or(0))
}

/// Whether an identity may be the next link of a map's chain.
pub(crate) fn is_link(map: &Layout, identity: u16) -> bool
    ensures { result ≡ is_link (paper_map map.now) identity }
{
    let Some(place) = place_of(&map.places, identity) else {
        return false;
    };
    !map.chain.contains(&identity) && u64::from(place.address) == linked_end(map)
}

/// Whether the chain of a map ends at the total.
pub(crate) fn ends_at_total(map: &Layout) -> bool
    ensures { result ≡ (linked_end (paper_map map.now) == (paper_map map.now).total) }
{
    linked_end(map) == u64::from(map.total)
}
