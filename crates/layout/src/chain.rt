//! The total of a layout, and its chain: the tasks that stand one on the other from the start of the block up to the total.
ghost use Rattle.std.specs.Prelude.{◌≡◌, ◌+◌, ◌^◌, ◌<◌, ◌≤◌, ◌++◌, length, map};
ghost use Rattle.layout.specs.Ends.{EndsFit, greatest_end, first_top, stands_on, first_below, chain_up};
ghost use Rattle.layout.specs.Nests.{IsOrderly, count_here, identity_here, places_here, chain_here};

use crate::Place;
use crate::relation::may;
use arrayvec::ArrayVec;
use sheet::Sheet;

// Where a place ends.
fn end(place: &Place) -> u32
    requires { place.now.address + place.now.size < 2 ^ 32 }
    ensures { result ≡ place.now.address + place.now.size }
{
    place.address + place.size
}

/// The total: the greatest end of all.
#[tactic(auto, using(laws::specs::Greatest::greatest_step), unfolding(crate::specs::Ends::greatest_end, paper::specs::Words::greatest))]
pub(crate) fn total(places: &[Place]) -> u32
    requires { EndsFit places.now }
    ensures { result ≡ greatest_end places.now }
{
    let mut total = 0;
    for place in places {
        total = total.max(end(place));
    }
    total
}

// The top of the chain: the first task whose end is the total, their number where there are none. Tasks are in the order
// of their identities, so of those that share this end it has the smallest.
#[tactic(auto, using(laws::specs::Least::least_more), unfolding(crate::specs::Ends::first_top, paper::specs::Words::least))]
fn top(places: &[Place]) -> usize
    requires { EndsFit places.now }
    ensures { result ≡ first_top places.now }
{
    let total = total(places);
    for (i, place) in places.iter().enumerate() {
        if end(place) == total {
            return i;
        }
    }
    places.len()
}

// Whether task i can stand on task j: it may preempt it, and its address is the end of j.
fn stands_on(sheet: &Sheet, places: &[Place], i: usize, j: usize) -> bool
    requires fits { EndsFit places.now }
    requires few { length places.now ≤ 64 }
    requires above { i < length places.now }
    requires below { j < length places.now }
    ensures { result ≡ stands_on sheet.now places.now i j }
{
    may(sheet, i, j) && end(&places[j]) == places[i].address
}

// The task below task i in the chain: the first that it can stand on, their number where there is none.
#[tactic(auto, using(laws::specs::Least::least_more, laws::specs::Least::least_stop), unfolding(crate::specs::Ends::first_below, paper::specs::Words::least))]
fn below(sheet: &Sheet, places: &[Place], i: usize) -> usize
    requires fits { EndsFit places.now }
    requires few { length places.now ≤ 64 }
    requires within { i < length places.now }
    ensures { result ≡ first_below sheet.now places.now i }
{
    for j in 0..places.len() {
        if stands_on(sheet, places, i, j) {
            return j;
        }
    }
    places.len()
}

// Writes the chain up to task i behind what is there: first that up to the task below it, then its own identity.
fn link(sheet: &Sheet, places: &[Place], i: usize, chain: &mut ArrayVec<u16, { Sheet::MOST_TASKS }>)
    requires orderly { IsOrderly sheet.now }
    requires placed { places.now ≡ places_here sheet.now }
    requires within { i < count_here sheet.now }
    requires room { length chain.old.items + length (chain_up sheet.now i) ≤ 64 }
    ensures { chain.new.items ≡ chain.old.items ++ map (identity_here sheet.now) (chain_up sheet.now i) }
{
    if places[i].address != 0 {
        link(sheet, places, below(sheet, places, i), chain);
    }
    chain.push(places[i].identity);
}

/// The identities of the chain, the bottom first.
pub(crate) fn chain(sheet: &Sheet, places: &[Place]) -> ArrayVec<u16, { Sheet::MOST_TASKS }>
    requires orderly { IsOrderly sheet.now }
    requires placed { places.now ≡ places_here sheet.now }
    ensures { result.items ≡ chain_here sheet.now }
{
    let mut chain = ArrayVec::new();
    link(sheet, places, top(places), &mut chain);
    chain
}
