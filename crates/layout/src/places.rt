//! The places of the tasks. Addresses are given from the lowest priority up: a task may preempt only tasks of a lower
//! priority, so those have theirs already.
ghost use Rattle.std.specs.Prelude.{◌≡◌, ◌+◌, ◌^◌, ◌<◌, ◌≤◌, length, EachIndex};
ghost use Rattle.layout.specs.Nests.{IsOrderly, places_here};
ghost use Rattle.layout.specs.Placing.{nest_at, address_at, end_at, placed_below};
ghost use Rattle.paper.specs.Places.{rounded_up, end_below};

use crate::Place;
use crate::relation::may;
use arrayvec::ArrayVec;
use sheet::{Sheet, Task};

// A need, rounded up to a multiple of the alignment.
#[tactic(auto, using(crate::proofs::Sizes::rounded_is))]
fn size(alignment: u16, need: u32) -> u32
    requires some { 0 < alignment }
    requires aligned { alignment ≤ 64 }
    requires needed { need ≤ 1048576 }
    ensures { result ≡ rounded_up alignment need }
{
    need.next_multiple_of(u32::from(alignment))
}

// The places of the tasks in task order, each at address 0.
#[tactic(auto, using(laws::specs::Rounding::alignment_positive, laws::specs::Rounding::alignment_most))]
fn at_bottom(sheet: &Sheet) -> ArrayVec<Place, { Sheet::MOST_TASKS }>
    requires { IsOrderly sheet.now }
    ensures { result.items ≡ placed_below sheet.now 0 }
{
    let mut places = ArrayVec::new();
    for task in sheet.tasks.as_slice() {
        places.push(Place {
            identity: task.identity,
            address: 0,
            size: size(sheet.alignment, task.need),
        });
    }
    places
}

// The greatest end among the places of the tasks that task i may preempt, 0 where there is none.
fn end_below(sheet: &Sheet, places: &[Place], i: usize) -> u32
    requires upper { i < 64 }
    requires few { length places.now ≤ 64 }
    requires fits { EachIndex places.now (λ j. end_at places.now j < 2 ^ 32) }
    ensures { result ≡ end_below (nest_at sheet.now places.now) (address_at places.now) i }
{
    let mut end = 0;
    for (j, place) in places.iter().enumerate() {
        if may(sheet, i, j) {
            end = end.max(place.address + place.size);
        }
    }
    end
}

// Gives the tasks of a priority their addresses, once those of every lower priority have theirs.
#[tactic(auto, using(crate::proofs::Placing::within_length))]
fn place_level(sheet: &Sheet, places: &mut [Place], level: u16)
    requires orderly { IsOrderly sheet.now }
    requires lower { places.old ≡ placed_below sheet.now level }
    ensures { places.new ≡ placed_below sheet.now (level + 1) }
{
    for i in 0..places.len() {
        if sheet.tasks[i].priority == level {
            places[i].address = end_below(sheet, places, i);
        }
    }
}

/// The place of each task, in task order.
pub(crate) fn places(sheet: &Sheet) -> ArrayVec<Place, { Sheet::MOST_TASKS }>
    requires { IsOrderly sheet.now }
    ensures { result.items ≡ places_here sheet.now }
{
    let mut places = at_bottom(sheet);
    for level in 0..=Task::MOST_LEVEL {
        place_level(sheet, &mut places, level);
    }
    places
}
