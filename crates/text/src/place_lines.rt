//! The lines of a map's places.
ghost use Rattle.std.specs.Prelude.{◌≡◌, ◌+◌, ◌*◌, ◌≤◌, ◌++◌, length};
ghost use Rattle.paper.specs.Words.{joined};
ghost use Rattle.text.specs.Shown.{place_line_here};

use crate::buffer::{MOST, Text};
use crate::decimal::push_decimal;
use crate::words::push_number;
use layout::Place;

/// The line of a place: identity, address, size. It has 28 bytes at most: 25 digits, two spaces and the end of the line.
#[tactic(auto, using(crate::proofs::Digits::short))]
fn push_place_line(text: &mut Text, place: &Place)
    requires { length text.old.items + 28 ≤ MOST }
    ensures items { text.new.items ≡ text.old.items ++ place_line_here place.now }
    ensures len { length text.new.items ≤ length text.old.items + 28 }
{
    push_decimal(text, u64::from(place.identity));
    push_number(text, u64::from(place.address));
    push_number(text, u64::from(place.size));
    text.push(b'\n');
}

/// The lines of all places.
pub(crate) fn push_place_lines(text: &mut Text, places: &[Place])
    requires { length text.old.items + 28 * length places.now ≤ MOST }
    ensures items { text.new.items ≡ text.old.items ++ joined place_line_here places.now }
    ensures len { length text.new.items ≤ length text.old.items + 28 * length places.now }
{
    for place in places {
        push_place_line(text, place);
    }
}
