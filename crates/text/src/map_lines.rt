//! All lines of a map.
ghost use Rattle.std.specs.Prelude.{◌≡◌, ◌+◌, ◌≤◌, ◌++◌, length};
ghost use Rattle.text.specs.Shown.{map_total_line_here, map_lines_here};

use crate::buffer::{MOST, Text};
use crate::chain_line::push_chain_line;
use crate::place_lines::push_place_lines;
use crate::words::{push_bytes, push_number, push_word};
use layout::Layout;

/// As `total 136 align 8`. A map doesn't tell the area that it was made for.
#[tactic(auto, using(crate::proofs::Digits::short), unfolding(paper::specs::Quoted::text))]
fn push_map_total_line(text: &mut Text, map: &Layout)
    requires { length text.old.items + 29 ≤ MOST }
    ensures items { text.new.items ≡ text.old.items ++ map_total_line_here map.now }
    ensures len { length text.new.items ≤ length text.old.items + 29 }
{
    push_bytes(text, b"total");
    push_number(text, u64::from(map.total));
    push_word(text, b"align");
    push_number(text, u64::from(map.alignment));
    text.push(b'\n');
}

/// The total, each place, and the chain.
#[tactic(auto, unfolding(crate::specs::Shown::map_lines_here))]
pub(crate) fn map_lines(map: &Layout) -> Text
    ensures { result.items ≡ map_lines_here map.now }
{
    let mut text = Text::new();
    push_map_total_line(&mut text, map);
    push_place_lines(&mut text, &map.places);
    push_chain_line(&mut text, &map.chain);
    text
}
