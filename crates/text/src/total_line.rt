//! The line of a layout's total.
ghost use Rattle.std.specs.Prelude.{◌≡◌, ◌+◌, ◌≤◌, ◌++◌, length};
ghost use Rattle.text.specs.Lines.{total_line_here};

use crate::buffer::{MOST, Text};
use crate::words::{push_bytes, push_number, push_word};
use layout::LaidOut;

/// As `total 136 of 512 align 8`.
#[tactic(auto, using(crate::proofs::Digits::short), unfolding(paper::specs::Quoted::text))]
pub(crate) fn push_total_line(text: &mut Text, laid: &LaidOut)
    requires { length text.old.items + 43 ≤ MOST }
    ensures items { text.new.items ≡ text.old.items ++ total_line_here laid.now }
    ensures len { length text.new.items ≤ length text.old.items + 43 }
{
    push_bytes(text, b"total");
    push_number(text, u64::from(laid.layout.total));
    push_word(text, b"of");
    push_number(text, u64::from(laid.sheet.area));
    push_word(text, b"align");
    push_number(text, u64::from(laid.sheet.alignment));
    text.push(b'\n');
}
