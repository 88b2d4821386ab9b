//! The line of a layout's chain.
ghost use Rattle.std.specs.Prelude.{◌≡◌, ◌+◌, ◌*◌, ◌≤◌, ◌++◌, length};
ghost use Rattle.text.specs.Lines.{chain_line_here};

use crate::buffer::{MOST, Text};
use crate::words::{push_bytes, push_number};

/// As `chain 1 3`.
#[tactic(auto, using(crate::proofs::Digits::short))]
pub(crate) fn push_chain_line(text: &mut Text, chain: &[u16])
    requires { length text.old.items + 6 * length chain.now + 6 ≤ MOST }
    ensures { text.new.items ≡ text.old.items ++ chain_line_here chain.now }
{
    push_bytes(text, b"chain");
    for &identity in chain {
        push_number(text, u64::from(identity));
    }
    text.push(b'\n');
}
