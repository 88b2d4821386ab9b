//! The words of a line: the first as it is, and each after it behind a space.
ghost use Rattle.std.specs.Prelude.{◌≡◌, ◌+◌, ◌≤◌, ◌<◌, ◌∷◌, ◌++◌, length};
ghost use Rattle.paper.specs.Printed.{decimal};

use crate::buffer::{MOST, Text};
use crate::decimal::push_decimal;

/// Appends some bytes.
pub(crate) fn push_bytes(text: &mut Text, bytes: &[u8])
    requires { length text.old.items + length bytes.now ≤ MOST }
    ensures items { text.new.items ≡ text.old.items ++ bytes.now }
    ensures len { length text.new.items ≡ length text.old.items + length bytes.now }
{
    for &byte in bytes {
        text.push(byte);
    }
}

/// Appends a word that is not the first of its line.
pub(crate) fn push_word(text: &mut Text, word: &[u8])
    requires { length text.old.items + length word.now < MOST }
    ensures items { text.new.items ≡ text.old.items ++ (0x20 ∷ word.now) }
    ensures len { length text.new.items ≡ length text.old.items + length word.now + 1 }
{
    text.push(b' ');
    push_bytes(text, word);
}

/// The same for a number.
pub(crate) fn push_number(text: &mut Text, n: u64)
    requires { length text.old.items + length (decimal n) < MOST }
    ensures items { text.new.items ≡ text.old.items ++ (0x20 ∷ decimal n) }
    ensures len { length text.new.items ≡ length text.old.items + length (decimal n) + 1 }
{
    text.push(b' ');
    push_decimal(text, n);
}
