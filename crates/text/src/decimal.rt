//! Numbers in decimal digits.
ghost use Rattle.std.specs.Prelude.{◌≡◌, ◌+◌, ◌≤◌, ◌++◌, length};
ghost use Rattle.paper.specs.Printed.{decimal};

use crate::buffer::{MOST, Text};

/// Appends a number: the digits in front of the last one, where there are some, and then that.
pub(crate) fn push_decimal(text: &mut Text, n: u64)
    requires { length text.old.items + length (decimal n) ≤ MOST }
    ensures items { text.new.items ≡ text.old.items ++ decimal n }
    ensures len { length text.new.items ≡ length text.old.items + length (decimal n) }
{
    if n >= 10 {
        push_decimal(text, n / 10);
    }
    text.push(b'0' + (n % 10) as u8);
}
