//! Prints the layout of the sheet on standard input, or the line of its refusal.
#![tactic(auto)]

use input::fill;
use std::io;
use std::io::Write;
use text::text_of;

// What is printed of an input is decided by so many bytes of it: records of a sheet are short, tasks are at most 64, and
// bars rise strictly among their pairs. The crate `prefix` has the theorem, `prefix_prints`.
const ENOUGH: usize = 34_709;

fn main(rt: HostRuntime) -> io::Result<()> {
    let mut sheet = [0u8; ENOUGH];
    let length = fill(&mut rt.reader(), &mut sheet)?;
    io::writer(&rt).write_all(&text_of(&sheet[..length]))
}
