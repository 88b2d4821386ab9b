//! Prints what the map on standard input says, or the line of its refusal.
#![tactic(auto)]

use input::fill;
use std::io;
use std::io::Write;
use text::map_text_of;

// More than a map can have: a head of 12 bytes, 64 places of 14, 64 links of 6 (each names another place) and an end of 4 are
// 1,296. So with 1,297 bytes or more the answer is a refusal, and these bytes decide which: the walk over the records never
// gets past byte 1,296, each record that it looks at ends below 2,048 or is refused by its first four bytes, and what is said
// of bytes after the end doesn't depend on how many they are.
const ENOUGH: usize = 2_048;

fn main(rt: HostRuntime) -> io::Result<()> {
    let mut map = [0u8; ENOUGH];
    let length = fill(&mut rt.reader(), &mut map)?;
    io::writer(&rt).write_all(&map_text_of(&map[..length]))
}
