//! Writes the map of the sheet on standard input. A sheet that is refused leaves standard output empty, and the line of its
//! refusal goes to standard error. The status is 0 for a map, 1 for a refusal, 2 where input or output failed.
#![tactic(auto)]

use input::fill;
use map::build;
use std::io;
use std::io::Write;
use std::process::ExitCode;
use text::refusal_line;

// The map of an input is decided by so many bytes of it: records of a sheet are short, tasks are at most 64, and bars rise
// strictly among their pairs. The crate `prefix` has the theorem, `prefix_builds`.
const ENOUGH: usize = 34_709;

// As many bytes as a map has at most: a head, 64 places, 64 links and the end.
const MOST: usize = 12 + 64 * 14 + 64 * 6 + 4;

// Writes the map or the refusal, and tells the status for it.
fn write_map(rt: &HostRuntime) -> io::Result<ExitCode> {
    let mut sheet = [0u8; ENOUGH];
    let length = fill(&mut rt.reader(), &mut sheet)?;
    let mut image = [0u8; MOST];
    match build(&sheet[..length], &mut image) {
        Ok(bytes) => {
            io::writer(rt).write_all(&image[..bytes])?;
            Ok(ExitCode::SUCCESS)
        }
        Err(refusal) => {
            io::writer(&rt.stderr()).write_all(&refusal_line(refusal))?;
            Ok(ExitCode::FAILURE)
        }
    }
}

fn main(rt: HostRuntime) -> ExitCode {
    match write_map(&rt) {
        Ok(status) => status,
        Err(error) => {
            // Where standard error fails too, only the status is left to tell of it.
            let _ = rt.eprintln(error);
            ExitCode::from(2)
        }
    }
}
