//! The name of a task, as a part of the sheet itself.
ghost use Rattle.std.specs.Prelude.{◌≡◌, ◌+◌, ◌≤◌, length};
ghost use Rattle.frame.specs.Values.{part_value};
ghost use Rattle.paper.specs.Bytes.{part};
ghost use Rattle.paper.specs.Sheets.{name_of};

use crate::Sheet;
use crate::index::index_of;
use frame::Part;

/// Where the name of a task lies in a sheet; the empty part at the start where the bytes are no sheet or it does not list the task.
pub fn name_part(bytes: &[u8], identity: u16) -> Part
    ensures part { result ≡ part_value (name_of bytes.now identity) }
    ensures inside { (result.from ≤ result.to) × (result.to ≤ length bytes.now) }
{
    let Ok(sheet) = Sheet::read(bytes) else {
        return Part::default();
    };
    let Some(i) = index_of(&sheet.tasks, identity) else {
        return Part::default();
    };
    sheet.tasks[i].name
}

/// The name of a task: that part of the bytes themselves.
pub fn name(bytes: &[u8], identity: u16) -> &[u8]
    ensures bytes { result.now ≡ part bytes.now (name_of bytes.now identity) }
    ensures block { result.ref_ptr.0 ≡ bytes.entry.ref_ptr.0 }
    ensures place { result.ref_ptr.1 ≡ bytes.entry.ref_ptr.1 + (name_of bytes.now identity).from }
{
    let part = name_part(bytes, identity);
    &bytes[part.from..part.to]
}
