//! The lines of a sheet's tasks with their places.
ghost use Rattle.std.specs.Prelude.{◌≡◌, ◌+◌, ◌*◌, ◌≤◌, ◌++◌, length};
ghost use Rattle.std.specs.List.{All};
ghost use Rattle.text.specs.Lines.{task_line_here, task_lines_here, NameFits};

use crate::buffer::{MOST, Text};
use crate::decimal::push_decimal;
use crate::words::{push_number, push_word};
use layout::Place;
use sheet::Task;

/// The line of a task: identity, name, address, size. Three spaces and the end of the line are its 4 other bytes, so that it has 45 at most.
#[tactic(auto, using(crate::proofs::Digits::short))]
fn push_task_line(text: &mut Text, bytes: &[u8], task: &Task, place: &Place)
    requires room { length text.old.items + 45 ≤ MOST }
    requires named { NameFits bytes.now task.now }
    ensures items { text.new.items ≡ text.old.items ++ task_line_here bytes.now task.now place.now }
    ensures len { length text.new.items ≤ length text.old.items + 45 }
{
    push_decimal(text, u64::from(task.identity));
    push_word(text, &bytes[task.name.from..task.name.to]);
    push_number(text, u64::from(place.address));
    push_number(text, u64::from(place.size));
    text.push(b'\n');
}

/// The lines of all tasks, each with its place.
pub(crate) fn push_task_lines(text: &mut Text, bytes: &[u8], tasks: &[Task], places: &[Place])
    requires room { length text.old.items + 45 * length tasks.now ≤ MOST }
    requires paired { length places.now ≡ length tasks.now }
    requires named { All (λ t. NameFits bytes.now t) tasks.now }
    ensures items { text.new.items ≡ text.old.items ++ task_lines_here bytes.now tasks.now places.now }
    ensures len { length text.new.items ≤ length text.old.items + 45 * length tasks.now }
{
    for (task, place) in tasks.iter().zip(places) {
        push_task_line(text, bytes, task, place);
    }
}
