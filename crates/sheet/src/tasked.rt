//! The tasks of a sheet, read one after the other.
ghost use Rattle.std.specs.Prelude.{◌≡◌, ◌≤◌, [], length, IfOk};
ghost use Rattle.std.specs.Result.{result_map_both};
ghost use Rattle.frame.specs.Values.{values_of};

use crate::{Sheet, Task};
use frame::{Kind, Record, Refusal};
use slots::Slots;

/// Tasks that were read, the identity of the last one, 0 for none, and where the record after them starts.
#[derive(Drop)]
pub(crate) struct Tasked {
    pub(crate) at: usize,
    pub(crate) before: u16,
    pub(crate) tasks: Slots<Task, { Sheet::MOST_TASKS }>,
}

impl Tasked {
    ghost use Rattle.sheet.specs.Steps.{tasked_value};
    ghost use Rattle.sheet.specs.Walks.{tasks_walk};

    /// `count` tasks, the first at `from`.
    pub(crate) fn read(bytes: &[u8], from: usize, count: u16) -> Result<Tasked, Refusal>
        requires { count ≤ 64 }
        ensures read { result_map_both tasked_value values_of result
            ≡ tasks_walk count bytes.now (record { at = from; before = 0; tasks = [] }) }
        ensures counted { IfOk result (λ w. length w.tasks.items ≡ count) }
    {
        let mut at = from;
        let mut before = 0;
        let mut tasks = Slots::new();
        for i in 0..count {
            let end = Record::only(bytes, at, Kind::Task)?;
            let task = Task::read(bytes, at, end, before)?;
            before = task.identity;
            tasks.push(task);
            at = end;
        }
        Ok(Tasked { at, before, tasks })
    }
}
