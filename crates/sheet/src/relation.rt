//! Who may preempt whom, as bits: bit j of row i says that task i may preempt task j.
ghost use Rattle.paper.specs.Dispatch.{row_of};
ghost use Rattle.sheet.specs.Walks.{free_rows, over, without};
ghost use Rattle.std.specs.Prelude.{◌≡◌, ◌<◌, ◌≤◌, length};

use crate::{Sheet, Task};

/// A row without a bit.
pub(crate) fn without(row: u64, bit: usize) -> u64
    requires { bit < 64 }
    ensures { result ≡ without row bit }
{
    if (row >> bit) & 1 == 1 {
        row - (1 << bit)
    } else {
        row
    }
}

/// The tasks that task i may preempt where no pair is barred: those with a threshold below its priority.
fn row(tasks: &[Task], i: usize) -> u64
    requires fits { length tasks.now ≤ 64 }
    requires within { i < length tasks.now }
    ensures { result ≡ row_of (length tasks.now) (over tasks.now i) }
{
    let priority = tasks[i].priority;
    let mut row = 0;
    for (j, task) in tasks.iter().enumerate() {
        if task.threshold < priority {
            row += 1 << j;
        }
    }
    row
}

/// The relation where no pair is barred.
pub(crate) fn free_rows(tasks: &[Task]) -> [u64; Sheet::MOST_TASKS]
    requires { length tasks.now ≤ 64 }
    ensures { result ≡ free_rows tasks.now }
{
    let mut rows = [0; Sheet::MOST_TASKS];
    for i in 0..tasks.len() {
        rows[i] = row(tasks, i);
    }
    rows
}
