//! Tasks by identity.
ghost use Rattle.std.specs.Prelude.{◌≡◌, ◌<◌, length, IfSome};
ghost use Rattle.sheet.specs.Walks.{index_of};

use crate::Task;

/// The index of the task that an identity names.
pub(crate) fn index_of(tasks: &[Task], identity: u16) -> Option<usize>
    ensures index { result ≡ index_of tasks.now identity }
    ensures inside { IfSome result (λ i. i < length tasks.now) }
{
    tasks.iter().position(|task| task.identity == identity)
}
