//! A task of a sheet, with its limits.
ghost use Rattle.std.specs.Prelude.{◌≡◌, ◌+◌, ◌≤◌, length};
ghost use Rattle.std.specs.Result.{result_map_both};
ghost use Rattle.frame.specs.Values.{answer_of, fault_number};
ghost use Rattle.paper.specs.Records.{after};
ghost use Rattle.paper.specs.Words.{every};
ghost use Rattle.paper.specs.Limits.{in_name};

use frame::{Fault, Part, Refusal, le16, le32};
use slots::Blank;

/// A task of a sheet. Its name is a part of the sheet's bytes.
#[derive(Clone, Copy, Debug, Default, PartialEq, Eq)]
pub struct Task {
    pub identity: u16,
    pub priority: u16,
    pub threshold: u16,
    pub need: u32,
    pub name: Part,
}

// Whether a byte may stand in a name, and whether each of some bytes may.
fn in_name(byte: u8) -> bool
    ensures { result ≡ in_name byte }
{
    0x21 <= byte && byte <= 0x7E
}

fn is_name(bytes: &[u8]) -> bool
    ensures { result ≡ every in_name bytes.now }
{
    bytes.iter().all(|&byte| in_name(byte))
}

impl Blank for Task {
    ghost use Rattle.sheet.specs.Walks.{no_task};

    ghost blank = { no_task };

    fn blank() -> Task {
        Task::default()
    }
}

impl Task {
    ghost use Rattle.sheet.specs.Walks.{task_read};
    ghost use Rattle.sheet.specs.Within.{task_within};

    pub const MOST_LEVEL: u16 = 255;

    pub const MOST_NEED: u32 = 1_048_576;

    // How long a task's record is before the name.
    const BEFORE_NAME: usize = 14;

    /// A task within the limits, or the first limit that it breaks. What bytes a name may have is for the sheet to say.
    pub fn new(
        identity: u16,
        priority: u16,
        threshold: u16,
        need: u32,
        name: Part,
    ) -> Result<Task, Fault>
        ensures { result_map_both (λ task. task) fault_number result ≡ task_within identity priority threshold need name }
    {
        if identity == 0 {
            return Err(Fault::Identity);
        }
        if priority > Task::MOST_LEVEL {
            return Err(Fault::Priority);
        }
        if threshold > Task::MOST_LEVEL || threshold < priority {
            return Err(Fault::Threshold);
        }
        if need > Task::MOST_NEED {
            return Err(Fault::Need);
        }
        Ok(Task {
            identity,
            priority,
            threshold,
            need,
            name,
        })
    }

    // The task of a framed record, where the task before it has the identity `before`, 0 for none.
    #[tactic(auto, unfolding(crate::specs::Walks::task_read))]
    pub(crate) fn read(bytes: &[u8], at: usize, end: usize, before: u16) -> Result<Task, Refusal>
        requires ends { end ≡ after bytes.now at }
        requires named { at + 14 ≤ end }
        requires whole { end ≤ length bytes.now }
        ensures { answer_of result ≡ task_read bytes.now at before }
    {
        let identity = le16(bytes, at + 4);
        if identity <= before {
            return Err(Fault::Identity.at(at));
        }
        let name = Part {
            from: at + Task::BEFORE_NAME,
            to: end,
        };
        let task = match Task::new(
            identity,
            le16(bytes, at + 6),
            le16(bytes, at + 8),
            le32(bytes, at + 10),
            name,
        ) {
            Ok(task) => task,
            Err(fault) => return Err(fault.at(at)),
        };
        if !is_name(&bytes[name.from..name.to]) {
            return Err(Fault::NameByte.at(at));
        }
        Ok(task)
    }
}
