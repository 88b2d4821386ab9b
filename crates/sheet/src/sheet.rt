//! A sheet, in fixed memory: a heap that runs out would be a refusal that no rule gives.
ghost use Rattle.std.specs.Prelude.{◌≡◌};
ghost use Rattle.paper.specs.Limits.{is_alignment};

use crate::Task;
use crate::barring::Barring;
use crate::head::Head;
use crate::tasked::Tasked;
use frame::{Fault, Refusal};
use slots::Slots;

/// Whether an alignment is one of those that a sheet or a map may have.
#[tactic(auto, unfolding(paper::specs::Words::among))]
pub fn is_alignment(alignment: u16) -> bool
    ensures { result ≡ is_alignment alignment }
{
    matches!(alignment, 1 | 2 | 4 | 8 | 16 | 32 | 64)
}

/// The tasks of a sheet in the sheet's order, and who may preempt whom.
#[derive(Clone, Copy, Debug, PartialEq, Eq)]
pub struct Sheet {
    pub alignment: u16,
    pub area: u32,
    pub tasks: Slots<Task, { Sheet::MOST_TASKS }>,

    /// Bit j of row i says that task i may preempt task j; rows past the tasks are 0.
    // An array, since a list is no plainer: its length would have to be kept equal to that of `tasks`, and the opening of
    // a dispatch would fill it up to 64 rows again (`Dispatch.state_of`, `slots`).
    pub relation: [u64; Sheet::MOST_TASKS],
}

impl Sheet {
    ghost use Rattle.std.specs.Result.{result_map_both};
    ghost use Rattle.frame.specs.Values.{answer_of, fault_number};
    ghost use Rattle.paper.specs.Sheets.{read_sheet};
    ghost use Rattle.sheet.specs.Values.{sheet_read};
    ghost use Rattle.sheet.specs.Within.{sheet_within};

    pub const MOST_TASKS: usize = 64;

    pub const MOST_AREA: u32 = 16_777_216;

    /// A sheet within the limits, without tasks, or the first limit that it breaks.
    pub fn new(alignment: u16, area: u32) -> Result<Sheet, Fault>
        ensures { result_map_both (λ sheet. sheet) fault_number result ≡ sheet_within alignment area }
    {
        if !is_alignment(alignment) {
            return Err(Fault::Alignment);
        }
        if area > Sheet::MOST_AREA {
            return Err(Fault::Area);
        }
        let relation = [0; Sheet::MOST_TASKS];
        Ok(Sheet {
            alignment,
            area,
            tasks: Slots::new(),
            relation,
        })
    }

    /// The sheet that some bytes say, or what is wrong with them.
    pub fn read(bytes: &[u8]) -> Result<Sheet, Refusal>
        ensures { answer_of result ≡ sheet_read (read_sheet bytes.now) }
    {
        let head = Head::read(bytes)?;
        let tasked = Tasked::read(bytes, head.end, head.count)?;
        let barring = Barring::read(bytes, &tasked.tasks, tasked.at)?;
        if barring.at < bytes.len() {
            return Err(Fault::BytesAfterEnd.at(barring.at));
        }
        let mut sheet = head.sheet;
        sheet.tasks = tasked.tasks;
        let rows = barring.rows;
        sheet.relation = rows;
        Ok(sheet)
    }
}
