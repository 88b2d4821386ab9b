//! The head of a sheet.
ghost use Rattle.std.specs.Prelude.{◌≡◌, ◌≤◌, ◌<◌, length, IfOk};
ghost use Rattle.std.specs.Result.{result_map_both};
ghost use Rattle.frame.specs.Values.{values_of};
ghost use Rattle.paper.specs.Records.{after};

use crate::Sheet;
use frame::{Fault, Kind, Record, Refusal, le16, le32};

/// The sheet of a head, without its tasks, how many those are, and where the record after it starts.
#[derive(Drop)]
pub(crate) struct Head {
    pub(crate) sheet: Sheet,
    pub(crate) count: u16,
    pub(crate) end: usize,
}

impl Head {
    ghost use Rattle.sheet.specs.Steps.{head_value};
    ghost use Rattle.sheet.specs.Walks.{head_read};

    /// The head at the start of some bytes.
    #[tactic(auto, unfolding(crate::specs::Walks::head_read))]
    pub(crate) fn read(bytes: &[u8]) -> Result<Head, Refusal>
        ensures read { result_map_both head_value values_of result ≡ head_read bytes.now }
        ensures few { IfOk result (λ head. (0 < head.count) × (head.count ≤ 64)) }
        ensures end { IfOk result (λ head. head.end ≡ after bytes.now 0) }
    {
        let end = Record::only(bytes, 0, Kind::Head)?;
        let sheet = match Sheet::new(le16(bytes, 4), le32(bytes, 6)) {
            Ok(sheet) => sheet,
            Err(fault) => return Err(fault.at(0)),
        };
        let count = le16(bytes, 10);
        if count == 0 || usize::from(count) > Sheet::MOST_TASKS {
            return Err(Fault::TaskCount.at(0));
        }
        Ok(Head { sheet, count, end })
    }
}
