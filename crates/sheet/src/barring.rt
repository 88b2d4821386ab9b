//! The bars of a sheet, read one after the other up to the end record.
ghost use Rattle.std.specs.Prelude.{◌≡◌, ◌+◌, ◌≤◌, ◌<◌, [], length, IfSome, IfOk};
ghost use Rattle.std.specs.Result.{result_map_both};
ghost use Rattle.frame.specs.Values.{values_of};
ghost use Rattle.paper.specs.Records.{after};

use crate::bar::Bar;
use crate::index::index_of;
use crate::relation::{free_rows, without};
use crate::{Sheet, Task};
use frame::{Fault, Kind, Record, Refusal, le16};

/// Where the walk over the bars stands: the last bar, zeros before the first, and who may preempt whom after it.
#[derive(Clone, Copy)]
pub(crate) struct Barring {
    pub(crate) at: usize,
    pub(crate) before: Bar,
    pub(crate) rows: [u64; Sheet::MOST_TASKS],
}

impl Barring {
    ghost use Rattle.sheet.specs.Steps.{barring_value, no_bars};
    ghost use Rattle.sheet.specs.Walks.{bar_read, bars_walk};

    /// The walk past a bar, which is framed and ends at `end`.
    #[tactic(auto, unfolding(crate::specs::Walks::bar_read, crate::specs::Walks::bar_between))]
    fn past_bar(self, bytes: &[u8], tasks: &[Task], end: usize) -> Result<Barring, Refusal>
        requires few { length tasks.now ≤ 64 }
        requires ends { end ≡ after bytes.now self.at }
        requires whole { self.at + 8 ≤ end }
        ensures { result_map_both barring_value values_of result ≡ bar_read bytes.now tasks.now (barring_value self) }
    {
        let bar = Bar {
            lower: le16(bytes, self.at + 4),
            upper: le16(bytes, self.at + 6),
        };
        let Some(lower) = index_of(tasks, bar.lower) else {
            return Err(Fault::BarOfNoTask.at(self.at));
        };
        let Some(upper) = index_of(tasks, bar.upper) else {
            return Err(Fault::BarOfNoTask.at(self.at));
        };
        if tasks[upper].priority <= tasks[lower].threshold {
            return Err(Fault::BarsNothing.at(self.at));
        }
        if bar <= self.before {
            return Err(Fault::BarOrder.at(self.at));
        }
        let mut rows = self.rows;
        rows[upper] = without(rows[upper], lower);
        Ok(Barring {
            at: end,
            before: bar,
            rows,
        })
    }

    /// The walk past all bars and the end record, from `from` on. There are fewer records than bytes.
    pub(crate) fn read(bytes: &[u8], tasks: &[Task], from: usize) -> Result<Barring, Refusal>
        requires { length tasks.now ≤ 64 }
        ensures { result_map_both barring_value values_of result
            ≡ bars_walk (length bytes.now) bytes.now tasks.now (no_bars tasks.now from) }
    {
        let rows = free_rows(tasks);
        let mut walk = Barring {
            at: from,
            before: Bar::default(),
            rows,
        };
        for i in 0..bytes.len() {
            let record = Record::read(bytes, walk.at, &[Kind::Bar, Kind::End])?;
            if record.kind == Kind::End {
                walk.at = record.end;
                return Ok(walk);
            }
            walk = walk.past_bar(bytes, tasks, record.end)?;
        }
        Err(Fault::BytesRunOut.at(walk.at))
    }
}
