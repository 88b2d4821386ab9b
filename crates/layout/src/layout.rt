//! A layout, and the sheet that it is of.
ghost use Rattle.std.specs.Prelude.{◌≡◌, Ok};

use crate::chain::{chain, total};
use crate::places::places;
use crate::transitive;
use frame::Refusal;
use sheet::Sheet;
use slots::{Blank, Slots};

/// The place of a task in the block.
#[derive(Clone, Copy, Debug, Default, PartialEq, Eq)]
pub struct Place {
    pub identity: u16,
    pub address: u32,
    pub size: u32,
}

/// A layout: the places in task order, and the identities of the chain, bottom first.
#[derive(Clone, Copy, Debug, PartialEq, Eq)]
pub struct Layout {
    pub alignment: u16,
    pub total: u32,
    pub places: Slots<Place, { Sheet::MOST_TASKS }>,
    pub chain: Slots<u16, { Sheet::MOST_TASKS }>,
}

/// A sheet as it was read, and its layout.
#[derive(Clone, Copy, Debug, PartialEq, Eq)]
pub struct LaidOut {
    pub sheet: Sheet,
    pub layout: Layout,
}

impl Blank for Place {
    ghost blank = { record { identity = 0; address = 0; size = 0 } };

    fn blank() -> Place {
        Place::default()
    }
}

impl Place {
    /// The greatest need, which each alignment divides.
    pub const MOST_SIZE: u32 = 1_048_576;
}

impl Layout {
    ghost use Rattle.std.specs.Result.{result_map_both};
    ghost use Rattle.frame.specs.Values.{values_of};
    ghost use Rattle.layout.specs.Nests.{layout_here, rules_here, IsOrderly};
    ghost use Rattle.paper.specs.Refusals.{first, unless};

    pub const MOST_TOTAL: u32 = 16_777_216;

    // The layout of a sheet that was read.
    fn of(sheet: &Sheet) -> Result<Layout, Refusal>
        requires { IsOrderly sheet.now }
        ensures { result_map_both (λ layout. layout) values_of result ≡ unless (first (rules_here sheet.now)) (Ok (layout_here sheet.now)) }
    {
        transitive::check(sheet)?;
        let places = places(sheet);
        let total = total(&places);
        if total > sheet.area {
            return Err(Refusal::TotalAboveArea {
                total: total as usize,
            });
        }
        let chain = chain(sheet, &places);
        Ok(Layout {
            alignment: sheet.alignment,
            total,
            places: Slots::of(&places),
            chain: Slots::of(&chain),
        })
    }
}

impl LaidOut {
    ghost use Rattle.frame.specs.Values.{answer_of};
    ghost use Rattle.layout.specs.Values.{laid_out};

    /// The sheet that some bytes say, with its layout, or why there is none.
    pub fn read(bytes: &[u8]) -> Result<LaidOut, Refusal>
        ensures { answer_of result ≡ laid_out bytes.now }
    {
        let sheet = Sheet::read(bytes)?;
        let layout = Layout::of(&sheet)?;
        Ok(LaidOut { sheet, layout })
    }
}
