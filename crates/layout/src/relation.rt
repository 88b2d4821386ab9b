//! Who may preempt whom, by the bits of a sheet's relation.
ghost use Rattle.std.specs.Prelude.{◌≡◌, ◌<◌};
ghost use Rattle.layout.specs.Nests.{may_here};

use sheet::Sheet;

/// Whether task i may preempt task j.
pub(crate) fn may(sheet: &Sheet, i: usize, j: usize) -> bool
    requires upper { i < 64 }
    requires lower { j < 64 }
    ensures { result ≡ may_here sheet.now i j }
{
    (sheet.relation[i] >> j) & 1 == 1
}
