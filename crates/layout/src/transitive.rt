//! Whether who may preempt whom is transitive, and the smallest triple of tasks where it is not.
ghost use Rattle.std.specs.Prelude.{◌≡◌, ◌≤◌, ◌<◌, [], ◌∷◌, Ok, IfSome};
ghost use Rattle.std.specs.Result.{result_map_both};
ghost use Rattle.frame.specs.Values.{values_of};
ghost use Rattle.layout.specs.Found.{found, pair_found};
ghost use Rattle.layout.specs.Nests.{count_here, may_here, transitive_here};
ghost use Rattle.paper.specs.Preempting.{breaks};
ghost use Rattle.paper.specs.Refusals.{first, unless};

use crate::relation::may;
use frame::Refusal;
use sheet::Sheet;

/// Two tasks by index that break the rule over a third, k: j may preempt k and i may preempt j, but i may not preempt k.
#[derive(Clone, Copy)]
struct Pair {
    j: usize,
    i: usize,
}

/// The first task that breaks the rule over j and k. It is looked for only where j may preempt k: elsewhere there is none.
fn least_over(sheet: &Sheet, k: usize, j: usize) -> Option<usize>
    requires k_fits { k < 64 }
    requires j_fits { j < 64 }
    ensures least { result ≡ found (count_here sheet.now) (λ i. breaks (may_here sheet.now) k j i) }
    ensures listed { IfSome result (λ i. i < count_here sheet.now) }
{
    if !may(sheet, j, k) {
        return None;
    }
    for i in 0..sheet.tasks.len() {
        if may(sheet, i, j) && !may(sheet, i, k) {
            return Some(i);
        }
    }
    None
}

/// The first pair that breaks the rule over k, j first.
fn least_above(sheet: &Sheet, k: usize) -> Option<Pair>
    requires { k < 64 }
    ensures least { result ≡ pair_found (count_here sheet.now) (may_here sheet.now) k }
    ensures listed { IfSome result (λ pair. (pair.j < count_here sheet.now) × (pair.i < count_here sheet.now)) }
{
    for j in 0..sheet.tasks.len() {
        if let Some(i) = least_over(sheet, k, j) {
            return Some(Pair { j, i });
        }
    }
    None
}

/// Refuses a sheet whose relation is not transitive, and names the smallest triple that breaks the rule, k first.
pub(crate) fn check(sheet: &Sheet) -> Result<(), Refusal>
    requires { count_here sheet.now ≤ 64 }
    ensures { result_map_both (λ done. done) values_of result ≡ unless (first (transitive_here sheet.now ∷ [])) (Ok tt) }
{
    for k in 0..sheet.tasks.len() {
        if let Some(pair) = least_above(sheet, k) {
            return Err(Refusal::NotTransitive {
                k: sheet.tasks[k].identity,
                j: sheet.tasks[pair.j].identity,
                i: sheet.tasks[pair.i].identity,
            });
        }
    }
    Ok(())
}
