// Which variables a predicate leaves out: no conjunct of it mentions their slots.
ghost use Rattle.std.specs.Prelude.{◌+◌, ◌<◌, ◌≤◌};
ghost use Rattle.state_facts.specs.Omissions.{RowsStand, RowsSay, LeftOut};

use lexical::bounds;
use mentions::Mention;
use points::masks::mask_of;
use search_groups::Dossier;
use search_groups::columns::END;
use search_groups::conjuncts::ROW;
use search_groups::contexts::{OPERATIONS, SIDES};
use slot_carriers::SLOTS;
use step_searches::ReadDossier;

// The greatest group has so many variables.
const MOST: usize = bounds::VARIABLES as usize;

// Do the conjuncts of the rows between two places leave out a slot? A no says nothing: a conjunct may mention a slot that its truth does not depend on.
fn rows_free(d: &Dossier<'_>, from: usize, to: usize, slot: usize) -> bool
    requires { RowsStand d.now.table.now d.now.rows.now from to }
    ensures { RowsSay d.now.table.now d.now.rows.now from to slot result }
{
    let mention = Mention {
        table: d.table,
        slot,
    };
    (from..to).step_by(ROW).all(
        |i|
            requires { i + 8 ≤ 16384 }
        { mention.free_pred(usize::from(d.rows[i + END])) },
    )
}

// Which of at most 8 slots from one on the predicate of a context leaves out, by bits, the first slot's the lowest. A bit that is not set says nothing.
// Form 1: where a number is out of range the answer is 0, which says nothing of any slot, so that its caller would do the same for `None`.
pub fn left_out(d: &ReadDossier<'_>, context: usize, slot: usize, count: usize) -> usize
    ensures { LeftOut d.now.table.now d.now.rows.now d.now.firsts.now context slot count result }
{
    if OPERATIONS + SIDES * d.arrays.operations <= context || SLOTS < slot || MOST < count {
        return 0;
    }
    let arrays = &d.arrays;
    let from = usize::from(arrays.firsts[context]);
    let to = usize::from(arrays.firsts[context + 1]);
    let bits = mask_of(
        count,
        |k|
            requires { RowsStand arrays.now.table.now arrays.now.rows.now from to × (slot ≤ 64) × (k < 8) }
        { rows_free(arrays, from, to, slot + k) },
    );
    bits as usize
}
