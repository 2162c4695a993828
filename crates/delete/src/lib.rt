// Records deleted from a journal while no call is open (document 02's strike): one by its place from the newest, or all of one
// pager.
#![tactic(auto)]

mod choice;
mod compaction;
pub mod lent;

ghost use Rattle.delete.specs.Deletion.{Deletes, deleted, deleted_pager};

use central::step::{control_of, join};
use central::{State, Stepped};

// Without the n-th record from the newest, which is 1, and the state over the shorter journal.
// README offers both ways of keeping a state: this is `lent::delete`, and `delete_pager` is the like.
pub fn delete(state: State, journal: &mut [u8], n: usize) -> Stepped
    ensures { Deletes (deleted state journal.old n) state result journal.old journal.new }
{
    let pending = state.pending;
    let moved = lent::delete(control_of(state), journal, n);
    join(moved, pending)
}

// Without every record for a pager number, and the state over the shorter journal.
pub fn delete_pager(state: State, journal: &mut [u8], number: u32) -> Stepped
    ensures { Deletes (deleted_pager state journal.old number) state result
        journal.old journal.new }
{
    let pending = state.pending;
    let moved = lent::delete_pager(control_of(state), journal, number);
    join(moved, pending)
}
