// Records deleted from the central's journal, as C asks for it.
ghost use Rattle.delete.specs.Deletion.{deleted, deleted_pager};
ghost use Rattle.abi.specs.Deletions.{CentralDeletes, deleted_at};

use crate::centrals::{CentralState, CentralStepped, refuse};
use central::Control;
use delete::lent::{delete, delete_pager};

// Without the n-th record from the newest, which is 1.
#[unsafe(no_mangle)]
pub extern "C" fn tyntolai_delete(
    state: CentralState,
    journal: &mut [u8],
    n: usize,
) -> CentralStepped
    ensures { CentralDeletes (deleted_at state (λ s. deleted s journal.old n)) state result
        journal.old journal.new }
{
    match Control::try_from(state) {
        Ok(control) => CentralStepped::from(delete(control, journal, n)),
        Err(refusal) => refuse(state, refusal),
    }
}

// Without every record for a pager number.
#[unsafe(no_mangle)]
pub extern "C" fn tyntolai_delete_pager(
    state: CentralState,
    journal: &mut [u8],
    number: u32,
) -> CentralStepped
    ensures { CentralDeletes (deleted_at state (λ s. deleted_pager s journal.old number)) state result
        journal.old journal.new }
{
    match Control::try_from(state) {
        Ok(control) => CentralStepped::from(delete_pager(control, journal, number)),
        Err(refusal) => refuse(state, refusal),
    }
}
