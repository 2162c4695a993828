// The same for a state whose unfinished information lies in lent memory: while no call is open there is none, so that memory is
// not asked for.
ghost use Rattle.std.specs.Prelude.{List, ◌≡◌, ℕ};
ghost use Rattle.line.specs.Answer.{Wrote, map_done};
ghost use Rattle.journal.specs.Encoding.{encode};
ghost use Rattle.central.specs.Lent.{state_of};
ghost use Rattle.delete.specs.Deletion.{DeletesIn, deleted, deleted_pager, is_open, rests_in_range};
ghost use Rattle.delete.specs.Inner.{allowed, behind, deleted_chosen};

use crate::choice::Choice;
use crate::compaction::remove;
use central::{Control, Moved, Stage};
use line::Refusal;

// Without the n-th record from the newest, which is 1, and the control over the shorter journal.
// README names both, and each hands its choice on: one line each.
pub fn delete(control: Control, journal: &mut [u8], n: usize) -> Moved
    ensures { DeletesIn (λ s. deleted s journal.old n) control result journal.old journal.new }
{
    delete_chosen(control, journal, Choice::Newest(n))
}

// Without every record for a pager number, and the control over the shorter journal.
pub fn delete_pager(control: Control, journal: &mut [u8], number: u32) -> Moved
    ensures { DeletesIn (λ s. deleted_pager s journal.old number) control result
        journal.old journal.new }
{
    delete_chosen(control, journal, Choice::Pager(number))
}

// Without the records that are chosen.
fn delete_chosen(control: Control, journal: &mut [u8], choice: Choice) -> Moved
    ensures { DeletesIn (λ s. deleted_chosen choice s journal.old) control result
        journal.old journal.new }
{
    let outcome = test_and_remove(control, journal, choice);
    over(control, outcome)
}

// The journal's new length, or the refusal.
fn test_and_remove(control: Control, journal: &mut [u8], choice: Choice) -> Result<usize, Refusal>
    ensures { (array : List ℕ) →
        Wrote (map_done encode (deleted_chosen choice (state_of control array) journal.old))
        result journal.old journal.new }
{
    if !rests_in_range(control) {
        return Err(Refusal::Range);
    }
    let allowed = allow(control, choice);
    remove(journal, control.journal, allowed)
}

// In an open call nothing is chosen.
fn allow(control: Control, choice: Choice) -> Choice
    ensures { result ≡ allowed control.stage choice }
{
    if is_open(control.stage) {
        return Choice::Nothing;
    }
    choice
}

// While no call is open there is no row of failures and no unfinished information.
fn rests_in_range(control: Control) -> bool
    ensures { result ≡ rests_in_range control.stage control.failures control.length }
{
    is_open(control.stage) || control.failures == 0 && control.length == 0
}

// A call is open.
fn is_open(stage: Stage) -> bool
    ensures { result ≡ is_open stage }
{
    matches!(stage, Stage::Logon | Stage::Block)
}

// The control over the journal of the new length; a refusal leaves it.
fn over(control: Control, outcome: Result<usize, Refusal>) -> Moved
    ensures { result ≡ behind control outcome }
{
    let journal = outcome.unwrap_or(control.journal);
    Moved {
        outcome,
        control: Control { journal, ..control },
    }
}
