// Which records are deleted.
ghost use Rattle.std.specs.Prelude.{◌≡◌};
ghost use Rattle.delete.specs.Inner.{is_chosen};

use admission::is_for;

// Which records. An enum, since contracts name it: of a closure each would have to say what it answers.
#[derive(Clone, Copy)]
pub(crate) enum Choice {
    // The record of this rank from the newest, which has 1.
    Newest(usize),
    // Every record for this pager number.
    Pager(u32),
    // No record.
    Nothing,
}

// The record of this rank from the newest, which has 1, is chosen.
// One arm is false and two test: a match, and no equality.
pub(crate) fn is_chosen(choice: Choice, rank: usize, info: &[u8]) -> bool
    ensures { result ≡ is_chosen choice rank info.now }
{
    match choice {
        Choice::Newest(n) => rank == n,
        Choice::Pager(number) => is_for(info, number),
        Choice::Nothing => false,
    }
}
