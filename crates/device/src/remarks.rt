// What a reply counts as: of what counts as unread no remarks are reported.
ghost use Rattle.std.specs.Prelude.{◌≡◌};
ghost use Rattle.device.specs.Reaction.{block_reply};
ghost use Rattle.device.specs.Remarks.{counted_as, counted_by};

use crate::reaction::block_reply;
use crate::state::Step;
use reply::Reply;

// A reply as a step counts it: a device that has stopped reads none.
pub(crate) fn counted_as(step: Step, reply: Reply) -> Reply
    ensures { result ≡ counted_as step reply }
{
    match step {
        Step::Opening(_) | Step::Logon(_) | Step::Closing(_) => reply,
        Step::Sending(_) => counted_to_block(reply),
        Step::Stopped => None,
    }
}

// To a block an ID request and a logon acceptance count as unread.
fn counted_to_block(reply: Reply) -> Reply
    ensures { result ≡ counted_by (block_reply reply) reply }
{
    // No `and`: `let .. else` is the named form for what counts as unread.
    let Some(_) = block_reply(reply) else {
        return None;
    };
    reply
}
