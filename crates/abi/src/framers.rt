// The framer as C has it; its state is laid out as C has it already.
ghost use Rattle.std.specs.Prelude.{◌≡◌};
ghost use Rattle.std.proofs.Math.ListN as ListN;
ghost use Rattle.line.specs.Answer.{outcome_of};
ghost use Rattle.framer.specs.State.{fed_to, flushed};
ghost use Rattle.abi.specs.Framers.{FramerFeeds, FramerFlushes, framed_answer};

use crate::answer::Answer;
use framer::{Framer, feed, flush};
use line::Refusal;

// The count is the length of the string, or 0 where none is complete yet; and how many bytes were used.
#[repr(C)]
#[derive(Clone, Copy)]
pub struct FramerFed {
    pub answer: Answer,
    pub used: usize,
    pub state: Framer,
}

#[repr(C)]
#[derive(Clone, Copy)]
pub struct FramerFlushed {
    pub answer: Answer,
    pub state: Framer,
}

// Takes bytes up to the end of the first string that they complete, or all of them.
#[unsafe(no_mangle)]
pub extern "C" fn tyntolai_framer_feed(state: Framer, bytes: &[u8], out: &mut [u8]) -> FramerFed
    ensures { FramerFeeds
        (fed_to state bytes.now (ListN.length out.old))
        state result out.old out.new }
{
    let fed = feed(state, bytes, out);
    FramerFed {
        answer: Answer::from(fed.outcome),
        used: fed.used,
        state: fed.state,
    }
}

// Nothing more came: what is held is handed over as it stands.
#[unsafe(no_mangle)]
pub extern "C" fn tyntolai_framer_flush(state: Framer, out: &mut [u8]) -> FramerFlushed
    ensures { FramerFlushes
        (flushed state (ListN.length out.old))
        state result out.old out.new }
{
    let flushed = flush(state, out);
    FramerFlushed {
        answer: Answer::from(flushed.outcome),
        state: flushed.state,
    }
}

// What feeding answers, in numbers.
impl From<Result<Option<usize>, Refusal>> for Answer {
    ghost from_gives = { λ outcome answer. answer ≡ framed_answer (outcome_of outcome) };

    fn from(outcome: Result<Option<usize>, Refusal>) -> Answer {
        match outcome {
            Ok(string) => Answer {
                count: string.unwrap_or(0),
                code: 0,
            },
            Err(refusal) => Answer::from(refusal),
        }
    }
}
