// What a call comes to, in two numbers.
ghost use Rattle.std.specs.Prelude.{◌≡◌};
ghost use Rattle.line.specs.Answer.{outcome_of, refusal_number, refused};
ghost use Rattle.abi.specs.Answer.{answer_of};

use line::Refusal;
use line::answer::{code, count};

// The count, which is 0 for a refusal, and document 01's number, which is 0 where the call is done.
#[repr(C)]
#[derive(Clone, Copy)]
pub struct Answer {
    pub count: usize,
    pub code: u8,
}

// What a writer or a test answers.
impl From<Result<usize, Refusal>> for Answer {
    ghost from_gives = { λ outcome answer. answer ≡ answer_of (outcome_of outcome) };

    fn from(outcome: Result<usize, Refusal>) -> Answer {
        Answer {
            count: count(outcome),
            code: code(outcome),
        }
    }
}

impl From<Refusal> for Answer {
    ghost from_gives = { λ refusal answer. answer ≡ answer_of (refused (refusal_number refusal)) };

    fn from(refusal: Refusal) -> Answer {
        Answer {
            count: 0,
            code: u8::from(refusal),
        }
    }
}
