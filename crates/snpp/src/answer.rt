// What the gateway answers: number, space, CR LF.
ghost use Rattle.std.specs.Prelude.{◌≡◌, ◌≤◌, length};
ghost use Rattle.line.specs.Answer.{Wrote, copied, done};
ghost use Rattle.snpp.specs.Inner.{answer_of};
ghost use Rattle.snpp.specs.Reaction.{answer_number, answer_text, ready};

use line::Refusal;
use line::character::{CR, LF};
use line::memory::copy;

#[derive(Clone, Copy)]
pub enum Answer {
    // After QUIT.
    Nothing,
    Success,
    Goodbye,
    Unknown,
    // A message was entered already, or something is missing.
    Order,
    BadText,
    Failed,
}

// The most bytes of an answer.
pub const ANSWER: usize = 6;

// What a client waits for before its first command: 220.
pub fn greeting(out: &mut [u8]) -> Result<usize, Refusal>
    ensures { Wrote
        (copied (answer_text ready) (length out.old))
        result out.old out.new }
{
    copy(b"220 \r\n", out)
}

// The bytes of an answer.
pub(crate) fn put_answer(answer: Answer, out: &mut [u8]) -> Result<usize, Refusal>
    requires { 6 ≤ length out.old }
    ensures { Wrote (done (answer_text (answer_of answer))) result out.old out.new }
{
    let Some(n) = number(answer) else {
        return Ok(0);
    };
    let text = [
        0x30 + (n / 100) as u8,
        0x30 + (n / 10 % 10) as u8,
        0x30 + (n % 10) as u8,
        b' ',
        CR,
        LF,
    ];
    copy(&text, out)
}

// RFC 1861's number of an answer; none where nothing is answered.
// It is one of RFC 1861 and of this file alone: no `From`, since nothing else asks for it.
fn number(answer: Answer) -> Option<usize>
    ensures { result ≡ answer_number (answer_of answer) }
{
    match answer {
        Answer::Nothing => None,
        Answer::Success => Some(250),
        Answer::Goodbye => Some(221),
        Answer::Unknown => Some(500),
        Answer::Order => Some(503),
        Answer::BadText => Some(550),
        Answer::Failed => Some(554),
    }
}
