// What the central answers, and its bytes on the line.
ghost use Rattle.std.specs.Prelude.{◌≡◌, ◌≤◌, length};
ghost use Rattle.line.specs.Answer.{Wrote, done};
ghost use Rattle.central.specs.Inner.{answer_of};
ghost use Rattle.central.specs.Reaction.{answer_bytes, answer_text};

use line::Refusal;
use line::character::{ACK, CR, EOT, ESC, NAK, RS};
use line::parity::set_parity;

#[derive(Clone, Copy)]
pub enum Answer {
    Nothing,
    // The caller is asked who calls.
    IdRequest,
    // The logon is accepted, and the central is ready.
    Acceptance,
    Ack,
    Nak,
    Rs,
    // ESC EOT: the central hangs up.
    HangUp,
}

// The bytes of the answer, with parity.
pub(crate) fn put_answer(answer: Answer, out: &mut [u8]) -> Result<usize, Refusal>
    requires { 7 ≤ length out.old }
    ensures { Wrote (done (answer_bytes (answer_of answer))) result out.old out.new }
{
    set_parity(text_of(answer), out)
}

// The characters of the answer.
fn text_of(answer: Answer) -> &'static [u8]
    ensures { result.now ≡ answer_text (answer_of answer) }
{
    match answer {
        Answer::Nothing => &[],
        Answer::IdRequest => b"ID=\r",
        Answer::Acceptance => &[CR, ACK, CR, ESC, b'[', b'p', CR],
        Answer::Ack => &[CR, ACK, CR],
        Answer::Nak => &[CR, NAK, CR],
        Answer::Rs => &[CR, RS, CR],
        Answer::HangUp => &[CR, ESC, EOT, CR],
    }
}
