// A transaction's information, tested as document 01 describes it.
ghost use Rattle.std.specs.Prelude.{◌≡◌, length};
ghost use Rattle.line.specs.Answer.{outcome_of, done};
ghost use Rattle.line.specs.Transaction.{ends_in_cr, legal, of_transaction};

use crate::answer::Refusal;
use crate::character::{CR, Class, are};

// The most characters of a transaction's information.
pub const MOST_INFORMATION: usize = 2000;

// The length of the information of a transaction, or why it is none.
pub fn check_transaction(info: &[u8]) -> Result<usize, Refusal>
    ensures { outcome_of result ≡ of_transaction info.now (done (length info.now)) }
{
    let n = info.len();
    if is_legal(info) {
        return Ok(n);
    }
    if n < 1 {
        return Err(Refusal::Length);
    }
    if MOST_INFORMATION < n {
        return Err(Refusal::Length);
    }
    if !are(info, Class::SevenBit) {
        return Err(Refusal::Parity);
    }
    Err(Refusal::Information)
}

// The information is that of a legal transaction.
pub fn is_legal(info: &[u8]) -> bool
    ensures { result ≡ legal info.now }
{
    if MOST_INFORMATION < info.len() {
        return false;
    }
    ends_in_cr(info) & are(info, Class::Textual)
}

// The last character is CR.
pub fn ends_in_cr(text: &[u8]) -> bool
    ensures { result ≡ ends_in_cr text.now }
{
    text.ends_with(&[CR])
}
