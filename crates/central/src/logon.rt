// A logon: what the caller sends to say who calls.
ghost use Rattle.std.specs.Prelude.{◌++◌, ◌≡◌, ◌≤◌};
ghost use Rattle.line.specs.Password.{password_text};
ghost use Rattle.line.specs.Test.{same};
ghost use Rattle.line.specs.Text.{bytes_of};
ghost use Rattle.central.specs.Hearing.{logs_on};

use line::Password;
use line::character::{CR, Class, ESC, are};
use line::memory::is_same;

// The fewest and the most characters of a logon: ESC, 3 to 9 letters or digits, CR.
pub const FEWEST: usize = 5;

pub const MOST: usize = 11;

// The text is ESC, 3 to 9 letters or digits, CR.
pub(crate) fn logs_on(text: &[u8]) -> bool
    ensures { result ≡ logs_on text.now }
{
    let n = text.len();
    if n < FEWEST {
        return false;
    }
    if MOST < n {
        return false;
    }
    if text[0] != ESC {
        return false;
    }
    if !are(&text[1..n - 1], Class::Alphanumeric) {
        return false;
    }
    text[n - 1] == CR
}

// The letters and digits are `PG1` and the password.
pub(crate) fn has_password(word: &[u8], password: Password) -> bool
    requires { password.length ≤ 6 }
    ensures { result ≡ same word.now (bytes_of "PG1" ++ password_text password) }
{
    let Some(rest) = word.strip_prefix(b"PG1") else {
        return false;
    };
    is_same(rest, &password.characters[..password.length])
}
