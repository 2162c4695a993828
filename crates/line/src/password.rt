// The password of a logon: 0 to 6 letters and digits.
ghost use Rattle.std.specs.Prelude.{◌≡◌};
ghost use Rattle.line.specs.Password.{password_in_range};

use crate::character::{Class, are};

// An array with its length beside: there is no heap, and C has the same record.
#[derive(Clone, Copy)]
pub struct Password {
    pub characters: [u8; 6],
    pub length: usize,
}

// At most 6 characters are used, each a letter or digit.
pub fn is_password(password: Password) -> bool
    ensures { result ≡ password_in_range password }
{
    let characters = password.characters;
    let length = password.length;
    if 6 < length {
        return false;
    }
    are(&characters[..length], Class::Alphanumeric)
}
