// A password as C lays it out.
ghost use Rattle.std.specs.Prelude.{◌≡◌};
ghost use Rattle.abi.specs.Settings.{password_of};

// 0 to 6 letters and digits.
#[repr(C)]
#[derive(Clone, Copy)]
pub struct Password {
    pub characters: [u8; 6],
    pub length: usize,
}

impl From<Password> for line::Password {
    ghost from_gives = { λ lent password. password ≡ password_of lent };

    fn from(password: Password) -> line::Password {
        // An array that is handed straight on the borrow checker does not cover.
        let characters = password.characters;
        line::Password {
            characters,
            length: password.length,
        }
    }
}
