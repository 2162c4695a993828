// The numbered refusals of document 01, and number and count of a call's answer.
ghost use Rattle.std.specs.Prelude.{◌≡◌};
ghost use Rattle.line.specs.Answer.{count_of, number_of, outcome_of, refusal_number};

// Why a call was refused. `u8::from` gives document 01's number.
#[derive(Clone, Copy, Debug, PartialEq, Eq)]
pub enum Refusal {
    // 1: an output or work buffer has the wrong size or is short.
    Size,
    // 2: a length outside the limits.
    Length,
    // 3: a byte of odd parity; where parity is off, a byte of 80 hex or more.
    Parity,
    // 4: STX, ending, check characters' range or CR.
    Frame,
    // 5: the checksum.
    Checksum,
    // 6: a character of the information, or the rule of its ending.
    Information,
    // 7: a journal or job that is not well formed, or whose length is wrong.
    Journal,
    // 8: the journal lacks room.
    Room,
    // 9: a setting, list, fault or saved state out of range.
    Range,
}

impl From<Refusal> for u8 {
    ghost from_gives = { λ refusal number. number ≡ refusal_number refusal };

    fn from(refusal: Refusal) -> u8 {
        match refusal {
            Refusal::Size => 1,
            Refusal::Length => 2,
            Refusal::Parity => 3,
            Refusal::Frame => 4,
            Refusal::Checksum => 5,
            Refusal::Information => 6,
            Refusal::Journal => 7,
            Refusal::Room => 8,
            Refusal::Range => 9,
        }
    }
}

// Document 01's number of what a call answers: 0 where it is done.
pub fn code<T: Copy>(answer: Result<T, Refusal>) -> u8
    ensures { result ≡ number_of (outcome_of answer) }
{
    match answer {
        Ok(_) => 0,
        Err(refusal) => u8::from(refusal),
    }
}

// The count that goes with it: nought where it is refused.
pub fn count(answer: Result<usize, Refusal>) -> usize
    ensures { result ≡ count_of (outcome_of answer) }
{
    answer.unwrap_or(0)
}
