// Tests of bytes, and what is asked by them: whether every byte passes, and where the first stands that does.
ghost use Rattle.std.specs.Prelude.{Bool, ◌≡◌, ℕ, ◌+◌, drop, eqb};
ghost use Rattle.line.specs.Test.{all, before_first};

// A test of one byte.
pub trait Test: Copy {
    // The bytes that pass.
    ghost passes: { Self → ℕ → Bool };

    fn is_passed(self, byte: u8) -> bool
        ensures { result ≡ passes self byte };
}

// The byte is this one.
#[derive(Clone, Copy)]
pub struct Is {
    pub byte: u8,
}

impl Test for Is {
    ghost passes = { λ it byte. eqb byte it.byte };

    fn is_passed(self, byte: u8) -> bool {
        byte == self.byte
    }
}

// Every byte passes. All are tested, so that the loop vectorizes.
pub fn every<T: Test>(bytes: &[u8], test: T) -> bool
    ensures { result ≡ all (T.passes test) bytes.now }
{
    let mut every = true;
    for &byte in bytes {
        every &= test.is_passed(byte);
    }
    every
}

// The place of the first byte that passes, from a place on. Where there is none it is the end, or that
// place itself if it lies further on.
pub fn seek<T: Test>(bytes: &[u8], from: usize, test: T) -> usize
    ensures { result ≡ from + before_first (T.passes test) (drop from bytes.now) }
{
    for i in from..bytes.len() {
        if test.is_passed(bytes[i]) {
            return i;
        }
    }
    from.max(bytes.len())
}
