// The checksum of a block: the sum of its 7-bit values, modulo 4,096, as three characters.
ghost use Rattle.std.specs.Prelude.{◌≡◌, ◌+◌, ◌%◌, ◌<◌};
ghost use Rattle.block.specs.Checksum as Checksum;
ghost use Rattle.line.specs.Parity.{seven_bits};

// The sum with one character more, modulo 4,096: whatever the sum was, twelve bits hold it.
pub fn add(sum: u16, character: u8) -> u16
    ensures { (result < 4096) × (result ≡ Checksum.added sum character) }
{
    let more = sum % 4096 + low_seven(character);
    more % 4096
}

// The sum of the 7-bit values, modulo 4,096: `add` folded over the text, from nought.
pub fn checksum(text: &[u8]) -> u16
    ensures { result ≡ Checksum.checksum text.now }
{
    let mut sum: u16 = 0;
    for &c in text {
        sum = add(sum, c);
    }
    sum
}

// The three characters that carry a checksum.
pub type Check = [u8; 3];

// The characters that carry the checksum of the text, highest four bits first.
pub fn check_characters(text: &[u8]) -> Check
    ensures { result ≡ Checksum.check_characters (Checksum.checksum text.now) }
{
    sum_characters(checksum(text))
}

// The characters that carry a sum, modulo 4,096, highest four bits first.
pub fn sum_characters(sum: u16) -> Check
    ensures { result ≡ Checksum.check_characters (sum % 4096) }
{
    let sum = sum % 4096;
    [carry(sum / 256), carry(sum / 16 % 16), carry(sum % 16)]
}

fn low_seven(b: u8) -> u16
    ensures { result ≡ seven_bits b }
{
    (b % 0x80) as u16
}

// The character that carries four bits.
fn carry(bits: u16) -> u8
    requires { bits < 16 }
    ensures { result ≡ 0x30 + bits }
{
    (0x30 + bits) as u8
}
