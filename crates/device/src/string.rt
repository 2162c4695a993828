// The string that a step sends, with parity. The output's 256 bytes are asked of a list that the
// definitions take whole, so no type holds them; and so in `step`.
ghost use Rattle.std.specs.Prelude.{true, List, map, ◌≡◌, ℕ, ◌≤◌, ◌<◌, length};
ghost use Rattle.line.specs.Answer.{Laid};
ghost use Rattle.line.specs.Character.{seven};
ghost use Rattle.line.specs.Parity.{with_parity};
ghost use Rattle.line.specs.Password.{password_in_range, password_text};
ghost use Rattle.line.specs.Test.{all};
ghost use Rattle.line.specs.Transaction.{legal};
ghost use Rattle.block.specs.Segments.{segment_block};
ghost use Rattle.segmentation.specs.Segmentation.{cuttable, segment_at_by, segmentation_by};
ghost use Rattle.device.specs.Inner.{Waits};
ghost use Rattle.device.specs.Reaction.{logon_text, bytes_of_string};

use crate::state::{Settings, Step};
use line::Password;
use line::answer::count;
use line::character::{CR, EOT, ESC};
use line::parity::set_parity;
use segmentation::{Way, write_segment};

// Room for every string that the device sends.
pub(crate) const ROOM: usize = 256;

// The string of a step, whose transaction has this information, at the start of the output.
pub(crate) fn put_string(settings: Settings, info: &[u8], step: Step, out: &mut [u8]) -> usize
    requires { (password_in_range settings.password ≡ true)
        × ((job : List (List ℕ)) × Waits settings job step info.now)
        × (256 ≤ length out.old) }
    ensures { (job : List (List ℕ)) → Waits settings job step info.now →
        Laid (bytes_of_string settings job step) result out.old out.new }
{
    match step {
        Step::Opening(_) => put_text(&[CR], out),
        Step::Logon(_) => put_logon(settings.password, out),
        Step::Sending(place) => put_segment(settings.way, info, place.block, out),
        Step::Closing(_) => put_text(&[EOT, CR], out),
        Step::Stopped => 0,
    }
}

// The logon.
fn put_logon(password: Password, out: &mut [u8]) -> usize
    requires { (password_in_range password ≡ true) × (256 ≤ length out.old) }
    ensures { Laid (map with_parity (logon_text (password_text password))) result out.old out.new }
{
    let mut text = [0u8; ROOM];
    let n = write_logon(password, &mut text);
    put_text(&text[..n], out)
}

// The text of the logon: ESC `PG1`, the password, CR.
fn write_logon(password: Password, text: &mut [u8]) -> usize
    requires { (password_in_range password ≡ true) × (11 ≤ length text.old) }
    ensures { Laid (logon_text (password_text password)) result text.old text.new }
{
    let length = password.length;
    let end = 4 + length;
    text[..4].copy_from_slice(&[ESC, b'P', b'G', b'1']);
    text[4..end].copy_from_slice(&password.characters[..length]);
    text[end] = CR;
    end + 1
}

// The block at an index of the transaction with this information.
fn put_segment(way: Way, info: &[u8], index: usize, out: &mut [u8]) -> usize
    requires { (legal info.now ≡ true) × (cuttable way info.now ≡ true)
        × (index < length (segmentation_by way info.now)) × (256 ≤ length out.old) }
    ensures { Laid (map with_parity (segment_block (segment_at_by way info.now index)))
        result out.old out.new }
{
    let mut text = [0u8; ROOM];
    // Never refused: the transaction is legal and can be cut, and a block fits.
    let n = count(write_segment(way, info, index, &mut text));
    put_text(&text[..n], out)
}

// A text with parity, at the start of the output.
fn put_text(text: &[u8], out: &mut [u8]) -> usize
    requires { (all seven text.now ≡ true) × (length text.now ≤ length out.old) }
    ensures { Laid (map with_parity text.now) result out.old out.new }
{
    count(set_parity(text, out))
}
