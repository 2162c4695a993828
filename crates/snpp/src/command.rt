// A line's command, in capitals, small letters or both.
ghost use Rattle.std.specs.Prelude.{◌≡◌};
ghost use Rattle.std.specs.Option.{option_map};
ghost use Rattle.snpp.specs.Command.{bare_command, recognized, text_command};
ghost use Rattle.snpp.specs.Inner.{command_of};

use line::memory::is_same;

// A command with its text.
#[derive(Clone, Copy)]
pub enum Command<'a> {
    Page(&'a [u8]),
    Message(&'a [u8]),
    Send,
    Reset,
    Quit,
}

// How many characters a command's word has.
const WORD: usize = 4;

// The command of a line with its ending off; none where it is not understood.
pub(crate) fn recognize(line: &[u8]) -> Option<Command>
    ensures { recognized line.now ≡ option_map command_of result }
{
    let (letters, rest) = line.split_first_chunk::<WORD>()?;
    let mut word = *letters;
    word.make_ascii_uppercase();
    let Some((&first, text)) = rest.split_first() else {
        return bare(&word);
    };
    if first != b' ' {
        return None;
    }
    with_text(&word, text)
}

// A word with nothing behind it.
fn bare(word: &[u8]) -> Option<Command<'static>>
    ensures { bare_command word.now ≡ option_map command_of result }
{
    if is_same(word, b"SEND") {
        return Some(Command::Send);
    }
    if is_same(word, b"RESE") {
        return Some(Command::Reset);
    }
    if is_same(word, b"QUIT") {
        return Some(Command::Quit);
    }
    None
}

// A word with a text behind it.
fn with_text<'a>(word: &[u8], text: &'a [u8]) -> Option<Command<'a>>
    ensures { text_command word.now text.now ≡ option_map command_of result }
{
    if is_same(word, b"PAGE") {
        return Some(Command::Page(text));
    }
    if is_same(word, b"MESS") {
        return Some(Command::Message(text));
    }
    None
}
