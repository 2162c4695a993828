// What the device may read, by number.
ghost use Rattle.std.specs.Prelude.{◌≡◌};
ghost use Rattle.reply.specs.Reading.{reply_read};
ghost use Rattle.abi.specs.Replies.{meaning_number, reply_number};

use reply::{Meaning, Reply, read};

// The number of what the bytes mean as they came off the line.
#[unsafe(no_mangle)]
pub extern "C" fn tyntolai_read_reply(bytes: &[u8]) -> u8
    ensures { result ≡ reply_number (reply_read bytes.now) }
{
    reply_number(read(bytes))
}

// 0 where nothing is recognized, else the meaning's number. The numbers are C's alone, and a `From` for
// reply's types can't stand here.
pub(crate) fn reply_number(reply: Reply) -> u8
    ensures { result ≡ reply_number reply }
{
    match reply {
        Some(meaning) => meaning_number(meaning),
        None => 0,
    }
}

fn meaning_number(meaning: Meaning) -> u8
    ensures { result ≡ meaning_number meaning }
{
    match meaning {
        Meaning::IdRequest => 1,
        Meaning::Acceptance => 2,
        Meaning::Ack => 3,
        Meaning::Nak => 4,
        Meaning::Rs => 5,
        Meaning::Eot => 6,
    }
}
