// The words of an answer.
use std::io;
use std::io::Write;

pub(crate) const NOTHING: &str = "";

pub(crate) const SPACE: &str = " ";

pub(crate) const COMMA: &str = ", ";

pub(crate) const COLON: &str = ": ";

pub(crate) const EQUALS: &str = "=";

pub(crate) const DASH: &str = "-";

pub(crate) const LINE_END: &str = "\n";

pub(crate) const REFUSED: &str = "refused ";

pub(crate) const UNRECOGNIZED: &str = "unrecognized";

pub(crate) const ID_REQUEST: &str = "id request";

pub(crate) const ACCEPTANCE: &str = "acceptance";

pub(crate) const ACK: &str = "ack";

pub(crate) const NAK: &str = "nak";

pub(crate) const RS: &str = "rs";

pub(crate) const EOT: &str = "eot";

pub(crate) const END: &str = "end";

pub(crate) const ETX: &str = "x ";

pub(crate) const ETB: &str = "b ";

pub(crate) const US: &str = "u ";

pub(crate) const PART: &str = " part";

pub(crate) const WHOLE: &str = " whole";

pub(crate) const IDLE: &str = ", idle ";

pub(crate) const LOGON: &str = ", logon ";

pub(crate) const BLOCK: &str = ", block ";

pub(crate) const CLOSED: &str = ", closed ";

pub(crate) const OPENING: &str = ", opening ";

pub(crate) const SENDING: &str = ", sending ";

pub(crate) const CLOSING: &str = ", closing ";

pub(crate) const STOPPED: &str = ", stopped";

pub(crate) const UNREPORTED: &str = ", -";

pub(crate) const OPEN: &str = "o";

pub(crate) const CONFIRMED: &str = "c";

pub(crate) const IN_DOUBT: &str = "d";

pub(crate) const TIMES: &str = "*";

// One of them.
pub(crate) fn say<W: Write>(to: &mut W, name: &str) -> io::Result<()> {
    to.write_all(name.as_bytes())
}
