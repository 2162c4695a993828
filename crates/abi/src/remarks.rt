// Where the central's lines stand in a reply, as C has it.
ghost use Rattle.std.specs.Prelude.{◌≡◌};
ghost use Rattle.reply.specs.Remarks.{remarks_read};
ghost use Rattle.abi.specs.Remarks.{remarks_as};

use reply::Span;
use reply::remarks::read_remarks;

// What there is: 0 no places, 1 the lines before the code, 2 also one that begins with `ID`; where
// the lines stand, and the last such line. A part that there is not is 0 and 0.
#[repr(C)]
#[derive(Clone, Copy)]
pub struct Remarks {
    pub found: u8,
    pub lines: Span,
    pub id: Span,
}

// The remarks in the bytes as they came off the line.
#[unsafe(no_mangle)]
pub extern "C" fn tyntolai_read_remarks(bytes: &[u8]) -> Remarks
    ensures { result ≡ remarks_as (remarks_read bytes.now) }
{
    Remarks::from(read_remarks(bytes))
}

impl From<Option<reply::Remarks>> for Remarks {
    ghost from_gives = { λ remarks numbers. numbers ≡ remarks_as remarks };

    fn from(remarks: Option<reply::Remarks>) -> Remarks {
        let none = Span { begin: 0, end: 0 };
        let Some(remarks) = remarks else {
            return Remarks {
                found: 0,
                lines: none,
                id: none,
            };
        };
        match remarks.id_line {
            Some(id) => Remarks {
                found: 2,
                lines: remarks.lines,
                id,
            },
            None => Remarks {
                found: 1,
                lines: remarks.lines,
                id: none,
            },
        }
    }
}
