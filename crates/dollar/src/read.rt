ghost use Rattle.std.specs.Prelude.{◌≡◌};
ghost use Rattle.dollar.specs.Reading.{Reads, part_read};

use crate::outcome::DollarOutcome;

// Where the text of an answer or the message of a refusal stands, and how long it is.
#[repr(C)]
#[derive(Clone, Copy, PartialEq, Eq, Debug)]
pub struct DollarPart {
    // 0: it is the caller's own text; 1: it stands at the front of the output area
    pub from_area: u32,
    pub length: usize,
}

// How an outcome is read, with a text and an output area so long: an answer's text, a refusal's message.
// A refusal without a message has no byte.
#[unsafe(no_mangle)]
pub extern "C" fn dollar_read(
    outcome: &DollarOutcome,
    text_len: usize,
    area_len: usize,
) -> DollarPart
    ensures part { result ≡ part_read outcome.now text_len area_len }
    ensures reads { Reads outcome.now text_len area_len result }
{
    if outcome.refusal == 0 && outcome.replaced == 0 {
        return DollarPart {
            from_area: 0,
            length: text_len,
        };
    }
    DollarPart {
        from_area: 1,
        length: outcome.length.min(area_len),
    }
}
