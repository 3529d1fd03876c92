ghost use Rattle.std.specs.Prelude.{◌≡◌, ◌+◌, ◌^◌, ◌<◌, length};
ghost use Rattle.budget.specs.Charges.{paid, spent};
ghost use Rattle.closes.specs.Compose.{compose_close, compose_looks, text_close, text_looks};

use crate::fronts::operator_len;
use budget::{WorkBudget, WorkFault};
use names::{PropertySyntax, parse_name};

// Ends the search for a close.
const NEWLINE: u8 = b'\n';

// The place of the close in an operator's text, or of the latest `}` seen; the text starts at the place `start`.
// Each byte is charged before it is looked at, so this is a loop and no chain of iterators.
fn find_text_close(
    text: &[u8],
    start: usize,
    work: &mut WorkBudget,
) -> Result<Option<usize>, WorkFault>
    requires { start + length text.now < 2 ^ 64 }
    ensures says { result ≡ paid work.old (text_looks start text.now) (text_close start text.now) }
    ensures work { work.new ≡ spent work.old (text_looks start text.now) }
{
    let mut depth = 1usize;
    let mut last_close = None;
    let mut skip_next = false;
    for (offset, &byte) in text.iter().enumerate() {
        work.charge(1)?;
        if byte == NEWLINE {
            return Ok(last_close);
        }
        let cursor = start + offset;
        if byte == b'}' {
            last_close = Some(cursor);
        }
        if skip_next {
            skip_next = false;
            continue;
        }
        match byte {
            b'}' => {
                depth -= 1;
                if depth == 0 {
                    return Ok(Some(cursor));
                }
            }
            b'{' => {
                depth += 1;
                skip_next = true;
            }
            _ => {}
        }
    }
    Ok(last_close)
}

// The place of the close in DockerCompose: behind a name, or behind the text of an operator.
pub fn find_compose_braced_reference_close(
    body: &[u8],
    work: &mut WorkBudget,
) -> Result<Option<usize>, WorkFault>
    ensures says { result ≡ paid work.old (compose_looks body.now) (compose_close body.now) }
    ensures work { work.new ≡ spent work.old (compose_looks body.now) }
{
    let Some((name, rest)) = parse_name(body, PropertySyntax::DockerCompose, work)? else {
        return Ok(None);
    };
    if rest.starts_with(b"}") {
        return Ok(Some(name.len()));
    }
    let Some(op) = operator_len(rest) else {
        return Ok(None);
    };
    find_text_close(&rest[op..], name.len() + op, work)
}
