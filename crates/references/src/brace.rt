ghost use Rattle.std.specs.Prelude.{◌≡◌, ◌<◌, length};
ghost use Rattle.budget.specs.Charges.{paid, spent};
ghost use Rattle.references.specs.Reads.{Within, brace_told};
ghost use Rattle.references.specs.Braces.{brace, brace_looks};

use crate::op::{BraceRef, parse_op};
use budget::{WorkBudget, WorkFault};
use closes::find_braced_reference_close;
use names::{PropertySyntax, parse_name};

// What stands behind a `${`. These are three ways, so it is no Option.
#[derive(Clone, Copy, PartialEq, Eq, Debug)]
pub enum BraceBody<'a> {
    // There is no close.
    Unclosed,
    // There is a close, at this place, and no reference before it.
    Malformed(usize),
    // A reference, and the place of its close.
    Reference(usize, BraceRef<'a>),
}

// Reads the reference whose `${` stands before `body`, up to its close.
pub fn parse_braced_reference<'a>(
    body: &'a [u8],
    syntax: PropertySyntax,
    work: &mut WorkBudget,
) -> Result<BraceBody<'a>, WorkFault>
    ensures says { brace_told result ≡ paid work.old (brace_looks syntax body.now) (brace syntax body.now) }
    ensures work { work.new ≡ spent work.old (brace_looks syntax body.now) }
    ensures within { Within (length body.now) result }
{
    let Some(close) = find_braced_reference_close(body, syntax, work)? else {
        return Ok(BraceBody::Unclosed);
    };
    let Some((name, rest)) = parse_name(&body[..close], syntax, work)? else {
        return Ok(BraceBody::Malformed(close));
    };
    match parse_op(rest) {
        Some(op) => Ok(BraceBody::Reference(close, BraceRef { name, op })),
        None => Ok(BraceBody::Malformed(close)),
    }
}
