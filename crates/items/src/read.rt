ghost use Rattle.std.specs.Prelude.{length};
ghost use Rattle.items.specs.Items.{bare_item, dollar, item};
ghost use Rattle.items.specs.Reading.{Reads};

use budget::{WorkBudget, WorkFault};
use names::{PropertySyntax, parse_name};
use references::brace::{BraceBody, parse_braced_reference};

// What a byte of a frame begins.
#[derive(Clone, Copy)]
pub(crate) enum Found<'a> {
    // The byte stands for itself.
    Byte(u8),
    // `$$`
    Escape,
    // `${`, and what stands behind it.
    Braces(BraceBody<'a>),
    // `$` with this name behind it.
    Bare(&'a [u8]),
}

// What `byte` begins, with `behind` after it in the frame.
// The bytes, the syntax and the budget stay three parameters here and below: each function hands the three on, and a struct of them would be taken apart at the first call of another crate.
#[tactic(auto, unfolding(crate::specs::Items::item))]
#[inline(always)]
pub(crate) fn read_byte<'a>(
    byte: u8,
    behind: &'a [u8],
    syntax: PropertySyntax,
    work: &mut WorkBudget,
) -> Result<Found<'a>, WorkFault>
    ensures { Reads syntax (length behind.now) work.old work.new (λ sh i. item sh syntax i byte behind.now) result }
{
    if byte == b'$' {
        return read_dollar(behind, syntax, work);
    }
    work.charge(1)?;
    Ok(Found::Byte(byte))
}

// What a `$` begins. The byte after it, where there is one, is charged too.
#[inline(always)]
fn read_dollar<'a>(
    behind: &'a [u8],
    syntax: PropertySyntax,
    work: &mut WorkBudget,
) -> Result<Found<'a>, WorkFault>
    ensures { Reads syntax (length behind.now) work.old work.new (λ sh i. dollar sh syntax i behind.now) result }
{
    work.charge(1)?;
    if behind.is_empty() {
        return Ok(Found::Byte(b'$'));
    }
    work.charge(1)?;
    match behind {
        [b'$', ..] => Ok(Found::Escape),
        [b'{', body @ ..] => Ok(Found::Braces(parse_braced_reference(body, syntax, work)?)),
        _ => read_bare(behind, syntax, work),
    }
}

// What a `$` begins, once both bytes are charged, where neither `$` nor `{` follows: a name may stand bare.
#[inline(always)]
fn read_bare<'a>(
    behind: &'a [u8],
    syntax: PropertySyntax,
    work: &mut WorkBudget,
) -> Result<Found<'a>, WorkFault>
    ensures { Reads syntax (length behind.now) work.old work.new (λ sh i. bare_item sh syntax i behind.now) result }
{
    if syntax == PropertySyntax::Braced {
        return Ok(Found::Byte(b'$'));
    }
    match parse_name(behind, syntax, work)? {
        Some((name, _)) => Ok(Found::Bare(name)),
        None => Ok(Found::Byte(b'$')),
    }
}
