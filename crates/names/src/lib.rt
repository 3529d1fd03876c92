#![tactic(auto)]

ghost use Rattle.std.specs.Prelude.{◌≡◌, ◌≤◌, map, length, IsUtf8};
ghost use Rattle.std.specs.Str.{chars};
ghost use Rattle.budget.specs.Charges.{paid, spent};
ghost use Rattle.names.specs.Glyphs.{glyphs, wide};
ghost use Rattle.names.specs.Names.{continues, extends, starts};
ghost use Rattle.names.specs.Reads.{begins_name, both, name_at, name_looks, parts, told};
ghost use Rattle.names.specs.NameLaws.{BothText, NameLaw, starts_text};

mod decode;

use budget::{WorkBudget, WorkFault};
use decode::first_char;

// How references are written: `${NAME}` alone, `$NAME` too, or as Docker Compose has them.
#[derive(Clone, Copy, PartialEq, Eq, Debug)]
pub enum PropertySyntax {
    Braced,
    BracedOrBare,
    DockerCompose,
}

// Whether a character starts a name.
fn is_var_start(ch: char, syntax: PropertySyntax) -> bool
    ensures { result ≡ starts syntax ch }
{
    match ch {
        '_' | 'a'..='z' | 'A'..='Z' => true,
        '\u{212a}' | '\u{17f}' => syntax == PropertySyntax::DockerCompose,
        _ => false,
    }
}

// Whether a character goes on with a name.
fn is_var_continue(ch: char, syntax: PropertySyntax) -> bool
    ensures { result ≡ continues syntax ch }
{
    match ch {
        '0'..='9' => true,
        _ => is_var_start(ch, syntax),
    }
}

// Whether a character belongs to a name of which `end` bytes are read.
fn extends_name(ch: char, end: usize, syntax: PropertySyntax) -> bool
    ensures { result ≡ extends syntax end ch }
{
    if end == 0 {
        is_var_start(ch, syntax)
    } else {
        is_var_continue(ch, syntax)
    }
}

// Whether the first character of `text` starts a name.
pub fn begins_name(text: &[u8], syntax: PropertySyntax) -> bool
    ensures says { result ≡ begins_name syntax text.now }
    ensures text { IsUtf8 text.now → result ≡ starts_text syntax (chars text.now) }
{
    first_char(text).is_some_and(|(ch, _)| is_var_start(ch, syntax))
}

// The first `end` bytes with the rest; none where `end` is 0.
fn split_name<'a>(input: &'a [u8], end: usize) -> Option<(&'a [u8], &'a [u8])>
    requires { end ≤ length input.now }
    ensures { both result ≡ parts end input.now }
{
    if end == 0 {
        return None;
    }
    Some(input.split_at(end))
}

// The name at the front of `input`, with the rest after it.
// Each character looked at is charged its width, the one that ends the name too; so this is a loop and no chain of iterators.
pub fn parse_name<'a>(
    input: &'a [u8],
    syntax: PropertySyntax,
    work: &mut WorkBudget,
) -> Result<Option<(&'a [u8], &'a [u8])>, WorkFault>
    ensures says { told result ≡ paid work.old (name_looks syntax input.now) (name_at syntax input.now) }
    ensures work { work.new ≡ spent work.old (name_looks syntax input.now) }
    ensures text { IsUtf8 input.now → glyphs input.now ≡ map wide (chars input.now) }
    ensures cuts { IsUtf8 input.now → BothText (name_at syntax input.now) }
    ensures longest { IsUtf8 input.now → NameLaw syntax (chars input.now) (name_at syntax input.now) }
{
    let mut end = 0;
    while let Some((ch, width)) = first_char(&input[end..]) {
        work.charge(width)?;
        if !extends_name(ch, end, syntax) {
            break;
        }
        end += width;
    }
    Ok(split_name(input, end))
}
