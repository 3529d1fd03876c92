ghost use Rattle.std.specs.Prelude.{◌≡◌};
ghost use Rattle.std.specs.Option.{option_map};
ghost use Rattle.references.specs.Braces.{op_of};
ghost use Rattle.references.specs.Operators.{op_at};

// The forms of a reference in braces, with the default, replacement or error text.
#[derive(Clone, Copy, PartialEq, Eq, Debug)]
pub enum BraceOp<'a> {
    // `${NAME}`
    Required,
    // `${NAME-text}`
    DefaultIfUnset(&'a [u8]),
    // `${NAME:-text}`
    DefaultIfUnsetOrEmpty(&'a [u8]),
    // `${NAME+text}`
    AlternateIfSet(&'a [u8]),
    // `${NAME:+text}`
    AlternateIfSetAndNonEmpty(&'a [u8]),
    // `${NAME?text}`
    ErrorIfUnset(&'a [u8]),
    // `${NAME:?text}`
    ErrorIfUnsetOrEmpty(&'a [u8]),
}

// A reference in braces: its name and its form.
#[derive(Clone, Copy, PartialEq, Eq, Debug)]
pub struct BraceRef<'a> {
    pub name: &'a [u8],
    pub op: BraceOp<'a>,
}

// The form by what stands behind the name; None where that is no operator.
pub fn parse_op(rest: &[u8]) -> Option<BraceOp<'_>>
    ensures { option_map op_of result ≡ op_at rest.now }
{
    if rest.is_empty() {
        Some(BraceOp::Required)
    } else if let Some(text) = rest.strip_prefix(b":-") {
        Some(BraceOp::DefaultIfUnsetOrEmpty(text))
    } else if let Some(text) = rest.strip_prefix(b":+") {
        Some(BraceOp::AlternateIfSetAndNonEmpty(text))
    } else if let Some(text) = rest.strip_prefix(b"-") {
        Some(BraceOp::DefaultIfUnset(text))
    } else if let Some(text) = rest.strip_prefix(b"+") {
        Some(BraceOp::AlternateIfSet(text))
    } else if let Some(text) = rest.strip_prefix(b":?") {
        Some(BraceOp::ErrorIfUnsetOrEmpty(text))
    } else if let Some(text) = rest.strip_prefix(b"?") {
        Some(BraceOp::ErrorIfUnset(text))
    } else {
        None
    }
}
