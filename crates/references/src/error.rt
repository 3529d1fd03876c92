ghost use Rattle.std.specs.Prelude.{◌≡◌};
ghost use Rattle.references.specs.declared.error.PropertyError.TheVariants.{ExpansionWorkLimitExceeded};

use budget::WorkFault;

// A part of the call's text: from the byte `start` to the byte before `end`.
#[derive(Clone, Copy, PartialEq, Eq, Debug)]
pub struct Span {
    pub start: usize,
    pub end: usize,
}

// Why a text is refused.
#[derive(Clone, Copy, PartialEq, Eq, Debug)]
pub enum PropertyError {
    // A reference without an operator, to a name that is unset.
    Unresolved(Span),
    // A part that begins as a reference and is none.
    InvalidName(Span),
    // `${NAME?text}` or `${NAME:?text}`, and the name is unset: the name, and the length of the message.
    RequiredButUnset(Span, usize),
    // `${NAME:?text}`, and the name is empty.
    RequiredButEmpty(Span, usize),
    // The depth that selected text came to, and the limit.
    ExpansionDepthLimitExceeded(usize, usize),
    // The total that a charge came to, and the limit.
    ExpansionWorkLimitExceeded(usize, usize),
}

impl From<WorkFault> for PropertyError {
    ghost from_gives = { λ f r. r ≡ ExpansionWorkLimitExceeded f.work f.limit };

    fn from(fault: WorkFault) -> Self {
        PropertyError::ExpansionWorkLimitExceeded(fault.work, fault.limit)
    }
}
