ghost use Rattle.std.specs.Prelude.{◌≡◌};
ghost use Rattle.session.specs.Breaches.{breach_of};
ghost use Rattle.session.specs.Refusals.{call_error, refusal_number};
ghost use Rattle.session.specs.declared.error.CallError.TheVariants.{Text as TextRefusal, OutputTooShort as ShortRefusal, PairsFull as FullRefusal};
ghost use Rattle.session.specs.declared.error.SessionError.TheVariants.{Key as KeyRefusal, Value as ValueRefusal, Redaction as RedactionRefusal};

use crate::breach::BudgetBreach;
use answers::OutputTooShort;
use references::error::PropertyError;
use scopes::note::PairsFull;
use text::TextError;
use walk::interpolate::InterpolateError;

// Why a call has no answer.
#[derive(Clone, Copy, PartialEq, Eq, Debug)]
pub enum CallError {
    // The text or the fallback has more than 8192 bytes, or is no well-formed UTF-8.
    Text(TextError),
    // How many frames are needed.
    TooFewFrames(usize),
    // The pair list is shorter than the records in use, or one of them reaches outside the pair bytes.
    BadPairs,
    // The fault of the walk, whole.
    Property(PropertyError),
    // How many bytes the output area would need.
    OutputTooShort(usize),
    // A new pair finds no record, or too few bytes.
    PairsFull,
}

impl CallError {
    // The number of the refusal.
    pub fn number(&self) -> u32
        ensures { result ≡ refusal_number self.now }
    {
        match self {
            CallError::Text(error) => error.number(),
            CallError::TooFewFrames(_) => 3,
            CallError::Property(PropertyError::Unresolved(_)) => 4,
            CallError::Property(PropertyError::InvalidName(_)) => 5,
            CallError::Property(PropertyError::RequiredButUnset(_, _)) => 6,
            CallError::Property(PropertyError::RequiredButEmpty(_, _)) => 7,
            CallError::Property(PropertyError::ExpansionDepthLimitExceeded(_, _)) => 8,
            CallError::Property(PropertyError::ExpansionWorkLimitExceeded(_, _)) => 9,
            CallError::OutputTooShort(_) => 10,
            CallError::PairsFull => 11,
            CallError::BadPairs => 12,
        }
    }

    // The limit that the call passed.
    pub fn breach(&self) -> Option<BudgetBreach>
        ensures { result ≡ breach_of self.now }
    {
        match *self {
            CallError::Property(PropertyError::ExpansionDepthLimitExceeded(depth, limit)) => {
                Some(BudgetBreach::PropertyExpansionDepth(depth, limit))
            }
            CallError::Property(PropertyError::ExpansionWorkLimitExceeded(work, limit)) => {
                Some(BudgetBreach::PropertyInterpolationWork(work, limit))
            }
            _ => None,
        }
    }
}

impl From<TextError> for CallError {
    ghost from_gives = { λ e r. r ≡ TextRefusal e };

    fn from(error: TextError) -> Self {
        CallError::Text(error)
    }
}

impl From<InterpolateError> for CallError {
    ghost from_gives = { λ e r. r ≡ call_error e };

    fn from(error: InterpolateError) -> Self {
        match error {
            InterpolateError::TextTooLong => CallError::Text(TextError::TooLong),
            InterpolateError::TooFewFrames(needed) => CallError::TooFewFrames(needed),
            InterpolateError::Refused(fault) => CallError::Property(fault),
            InterpolateError::OutputTooShort(needed) => CallError::OutputTooShort(needed),
        }
    }
}

impl From<OutputTooShort> for CallError {
    ghost from_gives = { λ e r. r ≡ ShortRefusal e.needed };

    fn from(error: OutputTooShort) -> Self {
        CallError::OutputTooShort(error.needed)
    }
}

impl From<PairsFull> for CallError {
    ghost from_gives = { λ e r. r ≡ FullRefusal };

    fn from(_error: PairsFull) -> Self {
        CallError::PairsFull
    }
}

// A key call was refused. Keys and values have each a type of their own, by which a refusal says what was refused.
#[derive(Clone, Copy, PartialEq, Eq, Debug)]
pub struct KeyError(pub CallError);

impl From<CallError> for KeyError {
    ghost from_gives = { λ e r. r.0 ≡ e };

    fn from(error: CallError) -> Self {
        KeyError(error)
    }
}

// A value call was refused.
#[derive(Clone, Copy, PartialEq, Eq, Debug)]
pub struct ValueError(pub CallError);

impl From<CallError> for ValueError {
    ghost from_gives = { λ e r. r.0 ≡ e };

    fn from(error: CallError) -> Self {
        ValueError(error)
    }
}

// Any call of a session was refused.
#[derive(Clone, Copy, PartialEq, Eq, Debug)]
pub enum SessionError {
    Key(CallError),
    Value(CallError),
    Redaction(CallError),
}

impl From<KeyError> for SessionError {
    ghost from_gives = { λ e r. r ≡ KeyRefusal e.0 };

    fn from(error: KeyError) -> Self {
        SessionError::Key(error.0)
    }
}

impl From<ValueError> for SessionError {
    ghost from_gives = { λ e r. r ≡ ValueRefusal e.0 };

    fn from(error: ValueError) -> Self {
        SessionError::Value(error.0)
    }
}

impl From<CallError> for SessionError {
    ghost from_gives = { λ e r. r ≡ RedactionRefusal e };

    fn from(error: CallError) -> Self {
        SessionError::Redaction(error)
    }
}
