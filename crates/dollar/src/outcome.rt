ghost use Rattle.std.specs.Prelude.{◌≡◌};
ghost use Rattle.dollar.specs.Outcomes.{answered, bad_session, call_refused, checked_as, key_told, numbered, source_refused, told_as, value_told};

use answers::Answer;
use references::error::{PropertyError, Span};
use session::error::{CallError, KeyError, ValueError};
use source::error::SourceError;
use text::TextError;

// What a call came to. A number that says nothing of this outcome is 0.
#[repr(C)]
#[derive(Clone, Copy, PartialEq, Eq, Debug)]
pub struct DollarOutcome {
    // 0 where the call answers, else the number of the refusal
    pub refusal: u32,
    // 1 where another text stands for the caller's own
    pub replaced: u32,
    // how long the text or the message at the front of the output area is
    pub length: usize,
    // the name (4, 6, 7) or the part (5): from this byte of the text
    pub start: usize,
    // to the one before this
    pub end: usize,
    // up to where the text is well-formed (2), where the first bad entry starts (14)
    pub offset: usize,
    // the number of the first bad record (13)
    pub bad_record: usize,
    // how many frames (3) or bytes of the output area (10) are needed
    pub needed: usize,
    // the depth (8) or the work total (9) that was come to
    pub reached: usize,
    // the limit that was passed (8, 9)
    pub limit: usize,
}

// The number of the refusal that is the boundary's own: the session is none.
pub const BAD_SESSION: u32 = 100;

impl DollarOutcome {
    // A refusal with this number, or an answer with 0.
    pub(crate) fn numbered(refusal: u32) -> Self
        ensures { result ≡ numbered refusal }
    {
        DollarOutcome {
            refusal,
            replaced: 0,
            length: 0,
            start: 0,
            end: 0,
            offset: 0,
            bad_record: 0,
            needed: 0,
            reached: 0,
            limit: 0,
        }
    }

    // The refusal where the numbers of a session stand for none.
    pub(crate) fn bad_session() -> Self
        ensures { result ≡ bad_session }
    {
        DollarOutcome::numbered(BAD_SESSION)
    }
}

impl From<Answer> for DollarOutcome {
    ghost from_gives = { λ a r. r ≡ answered a };

    fn from(answer: Answer) -> Self {
        let plain = DollarOutcome::numbered(0);
        match answer {
            Answer::Unchanged => plain,
            Answer::Replaced(length) => DollarOutcome {
                replaced: 1,
                length,
                ..plain
            },
        }
    }
}

impl From<CallError> for DollarOutcome {
    ghost from_gives = { λ e r. r ≡ call_refused e };

    fn from(error: CallError) -> Self {
        let plain = DollarOutcome::numbered(error.number());
        match error {
            CallError::Text(TextError::TooLong) | CallError::BadPairs | CallError::PairsFull => {
                plain
            }
            CallError::Text(TextError::NotUtf8(offset)) => DollarOutcome { offset, ..plain },
            CallError::TooFewFrames(needed) | CallError::OutputTooShort(needed) => {
                DollarOutcome { needed, ..plain }
            }
            CallError::Property(
                PropertyError::Unresolved(Span { start, end })
                | PropertyError::InvalidName(Span { start, end }),
            ) => DollarOutcome {
                start,
                end,
                ..plain
            },
            CallError::Property(
                PropertyError::RequiredButUnset(Span { start, end }, length)
                | PropertyError::RequiredButEmpty(Span { start, end }, length),
            ) => DollarOutcome {
                length,
                start,
                end,
                ..plain
            },
            CallError::Property(
                PropertyError::ExpansionDepthLimitExceeded(reached, limit)
                | PropertyError::ExpansionWorkLimitExceeded(reached, limit),
            ) => DollarOutcome {
                reached,
                limit,
                ..plain
            },
        }
    }
}

impl From<SourceError> for DollarOutcome {
    ghost from_gives = { λ e r. r ≡ source_refused e };

    fn from(error: SourceError) -> Self {
        let plain = DollarOutcome::numbered(error.number());
        match error {
            SourceError::BadBook(bad_record) => DollarOutcome {
                bad_record,
                ..plain
            },
            SourceError::BadBlock(offset) => DollarOutcome { offset, ..plain },
            SourceError::BadStem => plain,
        }
    }
}

// The outcome of a call that answers or is refused.
pub(crate) fn told(answer: Result<Answer, CallError>) -> DollarOutcome
    ensures { result ≡ told_as answer }
{
    match answer {
        Ok(answer) => DollarOutcome::from(answer),
        Err(error) => DollarOutcome::from(error),
    }
}

// The outcomes of a key call and of a value call: C knows which of them it made.
pub(crate) fn told_key(answer: Result<Answer, KeyError>) -> DollarOutcome
    ensures { result ≡ key_told answer }
{
    match answer {
        Ok(answer) => DollarOutcome::from(answer),
        Err(KeyError(error)) => DollarOutcome::from(error),
    }
}

pub(crate) fn told_value(answer: Result<Answer, ValueError>) -> DollarOutcome
    ensures { result ≡ value_told answer }
{
    match answer {
        Ok(answer) => DollarOutcome::from(answer),
        Err(ValueError(error)) => DollarOutcome::from(error),
    }
}

// The outcome of a check.
pub(crate) fn checked(verdict: Result<(), SourceError>) -> DollarOutcome
    ensures { result ≡ checked_as verdict }
{
    match verdict {
        Ok(()) => DollarOutcome::numbered(0),
        Err(error) => DollarOutcome::from(error),
    }
}
