// What a call of a session told, kept with what its area held.
ghost use Rattle.std.specs.Prelude.{◌≤◌, length};

use crate::gateway::AREA;
use crate::ledger::{Counts, text_of};
use answers::Answer;
use references::error::{PropertyError, Span};
use session::error::CallError;
use std::fmt;

// The work of a call, and the session's total after it.
#[derive(Clone, Copy)]
pub(crate) struct Work {
    pub done: usize,
    pub total: usize,
}

// A call by its word and text, its answer, and the output area after it.
#[derive(Clone, Copy)]
pub(crate) struct Reply<'a> {
    pub call: &'static str,
    pub text: &'a [u8],
    pub answer: Result<Answer, CallError>,
    pub area: [u8; AREA],
    // none for a redaction, which does no work that is counted
    pub work: Option<Work>,
}

impl Reply<'_> {
    // The text of the answer; none where the call was refused.
    pub(crate) fn answered(&self) -> Option<&[u8]> {
        match self.answer {
            Ok(answer) => Some(answer.text(self.text, &self.area)),
            Err(_) => None,
        }
    }

    // How many bytes at the front of the area were written: an answer or a message, else none. The length of a message stands in its refusal alone.
    fn written(&self) -> usize
        ensures { result ≤ length self.now.area }
    {
        let len = match self.answer {
            Ok(Answer::Replaced(len)) => len,
            Err(
                CallError::Property(
                    PropertyError::RequiredButUnset(_, len)
                    | PropertyError::RequiredButEmpty(_, len),
                ),
            ) => len,
            _ => 0,
        };
        len.min(AREA)
    }

    pub(crate) fn counts(&self) -> Counts {
        let written = self.written();
        Counts {
            read: Some(self.text.len()),
            written: Some(written),
            zero: Some(AREA - written),
            work: self.work.map(|work| work.done),
            total: self.work.map(|work| work.total),
            ..Counts::default()
        }
    }

    // A part of the text.
    fn part(&self, span: Span) -> &str {
        match self.text.get(span.start..span.end) {
            Some(bytes) => text_of(bytes),
            None => "(no part)",
        }
    }

    // The message of a required property.
    fn message(&self) -> &str {
        let end = self.written();
        text_of(&self.area[0..end])
    }
}

impl fmt::Display for Reply<'_> {
    fn fmt<W: fmt::Write>(&self, f: &mut fmt::Formatter<W>) -> fmt::Result {
        match self.answer {
            Ok(answer) => {
                let text = text_of(answer.text(self.text, &self.area));
                match answer {
                    Answer::Unchanged => write!(f, "unchanged: {text}"),
                    Answer::Replaced(_) => write!(f, "replaced: {text}"),
                }
            }
            Err(error) => show_refusal(self, error, f),
        }
    }
}

// The number of a refusal, and its values.
fn show_refusal<W: fmt::Write>(
    reply: &Reply,
    error: CallError,
    f: &mut fmt::Formatter<W>,
) -> fmt::Result {
    let number = error.number();
    write!(f, "refused ({number}): ")?;
    match error {
        CallError::TooFewFrames(needed) => write!(f, "{needed} frames are needed"),
        CallError::Property(
            PropertyError::RequiredButUnset(name, _) | PropertyError::RequiredButEmpty(name, _),
        ) => {
            let name = reply.part(name);
            let message = reply.message();
            write!(f, "{name}: {message}")
        }
        CallError::Property(PropertyError::ExpansionWorkLimitExceeded(work, limit)) => {
            write!(f, "work {work}, limit {limit}")
        }
        _ => write!(f, "{error:?}"),
    }
}
