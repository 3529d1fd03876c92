// What a run tells, as the lines that are printed of it.
ghost use Rattle.std.specs.Prelude.{ℕ, List};
ghost use Rattle.runs.specs.Lines.{Line};

use crate::hex::push_hex;
use answers::Answer;
use references::error::{PropertyError, Span};
use runs::call::{Call, Reply};
use runs::journal::Journal;
use session::error::{CallError, SessionError};
use std::alloc::AllocError;
use text::TextError;

// The lines so far, and how many scopes are open. Where memory ran out, the lines end there.
#[derive(Drop)]
pub(crate) struct Printer {
    pub out: String,
    pub open: usize,
    pub told: Result<(), AllocError>,
}

impl Journal for Printer {
    ghost tells = { λ before line after. Unit {0} };

    fn tell(&mut self, call: Call<'_>, reply: Reply, text: &[u8], total: usize) {
        if self.told.is_ok() {
            self.told = self.line(call, reply, text, total);
        }
    }
}

impl Printer {
    fn line(
        &mut self,
        call: Call<'_>,
        reply: Reply,
        text: &[u8],
        total: usize,
    ) -> Result<(), AllocError> {
        match call {
            Call::Open => self.scopes(self.open.saturating_add(1)),
            Call::End => self.scopes(self.open.saturating_sub(1)),
            _ => {
                self.reply(call.text(), reply, text)?;
                writeln!(self.out, " total={total}")
            }
        }
    }

    fn scopes(&mut self, open: usize) -> Result<(), AllocError> {
        self.open = open;
        writeln!(self.out, "open {open}")
    }

    fn reply(&mut self, own: &[u8], reply: Reply, text: &[u8]) -> Result<(), AllocError> {
        match reply {
            Ok(Some(Answer::Unchanged)) | Ok(None) => write!(self.out, "unchanged"),
            Ok(Some(Answer::Replaced(_))) => {
                write!(self.out, "replaced ")?;
                push_hex(&mut self.out, text)
            }
            Err(
                SessionError::Key(error)
                | SessionError::Value(error)
                | SessionError::Redaction(error),
            ) => self.refusal(own, error, text),
        }
    }

    // The number of a refusal with its values; a name or a part is told by its bytes.
    fn refusal(&mut self, own: &[u8], error: CallError, message: &[u8]) -> Result<(), AllocError> {
        let number = error.number();
        write!(self.out, "refused {number}")?;
        match error {
            CallError::Text(TextError::TooLong) | CallError::BadPairs | CallError::PairsFull => {
                Ok(())
            }
            CallError::Text(TextError::NotUtf8(n))
            | CallError::TooFewFrames(n)
            | CallError::OutputTooShort(n) => write!(self.out, " {n}"),
            CallError::Property(fault) => self.fault(own, fault, message),
        }
    }

    fn fault(
        &mut self,
        own: &[u8],
        fault: PropertyError,
        message: &[u8],
    ) -> Result<(), AllocError> {
        match fault {
            PropertyError::Unresolved(span) | PropertyError::InvalidName(span) => {
                self.part(own, span)
            }
            PropertyError::RequiredButUnset(span, _) | PropertyError::RequiredButEmpty(span, _) => {
                self.part(own, span)?;
                write!(self.out, " ")?;
                push_hex(&mut self.out, message)
            }
            PropertyError::ExpansionDepthLimitExceeded(n, limit)
            | PropertyError::ExpansionWorkLimitExceeded(n, limit) => {
                write!(self.out, " {n} {limit}")
            }
        }
    }

    fn part(&mut self, own: &[u8], span: Span) -> Result<(), AllocError> {
        write!(self.out, " ")?;
        push_hex(&mut self.out, own.get(span.start..span.end).unwrap_or(&[]))
    }
}
