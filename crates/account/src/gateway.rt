// A session of the gateway over a book, with the memory that it lends to each call.
use crate::reply::{Reply, Work};
use answers::Answer;
use names::PropertySyntax;
use pairs::record::PairRecord;
use scopes::marks::RedactionMarks;
use session::breach::BudgetBreach;
use session::error::CallError;
use session::redactions::{redact_custom_message, redact_dynamic_identifier, redact_dynamic_value};
use session::session::PropertyInterpolation;
use tables::book::Book;
use walk::frame::ExpansionFrame;

// How much memory is lent: bytes of output, frames, pair records and pair bytes.
pub(crate) const AREA: usize = 40;

pub(crate) const FRAMES: usize = 9;

pub(crate) const RECORDS: usize = 4;

pub(crate) const PAIR_BYTES: usize = 96;

// How deep selected text may stand in selected text.
pub(crate) const MAX_DEPTH: usize = 4;

// What the display shows where a value or an identifier may not be shown.
const FALLBACK: &[u8] = b"(not shown)";

// What a text is that the display is shown.
#[derive(Clone, Copy)]
pub(crate) enum Shown {
    Message,
    Value,
    Identifier,
}

#[derive(Drop)]
pub(crate) struct Gateway<'a> {
    session: PropertyInterpolation<Book<'a>>,
    frames: [ExpansionFrame; FRAMES],
    records: [PairRecord; RECORDS],
    bytes: [u8; PAIR_BYTES],
    area: [u8; AREA],
}

impl<'a> Gateway<'a> {
    pub(crate) fn new(book: &'a [u8], syntax: PropertySyntax, max_work: usize) -> Self {
        Gateway {
            session: PropertyInterpolation::new(Book::new(book), syntax, MAX_DEPTH, max_work),
            frames: [ExpansionFrame::EMPTY; FRAMES],
            records: [PairRecord::EMPTY; RECORDS],
            bytes: [0; PAIR_BYTES],
            area: [0; AREA],
        }
    }

    pub(crate) fn breach(&self) -> Option<BudgetBreach> {
        self.session.breach()
    }

    // What a call told. The session's total was `before`; none for a redaction, which does no work that is counted.
    fn reply<'t>(
        &self,
        call: &'static str,
        text: &'t [u8],
        answer: Result<Answer, CallError>,
        before: Option<usize>,
    ) -> Reply<'t> {
        let total = self.session.total_work();
        Reply {
            call,
            text,
            answer,
            area: self.area,
            work: before.map(|n| Work {
                done: total.saturating_sub(n),
                total,
            }),
        }
    }

    pub(crate) fn key<'t>(&mut self, marks: &mut RedactionMarks, text: &'t [u8]) -> Reply<'t> {
        let before = self.session.total_work();
        let answer = self
            .session
            .interpolate_key(
                text,
                marks,
                &mut self.frames,
                &mut self.records,
                &mut self.bytes,
                &mut self.area,
            )
            .map_err(|error| error.0);
        self.reply("key", text, answer, Some(before))
    }

    pub(crate) fn value<'t>(&mut self, marks: &mut RedactionMarks, text: &'t [u8]) -> Reply<'t> {
        self.value_in(FRAMES, marks, text)
    }

    // A value call that is lent the first `frames` frames.
    pub(crate) fn value_in<'t>(
        &mut self,
        frames: usize,
        marks: &mut RedactionMarks,
        text: &'t [u8],
    ) -> Reply<'t> {
        let before = self.session.total_work();
        let end = frames.min(FRAMES);
        let answer = self
            .session
            .interpolate_value(
                text,
                marks,
                &mut self.frames[0..end],
                &mut self.records,
                &mut self.bytes,
                &mut self.area,
            )
            .map_err(|error| error.0);
        self.reply("value", text, answer, Some(before))
    }

    // What the display is shown of a text.
    pub(crate) fn show<'t>(
        &mut self,
        what: Shown,
        marks: &RedactionMarks,
        text: &'t [u8],
    ) -> Reply<'t> {
        let records = &self.records;
        let bytes = &self.bytes;
        let area = &mut self.area;
        let (call, answer) = match what {
            Shown::Message => (
                "message",
                redact_custom_message(text, marks, records, bytes, area),
            ),
            Shown::Value => (
                "value",
                redact_dynamic_value(text, FALLBACK, marks, records, bytes, area),
            ),
            Shown::Identifier => (
                "identifier",
                redact_dynamic_identifier(text, FALLBACK, marks, records, bytes, area),
            ),
        };
        self.reply(call, text, answer, None)
    }
}
