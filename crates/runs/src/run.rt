ghost use Rattle.std.specs.Prelude.{◌≡◌, ◌<◌, false, map, length, is_ok};
ghost use Rattle.pairs.specs.Once.{EachOnce};
ghost use Rattle.stack.specs.Held.{held, loan, memory as lent};
ghost use Rattle.session.specs.Sessions.{settings};
ghost use Rattle.runs.specs.Laws.{RaisingKeeps, ScopesHold, ValuesDoNotShow};
ghost use Rattle.runs.specs.Lines.{call_of};
ghost use Rattle.runs.specs.Runs.{Ends, lent as lent-to, setup};
ghost use Rattle.runs.specs.Steps.{SameSession, Stepped, memory_of};

use crate::call::{Call, Reply, reply_text};
use crate::journal::Journal;
use names::PropertySyntax;
use pairs::record::PairRecord;
use scopes::marks::RedactionMarks;
use session::redactions::{redact_custom_message, redact_dynamic_identifier, redact_dynamic_value};
use session::session::PropertyInterpolation;
use source::source::PropertySource;
use stack::Stack;
use walk::frame::ExpansionFrame;

// The lent memories stay parameters, as in the calls of a session.
// One call of a run. A scope that is opened has the start of the one before it kept.
fn step<S: PropertySource>(
    session: &mut PropertyInterpolation<S>,
    call: Call<'_>,
    marks: &mut RedactionMarks,
    frames: &mut [ExpansionFrame],
    records: &mut [PairRecord],
    bytes: &mut [u8],
    area: &mut [u8],
    formers: &mut Stack<'_, Option<usize>>,
) -> Reply
    requires { length (held formers.old) < length (lent formers.old) }
    ensures session { SameSession session.old session.new }
    ensures loan { loan formers.new ≡ loan formers.old }
    ensures steps { Stepped (S.PropertySource.means session.old.source) (settings session.old (length frames.old) (length area.old)) (memory_of marks.old records.old bytes.old formers.old) session.old.work.total area.old (call_of call.entry) result (memory_of marks.new records.new bytes.new formers.new) session.new.work.total area.new }
{
    match call {
        Call::Key(text) => Ok(Some(session.interpolate_key(
            text, marks, frames, records, bytes, area,
        )?)),
        Call::Value(text) => Ok(Some(session.interpolate_value(
            text, marks, frames, records, bytes, area,
        )?)),
        Call::Message(text) => Ok(Some(redact_custom_message(text, marks, records, bytes, area)?)),
        Call::Dynamic(text, fallback) => Ok(Some(redact_dynamic_value(
            text, fallback, marks, records, bytes, area,
        )?)),
        Call::Identifier(name, fallback) => Ok(Some(redact_dynamic_identifier(
            name, fallback, marks, records, bytes, area,
        )?)),
        Call::Open => {
            let former = marks.enter();
            let _ = formers.push(former);
            Ok(None)
        }
        Call::End => {
            if let Some(former) = formers.pop() {
                marks.leave(former);
            }
            Ok(None)
        }
    }
}

// There are fewer places for the starts of outer scopes than calls.
#[derive(Clone, Copy, PartialEq, Eq, Debug)]
pub struct TooFewFormers;

// Runs the calls on a new session, with no scope open, and tells the journal what each came to. Answers the marks that are left.
// Nothing is done where there are fewer places for the starts of outer scopes than calls.
pub fn run<S: PropertySource, J: Journal>(
    source: &S,
    syntax: PropertySyntax,
    max_expansion_depth: usize,
    max_total_work: usize,
    calls: &[Call<'_>],
    frames: &mut [ExpansionFrame],
    records: &mut [PairRecord],
    bytes: &mut [u8],
    area: &mut [u8],
    formers: &mut [Option<usize>],
    journal: &mut J,
) -> Result<RedactionMarks, TooFewFormers>
    ensures raising { RaisingKeeps }
    ensures values { ValuesDoNotShow }
    ensures scopes { ScopesHold }
    ensures once { EachOnce }
    ensures frames { is_ok result ≡ false → frames.new ≡ frames.old }
    ensures ends { Ends J.Journal.tells (S.PropertySource.means source.now) (setup syntax max_expansion_depth max_total_work (length frames.old) (lent-to records.old bytes.old area.old formers.old)) (map call_of calls.now) (lent-to records.old bytes.old area.old formers.old) journal.old result (lent-to records.new bytes.new area.new formers.new) journal.new }
{
    if formers.len() < calls.len() {
        return Err(TooFewFormers);
    }
    let mut session = PropertyInterpolation::new(
        source,
        syntax,
        max_expansion_depth,
        max_total_work,
    );
    let mut marks = RedactionMarks::new();
    let mut starts = Stack::new(formers);
    for call in calls {
        let reply = step(
            &mut session,
            *call,
            &mut marks,
            frames,
            records,
            bytes,
            area,
            &mut starts,
        );
        let text = reply_text(reply, call.text(), area);
        journal.tell(*call, reply, text, session.total_work());
    }
    Ok(marks)
}
