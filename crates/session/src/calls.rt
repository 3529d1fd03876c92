ghost use Rattle.std.specs.Prelude.{◌≡◌, length};
ghost use Rattle.answers.specs.Told.{answer_of, area_of, unchanged};
ghost use Rattle.scopes.specs.Notes.{memory};
ghost use Rattle.session.specs.Breaches.{kept_breach};
ghost use Rattle.session.specs.Calls.{call_checked, heard, if_passed};
ghost use Rattle.session.specs.Shown.{denied};
ghost use Rattle.session.specs.Sessions.{Leaves, after_call, as_key, as_value, key_call, passed_call, value_call, with_breach, with_total};

use crate::checks::check_call;
use crate::error::{CallError, KeyError, ValueError};
use crate::note::note_answer;
use crate::refuse::refuse;
use crate::session::PropertyInterpolation;
use answers::Answer;
use names::PropertySyntax;
use pairs::record::PairRecord;
use scopes::marks::RedactionMarks;
use source::source::PropertySource;
use walk::interpolate::interpolate_compose_style_with_limits;
use walk::slot::FrameSlot;

// A key that is checked, and has no references.
fn leave_key(text: &[u8], frames: usize, sound: bool, area: &mut [u8]) -> Result<Answer, CallError>
    ensures answer { result ≡ answer_of (if_passed (call_checked frames sound text.now) denied unchanged) }
    ensures area { area.new ≡ area_of (length area.old) (if_passed (call_checked frames sound text.now) denied unchanged) }
{
    if let Err(refusal) = check_call(text, frames, sound) {
        return refuse(refusal, area);
    }
    area.fill(0);
    Ok(Answer::Unchanged)
}

// The lent memories stay parameters of each call: the caller reads an answer out of the output area between two calls, and the
// guard of a scope holds the marks, so that a struct of them would be made anew at each call.
impl<S: PropertySource> PropertyInterpolation<S> {
    // Keeps the first limit that a call passed.
    fn record_breach(&mut self, answer: Result<Answer, CallError>)
        ensures { self.new ≡ with_breach self.old (kept_breach self.old.breach answer) }
    {
        if self.breach.is_some() {
            return;
        }
        if let Err(refusal) = answer {
            self.breach = refusal.breach();
        }
    }

    // Walks a text that was checked, and notes its pair.
    fn walk<F: FrameSlot>(
        &mut self,
        text: &[u8],
        marks: &mut RedactionMarks,
        frames: &mut [F],
        records: &mut [PairRecord],
        bytes: &mut [u8],
        area: &mut [u8],
    ) -> Result<Answer, CallError>
        ensures { Leaves self.old (memory marks.old records.old bytes.old) area.old text.now (passed_call S.PropertySource.means self.old (memory marks.old records.old bytes.old) (length frames.old) (length area.old) text.now) result self.new (memory marks.new records.new bytes.new) area.new }
    {
        let answer = interpolate_compose_style_with_limits(
            text,
            &self.source,
            self.syntax,
            self.max_expansion_depth,
            &mut self.work,
            frames,
            area,
        )?;
        note_answer(answer, text, marks, records, bytes, area)
    }

    // Checks a text, and walks it.
    fn walk_checked<F: FrameSlot>(
        &mut self,
        text: &[u8],
        marks: &mut RedactionMarks,
        frames: &mut [F],
        records: &mut [PairRecord],
        bytes: &mut [u8],
        area: &mut [u8],
    ) -> Result<Answer, CallError>
        ensures { Leaves self.old (memory marks.old records.old bytes.old) area.old text.now (value_call S.PropertySource.means self.old (memory marks.old records.old bytes.old) (length frames.old) (length area.old) text.now) result self.new (memory marks.new records.new bytes.new) area.new }
    {
        if let Err(refusal) = check_call(text, frames.len(), marks.is_sound(records, bytes.len())) {
            return refuse(refusal, area);
        }
        self.walk(text, marks, frames, records, bytes, area)
    }

    // Checks a key, and walks it, but for DockerCompose.
    fn walk_key<F: FrameSlot>(
        &mut self,
        text: &[u8],
        marks: &mut RedactionMarks,
        frames: &mut [F],
        records: &mut [PairRecord],
        bytes: &mut [u8],
        area: &mut [u8],
    ) -> Result<Answer, CallError>
        ensures { Leaves self.old (memory marks.old records.old bytes.old) area.old text.now (key_call S.PropertySource.means self.old (memory marks.old records.old bytes.old) (length frames.old) (length area.old) text.now) result self.new (memory marks.new records.new bytes.new) area.new }
    {
        match self.syntax {
            PropertySyntax::Braced | PropertySyntax::BracedOrBare => {
                self.walk_checked(text, marks, frames, records, bytes, area)
            }
            PropertySyntax::DockerCompose => {
                let sound = marks.is_sound(records, bytes.len());
                leave_key(text, frames.len(), sound, area)
            }
        }
    }

    // The key with its references replaced. Under DockerCompose a key has none.
    pub fn interpolate_key<F: FrameSlot>(
        &mut self,
        text: &[u8],
        marks: &mut RedactionMarks,
        frames: &mut [F],
        records: &mut [PairRecord],
        bytes: &mut [u8],
        area: &mut [u8],
    ) -> Result<Answer, KeyError>
        ensures answer { result ≡ as_key (answer_of (key_call S.PropertySource.means self.old (memory marks.old records.old bytes.old) (length frames.old) (length area.old) text.now).0) }
        ensures session { self.new ≡ after_call self.old (key_call S.PropertySource.means self.old (memory marks.old records.old bytes.old) (length frames.old) (length area.old) text.now) }
        ensures area { area.new ≡ area_of (length area.old) (key_call S.PropertySource.means self.old (memory marks.old records.old bytes.old) (length frames.old) (length area.old) text.now).0 }
        ensures pairs { memory marks.new records.new bytes.new ≡ heard (memory marks.old records.old bytes.old) text.now (key_call S.PropertySource.means self.old (memory marks.old records.old bytes.old) (length frames.old) (length area.old) text.now).0 }
    {
        let answer = self.walk_key(text, marks, frames, records, bytes, area);
        self.record_breach(answer);
        Ok(answer?)
    }

    // The value with its references replaced. As `interpolate_key`: one function for both would take the walk as a closure, and ask for it in a clause as long as these lines.
    pub fn interpolate_value<F: FrameSlot>(
        &mut self,
        text: &[u8],
        marks: &mut RedactionMarks,
        frames: &mut [F],
        records: &mut [PairRecord],
        bytes: &mut [u8],
        area: &mut [u8],
    ) -> Result<Answer, ValueError>
        ensures answer { result ≡ as_value (answer_of (value_call S.PropertySource.means self.old (memory marks.old records.old bytes.old) (length frames.old) (length area.old) text.now).0) }
        ensures session { self.new ≡ after_call self.old (value_call S.PropertySource.means self.old (memory marks.old records.old bytes.old) (length frames.old) (length area.old) text.now) }
        ensures area { area.new ≡ area_of (length area.old) (value_call S.PropertySource.means self.old (memory marks.old records.old bytes.old) (length frames.old) (length area.old) text.now).0 }
        ensures pairs { memory marks.new records.new bytes.new ≡ heard (memory marks.old records.old bytes.old) text.now (value_call S.PropertySource.means self.old (memory marks.old records.old bytes.old) (length frames.old) (length area.old) text.now).0 }
    {
        let answer = self.walk_checked(text, marks, frames, records, bytes, area);
        self.record_breach(answer);
        Ok(answer?)
    }
}
