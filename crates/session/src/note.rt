ghost use Rattle.std.specs.Prelude.{◌≡◌, length, Ok};
ghost use Rattle.answers.specs.Told.{Told, answer_of, area_of};
ghost use Rattle.scopes.specs.Notes.{memory};
ghost use Rattle.session.specs.Calls.{Noted};
ghost use Rattle.session.specs.declared.error.CallError.{CallError as Refusal};

use crate::error::CallError;
use crate::refuse::refuse;
use answers::Answer;
use pairs::pair::Pair;
use pairs::record::PairRecord;
use scopes::marks::RedactionMarks;

// Notes the pair of a text that was replaced. Where there is no room for it, the call is refused.
pub(crate) fn note_answer(
    answer: Answer,
    text: &[u8],
    marks: &mut RedactionMarks,
    records: &mut [PairRecord],
    bytes: &mut [u8],
    area: &mut [u8],
) -> Result<Answer, CallError>
    ensures { (t : Told Refusal) → Ok answer ≡ answer_of t → area.old ≡ area_of (length area.old) t → Noted (memory marks.old records.old bytes.old) text.now t (length area.old) result area.new (memory marks.new records.new bytes.new) }
{
    let Answer::Replaced(_) = answer else {
        return Ok(answer);
    };
    let pair = Pair {
        text,
        result: answer.text(text, area),
    };
    match marks.note(pair, records, bytes) {
        Ok(()) => Ok(answer),
        Err(full) => refuse(CallError::from(full), area),
    }
}
