ghost use Rattle.std.specs.Prelude.{◌≡◌, length};
ghost use Rattle.answers.specs.Told.{answer_of, area_of};
ghost use Rattle.pairs.specs.Pairs.{firsts};
ghost use Rattle.scopes.specs.Marks.{innermost, sound};
ghost use Rattle.session.specs.Shown.{identifier_told, message_told, value_told};

use crate::checks::check_shown;
use crate::error::CallError;
use crate::refuse::refuse;
use answers::Answer;
use pairs::record::PairRecord;
use redaction::redact::{MESSAGE_FALLBACK, redact_identifier, redact_value};
use scopes::marks::RedactionMarks;

// The lent memories stay parameters, as in the key and value calls.

// A message without the results of the pairs of the innermost open scope; a fixed text where nothing could be put back.
pub fn redact_custom_message(
    text: &[u8],
    marks: &RedactionMarks,
    records: &[PairRecord],
    bytes: &[u8],
    area: &mut [u8],
) -> Result<Answer, CallError>
    ensures answer { result ≡ answer_of (message_told (length area.old) (sound marks.now records.now (length bytes.now)) (firsts (innermost marks.now records.now bytes.now)) text.now) }
    ensures area { area.new ≡ area_of (length area.old) (message_told (length area.old) (sound marks.now records.now (length bytes.now)) (firsts (innermost marks.now records.now bytes.now)) text.now) }
{
    redact_dynamic_value(text, MESSAGE_FALLBACK, marks, records, bytes, area)
}

// A value without the results of the pairs of the innermost open scope; the fallback where nothing could be put back.
pub fn redact_dynamic_value(
    text: &[u8],
    fallback: &[u8],
    marks: &RedactionMarks,
    records: &[PairRecord],
    bytes: &[u8],
    area: &mut [u8],
) -> Result<Answer, CallError>
    ensures answer { result ≡ answer_of (value_told (length area.old) (sound marks.now records.now (length bytes.now)) (firsts (innermost marks.now records.now bytes.now)) text.now fallback.now) }
    ensures area { area.new ≡ area_of (length area.old) (value_told (length area.old) (sound marks.now records.now (length bytes.now)) (firsts (innermost marks.now records.now bytes.now)) text.now fallback.now) }
{
    let sound = marks.is_sound(records, bytes.len());
    if let Err(refusal) = check_shown(text, fallback, sound) {
        return refuse(refusal, area);
    }
    let pairs = marks.innermost(records, bytes);
    Ok(redact_value(text, fallback, &pairs, area)?)
}

// The text of the first pair of the innermost open scope whose result is the identifier, or the fallback.
// As `redact_dynamic_value`: one function for both would take the redaction as a closure, with a clause longer than these lines.
pub fn redact_dynamic_identifier(
    name: &[u8],
    fallback: &[u8],
    marks: &RedactionMarks,
    records: &[PairRecord],
    bytes: &[u8],
    area: &mut [u8],
) -> Result<Answer, CallError>
    ensures answer { result ≡ answer_of (identifier_told (length area.old) (sound marks.now records.now (length bytes.now)) (firsts (innermost marks.now records.now bytes.now)) name.now fallback.now) }
    ensures area { area.new ≡ area_of (length area.old) (identifier_told (length area.old) (sound marks.now records.now (length bytes.now)) (firsts (innermost marks.now records.now bytes.now)) name.now fallback.now) }
{
    let sound = marks.is_sound(records, bytes.len());
    if let Err(refusal) = check_shown(name, fallback, sound) {
        return refuse(refusal, area);
    }
    let pairs = marks.innermost(records, bytes);
    Ok(redact_identifier(name, fallback, &pairs, area)?)
}
