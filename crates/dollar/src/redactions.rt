ghost use Rattle.std.specs.Prelude.{◌≡◌, length};
ghost use Rattle.answers.specs.Told.{answer_of, area_of};
ghost use Rattle.session.specs.Sessions.{is_sound};
ghost use Rattle.session.specs.Shown.{identifier_told, message_told, value_told};
ghost use Rattle.dollar.specs.Calls.{lent, pairs_of, scope_in};
ghost use Rattle.dollar.specs.Outcomes.{told_as};

use crate::marks::DollarMarks;
use crate::outcome::{DollarOutcome, told};
use pairs::record::PairRecord;
use scopes::marks::RedactionMarks;
use session::redactions::{redact_custom_message, redact_dynamic_identifier, redact_dynamic_value};

// A message without the results of the pairs of the innermost open scope: refusals 1, 2, 10 and 12.
#[unsafe(no_mangle)]
pub extern "C" fn dollar_message(
    text: &[u8],
    marks: &DollarMarks,
    records: &[PairRecord],
    bytes: &[u8],
    area: &mut [u8],
) -> DollarOutcome
    ensures outcome { result ≡ told_as (answer_of (message_told (length area.old) (is_sound (pairs_of (lent marks.now records.now bytes.now))) (scope_in (lent marks.now records.now bytes.now)) text.now)) }
    ensures area { area.new ≡ area_of (length area.old) (message_told (length area.old) (is_sound (pairs_of (lent marks.now records.now bytes.now))) (scope_in (lent marks.now records.now bytes.now)) text.now) }
{
    let marks = RedactionMarks::from(*marks);
    told(redact_custom_message(text, &marks, records, bytes, area))
}

// A value without the results of those pairs, or the fallback where nothing could be put back: refusals 1, 2, 10 and 12.
#[unsafe(no_mangle)]
pub extern "C" fn dollar_shown_value(
    text: &[u8],
    fallback: &[u8],
    marks: &DollarMarks,
    records: &[PairRecord],
    bytes: &[u8],
    area: &mut [u8],
) -> DollarOutcome
    ensures outcome { result ≡ told_as (answer_of (value_told (length area.old) (is_sound (pairs_of (lent marks.now records.now bytes.now))) (scope_in (lent marks.now records.now bytes.now)) text.now fallback.now)) }
    ensures area { area.new ≡ area_of (length area.old) (value_told (length area.old) (is_sound (pairs_of (lent marks.now records.now bytes.now))) (scope_in (lent marks.now records.now bytes.now)) text.now fallback.now) }
{
    let marks = RedactionMarks::from(*marks);
    told(redact_dynamic_value(text, fallback, &marks, records, bytes, area))
}

// The text of the first of those pairs whose result is the identifier, or the fallback: refusals 1, 2, 10 and 12.
#[unsafe(no_mangle)]
pub extern "C" fn dollar_identifier(
    name: &[u8],
    fallback: &[u8],
    marks: &DollarMarks,
    records: &[PairRecord],
    bytes: &[u8],
    area: &mut [u8],
) -> DollarOutcome
    ensures outcome { result ≡ told_as (answer_of (identifier_told (length area.old) (is_sound (pairs_of (lent marks.now records.now bytes.now))) (scope_in (lent marks.now records.now bytes.now)) name.now fallback.now)) }
    ensures area { area.new ≡ area_of (length area.old) (identifier_told (length area.old) (is_sound (pairs_of (lent marks.now records.now bytes.now))) (scope_in (lent marks.now records.now bytes.now)) name.now fallback.now) }
{
    let marks = RedactionMarks::from(*marks);
    told(redact_dynamic_identifier(name, fallback, &marks, records, bytes, area))
}
