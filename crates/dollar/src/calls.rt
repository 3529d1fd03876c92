ghost use Rattle.std.specs.Prelude.{◌≡◌, length, replicate};
ghost use Rattle.dollar.specs.Calls.{area_after, key_done, lent, outcome_of, pairs_after, session_after, value_done};
ghost use Rattle.dollar.specs.Laws.{ValuesDoNotShow};
ghost use Rattle.dollar.specs.Outcomes.{bad_session};

use crate::marks::DollarMarks;
use crate::outcome::{DollarOutcome, told_key, told_value};
use crate::sessions::DollarSession;
use pairs::record::PairRecord;
use scopes::marks::RedactionMarks;
use walk::record::FrameRecord;

// A session that is none is refused: the output area is zero.
fn refuse_session(area: &mut [u8]) -> DollarOutcome
    ensures outcome { result ≡ bad_session }
    ensures area { area.new ≡ replicate (length area.old) 0 }
{
    area.fill(0);
    DollarOutcome::bad_session()
}

// The lent memories stay parameters of each call: a struct of them would hold pointers that C could leave behind.

// The key with its references replaced: refusals 1 to 12, and 100 where the session is none.
#[unsafe(no_mangle)]
pub extern "C" fn dollar_key(
    session: &mut DollarSession,
    table: &[u8],
    stem: &[u8],
    text: &[u8],
    marks: &mut DollarMarks,
    frames: &mut [FrameRecord],
    records: &mut [PairRecord],
    bytes: &mut [u8],
    area: &mut [u8],
) -> DollarOutcome
    ensures outcome { result ≡ outcome_of (key_done session.old table.now stem.now (lent marks.old records.old bytes.old) (length frames.old) (length area.old) text.now) }
    ensures session { session.new ≡ session_after session.old (key_done session.old table.now stem.now (lent marks.old records.old bytes.old) (length frames.old) (length area.old) text.now) }
    ensures area { area.new ≡ area_after (length area.old) (key_done session.old table.now stem.now (lent marks.old records.old bytes.old) (length frames.old) (length area.old) text.now) }
    ensures pairs { lent marks.new records.new bytes.new ≡ pairs_after (lent marks.old records.old bytes.old) text.now (key_done session.old table.now stem.now (lent marks.old records.old bytes.old) (length frames.old) (length area.old) text.now) }
    ensures values { ValuesDoNotShow key_done }
{
    let Some(mut restored) = session.restored(table, stem) else {
        return refuse_session(area);
    };
    let mut open = RedactionMarks::from(*marks);
    let answer = restored.interpolate_key(text, &mut open, frames, records, bytes, area);
    *session = session.kept(&restored);
    *marks = DollarMarks::from(open);
    told_key(answer)
}

// The value with its references replaced: refusals 1 to 12, and 100 where the session is none.
#[unsafe(no_mangle)]
pub extern "C" fn dollar_value(
    session: &mut DollarSession,
    table: &[u8],
    stem: &[u8],
    text: &[u8],
    marks: &mut DollarMarks,
    frames: &mut [FrameRecord],
    records: &mut [PairRecord],
    bytes: &mut [u8],
    area: &mut [u8],
) -> DollarOutcome
    ensures outcome { result ≡ outcome_of (value_done session.old table.now stem.now (lent marks.old records.old bytes.old) (length frames.old) (length area.old) text.now) }
    ensures session { session.new ≡ session_after session.old (value_done session.old table.now stem.now (lent marks.old records.old bytes.old) (length frames.old) (length area.old) text.now) }
    ensures area { area.new ≡ area_after (length area.old) (value_done session.old table.now stem.now (lent marks.old records.old bytes.old) (length frames.old) (length area.old) text.now) }
    ensures pairs { lent marks.new records.new bytes.new ≡ pairs_after (lent marks.old records.old bytes.old) text.now (value_done session.old table.now stem.now (lent marks.old records.old bytes.old) (length frames.old) (length area.old) text.now) }
    ensures values { ValuesDoNotShow value_done }
{
    let Some(mut restored) = session.restored(table, stem) else {
        return refuse_session(area);
    };
    let mut open = RedactionMarks::from(*marks);
    let answer = restored.interpolate_value(text, &mut open, frames, records, bytes, area);
    *session = session.kept(&restored);
    *marks = DollarMarks::from(open);
    told_value(answer)
}
