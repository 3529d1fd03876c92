ghost use Rattle.std.specs.Prelude.{◌≡◌, ◌≤◌, false, length, take, IfOk, IfSome};
ghost use Rattle.pairs.specs.Lists.{scope};
ghost use Rattle.pairs.specs.Once.{EachOnce};
ghost use Rattle.answers.specs.Told.{answer_of, area_of, fronted};
ghost use Rattle.redaction.specs.Drafts.{outcome, shown_len};
ghost use Rattle.redaction.specs.Orders.{LongestFirst, longest_first};
ghost use Rattle.redaction.specs.Redactions.{shown, identified, message_fallback, redacted, steps};
ghost use Rattle.redaction.specs.Redactions.State.{going};

use crate::draft::{Draft, Unmade};
use answers::{Answer, OutputTooShort};
use pairs::list::PairList;

// What a message shows where its bytes may not be shown.
pub const MESSAGE_FALLBACK: &[u8] = b"invalid interpolated scalar value";

// Zeros behind the text that the answer gives, which stands at the front of the area.
fn finish(answer: Result<Answer, OutputTooShort>, area: &mut [u8]) -> Result<Answer, OutputTooShort>
    requires { shown_len answer ≤ length area.old }
    ensures says { result ≡ answer }
    ensures area { area.new ≡ fronted (length area.old) (take (shown_len answer) area.old) }
{
    let len = match answer {
        Ok(Answer::Replaced(len)) => len,
        Ok(Answer::Unchanged) | Err(_) => 0,
    };
    area[len..].fill(0);
    answer
}

// A text at the front of the area, and zeros behind it; zeros alone where it does not fit.
fn show(text: &[u8], area: &mut [u8]) -> Result<Answer, OutputTooShort>
    ensures says { result ≡ answer_of (shown (length area.old) text.now) }
    ensures area { area.new ≡ area_of (length area.old) (shown (length area.old) text.now) }
{
    let len = text.len();
    if len > area.len() {
        return finish(Err(OutputTooShort { needed: len }), area);
    }
    area[..len].copy_from_slice(text);
    finish(Ok(Answer::Replaced(len)), area)
}

// Makes the text in which the results of the pairs are put back to their texts, at the front of the area. Answers its length, or None where nothing was replaced.
fn make(text: &[u8], pairs: &PairList, area: &mut [u8]) -> Result<Option<usize>, Unmade>
    ensures says { outcome text.now area.new result ≡ steps (length area.old) (going false text.now) (longest_first (scope pairs.now)) }
    ensures room { length area.new ≡ length area.old }
    ensures within { IfOk result (λ made. IfSome made (λ len. len ≤ length area.old)) }
{
    let mut draft = Draft::new(text, area);
    draft.take_pairs(pairs)?;
    Ok(draft.made)
}

// A message without the results of the pairs; a fixed text where nothing could be put back.
#[tactic(auto, using(pairs::proofs::FirstsLaws::each_once, crate::proofs::OrdersHold::order_holds))]
pub fn redact_message(
    text: &[u8],
    pairs: &PairList,
    area: &mut [u8],
) -> Result<Answer, OutputTooShort>
    ensures once { EachOnce }
    ensures order { LongestFirst }
    ensures says { result ≡ answer_of (redacted (length area.old) message_fallback (scope pairs.now) text.now) }
    ensures area { area.new ≡ area_of (length area.old) (redacted (length area.old) message_fallback (scope pairs.now) text.now) }
{
    redact_value(text, MESSAGE_FALLBACK, pairs, area)
}

// A value without the results of the pairs; the fallback where nothing could be put back.
#[tactic(auto, using(pairs::proofs::FirstsLaws::each_once, crate::proofs::OrdersHold::order_holds))]
pub fn redact_value(
    text: &[u8],
    fallback: &[u8],
    pairs: &PairList,
    area: &mut [u8],
) -> Result<Answer, OutputTooShort>
    ensures once { EachOnce }
    ensures order { LongestFirst }
    ensures says { result ≡ answer_of (redacted (length area.old) fallback.now (scope pairs.now) text.now) }
    ensures area { area.new ≡ area_of (length area.old) (redacted (length area.old) fallback.now (scope pairs.now) text.now) }
{
    if pairs.is_empty() {
        return finish(Ok(Answer::Unchanged), area);
    }
    match make(text, pairs, area) {
        Ok(Some(len)) => finish(Ok(Answer::Replaced(len)), area),
        Ok(None) | Err(Unmade::Often) => show(fallback, area),
        Err(Unmade::TooShort(needed)) => finish(Err(OutputTooShort { needed }), area),
    }
}

// The text of the first pair whose result is the identifier, or the fallback.
pub fn redact_identifier(
    name: &[u8],
    fallback: &[u8],
    pairs: &PairList,
    area: &mut [u8],
) -> Result<Answer, OutputTooShort>
    ensures says { result ≡ answer_of (identified (length area.old) fallback.now (scope pairs.now) name.now) }
    ensures area { area.new ≡ area_of (length area.old) (identified (length area.old) fallback.now (scope pairs.now) name.now) }
{
    if pairs.is_empty() {
        return finish(Ok(Answer::Unchanged), area);
    }
    show(pairs.text_of(name).unwrap_or(fallback), area)
}
