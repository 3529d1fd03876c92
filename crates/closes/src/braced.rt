ghost use Rattle.std.specs.Prelude.{◌≡◌, ℕ, ◌<◌, ◌≤◌, ◌^◌, List, length, replicate, IfSome};
ghost use Rattle.budget.specs.Charges.{charged, paid, spent};
ghost use Rattle.closes.specs.Braced.{braced_close, braced_looks, opened};

use crate::fronts::opens_inner;
use budget::{WorkBudget, WorkFault};
use memchr::memchr;

// How many inner `${` bytes have.
// Each pair of bytes is compared whole, by `&` and places: so the compiler takes many at a step.
fn count_opened(bytes: &[u8]) -> usize
    ensures { result ≡ opened bytes.now }
{
    let mut count = 0;
    for i in 1..bytes.len() {
        if (bytes[i - 1] == b'$') & (bytes[i] == b'{') {
            count += 1;
        }
    }
    count
}

// The place of the `}` that leaves no inner `${` open.
// Up to the first `}` each `${` opens one more, and none is closed; the search goes on from there. Both parts before it are quick, and most references end there.
fn balanced_close(body: &[u8]) -> Option<usize>
    ensures says { result ≡ braced_close body.now }
    ensures within { IfSome result (λ k. k < length body.now) }
{
    let first = memchr(b'}', body)?;
    let mut depth = count_opened(&body[..first]);
    for i in first..body.len() {
        if body[i] == b'}' {
            if depth == 0 {
                return Some(i);
            }
            depth -= 1;
        } else if opens_inner(body[i], &body[i + 1..]) {
            depth += 1;
        }
    }
    None
}

// How many bytes a search looks at that found this close: those up to it, or all.
#[tactic(auto, using(crate::proofs::BracedLaws::looks_found, crate::proofs::BracedLaws::looks_none))]
fn looks(len: usize, close: Option<usize>) -> usize
    requires { IfSome close (λ at. at < len) }
    ensures { (body : List ℕ) → length body ≡ len → close ≡ braced_close body → replicate result 1 ≡ braced_looks body }
{
    match close {
        Some(at) => at + 1,
        None => len,
    }
}

// How many of `len` bytes can be charged one by one, the first that is refused among them.
fn reach(len: usize, work: WorkBudget) -> usize
    ensures within { result ≤ len }
    ensures over { result < len → (0 < result) × (work.limit < charged work.total result) }
    ensures small { work.total < 2 ^ 64 }
{
    if work.limit == usize::MAX {
        return len;
    }
    len.min(work.limit.saturating_sub(work.total) + 1)
}

// The close, once each byte up to it is charged. The charges follow from its place, so that one step takes them all.
// No byte is looked at behind the one whose charge is refused.
pub fn find_balanced_close(body: &[u8], work: &mut WorkBudget) -> Result<Option<usize>, WorkFault>
    ensures says { result ≡ paid work.old (braced_looks body.now) (braced_close body.now) }
    ensures work { work.new ≡ spent work.old (braced_looks body.now) }
{
    let reach = reach(body.len(), *work);
    let close = balanced_close(&body[..reach]);
    work.charge_ones(looks(reach, close))?;
    Ok(close)
}
