ghost use Rattle.std.specs.Prelude.{◌≡◌, ℕ, ◌≤◌, List, length, Option, IfOk};
ghost use Rattle.walk.specs.Plains.{PassesPlain};

use crate::state::Walk;
use references::error::PropertyError;
use selected::find_dollar;

// Puts out the bytes that stand before the next `$` of a frame, of which these are left. Answers how many they are.
// Each is charged and stands for itself; most of a text is such bytes, so they are passed in one step.
// Where the `$` is the first that is left, nothing is looked for: one reference often follows another.
pub(crate) fn pass_plain(rest: &[u8], walk: &mut Walk<'_, '_>) -> Result<usize, PropertyError>
    ensures within { IfOk result (λ n. n ≤ length rest.now) }
    ensures goes { (means : List ℕ → Option (List ℕ)) (deep : ℕ) → PassesPlain means deep rest.now walk.old walk.new result }
{
    if let [b'$', ..] = rest {
        return Ok(0);
    }
    let plain = find_dollar(rest).unwrap_or(rest.len());
    walk.work.charge_ones(plain)?;
    walk.out.put_bytes(&rest[..plain]);
    Ok(plain)
}
