ghost use Rattle.std.specs.Prelude.{◌≡◌, length};
ghost use Rattle.answers.specs.Told.{answer_of, area_of};
ghost use Rattle.session.specs.Shown.{denied};

use crate::error::CallError;
use answers::Answer;

// A refusal without a message: the output area is zero.
pub(crate) fn refuse(refusal: CallError, area: &mut [u8]) -> Result<Answer, CallError>
    ensures answer { result ≡ answer_of (denied refusal) }
    ensures area { area.new ≡ area_of (length area.old) (denied refusal) }
{
    area.fill(0);
    Err(refusal)
}
