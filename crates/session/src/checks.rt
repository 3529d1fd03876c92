ghost use Rattle.std.specs.Prelude.{◌≡◌};
ghost use Rattle.session.specs.Calls.{call_checked, pairs_checked};
ghost use Rattle.session.specs.Shown.{shown_checked};

use crate::error::CallError;
use text::{TEXT_MAX, TextError, check_text};
use walk::interpolate::frames_needed;

// Refuses a pair memory that is not sound.
fn check_pairs(sound: bool) -> Result<(), CallError>
    ensures { result ≡ pairs_checked sound }
{
    if sound {
        Ok(())
    } else {
        Err(CallError::BadPairs)
    }
}

// What a key or value call is refused for before anything is charged: its text, the frames, the pair memory.
pub(crate) fn check_call(text: &[u8], frames: usize, sound: bool) -> Result<(), CallError>
    ensures { result ≡ call_checked frames sound text.now }
{
    check_text(text)?;
    let needed = frames_needed(text.len());
    if frames < needed {
        return Err(CallError::TooFewFrames(needed));
    }
    check_pairs(sound)
}

// What a redaction is refused for at once: its text and fallback, both lengths first, and the pair memory.
pub(crate) fn check_shown(text: &[u8], fallback: &[u8], sound: bool) -> Result<(), CallError>
    ensures { result ≡ shown_checked sound text.now fallback.now }
{
    if text.len() > TEXT_MAX || fallback.len() > TEXT_MAX {
        return Err(CallError::Text(TextError::TooLong));
    }
    check_text(text)?;
    check_text(fallback)?;
    check_pairs(sound)
}
