ghost use Rattle.std.specs.Prelude.{◌≡◌, ◌-◌, ◌/◌, ◌<◌, [], ◌∷◌, ◌++◌, length, Some};
ghost use Rattle.std.specs.Option.{option_to_list};
ghost use Rattle.std.specs.List.{slice_get};
ghost use Rattle.stack.specs.Held.{memory};
ghost use Rattle.expansion.specs.Events.{first_dollar};
ghost use Rattle.walk.specs.Slots.{one_more, open_frames};
ghost use Rattle.walk.specs.Stacks.{Fit, Runs, Turns, Walks};

use crate::apply::finish_frame;
use crate::frame::ExpansionFrame;
use crate::slot::FrameSlot;
use crate::state::{Given, Walk};
use crate::step::walk_frame;
use items::action::FrameCompletion;
use names::PropertySyntax;
use references::error::PropertyError;
use source::source::PropertySource;
use stack::Stack;

// Opens a frame on top of the others, where the memory has room for it.
fn push_frame<F: FrameSlot>(frames: &mut Stack<'_, F>, frame: ExpansionFrame)
    ensures frames { open_frames F.kept frames.new ≡ one_more (length (memory frames.old)) (open_frames F.kept frames.old) frame }
    ensures memory { length (memory frames.new) ≡ length (memory frames.old) }
{
    let _ = frames.push(F::keep(frame));
}

// Takes the newest frame off; None where none is open.
fn pop_frame<F: FrameSlot>(frames: &mut Stack<'_, F>) -> Option<ExpansionFrame>
    ensures says { result ≡ slice_get (open_frames F.kept frames.old) (length (open_frames F.kept frames.old) - 1) }
    ensures frames { open_frames F.kept frames.old ≡ open_frames F.kept frames.new ++ option_to_list result }
    ensures memory { memory frames.new ≡ memory frames.old }
{
    frames.pop().map(|slot| slot.frame())
}

// Walks the newest frame, which was taken off, to its end, or to selected text that has to be walked first.
fn walk_newest<S: PropertySource, F: FrameSlot>(
    given: &Given<'_, S>,
    mut frame: ExpansionFrame,
    frames: &mut Stack<'_, F>,
    walk: &mut Walk<'_, '_>,
) -> Result<(), PropertyError>
    requires { Fit given.now.text.now (length (memory frames.old)) (open_frames F.kept frames.old ++ frame ∷ []) }
    ensures turns { Turns given.now.text.now (length (memory frames.old)) (open_frames F.kept frames.old ++ frame ∷ []) (open_frames F.kept frames.new) result }
    ensures goes { Runs (S.PropertySource.means given.now.source.now) given.now.max_depth given.now.text.now (open_frames F.kept frames.old ++ frame ∷ []) walk.old (open_frames F.kept frames.new) walk.new result }
    ensures memory { length (memory frames.new) ≡ length (memory frames.old) }
{
    let depth = frames.len() + 1;
    let Some(nested) = walk_frame(given, &mut frame, depth, walk)? else {
        return finish_frame(given.text, frame, walk);
    };
    push_frame(frames, frame);
    push_frame(frames, nested);
    Ok(())
}

// Walks the open frames, the newest first, until none is left.
fn walk_frames<S: PropertySource, F: FrameSlot>(
    given: &Given<'_, S>,
    frames: &mut Stack<'_, F>,
    walk: &mut Walk<'_, '_>,
) -> Result<(), PropertyError>
    requires { Fit given.now.text.now (length (memory frames.old)) (open_frames F.kept frames.old) }
    ensures { Runs (S.PropertySource.means given.now.source.now) given.now.max_depth given.now.text.now (open_frames F.kept frames.old) walk.old [] walk.new result }
{
    while let Some(frame) = pop_frame(frames) {
        walk_newest(given, frame, frames, walk)?;
    }
    Ok(())
}

// Walks a whole text, with no frame open. Its first `$` is at `first`.
pub(crate) fn walk_text<S: PropertySource, F: FrameSlot>(
    given: &Given<'_, S>,
    first: usize,
    syntax: PropertySyntax,
    frames: &mut Stack<'_, F>,
    walk: &mut Walk<'_, '_>,
) -> Result<(), PropertyError>
    requires none { open_frames F.kept frames.old ≡ [] }
    requires enough { length given.now.text.now / 5 < length (memory frames.old) }
    requires place { Some first ≡ first_dollar 0 given.now.text.now }
    requires within { first < length given.now.text.now }
    ensures { Walks (S.PropertySource.means given.now.source.now) given.now.max_depth syntax given.now.text.now walk.old walk.new result }
{
    walk.work.charge(first + 1)?;
    let root = ExpansionFrame {
        start: 0,
        cursor: 0,
        end: given.text.len(),
        syntax,
        completion: FrameCompletion::Root,
    };
    push_frame(frames, root);
    walk_frames(given, frames, walk)
}
