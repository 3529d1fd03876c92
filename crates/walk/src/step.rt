ghost use Rattle.std.specs.Prelude.{◌≡◌, ◌≤◌, length};
ghost use Rattle.walk.specs.Frames.{Frames, Nested, moved};

use crate::apply::apply_action;
use crate::frame::ExpansionFrame;
use crate::plain::pass_plain;
use crate::state::{Given, Site, Walk};
use items::look::look_at;
use references::error::PropertyError;
use source::source::PropertySource;

// Walks a frame of this depth to its end. Where selected text has to be walked first, it answers the frame of that.
pub(crate) fn walk_frame<S: PropertySource>(
    given: &Given<'_, S>,
    frame: &mut ExpansionFrame,
    depth: usize,
    walk: &mut Walk<'_, '_>,
) -> Result<Option<ExpansionFrame>, PropertyError>
    requires { frame.old.end ≤ length given.now.text.now }
    ensures frame { frame.new ≡ moved frame.old frame.new.cursor }
    ensures nested { Nested frame.old.cursor frame.new.cursor frame.old.end result }
    ensures goes { Frames (S.PropertySource.means given.now.source.now) given.now.max_depth given.now.text.now depth frame.old walk.old frame.new walk.new result }
{
    let end = frame.end;
    let input = &given.text[..end];
    'items: while frame.cursor < end {
        let plain = pass_plain(&input[frame.cursor..], walk)?;
        frame.cursor += plain;
        let looked = look_at(
            given.source,
            input,
            frame.cursor,
            frame.syntax,
            &mut walk.work,
        )?;
        let Some(step) = looked else {
            return Ok(None);
        };
        let site = Site {
            close: step.next - 1,
            depth,
            syntax: frame.syntax,
        };
        frame.cursor = step.next;
        if let Some(nested) = apply_action(given, step.action, site, walk)? {
            return Ok(Some(nested));
        }
    }
    Ok(None)
}
