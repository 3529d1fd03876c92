ghost use Rattle.std.specs.Prelude.{◌≡◌, ℕ, ◌+◌, ◌-◌, ◌≤◌, false, List, length, Option};
ghost use Rattle.names.specs.declared.PropertySyntax.{PropertySyntax};
ghost use Rattle.items.specs.Items.{inner};
ghost use Rattle.items.specs.Looks.{chosen};
ghost use Rattle.expansion.specs.Events.{Event, acts};
ghost use Rattle.walk.specs.Frames.{Applies, Askable, Ends, Opens, OpensBy, Passes, Proper, Selects, TellsMessage, begun_by, completed, open_events, part, put_events};

use crate::frame::ExpansionFrame;
use crate::state::{Given, Site, Walk};
use items::action::{Action, FrameCompletion};
use names::PropertySyntax;
use references::error::PropertyError;
use selected::needs_expansion;
use source::source::PropertySource;

// The message of a required property begins anew; any other text that is selected is a replacement.
// Text and completion stay two parameters here and below: they are what the action holds, and each call takes them apart.
fn begin_selected(completion: FrameCompletion, depth: usize, walk: &mut Walk<'_, '_>)
    ensures { (means : List ℕ → Option (List ℕ)) (deep : ℕ) → Passes means deep (begun_by depth completion) walk.old walk.new }
{
    match completion {
        FrameCompletion::Root | FrameCompletion::Append => walk.marks.replace(depth),
        FrameCompletion::RequiredButUnset(_) | FrameCompletion::RequiredButEmpty(_) => {
            walk.out.clear();
            walk.marks.shows = false;
        }
    }
}

// The message of a required property: where a value shows in it, it is the text as it stands. Answers its length.
fn message_len(text: &[u8], walk: &mut Walk<'_, '_>) -> usize
    ensures { (means : List ℕ → Option (List ℕ)) (deep : ℕ) → TellsMessage means deep text.now walk.old walk.new result }
{
    if walk.marks.shows {
        walk.out.clear();
        walk.out.put_bytes(text);
    }
    walk.out.len()
}

// The end of a text that was selected: the walk goes on, or that was the message of a required property.
fn complete_frame(
    text: &[u8],
    completion: FrameCompletion,
    walk: &mut Walk<'_, '_>,
) -> Result<(), PropertyError>
    ensures { (means : List ℕ → Option (List ℕ)) (deep : ℕ) → Ends means deep (λ left. left) (completed completion text.now) walk.old walk.new result }
{
    match completion {
        FrameCompletion::Root | FrameCompletion::Append => Ok(()),
        FrameCompletion::RequiredButUnset(name) => {
            Err(PropertyError::RequiredButUnset(name, message_len(text, walk)))
        }
        FrameCompletion::RequiredButEmpty(name) => {
            Err(PropertyError::RequiredButEmpty(name, message_len(text, walk)))
        }
    }
}

// The end of a frame of the text.
pub(crate) fn finish_frame(
    text: &[u8],
    frame: ExpansionFrame,
    walk: &mut Walk<'_, '_>,
) -> Result<(), PropertyError>
    requires { (frame.start ≤ frame.end) × (frame.end ≤ length text.now) }
    ensures { (means : List ℕ → Option (List ℕ)) (deep : ℕ) → Ends means deep (λ left. left) (completed frame.completion (part text.now frame.start frame.end)) walk.old walk.new result }
{
    complete_frame(&text[frame.start..frame.end], frame.completion, walk)
}

// Text that was selected and need not be walked: it is put out as it is.
fn put_selected(
    text: &[u8],
    completion: FrameCompletion,
    depth: usize,
    walk: &mut Walk<'_, '_>,
) -> Result<(), PropertyError>
    ensures { (means : List ℕ → Option (List ℕ)) (deep : ℕ) → Ends means deep (λ left. length text.now + left) (put_events depth text.now completion) walk.old walk.new result }
{
    begin_selected(completion, depth, walk);
    walk.out.put_bytes(text);
    complete_frame(text, completion, walk)
}

// Selected text of Braced and BracedOrBare is walked under Braced.
fn selected_syntax(syntax: PropertySyntax) -> PropertySyntax
    ensures { result ≡ inner syntax }
{
    match syntax {
        PropertySyntax::Braced | PropertySyntax::BracedOrBare => PropertySyntax::Braced,
        PropertySyntax::DockerCompose => PropertySyntax::DockerCompose,
    }
}

// Text that was selected and has to be walked: the frame of it, which ends at the close.
fn open_selected(
    text: &[u8],
    completion: FrameCompletion,
    site: Site,
    max_depth: usize,
    walk: &mut Walk<'_, '_>,
) -> Result<Option<ExpansionFrame>, PropertyError>
    requires { length text.now ≤ site.close }
    ensures opens { Opens site.close site.syntax text.now completion result }
    ensures goes { (means : List ℕ → Option (List ℕ)) (nested : ℕ → List ℕ → List Event → List Event) → Selects means max_depth nested (open_events nested site.depth (site.close - length text.now) text.now completion) (site.close - length text.now) text.now completion walk.old walk.new result }
{
    if site.depth > max_depth {
        return Err(PropertyError::ExpansionDepthLimitExceeded(site.depth, max_depth));
    }
    begin_selected(completion, site.depth, walk);
    let start = site.close - text.len();
    Ok(Some(ExpansionFrame {
        start,
        cursor: start,
        end: site.close,
        syntax: selected_syntax(site.syntax),
        completion,
    }))
}

// Text that an action selects: it is put out as it is, or it is the frame that has to be walked.
fn select_text(
    text: &[u8],
    completion: FrameCompletion,
    site: Site,
    max_depth: usize,
    walk: &mut Walk<'_, '_>,
) -> Result<Option<ExpansionFrame>, PropertyError>
    requires { (length text.now ≤ site.close) × (Proper completion) }
    ensures opens { Opens site.close site.syntax text.now completion result }
    ensures goes { (means : List ℕ → Option (List ℕ)) (nested : ℕ → List ℕ → List Event → List Event) → Selects means max_depth nested (acts nested site.depth site.syntax (chosen site.close text.now completion)) (site.close - length text.now) text.now completion walk.old walk.new result }
{
    walk.work.charge(text.len())?;
    if needs_expansion(text, site.syntax) {
        return open_selected(text, completion, site, max_depth, walk);
    }
    put_selected(text, completion, site.depth, walk)?;
    Ok(None)
}

// What an action does. Answers the frame of selected text that has to be walked.
pub(crate) fn apply_action<S: PropertySource>(
    given: &Given<'_, S>,
    action: Action<'_>,
    site: Site,
    walk: &mut Walk<'_, '_>,
) -> Result<Option<ExpansionFrame>, PropertyError>
    requires { Askable (S.PropertySource.means given.now.source.now) site.close action }
    ensures opens { OpensBy site.close site.syntax action.entry result }
    ensures goes { (nested : ℕ → List ℕ → List Event → List Event) → Applies (S.PropertySource.means given.now.source.now) given.now.max_depth nested site.depth site.syntax site.close action.entry walk.old walk.new result }
{
    match action {
        Action::Keep(byte) => walk.out.put_byte(byte),
        Action::Dollar => {
            walk.marks.replace(site.depth);
            walk.out.put_byte(b'$');
        }
        Action::Property(name, len) => {
            walk.marks.replace(site.depth);
            walk.marks.show(len);
            walk.out.put_value(given.source, name, len);
        }
        Action::Nothing => walk.marks.replace(site.depth),
        Action::Interpolate(text, completion) => {
            return select_text(text, completion, site, given.max_depth, walk);
        }
    }
    Ok(None)
}
