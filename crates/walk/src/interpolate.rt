ghost use Rattle.std.specs.Prelude.{◌≡◌, ◌<◌, ◌≤◌, [], ◌∷◌, length, replicate, Some};
ghost use Rattle.text.specs.Texts.{text_max};
ghost use Rattle.budget.specs.Charges.{paid, spent};
ghost use Rattle.source.specs.Shapes.{values};
ghost use Rattle.references.specs.declared.error.PropertyError.TheVariants.{ExpansionWorkLimitExceeded};
ghost use Rattle.answers.specs.Told.{answer_of, area_of};
ghost use Rattle.expansion.specs.Events.{first_dollar};
ghost use Rattle.expansion.specs.Trials.{Trials};
ghost use Rattle.expansion.specs.WalkLaws.{WalkLaws};
ghost use Rattle.walk.specs.Endings.{Settles, answer_fit, answer_kept, has_text};
ghost use Rattle.walk.specs.declared.interpolate.InterpolateError.TheVariants.{OutputTooShort as ShortRefusal, Refused};
ghost use Rattle.walk.specs.Outcomes.{call_told, call_total, frames_needed, told_by, total_left, walk_of};

use crate::frames::walk_text;
use crate::marks::Marks;
use crate::slot::FrameSlot;
use crate::state::{Given, Walk};
use answers::{Answer, OutputTooShort};
use budget::{WorkBudget, WorkFault};
use names::PropertySyntax;
use output::Output;
use references::error::PropertyError;
use selected::find_dollar;
use source::source::PropertySource;
use stack::Stack;
use text::TEXT_MAX;

// Why there is no answer.
#[derive(Clone, Copy, PartialEq, Eq, Debug)]
pub enum InterpolateError {
    // The text has more than 8192 bytes.
    TextTooLong,
    // How many frames are needed.
    TooFewFrames(usize),
    // The text is refused; the output area has the message of a required property.
    Refused(PropertyError),
    // How many bytes the output area would need.
    OutputTooShort(usize),
}

impl From<WorkFault> for InterpolateError {
    ghost from_gives = { λ f r. r ≡ Refused (ExpansionWorkLimitExceeded f.work f.limit) };

    fn from(fault: WorkFault) -> Self {
        InterpolateError::Refused(PropertyError::from(fault))
    }
}

impl From<PropertyError> for InterpolateError {
    ghost from_gives = { λ e r. r ≡ Refused e };

    fn from(error: PropertyError) -> Self {
        InterpolateError::Refused(error)
    }
}

impl From<OutputTooShort> for InterpolateError {
    ghost from_gives = { λ short r. r ≡ ShortRefusal short.needed };

    fn from(short: OutputTooShort) -> Self {
        InterpolateError::OutputTooShort(short.needed)
    }
}

// Whether the output area is to keep what was put out: a new text, or a message.
// The flag is the mark that the walk kept: a result that holds it would be made of both only to be taken apart again.
fn has_text(walked: Result<(), PropertyError>, changed: bool) -> bool
    ensures { result ≡ has_text walked changed }
{
    match walked {
        Ok(()) => changed,
        Err(PropertyError::RequiredButUnset(_, _) | PropertyError::RequiredButEmpty(_, _)) => true,
        Err(_) => false,
    }
}

// Clears the output where nothing is to be kept.
fn settle(walked: Result<(), PropertyError>, changed: bool, out: &mut Output<'_>)
    ensures { Settles (has_text walked changed) out.old out.new }
{
    if !has_text(walked, changed) {
        out.clear();
    }
}

// The answer of a walk that came to its end, or stopped, by whether its text fits the output area.
fn answer(
    walked: Result<(), PropertyError>,
    changed: bool,
    fit: Result<usize, OutputTooShort>,
) -> Result<Answer, InterpolateError>
    ensures { result ≡ answer_fit walked changed fit }
{
    let len = fit?;
    walked?;
    Ok(if changed {
        Answer::Replaced(len)
    } else {
        Answer::Unchanged
    })
}

// Walks a text whose first `$` is at `first`.
fn expand_text<S: PropertySource, F: FrameSlot>(
    given: &Given<'_, S>,
    first: usize,
    syntax: PropertySyntax,
    work: &mut WorkBudget,
    frames: &mut [F],
    area: &mut [u8],
) -> Result<Answer, InterpolateError>
    requires small { length given.now.text.now ≤ text_max }
    requires enough { frames_needed (length given.now.text.now) ≤ length frames.old }
    requires place { Some first ≡ first_dollar 0 given.now.text.now }
    requires within { first < length given.now.text.now }
    ensures answer { result ≡ answer_of (told_by (values (S.PropertySource.means given.now.source.now)) (length area.old) (walk_of (S.PropertySource.means given.now.source.now) syntax given.now.max_depth work.old given.now.text.now)) }
    ensures area { area.new ≡ area_of (length area.old) (told_by (values (S.PropertySource.means given.now.source.now)) (length area.old) (walk_of (S.PropertySource.means given.now.source.now) syntax given.now.max_depth work.old given.now.text.now)) }
    ensures total { work.new.total ≡ total_left (walk_of (S.PropertySource.means given.now.source.now) syntax given.now.max_depth work.old given.now.text.now) }
    ensures limit { work.new.limit ≡ work.old.limit }
{
    let mut stack = Stack::new(frames);
    let mut out = Output::new(area);
    let mut walk = Walk {
        work: *work,
        marks: Marks::default(),
        out: &mut out,
    };
    let walked = walk_text(given, first, syntax, &mut stack, &mut walk);
    let changed = walk.marks.changed;
    *work = walk.work;
    settle(walked, changed, &mut out);
    answer(walked, changed, out.finish())
}

// A text without `$`, of `len` bytes, is charged at once and stays as it is.
fn keep_text(len: usize, work: &mut WorkBudget, area: &mut [u8]) -> Result<Answer, InterpolateError>
    ensures answer { result ≡ answer_kept (paid work.old (len ∷ []) tt) }
    ensures work { work.new ≡ spent work.old (len ∷ []) }
    ensures area { area.new ≡ replicate (length area.old) 0 }
{
    area.fill(0);
    work.charge(len)?;
    Ok(Answer::Unchanged)
}

// How many frames a text of n bytes needs.
pub fn frames_needed(n: usize) -> usize
    ensures { result ≡ frames_needed n }
{
    n / 5 + 1
}

// Replaces the references in a text by what the source and the syntax say.
#[tactic(auto, using(expansion::proofs::AllLaws::walk_laws, expansion::proofs::TrialLaws::trials))]
pub fn interpolate_compose_style_with_limits<S: PropertySource, F: FrameSlot>(
    text: &[u8],
    source: &S,
    syntax: PropertySyntax,
    max_nested_expansions: usize,
    work: &mut WorkBudget,
    frames: &mut [F],
    area: &mut [u8],
) -> Result<Answer, InterpolateError>
    ensures answer { result ≡ answer_of (call_told (values (S.PropertySource.means source.now)) (length text.now) (length frames.old) (length area.old) (walk_of (S.PropertySource.means source.now) syntax max_nested_expansions work.old text.now)) }
    ensures area { area.new ≡ area_of (length area.old) (call_told (values (S.PropertySource.means source.now)) (length text.now) (length frames.old) (length area.old) (walk_of (S.PropertySource.means source.now) syntax max_nested_expansions work.old text.now)) }
    ensures total { work.new.total ≡ call_total (length text.now) (length frames.old) work.old.total (walk_of (S.PropertySource.means source.now) syntax max_nested_expansions work.old text.now) }
    ensures limit { work.new.limit ≡ work.old.limit }
    ensures laws { WalkLaws }
    ensures trials { Trials }
{
    if text.len() > TEXT_MAX {
        area.fill(0);
        return Err(InterpolateError::TextTooLong);
    }
    let needed = frames_needed(text.len());
    if frames.len() < needed {
        area.fill(0);
        return Err(InterpolateError::TooFewFrames(needed));
    }
    let Some(first) = find_dollar(text) else {
        return keep_text(text.len(), work, area);
    };
    let given = Given {
        source,
        text,
        max_depth: max_nested_expansions,
    };
    expand_text(&given, first, syntax, work, frames, area)
}
