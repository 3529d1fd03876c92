ghost use Rattle.std.specs.Prelude.{◌≡◌};
ghost use Rattle.walk.specs.Slots.{completion_numbered, frame_kept, syntax_numbered};

use crate::frame::ExpansionFrame;
use crate::slot::FrameSlot;
use items::action::FrameCompletion;
use names::PropertySyntax;
use references::error::Span;

// A frame as plain numbers, for memory that a caller in another language lends.
// The numbers are the library's own. Any of them are some frame, so such memory may hold anything when it is lent.
#[repr(C)]
#[derive(Clone, Copy, PartialEq, Eq, Debug)]
pub struct FrameRecord {
    pub start: usize,
    pub cursor: usize,
    pub end: usize,
    // where the name of a required property stands, if the completion has one
    pub name_start: usize,
    pub name_end: usize,
    pub syntax: u32,
    pub completion: u32,
}

impl FrameRecord {
    // A record to fill lent memory with: `[FrameRecord::EMPTY; 8]`.
    pub const EMPTY: FrameRecord = FrameRecord {
        start: 0,
        cursor: 0,
        end: 0,
        name_start: 0,
        name_end: 0,
        syntax: 0,
        completion: 0,
    };
}

// The number of a syntax.
fn syntax_number(syntax: PropertySyntax) -> u32
    ensures { syntax_numbered result ≡ syntax }
{
    match syntax {
        PropertySyntax::Braced => 0,
        PropertySyntax::BracedOrBare => 1,
        PropertySyntax::DockerCompose => 2,
    }
}

// The syntax with a number.
fn syntax_of(number: u32) -> PropertySyntax
    ensures { result ≡ syntax_numbered number }
{
    match number {
        0 => PropertySyntax::Braced,
        1 => PropertySyntax::BracedOrBare,
        _ => PropertySyntax::DockerCompose,
    }
}

// The number of a completion, and the place of the name in it; an empty one where it has no name.
fn completion_parts(completion: FrameCompletion) -> (u32, Span)
    ensures { completion_numbered result.0 result.1 ≡ completion }
{
    let nowhere = Span { start: 0, end: 0 };
    match completion {
        FrameCompletion::Root => (0, nowhere),
        FrameCompletion::Append => (1, nowhere),
        FrameCompletion::RequiredButUnset(name) => (2, name),
        FrameCompletion::RequiredButEmpty(name) => (3, name),
    }
}

// The completion with a number and the place of a name.
fn completion_of(number: u32, name: Span) -> FrameCompletion
    ensures { result ≡ completion_numbered number name }
{
    match number {
        0 => FrameCompletion::Root,
        1 => FrameCompletion::Append,
        2 => FrameCompletion::RequiredButUnset(name),
        _ => FrameCompletion::RequiredButEmpty(name),
    }
}

impl FrameSlot for FrameRecord {
    ghost kept = { frame_kept };

    fn keep(frame: ExpansionFrame) -> Self {
        let (completion, name) = completion_parts(frame.completion);
        FrameRecord {
            start: frame.start,
            cursor: frame.cursor,
            end: frame.end,
            name_start: name.start,
            name_end: name.end,
            syntax: syntax_number(frame.syntax),
            completion,
        }
    }

    fn frame(self) -> ExpansionFrame {
        let name = Span {
            start: self.name_start,
            end: self.name_end,
        };
        ExpansionFrame {
            start: self.start,
            cursor: self.cursor,
            end: self.end,
            syntax: syntax_of(self.syntax),
            completion: completion_of(self.completion, name),
        }
    }
}
