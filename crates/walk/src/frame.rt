use items::action::FrameCompletion;
use names::PropertySyntax;

// A part of the text that is walked: the bytes from `start` to the one before `end`. What is left of it starts at the cursor.
// Numbers, and no slices: frames lie in memory that outlives the text.
#[derive(Clone, Copy, PartialEq, Eq, Debug)]
pub struct ExpansionFrame {
    pub start: usize,
    pub cursor: usize,
    pub end: usize,
    pub syntax: PropertySyntax,
    pub completion: FrameCompletion,
}

impl ExpansionFrame {
    // A frame to fill lent memory with: `[ExpansionFrame::EMPTY; 8]`.
    pub const EMPTY: ExpansionFrame = ExpansionFrame {
        start: 0,
        cursor: 0,
        end: 0,
        syntax: PropertySyntax::Braced,
        completion: FrameCompletion::Root,
    };
}
