ghost use Rattle.std.specs.Prelude.{◌≡◌};
ghost use Rattle.walk.specs.declared.frame.ExpansionFrame.{ExpansionFrame};

use crate::frame::ExpansionFrame;

// What a frame lies in, in lent memory: any value that keeps a frame and gives it back.
// A frame itself is one. It holds enums, which C cannot lend, so `FrameRecord` is another.
pub trait FrameSlot: Copy {
    // The frame that a slot holds.
    ghost kept: { Self → ExpansionFrame };

    // A slot that holds this frame.
    fn keep(frame: ExpansionFrame) -> Self
        ensures { kept result ≡ frame };

    // The frame that the slot holds.
    fn frame(self) -> ExpansionFrame
        ensures { result ≡ kept self };
}

impl FrameSlot for ExpansionFrame {
    ghost kept = { λ frame. frame };

    fn keep(frame: ExpansionFrame) -> Self {
        frame
    }

    fn frame(self) -> ExpansionFrame {
        self
    }
}
