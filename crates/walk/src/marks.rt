ghost use Rattle.std.specs.Prelude.{◌≡◌};
ghost use Rattle.walk.specs.Frames.{marked_replaced, marked_shows};

// Whether the text has a replacement, and whether a value that is not empty stands in the output.
#[derive(Clone, Copy, PartialEq, Eq, Debug, Default)]
pub struct Marks {
    pub changed: bool,
    pub shows: bool,
}

impl Marks {
    // A replacement in a frame of this depth.
    pub(crate) fn replace(&mut self, depth: usize)
        ensures { self.new ≡ marked_replaced depth self.old }
    {
        self.changed |= depth == 1;
    }

    // A value of this length is put out.
    pub(crate) fn show(&mut self, len: usize)
        ensures { self.new ≡ marked_shows len self.old }
    {
        self.shows |= len > 0;
    }
}
