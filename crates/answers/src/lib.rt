// What a call answers, and how its text is read.
#![tactic(auto)]

ghost use Rattle.std.specs.Prelude.{◌≡◌};
ghost use Rattle.answers.specs.Refusals.{refusal_number};
ghost use Rattle.answers.specs.Told.{text_of};

// The answer of a call: the text given stays as it is, or another of that length stands at the front of the output area.
// No Option of a length: `None` would not say that there is a text, the caller's own.
#[derive(Clone, Copy, PartialEq, Eq, Debug)]
pub enum Answer {
    Unchanged,
    Replaced(usize),
}

impl Answer {
    // The text of the answer: the caller's own, or the front of the area; all of the area where it is shorter.
    pub fn text<'a>(self, own: &'a [u8], area: &'a [u8]) -> &'a [u8]
        ensures { result.now ≡ text_of self own.now area.now }
    {
        match self {
            Answer::Unchanged => own,
            Answer::Replaced(len) if len < area.len() => &area[..len],
            Answer::Replaced(_) => area,
        }
    }
}

// The output area is too short for a text that had to be made; `needed` is how long that text is.
#[derive(Clone, Copy, PartialEq, Eq, Debug)]
pub struct OutputTooShort {
    pub needed: usize,
}

impl OutputTooShort {
    // The number of the refusal.
    pub fn number(&self) -> u32
        ensures { result ≡ refusal_number self.now }
    {
        10
    }
}
