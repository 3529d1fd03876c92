ghost use Rattle.std.specs.Prelude.{◌≡◌};
ghost use Rattle.source.specs.Refusals.{refusal_number};

// Why a book, a block or a stem is unlawful.
#[derive(Clone, Copy, PartialEq, Eq, Debug)]
pub enum SourceError {
    // The number of the first bad record; 256 where the book is too long. One number for both, since a refusal is handed over as a number and one value.
    BadBook(usize),
    // The start of the first bad entry; 16384 where the block is too long.
    BadBlock(usize),
    BadStem,
}

impl SourceError {
    // The number of the refusal.
    pub fn number(&self) -> u32
        ensures { result ≡ refusal_number self.now }
    {
        match self {
            SourceError::BadBook(_) => 13,
            SourceError::BadBlock(_) => 14,
            SourceError::BadStem => 15,
        }
    }
}
