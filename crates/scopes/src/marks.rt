ghost use Rattle.std.specs.Prelude.{◌≡◌};
ghost use Rattle.pairs.specs.Lists.{listed};
ghost use Rattle.scopes.specs.Marks.{entered, fresh, innermost, left, sound};

use pairs::list::PairList;
use pairs::record::{PairRecord, are_within};

// How much of the pair memory is in use, and where the innermost open scope starts. The marks stand beside a session.
// Numbers, and no slices: the pair memory is lent anew to each call.
#[derive(Clone, Copy, PartialEq, Eq, Debug)]
pub struct RedactionMarks {
    // how many pair records are in use
    pub records: usize,
    // how many pair bytes are in use
    pub bytes: usize,
    // how many records were in use when the innermost open scope was opened; None where no scope is open
    pub start: Option<usize>,
}

impl RedactionMarks {
    // No scope is open, and all of the pair memory is free.
    pub fn new() -> Self
        ensures { result ≡ fresh }
    {
        RedactionMarks {
            records: 0,
            bytes: 0,
            start: None,
        }
    }

    // Opens a scope. Answers where the one before it starts, for `leave`.
    pub fn enter(&mut self) -> Option<usize>
        ensures former { result ≡ self.old.start }
        ensures marks { self.new ≡ entered self.old }
    {
        let former = self.start;
        self.start = Some(self.records);
        former
    }

    // Ends the innermost scope: the one before it is back. With none before it the pair memory is free.
    pub fn leave(&mut self, former: Option<usize>)
        ensures { self.new ≡ left former self.old }
    {
        self.start = former;
        if former.is_none() {
            self.records = 0;
            self.bytes = 0;
        }
    }

    // Whether the records in use are there, and lie inside n pair bytes.
    pub fn is_sound(&self, records: &[PairRecord], n: usize) -> bool
        ensures { result ≡ sound self.now records.now n }
    {
        let used = self.records;
        used <= records.len() && are_within(&records[0..used], n)
    }

    // The pairs of the innermost open scope, as they were recorded; none where no scope is open. No Option: a redaction then answers as over a scope without pairs.
    pub fn innermost<'r, 'b>(&self, records: &'r [PairRecord], bytes: &'b [u8]) -> PairList<'r, 'b>
        ensures { listed result ≡ innermost self.now records.now bytes.now }
    {
        match self.start {
            None => PairList::since(&[], 0, bytes),
            Some(start) => {
                let used = self.records.min(records.len());
                PairList::since(&records[0..used], start, bytes)
            }
        }
    }
}
