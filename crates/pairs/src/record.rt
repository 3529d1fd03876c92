ghost use Rattle.std.specs.Prelude.{◌≡◌};
ghost use Rattle.std.specs.List.{between};
ghost use Rattle.pairs.specs.Records.{all_within, pair_of, pair_read, within};

use crate::pair::Pair;

// Where a pair lies in the pair bytes: the text begins at `at`, and the result follows it.
// Numbers, and no slices: the pair bytes are lent anew to each call.
#[repr(C)]
#[derive(Clone, Copy, PartialEq, Eq, Debug)]
pub struct PairRecord {
    pub at: usize,
    // how many bytes the text has
    pub text: usize,
    // how many bytes the result has
    pub result: usize,
}

// The bytes from one place to another, as far as they go.
fn part(bytes: &[u8], from: usize, to: usize) -> &[u8]
    ensures { result.now ≡ between from to bytes.now }
{
    let end = to.min(bytes.len());
    let start = from.min(end);
    &bytes[start..end]
}

impl PairRecord {
    // A record to fill lent memory with: `[PairRecord::EMPTY; 8]`.
    pub const EMPTY: PairRecord = PairRecord {
        at: 0,
        text: 0,
        result: 0,
    };

    // Whether the pair lies inside n bytes.
    pub fn is_within(self, n: usize) -> bool
        ensures { result ≡ within n self }
    {
        self.at <= n && self.text <= n - self.at && self.result <= n - self.at - self.text
    }

    // The pair that lies there, as far as the bytes go.
    pub fn pair_in(self, bytes: &[u8]) -> Pair<'_>
        ensures { pair_read result ≡ pair_of bytes.now self }
    {
        let middle = self.at.saturating_add(self.text);
        Pair {
            text: part(bytes, self.at, middle),
            result: part(bytes, middle, middle.saturating_add(self.result)),
        }
    }

    // The text of the pair.
    pub fn text_in(self, bytes: &[u8]) -> &[u8]
        ensures { result.now ≡ (pair_of bytes.now self).0 }
    {
        self.pair_in(bytes).text
    }

    // The result of the pair.
    pub fn result_in(self, bytes: &[u8]) -> &[u8]
        ensures { result.now ≡ (pair_of bytes.now self).1 }
    {
        self.pair_in(bytes).result
    }
}

// Whether each pair lies inside n bytes.
pub fn are_within(records: &[PairRecord], n: usize) -> bool
    ensures { result ≡ all_within n records.now }
{
    records.iter().all(|record| record.is_within(n))
}
