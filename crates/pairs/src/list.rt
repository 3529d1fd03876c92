ghost use Rattle.std.specs.Prelude.{◌≡◌, [], length, take, drop, slice_index_or, ◌==◌};
ghost use Rattle.std.specs.Option.{option_map};
ghost use Rattle.pairs.specs.Lists.{listed, pairs_left};
ghost use Rattle.pairs.specs.Once.{EachOnce};
ghost use Rattle.pairs.specs.Pairs.{has};
ghost use Rattle.pairs.specs.Records.{pair_read, pairs_in};
ghost use Rattle.pairs.specs.Sizes.{longest, size_within};
ghost use Rattle.pairs.specs.Lookups.{lookup};

use crate::pair::Pair;
use crate::record::PairRecord;

// The pairs of a scope as they were recorded, each in its place in the pair bytes.
#[derive(Clone, Copy)]
pub struct PairList<'r, 'b> {
    records: &'r [PairRecord],
    bytes: &'b [u8],
}

// The pairs of a list that are still to come.
#[derive(Clone, Copy)]
pub struct Pairs<'r, 'b> {
    rest: PairList<'r, 'b>,
}

impl<'r, 'b> Iterator for Pairs<'r, 'b> {
    ghost use Rattle.std.specs.Iterator.{YieldsFirstBy, item_count};
    ghost use Rattle.pairs.specs.Lists.{pairs_left};
    ghost use Rattle.pairs.specs.Records.{pair_read};

    type Item = Pair<'b>;

    ghost next_gives = { YieldsFirstBy pair_read pairs_left };

    ghost remaining = { item_count pairs_left };

    fn next(&mut self) -> Option<Pair<'b>> {
        let (first, records) = self.rest.records.split_first()?;
        self.rest.records = records;
        Some(first.pair_in(self.rest.bytes))
    }
}

impl<'r, 'b> PairList<'r, 'b> {
    // The pairs recorded from `start` on.
    pub fn since(records: &'r [PairRecord], start: usize, bytes: &'b [u8]) -> Self
        ensures once { EachOnce }
        ensures listed { listed result ≡ pairs_in bytes.now (drop start records.now) }
    {
        let from = start.min(records.len());
        PairList {
            records: &records[from..],
            bytes,
        }
    }

    // The first n pairs, or all where there are fewer.
    pub fn first(&self, n: usize) -> Self
        ensures { listed result ≡ take n (listed self.now) }
    {
        let end = n.min(self.records.len());
        PairList {
            records: &self.records[..end],
            bytes: self.bytes,
        }
    }

    // How many pairs are recorded, repeats too.
    pub fn len(&self) -> usize
        ensures { result ≡ length (listed self.now) }
    {
        self.records.len()
    }

    // Whether no pair is recorded.
    pub fn is_empty(&self) -> bool
        ensures { result ≡ (length (listed self.now) == 0) }
    {
        self.records.is_empty()
    }

    // The pairs, one after the other.
    pub fn iter(&self) -> Pairs<'r, 'b>
        ensures { pairs_left result ≡ listed self.now }
    {
        Pairs { rest: *self }
    }

    // The text of the pair at i; empty where there is none.
    pub fn text(&self, i: usize) -> &'b [u8]
        ensures { result.now ≡ (slice_index_or (listed self.now) i ([], [])).0 }
    {
        let records = self.records;
        if i < records.len() {
            records[i].text_in(self.bytes)
        } else {
            &[]
        }
    }

    // The result of the pair at i; empty where there is none.
    pub fn result(&self, i: usize) -> &'b [u8]
        ensures { result.now ≡ (slice_index_or (listed self.now) i ([], [])).1 }
    {
        let records = self.records;
        if i < records.len() {
            records[i].result_in(self.bytes)
        } else {
            &[]
        }
    }

    // Whether the pair is recorded.
    pub fn has(&self, pair: Pair) -> bool
        ensures { result ≡ has (listed self.now) (pair_read pair.entry) }
    {
        self.iter().any(|recorded| recorded == pair)
    }

    // Whether the pair at i is recorded before i too.
    pub fn is_repeat(&self, i: usize) -> bool
        ensures { result ≡ has (take i (listed self.now)) (slice_index_or (listed self.now) i ([], [])) }
    {
        self.first(i).has(Pair {
            text: self.text(i),
            result: self.result(i),
        })
    }

    // The length of the longest result of at most `most` bytes, or 0: no Option, since a result of no bytes counts as none.
    pub fn size_within(&self, most: usize) -> usize
        ensures { result ≡ size_within most (listed self.now) }
    {
        self.iter()
            .map(|pair| pair.result.len())
            .filter(|size| *size <= most)
            .max()
            .unwrap_or(0)
    }

    // The length of the longest result, or 0.
    pub fn longest(&self) -> usize
        ensures { result ≡ longest (listed self.now) }
    {
        self.size_within(self.bytes.len())
    }

    // The text of the first pair with this result.
    pub fn text_of(&self, res: &[u8]) -> Option<&'b [u8]>
        ensures { option_map (λ x. x.now) result ≡ lookup (listed self.now) res.now }
    {
        self.iter()
            .find(|pair| pair.result == res)
            .map(|pair| pair.text)
    }
}
