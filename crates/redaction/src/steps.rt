use crate::draft::{Draft, Unmade};
use matches::matching::{Matches, sole_match};
use pairs::list::PairList;
use pairs::pair::Pair;

// How many pairs are asked for a repeat before a text is searched, beside one for each so many bytes of the text: a search
// takes the time of some such questions.
const EARLY: usize = 8;

const BYTES_FOR_ONE: usize = 256;

impl Draft<'_, '_> {
    ghost use Rattle.std.specs.Prelude.{◌≡◌, ◌≤◌, length, if◌then◌else◌};
    ghost use Rattle.pairs.specs.Lists.{listed, scope};
    ghost use Rattle.pairs.specs.Pairs.{has};
    ghost use Rattle.pairs.specs.Records.{pair_read};
    ghost use Rattle.pairs.specs.Sizes.{of_size};
    ghost use Rattle.redaction.specs.Drafts.{Kept, ending, state_of};
    ghost use Rattle.redaction.specs.Orders.{longest_first};
    ghost use Rattle.redaction.specs.Redactions.{step, steps};

    // How many of the `count` pairs before one are asked for a repeat before the text is searched: some, and more for a longer text.
    // To ask them all first would be slow for many pairs of which few stand in the text; to search first, for many repeats.
    fn early(&self, count: usize) -> usize
        ensures { result ≤ count }
    {
        count.min(self.text().len() / BYTES_FOR_ONE + EARLY)
    }

    // Takes a pair behind those of `before`, if it is none of them: its result is replaced by its text.
    fn take_pair(&mut self, before: &PairList, pair: Pair) -> Result<(), Unmade>
        ensures says { ending self.new result ≡ (if has (listed before.now) (pair_read pair.entry) then state_of self.old else step (length self.old.area.now) (state_of self.old) (pair_read pair.entry)) }
        ensures keeps { Kept self.old self.new }
    {
        if before.first(self.early(before.len())).has(pair) {
            return Ok(());
        }
        match sole_match(self.text(), pair.result) {
            Matches::Nowhere => Ok(()),
            _ if before.has(pair) => Ok(()),
            Matches::Once(at) => self.replace(at, pair.result.len(), pair.text),
            Matches::Often => Err(Unmade::Often),
        }
    }

    // Takes the pairs whose result has `size` bytes, in their order, each once.
    fn take_size(&mut self, pairs: &PairList, size: usize) -> Result<(), Unmade>
        ensures says { ending self.new result ≡ steps (length self.old.area.now) (state_of self.old) (of_size size (scope pairs.now)) }
        ensures keeps { Kept self.old self.new }
    {
        for (i, pair) in pairs.iter().enumerate() {
            if pair.result.len() == size {
                self.take_pair(&pairs.first(i), pair)?;
            }
        }
        Ok(())
    }

    // Takes all pairs, the longest result first. A loop that goes down by lengths: there is no list of them to go over.
    pub(crate) fn take_pairs(&mut self, pairs: &PairList) -> Result<(), Unmade>
        ensures says { ending self.new result ≡ steps (length self.old.area.now) (state_of self.old) (longest_first (scope pairs.now)) }
        ensures keeps { Kept self.old self.new }
    {
        let mut size = pairs.longest();
        while size > 0 {
            self.take_size(pairs, size)?;
            size = pairs.size_within(size - 1);
        }
        Ok(())
    }
}
