ghost use Rattle.std.specs.Prelude.{◌≡◌, ◌+◌, ◌≤◌, length, slice_set};
ghost use Rattle.pairs.specs.Records.{pair_read};
ghost use Rattle.scopes.specs.Notes.{append_answer, append_memory, lacks, laid_at, memory, note_answer, note_memory};

use crate::marks::RedactionMarks;
use pairs::pair::Pair;
use pairs::record::PairRecord;
use stack::Stack;

// A new pair finds no record, or too few bytes.
#[derive(Clone, Copy, PartialEq, Eq, Debug)]
pub struct PairsFull;

// Puts a record behind the `used` ones in use, where there is a place for it.
fn push_record(records: &mut [PairRecord], used: usize, new: PairRecord)
    ensures { records.new ≡ slice_set records.old used new }
{
    let mut stack = Stack::with_len(records, used);
    let _ = stack.push(new);
}

// Lays a text and its result into the bytes from `at` on.
fn lay_pair(bytes: &mut [u8], at: usize, pair: Pair<'_>)
    requires { at + length pair.text.now + length pair.result.now ≤ length bytes.old }
    ensures { bytes.new ≡ laid_at at (pair_read pair.entry) bytes.old }
{
    let middle = at + pair.text.len();
    let end = middle + pair.result.len();
    bytes[at..middle].copy_from_slice(pair.text);
    bytes[middle..end].copy_from_slice(pair.result);
}

// The pair records and the pair bytes stay two parameters: behind a `&mut`, a struct of them would owe in each contract that its loans stay.
impl RedactionMarks {
    // Whether the innermost open scope lacks a pair.
    fn lacks(&self, pair: Pair<'_>, records: &[PairRecord], bytes: &[u8]) -> bool
        ensures { result ≡ lacks (memory self.now records.now bytes.now) (pair_read pair.entry) }
    {
        match self.start {
            None => false,
            Some(_) => !self.innermost(records, bytes).has(pair),
        }
    }

    // Records a pair behind those in use; nothing is changed where there is no room.
    fn append(
        &mut self,
        pair: Pair<'_>,
        records: &mut [PairRecord],
        bytes: &mut [u8],
    ) -> Result<(), PairsFull>
        ensures says { result ≡ append_answer (memory self.old records.old bytes.old) (pair_read pair.entry) }
        ensures memory { memory self.new records.new bytes.new ≡ append_memory (memory self.old records.old bytes.old) (pair_read pair.entry) }
    {
        let at = self.bytes;
        let record = PairRecord {
            at,
            text: pair.text.len(),
            result: pair.result.len(),
        };
        if records.len() <= self.records || !record.is_within(bytes.len()) {
            return Err(PairsFull);
        }
        push_record(records, self.records, record);
        lay_pair(bytes, at, pair);
        self.records += 1;
        self.bytes = at + pair.text.len() + pair.result.len();
        Ok(())
    }

    // Notes a pair in every open scope that lacks it: where the innermost does, it takes a record and its bytes.
    pub fn note(
        &mut self,
        pair: Pair<'_>,
        records: &mut [PairRecord],
        bytes: &mut [u8],
    ) -> Result<(), PairsFull>
        ensures says { result ≡ note_answer (memory self.old records.old bytes.old) (pair_read pair.entry) }
        ensures memory { memory self.new records.new bytes.new ≡ note_memory (memory self.old records.old bytes.old) (pair_read pair.entry) }
    {
        if self.lacks(pair, records, bytes) {
            self.append(pair, records, bytes)?;
        }
        Ok(())
    }
}
