#![tactic(auto)]

ghost use Rattle.std.specs.Prelude.{◌≡◌, ℕ, List, [], ◌∷◌, length, take, replicate};
ghost use Rattle.std.specs.Borrow.{MutBor};
ghost use Rattle.source.specs.Shapes.{bytes_of};
ghost use Rattle.output.specs.Outputs.{Grows, Holds, begun, closed, fitted, put};

use answers::OutputTooShort;
use source::fetch::lay_bytes;
use source::source::PropertySource;

// A text that is laid into a lent area from its front on. It may be longer than the area: its whole length is counted.
// The length stands beside the lent area, and is no slice's own, since it may pass the area's.
#[derive(Drop)]
pub struct Output<'a> {
    area: &'a mut [u8],
    len: usize,
}

impl<'a> Output<'a> {
    // No text; the area stays as it is.
    pub fn new(area: &'a mut [u8]) -> Self
        ensures begins { result ≡ begun area.entry }
        ensures holds { Holds result area.entry [] }
    {
        Output { area, len: 0 }
    }

    // The length of the text, which may be more than the area has.
    pub fn len(&self) -> usize
        ensures { result ≡ self.now.len }
    {
        self.len // with what does not fit
    }

    // The text begins anew; the area stays as it is.
    pub fn clear(&mut self)
        ensures begins { self.new ≡ begun self.old.area }
        ensures holds { (lent : MutBor (List ℕ)) (text : List ℕ) → Holds self.old lent text → Holds self.new lent [] }
    {
        self.len = 0;
    }

    // One byte more. In place, since most of a text is put byte by byte.
    pub fn put_byte(&mut self, byte: u8)
        ensures puts { self.new ≡ put (byte ∷ []) 1 self.old }
        ensures grows { Grows self.old (byte ∷ []) self.new }
    {
        let at = self.len;
        if at < self.area.len() {
            self.area[at] = byte;
        }
        self.len = at.saturating_add(1);
    }

    // The bytes of a part more.
    pub fn put_bytes(&mut self, part: &[u8])
        ensures puts { self.new ≡ put part.now (length part.now) self.old }
        ensures grows { Grows self.old part.now self.new }
    {
        let at = self.len.min(self.area.len());
        lay_bytes(part, &mut self.area[at..]);
        self.len = self.len.saturating_add(part.len());
    }

    // The value of a property more, `len` being its length; none where the name is unset.
    // Laid as in `put_bytes`: one function for both would lend out a part of the area, and be longer than the three lines.
    pub fn put_value<S: PropertySource>(&mut self, source: &S, name: &[u8], len: usize)
        ensures puts { self.new ≡ put (bytes_of (S.PropertySource.means source.now name.now)) len self.old }
        ensures grows { len ≡ length (bytes_of (S.PropertySource.means source.now name.now)) → Grows self.old (bytes_of (S.PropertySource.means source.now name.now)) self.new }
    {
        let at = self.len.min(self.area.len());
        source.lay_value(name, &mut self.area[at..]);
        self.len = self.len.saturating_add(len);
    }

    // Zeros behind the text, and its length. Where it is longer than the area, all is zero.
    pub fn finish(self) -> Result<usize, OutputTooShort>
        ensures answer { result ≡ fitted (length self.entry.area.now) self.entry.len }
        ensures area { self.exit.0.now ≡ closed (length self.entry.area.now) self.entry.len (take self.entry.len self.entry.area.now) }
        ensures says { (lent : MutBor (List ℕ)) (text : List ℕ) → Holds self.entry lent text → result ≡ fitted (length lent.now) (length text) }
        ensures holds { (lent : MutBor (List ℕ)) (text : List ℕ) → Holds self.entry lent text → self.exit.0.now ≡ closed (length lent.now) (length text) text }
    {
        let Output { area, len } = self;
        if len > area.len() {
            area.fill(0);
            return Err(OutputTooShort { needed: len });
        }
        area[len..].fill(0);
        Ok(len)
    }

    // All zeros: no text is handed out.
    pub fn wipe(self)
        ensures { self.exit.0.now ≡ replicate (length self.entry.area.now) 0 }
    {
        self.area.fill(0);
    }
}
