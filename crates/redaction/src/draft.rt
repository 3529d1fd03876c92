ghost use Rattle.std.specs.Prelude.{ℕ, ◌≤◌, length};
ghost use Rattle.std.specs.Option.{ForSome};

// A text in redaction: the one given, or one that was made of it and stands at the front of the area.
#[derive(Drop)]
pub(crate) struct Draft<'t, 'a> {
    given: &'t [u8],
    pub(crate) area: &'a mut [u8],
    // how many bytes the text has that was made; None while nothing is replaced. The area is lent, so its length cannot say it.
    pub(crate) made: Option<usize>,
    ghost within: { ForSome made (λ len. len ≤ length area.now) },
}

// Why no text is made.
#[derive(Clone, Copy, PartialEq, Eq, Debug)]
pub(crate) enum Unmade {
    // a result stands in the text more than once
    Often,
    // a text of that length does not fit in the area
    TooShort(usize),
}

impl<'t, 'a> Draft<'t, 'a> {
    ghost use Rattle.std.specs.Prelude.{◌≡◌, ◌+◌, None};
    ghost use Rattle.redaction.specs.Drafts.{Kept, ending, loan, standing};
    ghost use Rattle.redaction.specs.Redactions.{fitted};
    ghost use Rattle.redaction.specs.Splices.{spliced};

    // The text as it is given; the area stays as it is.
    pub(crate) fn new(given: &'t [u8], area: &'a mut [u8]) -> Self
        ensures given { result.given.now ≡ given.now }
        ensures made { result.made ≡ None }
        ensures room { length result.area.now ≡ length area.old }
        ensures loan { loan result ≡ area.entry.ghost_name }
    {
        Draft {
            given,
            area,
            made: None,
        }
    }

    // The text as it stands.
    pub(crate) fn text(&self) -> &[u8]
        ensures { result.now ≡ standing self.now }
    {
        match self.made {
            Some(len) => &self.area[..len],
            None => self.given,
        }
    }

    // Replaces `old` bytes at `at` by `new`. What each method leaves alone is one relation, `Kept`.
    pub(crate) fn replace(&mut self, at: usize, old: usize, new: &[u8]) -> Result<(), Unmade>
        requires { at + old ≤ length (standing self.old) }
        ensures says { ending self.new result ≡ fitted (length self.old.area.now) (spliced at old new.now (standing self.old)) }
        ensures keeps { Kept self.old self.new }
    {
        let wanted = self.text().len() - old + new.len();
        if wanted > self.area.len() {
            return Err(Unmade::TooShort(wanted));
        }
        let to = at + new.len();
        match self.made {
            Some(len) => self.area.copy_within(at + old..len, to),
            None => {
                self.area[..at].copy_from_slice(&self.given[..at]);
                self.area[to..wanted].copy_from_slice(&self.given[at + old..]);
            }
        }
        self.area[at..to].copy_from_slice(new);
        self.made = Some(wanted);
        Ok(())
    }
}
