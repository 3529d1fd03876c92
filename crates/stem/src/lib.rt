// The stem layer: a source whose names stand, behind a stem, in the source below.
#![tactic(auto)]

ghost use Rattle.std.specs.Prelude.{◌≡◌, ℕ, List, ◌++◌, None, if◌then◌else◌};
ghost use Rattle.std.specs.Bool.{then_some};
ghost use Rattle.std.specs.Option.{option_copied};
ghost use Rattle.stem.specs.StemLaws.{stem_laws};
ghost use Rattle.stem.specs.Stems.{name_below, stem_lawful, stem_verdict, under};

use source::error::SourceError;
use source::source::{NAME_MAX, PropertySource};
use text::is_utf8;

// The longest stem.
pub const STEM_MAX: usize = 32;

// Whether the bytes may be a stem.
pub fn check_stem(stem: &[u8]) -> Result<(), SourceError>
    ensures { result ≡ stem_verdict stem.now }
{
    if stem.len() <= STEM_MAX && is_utf8(stem) {
        Ok(())
    } else {
        Err(SourceError::BadStem)
    }
}

// A source whose names stand below behind a stem.
#[derive(Drop)]
pub struct Stem<'a, S> {
    // None where the stem is unlawful: then nothing is set.
    stem: Option<&'a [u8]>,
    below: S,
}

impl<'a, S: PropertySource> Stem<'a, S> {
    // The layer over `below`; a source with nothing set where the stem is unlawful.
    pub fn new(stem: &'a [u8], below: S) -> Self
        ensures value { option_copied result.stem ≡ then_some (stem_lawful stem.now) stem.now }
        ensures below { result.below ≡ below }
        ensures means { (name : List ℕ) → under (option_copied result.stem) (S.PropertySource.means result.below) name ≡ (if stem_lawful stem.now then S.PropertySource.means below (stem.now ++ name) else None) }
    {
        let stem = check_stem(stem).is_ok().then_some(stem);
        Stem { stem, below }
    }

    // Stem and name joined; None where the name is unset whatever stands below.
    #[tactic(auto, using(std::proofs::lemmas::Slice::overwrites))]
    fn join<'b>(&self, name: &[u8], whole: &'b mut [u8; NAME_MAX]) -> Option<&'b [u8]>
        ensures { option_copied result ≡ name_below (option_copied self.now.stem) name.now }
    {
        let stem = self.stem?;
        let a = stem.len();
        let e = a + name.len();
        if e > NAME_MAX {
            return None;
        }
        whole[..a].copy_from_slice(stem);
        whole[a..e].copy_from_slice(name);
        Some(&whole[..e])
    }
}

impl<'a, S: PropertySource> PropertySource for Stem<'a, S> {
    ghost means = { λ s n. under (option_copied s.stem) (S.PropertySource.means s.below) n };

    ghost laws = { stem_laws S.PropertySource.laws (λ s. option_copied s.stem) (λ s. s.below) };

    fn value_len(&self, name: &[u8]) -> Option<usize> {
        let mut whole = [0u8; NAME_MAX];
        let below = self.join(name, &mut whole)?;
        self.below.value_len(below)
    }

    fn lay_value(&self, name: &[u8], area: &mut [u8]) {
        let mut whole = [0u8; NAME_MAX];
        if let Some(below) = self.join(name, &mut whole) {
            self.below.lay_value(below, area);
        }
    }
}
