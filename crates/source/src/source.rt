ghost use Rattle.std.specs.Prelude.{◌≡◌, ℕ, List, length, Option};
ghost use Rattle.std.specs.Option.{option_map};
ghost use Rattle.source.specs.Lawful.{Lawful, lent_laws, unset, unset_laws};
ghost use Rattle.source.specs.Laying.{laid};

// The longest name that a source may have set.
pub const NAME_MAX: usize = 63;

// The longest value that a source may have.
pub const VALUE_MAX: usize = 1024;

// A source of properties: each name is unset or has a value. Asking changes nothing.
pub trait PropertySource {
    // What a name is: unset, or the bytes of its value.
    ghost means: { Self → List ℕ → Option (List ℕ) };

    // A name over 63 bytes is unset, and a value has at most 1024 bytes.
    ghost laws: { Lawful means };

    // How long the value is; None where the name is unset.
    fn value_len(&self, name: &[u8]) -> Option<usize>
        ensures { result ≡ option_map length (means self.now name.now) };

    // Lays as much of the value as fits at the front of the area.
    fn lay_value(&self, name: &[u8], area: &mut [u8])
        ensures { area.new ≡ laid (means self.now name.now) area.old };
}

// The source in which everything is unset.
#[derive(Clone, Copy, PartialEq, Eq, Debug, Default)]
pub struct Empty;

impl PropertySource for Empty {
    ghost means = { unset };

    ghost laws = { unset_laws };

    fn value_len(&self, name: &[u8]) -> Option<usize> {
        None
    }

    fn lay_value(&self, name: &[u8], area: &mut [u8]) {}
}

// A source that is lent.
impl<'a, S: PropertySource> PropertySource for &'a S {
    ghost means = { λ s n. S.PropertySource.means s.now n };

    ghost laws = { lent_laws S.PropertySource.laws (λ s. s.now) };

    fn value_len(&self, name: &[u8]) -> Option<usize> {
        (**self).value_len(name)
    }

    fn lay_value(&self, name: &[u8], area: &mut [u8]) {
        (**self).lay_value(name, area);
    }
}
