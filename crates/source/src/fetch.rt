ghost use Rattle.std.specs.Prelude.{◌≡◌, length, Some};
ghost use Rattle.std.specs.Option.{option_map};
ghost use Rattle.source.specs.Laying.{fetched, laid};

use crate::source::PropertySource;

// Lays as much of the value as fits at the front of the area.
pub fn lay_bytes(value: &[u8], area: &mut [u8])
    ensures { area.new ≡ laid (Some value.now) area.old }
{
    let n = value.len().min(area.len());
    area[..n].copy_from_slice(&value[..n]);
}

// Puts a property's value at the front of the area, as much of it as fits, and zeros behind it.
// Answers how long the value is; None where the name is unset.
#[tactic(auto, using(crate::proofs::FetchLaws::zeros_behind))]
pub fn fetch_value<S: PropertySource>(source: &S, name: &[u8], area: &mut [u8]) -> Option<usize>
    ensures length { result ≡ option_map length (S.PropertySource.means source.now name.now) }
    ensures area { area.new ≡ fetched (S.PropertySource.means source.now name.now) (length area.old) }
{
    let len = source.value_len(name);
    let end = len.unwrap_or(0).min(area.len());
    source.lay_value(name, area);
    area[end..].fill(0);
    len
}
