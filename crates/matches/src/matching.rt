ghost use Rattle.std.specs.Prelude.{◌≡◌, ◌+◌, ◌<◌, ◌≤◌, length, IfSome};
ghost use Rattle.std.specs.List.{slice_get};
ghost use Rattle.matches.specs.Kinds.{Inside, kind_of};
ghost use Rattle.matches.specs.Places.{places};

use memchr::memmem;

// How often a needle stands in a text. These are three ways, so it is no Option.
#[derive(Clone, Copy, PartialEq, Eq, Debug)]
pub enum Matches {
    Nowhere,
    // where
    Once(usize),
    Often,
}

// The kit's search reads the needle some five times before it looks at the text. Where the text has not this many needles' length, each place is tried.
const NEEDLES: usize = 3;

// Where a needle with a byte stands first, by trying place after place.
fn find_by_places(text: &[u8], needle: &[u8]) -> Option<usize>
    requires { 0 < length needle.now }
    ensures says { result ≡ slice_get (places needle.now text.now) 0 }
    ensures within { IfSome result (λ at. at + length needle.now ≤ length text.now) }
{
    text.windows(needle.len()).position(|part| part == needle)
}

// Where the needle stands first in the text. A needle of no bytes stands nowhere.
pub fn find_match(text: &[u8], needle: &[u8]) -> Option<usize>
    ensures says { result ≡ slice_get (places needle.now text.now) 0 }
    ensures some { IfSome result (λ at. 0 < length needle.now) }
    ensures within { IfSome result (λ at. at + length needle.now ≤ length text.now) }
{
    if needle.is_empty() {
        return None;
    }
    if text.len() / NEEDLES < needle.len() {
        return find_by_places(text, needle);
    }
    memmem::find(text, needle)
}

// How often the needle stands in the text: from the left, and no two matches overlap.
// A loop, since what is left to search depends on where the last match stands.
pub fn count_matches(text: &[u8], needle: &[u8]) -> usize
    ensures { result ≡ length (places needle.now text.now) }
{
    let mut count = 0;
    let mut rest = text;
    while let Some(at) = find_match(rest, needle) {
        count += 1;
        rest = &rest[at + needle.len()..];
    }
    count
}

// Whether the needle stands in the text nowhere, once or more often: from the left, and no two matches overlap.
pub fn sole_match(text: &[u8], needle: &[u8]) -> Matches
    ensures says { result ≡ kind_of (places needle.now text.now) }
    ensures within { Inside (length text.now) (length needle.now) result }
{
    let Some(at) = find_match(text, needle) else {
        return Matches::Nowhere;
    };
    match find_match(&text[at + needle.len()..], needle) {
        None => Matches::Once(at),
        Some(_) => Matches::Often,
    }
}
