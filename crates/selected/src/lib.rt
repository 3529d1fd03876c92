// Whether text has to be walked.
#![tactic(auto)]

ghost use Rattle.std.specs.Prelude.{◌≡◌, ◌<◌, length, IfSome};
ghost use Rattle.expansion.specs.Events.{first_dollar};
ghost use Rattle.items.specs.Items.{expands, expands_here, more_than_itself};

use memchr::memchr;
use names::{PropertySyntax, begins_name};

// The place of the first `$`.
#[tactic(auto, using(crate::proofs::DollarLaws::first_is))]
pub fn find_dollar(text: &[u8]) -> Option<usize>
    ensures place { result ≡ first_dollar 0 text.now }
    ensures within { IfSome result (λ k. k < length text.now) }
{
    memchr(b'$', text)
}

// Whether a `$` of DockerCompose is more than itself, by the bytes behind it.
fn is_more_than_itself(rest: &[u8]) -> bool
    ensures { result ≡ more_than_itself rest.now }
{
    match rest.first() {
        None => false,
        Some(b'$' | b'{') => true,
        Some(_) => begins_name(rest, PropertySyntax::DockerCompose),
    }
}

// Whether a byte of selected text is to be expanded, by the bytes behind it.
fn expands_here(byte: u8, rest: &[u8], syntax: PropertySyntax) -> bool
    ensures { result ≡ expands_here syntax byte rest.now }
{
    if byte != b'$' {
        return false;
    }
    match syntax {
        PropertySyntax::Braced | PropertySyntax::BracedOrBare => rest.starts_with(b"{"),
        PropertySyntax::DockerCompose => is_more_than_itself(rest),
    }
}

// Whether selected text has to be walked.
pub fn needs_expansion(text: &[u8], syntax: PropertySyntax) -> bool
    ensures { result ≡ expands syntax text.now }
{
    text.iter()
        .enumerate()
        .any(|(i, &byte)| expands_here(byte, &text[i + 1..], syntax))
}
