// Texts: bytes that are well-formed UTF-8.
#![tactic(auto)]

ghost use Rattle.std.specs.Prelude.{◌≡◌, ◌↔◌, IsTrue, IsUtf8};
ghost use Rattle.std.specs.Str.{valid_up_to};
ghost use Rattle.text.specs.declared.TextError.TheVariants.{NotUtf8};
ghost use Rattle.text.specs.Refusals.{refusal_number};
ghost use Rattle.text.specs.Texts.{text_verdict, well_formed};

use std::str::Utf8Error;

// Whether the bytes are well-formed UTF-8.
#[tactic(auto, using(crate::proofs::TextLaws::text_laws))]
pub fn is_utf8(bytes: &[u8]) -> bool
    ensures value { result ≡ well_formed bytes.now }
    ensures tells { IsTrue result ↔ IsUtf8 bytes.now }
{
    std::str::from_utf8(bytes).is_ok()
}

// The longest text that a call takes.
pub const TEXT_MAX: usize = 8192;

// Why bytes are no text.
#[derive(Clone, Copy, PartialEq, Eq, Debug)]
pub enum TextError {
    // There are more than 8192 bytes.
    TooLong,
    // The bytes are well-formed UTF-8 up to this one only.
    NotUtf8(usize),
}

impl TextError {
    // The number of the refusal.
    pub fn number(&self) -> u32
        ensures { result ≡ refusal_number self.now }
    {
        match self {
            TextError::TooLong => 1,
            TextError::NotUtf8(_) => 2,
        }
    }
}

// The refusal of the library, by how far it read.
impl From<Utf8Error> for TextError {
    ghost from_gives = { λ e r. r ≡ NotUtf8 (valid_up_to e) };

    fn from(error: Utf8Error) -> Self {
        TextError::NotUtf8(error.valid_up_to())
    }
}

// Whether the bytes are a text: at most 8192 bytes of well-formed UTF-8.
#[tactic(auto, using(crate::proofs::TextLaws::text_laws))]
pub fn check_text(bytes: &[u8]) -> Result<(), TextError>
    ensures { result ≡ text_verdict bytes.now }
{
    if bytes.len() > TEXT_MAX {
        return Err(TextError::TooLong);
    }
    std::str::from_utf8(bytes)?;
    Ok(())
}
