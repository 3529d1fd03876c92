// The first character of bytes, which need not be well-formed UTF-8.

ghost use Rattle.std.specs.Prelude.{◌≡◌, ◌+◌, ◌-◌, ◌<◌, ◌≤◌, slice_index};
ghost use Rattle.std.specs.Str.{continuation_len};
ghost use Rattle.names.specs.Glyphs.{glyph, letter_of, spelt};

// The low bits of a byte inside a character; nothing past the end.
fn bits(text: &[u8], at: usize) -> u32
    ensures value { result ≡ slice_index text.now at - 128 }
    ensures few { result < 128 }
{
    text.get(at)
        .map_or(0, |&byte| u32::from(byte).saturating_sub(128))
}

// The number that a character of several bytes is written as.
fn code(text: &[u8], lead: u8) -> u32
    requires { (lead ≡ slice_index text.now 0) × (128 ≤ lead) }
    ensures { result ≡ spelt text.now }
{
    let lead = lead as u32;
    if lead < 224 {
        lead.saturating_sub(192) * 64 + bits(text, 1)
    } else if lead < 240 {
        ((lead - 224) * 64 + bits(text, 1)) * 64 + bits(text, 2)
    } else {
        (((lead - 240) * 64 + bits(text, 1)) * 64 + bits(text, 2)) * 64 + bits(text, 3)
    }
}

// How many bytes such a character has, by its first.
fn width(lead: u8) -> usize
    requires { 128 ≤ lead }
    ensures { result ≡ 1 + continuation_len lead }
{
    if lead < 224 {
        2
    } else if lead < 240 {
        3
    } else {
        4
    }
}

// The character of a number, U+FFFD where there is none.
fn letter(code: u32) -> char
    ensures { result ≡ letter_of code }
{
    char::from_u32(code).unwrap_or(char::REPLACEMENT_CHARACTER)
}

// The first character with its width.
pub fn first_char(text: &[u8]) -> Option<(char, usize)>
    ensures { result ≡ glyph text.now }
{
    let &lead = text.first()?;
    if lead < 128 {
        return Some((lead as char, 1));
    }
    Some((letter(code(text, lead)), width(lead).min(text.len())))
}
