// What bytes begin with.

ghost use Rattle.std.specs.Prelude.{◌≡◌};
ghost use Rattle.closes.specs.Fronts.{op_found, opens};

// The length of the operator at the front, where there is one.
pub(crate) fn operator_len(rest: &[u8]) -> Option<usize>
    ensures { result ≡ op_found rest.now }
{
    if rest.starts_with(b":-") || rest.starts_with(b":+") || rest.starts_with(b":?") {
        Some(2)
    } else if rest.starts_with(b"-") || rest.starts_with(b"+") || rest.starts_with(b"?") {
        Some(1)
    } else {
        None
    }
}

// Whether a byte begins an inner `${`, by the bytes behind it.
pub(crate) fn opens_inner(byte: u8, rest: &[u8]) -> bool
    ensures { result ≡ opens byte rest.now }
{
    byte == b'$' && rest.starts_with(b"{")
}
