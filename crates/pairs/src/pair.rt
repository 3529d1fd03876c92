// A text, and the result that stood for it.
#[derive(Clone, Copy, PartialEq, Eq, Debug)]
pub struct Pair<'b> {
    pub text: &'b [u8],
    pub result: &'b [u8],
}
