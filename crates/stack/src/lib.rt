#![tactic(auto)]

ghost use Rattle.std.specs.Prelude.{◌≤◌, length};

mod edits;
mod reads;

// A stack over lent memory: the first `used` elements of `items` are in use. No Vec, since nothing is allocated.
#[derive(Drop)]
pub struct Stack<'a, T> {
    items: &'a mut [T],
    used: usize,
    ghost within: { used ≤ length items.now },
}
