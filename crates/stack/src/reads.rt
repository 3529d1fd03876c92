ghost use Rattle.std.specs.Prelude.{◌≡◌, [], length, take};
ghost use Rattle.std.specs.List.{slice_get};
ghost use Rattle.stack.specs.Held.{held, loan, memory};

use crate::Stack;

impl<'a, T: Copy> Stack<'a, T> {
    // An empty stack over the memory given.
    pub fn new(items: &'a mut [T]) -> Self
        ensures elements { held result ≡ [] }
        ensures memory { memory result ≡ items.old }
        ensures loan { loan result ≡ items.entry.ghost_name }
    {
        Stack { items, used: 0 }
    }

    // A stack whose first `len` elements stand in the memory given already; all of it where it is shorter.
    // No Option of a stack: tried, and the check makes no proof for an Option of a struct with a fact and a loan.
    pub fn with_len(items: &'a mut [T], len: usize) -> Self
        ensures elements { held result ≡ take len items.old }
        ensures memory { memory result ≡ items.old }
        ensures loan { loan result ≡ items.entry.ghost_name }
    {
        let used = len.min(items.len());
        Stack { items, used }
    }

    // How many elements are in use.
    pub fn len(&self) -> usize
        ensures { result ≡ length (held self.now) }
    {
        self.used
    }

    // How many elements the memory has room for.
    pub fn capacity(&self) -> usize
        ensures { result ≡ length (memory self.now) }
    {
        self.items.len()
    }

    // The elements in use.
    pub fn as_slice(&self) -> &[T]
        ensures { result.now ≡ held self.now }
    {
        let used = self.len();
        &self.items[0..used]
    }

    // The element at a place, counted from the first pushed.
    pub fn get(&self, at: usize) -> Option<T>
        ensures { result ≡ slice_get (held self.now) at }
    {
        self.as_slice().get(at).copied()
    }
}
