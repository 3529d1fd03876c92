ghost use Rattle.std.specs.Prelude.{◌≡◌, ◌-◌, [], ◌∷◌, ◌++◌, length, take, drop, is_ok, if◌then◌else◌, nat_lt, slice_set};
ghost use Rattle.std.specs.Option.{option_to_list};
ghost use Rattle.std.specs.List.{slice_get};
ghost use Rattle.stack.specs.Held.{held, loan, memory, offered};

use crate::Stack;

// Each contract says that the stack is over the same memory as before (`loan`): a struct behind a `&mut` could be given another.
impl<'a, T: Copy> Stack<'a, T> {
    // Writes over the element at a place; `x` comes back where none stands there.
    pub fn set(&mut self, at: usize, x: T) -> Result<(), T>
        ensures says { result ≡ offered (nat_lt at (length (held self.old))) x }
        ensures elements { held self.new ≡ slice_set (held self.old) at x }
        ensures memory { memory self.new ≡ slice_set (held self.old) at x ++ drop (length (held self.old)) (memory self.old) }
        ensures loan { loan self.new ≡ loan self.old }
    {
        if at < self.used {
            self.items[at] = x;
            Ok(())
        } else {
            Err(x)
        }
    }

    // One element more; it comes back, and nothing is changed, where the memory is full.
    pub fn push(&mut self, x: T) -> Result<(), T>
        ensures says { result ≡ offered (nat_lt (length (held self.old)) (length (memory self.old))) x }
        ensures elements { held self.new ≡ (if is_ok result then held self.old ++ x ∷ [] else held self.old) }
        ensures memory { memory self.new ≡ slice_set (memory self.old) (length (held self.old)) x }
        ensures loan { loan self.new ≡ loan self.old }
    {
        let top = self.used;
        if top < self.items.len() {
            self.items[top] = x;
            self.used = top + 1;
            Ok(())
        } else {
            Err(x)
        }
    }

    // The last element, taken off; None where there is none.
    pub fn pop(&mut self) -> Option<T>
        ensures says { result ≡ slice_get (held self.old) (length (held self.old) - 1) }
        ensures elements { held self.old ≡ held self.new ++ option_to_list result }
        ensures memory { memory self.new ≡ memory self.old }
        ensures loan { loan self.new ≡ loan self.old }
    {
        let last = self.used.checked_sub(1)?;
        self.used = last;
        Some(self.items[last])
    }

    // Cuts back to the first `len` elements; nothing is changed where there are no more.
    pub fn cut(&mut self, len: usize)
        ensures elements { held self.new ≡ take len (held self.old) }
        ensures memory { memory self.new ≡ memory self.old }
        ensures loan { loan self.new ≡ loan self.old }
    {
        self.used = self.used.min(len);
    }
}
