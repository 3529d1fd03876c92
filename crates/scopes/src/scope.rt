ghost use Rattle.std.specs.Prelude.{◌≡◌};
ghost use Rattle.scopes.specs.Marks.{entered, left};

use crate::marks::RedactionMarks;

// An open scope. Its end puts the scope before it back, on every way out.
// Calls inside it are given `scope.marks`; an inner scope is opened by `scope.marks.open()`.
pub struct RedactionScope<'a> {
    pub marks: &'a mut RedactionMarks,
    former: Option<usize>,
}

impl Drop for RedactionScope<'_> {
    fn drop(self)
        ensures { self.exit.0.now ≡ left self.entry.former self.entry.marks.now }
    {
        let former = self.former;
        self.marks.leave(former);
        let RedactionScope {
            marks: _,
            former: _,
        } = self;
    }
}

impl RedactionMarks {
    // Opens a scope, to be ended by its drop.
    pub fn open(&mut self) -> RedactionScope<'_>
        ensures marks { result.marks.now ≡ entered self.old }
        ensures former { result.former ≡ self.old.start }
        ensures loan { result.marks.ghost_name ≡ self.entry.ghost_name }
    {
        let former = self.enter();
        RedactionScope {
            marks: self,
            former,
        }
    }
}
