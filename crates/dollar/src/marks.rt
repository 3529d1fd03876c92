ghost use Rattle.std.specs.Prelude.{◌≡◌};
ghost use Rattle.scopes.specs.Marks.{entered, left};
ghost use Rattle.dollar.specs.Held.{marks_kept, marks_of, scope_kept, scope_of};

use scopes::marks::RedactionMarks;

// The marks of a pair memory. All zero where no scope is open and all of the memory is free.
#[repr(C)]
#[derive(Clone, Copy, PartialEq, Eq, Debug)]
pub struct DollarMarks {
    // how many pair records are in use
    pub records: usize,
    // how many pair bytes are in use
    pub bytes: usize,
    // 0 where no scope is open
    pub is_open: u32,
    // where the innermost open scope starts
    pub start: usize,
}

// Which scope was the innermost before one was opened.
#[repr(C)]
#[derive(Clone, Copy, PartialEq, Eq, Debug)]
pub struct DollarScope {
    // 0 where none was open
    pub is_open: u32,
    // where it starts
    pub start: usize,
}

// Two numbers for where a scope starts, if one is open.
fn scope_kept(start: Option<usize>) -> DollarScope
    ensures { result ≡ scope_kept start }
{
    match start {
        None => DollarScope {
            is_open: 0,
            start: 0,
        },
        Some(start) => DollarScope { is_open: 1, start },
    }
}

impl DollarScope {
    // Where the scope starts, if one is open.
    fn start(self) -> Option<usize>
        ensures { result ≡ scope_of self }
    {
        if self.is_open == 0 {
            None
        } else {
            Some(self.start)
        }
    }
}

impl From<RedactionMarks> for DollarMarks {
    ghost from_gives = { λ m r. r ≡ marks_kept m };

    fn from(marks: RedactionMarks) -> Self {
        let scope = scope_kept(marks.start);
        DollarMarks {
            records: marks.records,
            bytes: marks.bytes,
            is_open: scope.is_open,
            start: scope.start,
        }
    }
}

impl From<DollarMarks> for RedactionMarks {
    ghost from_gives = { λ m r. r ≡ marks_of m };

    fn from(marks: DollarMarks) -> Self {
        let scope = DollarScope {
            is_open: marks.is_open,
            start: marks.start,
        };
        RedactionMarks {
            records: marks.records,
            bytes: marks.bytes,
            start: scope.start(),
        }
    }
}

// Opens a scope. Answers the one before it, for `dollar_scope_end`.
#[unsafe(no_mangle)]
pub extern "C" fn dollar_scope_begin(marks: &mut DollarMarks) -> DollarScope
    ensures former { result ≡ scope_kept (marks_of marks.old).start }
    ensures marks { marks.new ≡ marks_kept (entered (marks_of marks.old)) }
{
    let mut opened = RedactionMarks::from(*marks);
    let former = opened.enter();
    *marks = DollarMarks::from(opened);
    scope_kept(former)
}

// Ends the innermost scope: the one before it is back, and with none before it the pair memory is free.
#[unsafe(no_mangle)]
pub extern "C" fn dollar_scope_end(marks: &mut DollarMarks, former: DollarScope)
    ensures { marks.new ≡ marks_kept (left (scope_of former) (marks_of marks.old)) }
{
    let mut ended = RedactionMarks::from(*marks);
    ended.leave(former.start());
    *marks = DollarMarks::from(ended);
}
