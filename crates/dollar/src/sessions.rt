ghost use Rattle.std.specs.Prelude.{◌≡◌};
ghost use Rattle.std.specs.Option.{option_map};
ghost use Rattle.dollar.specs.Held.{breach_of, closed, kept, session_of, syntax_numbered};
ghost use Rattle.dollar.specs.Seen.{seen};

use crate::table::{LentTable, TableKind};
use names::PropertySyntax;
use session::breach::BudgetBreach;
use session::session::PropertyInterpolation;
use source::source::PropertySource;
use stem::Stem;

// A session as C keeps it between two calls. The table and the stem are lent anew to each call.
// All zero where there is no session: then each call refuses it.
#[repr(C)]
#[derive(Clone, Copy, PartialEq, Eq, Debug)]
pub struct DollarSession {
    // 1: nothing is set; 2: a book; 3: a block
    pub table_kind: u32,
    // 1: `${NAME}`; 2: `$NAME` too; 3: as Docker Compose has them
    pub syntax: u32,
    pub max_depth: usize,
    pub max_work: usize,
    // the work done so far
    pub total: usize,
    // the first limit that a call passed: 8 for depth, 9 for work, else none
    pub breach: u32,
    // what was come to then, and the limit
    pub breach_reached: usize,
    pub breach_limit: usize,
}

// The session over a lent table and a stem.
pub(crate) type LentSession<'a> = PropertyInterpolation<Stem<'a, LentTable<'a>>>;

// The syntax with a number.
pub(crate) fn syntax_numbered(number: u32) -> Option<PropertySyntax>
    ensures { result ≡ syntax_numbered number }
{
    match number {
        1 => Some(PropertySyntax::Braced),
        2 => Some(PropertySyntax::BracedOrBare),
        3 => Some(PropertySyntax::DockerCompose),
        _ => None,
    }
}

impl DollarSession {
    // What is kept where there is no session.
    pub(crate) fn closed() -> Self
        ensures { result ≡ closed }
    {
        DollarSession {
            table_kind: 0,
            syntax: 0,
            max_depth: 0,
            max_work: 0,
            total: 0,
            breach: 0,
            breach_reached: 0,
            breach_limit: 0,
        }
    }

    // The limit that a call passed.
    fn breach(&self) -> Option<BudgetBreach>
        ensures { result ≡ breach_of self.now }
    {
        match self.breach {
            8 => Some(BudgetBreach::PropertyExpansionDepth(self.breach_reached, self.breach_limit)),
            9 => Some(BudgetBreach::PropertyInterpolationWork(
                self.breach_reached,
                self.breach_limit,
            )),
            _ => None,
        }
    }

    // The session that the numbers stand for, over a table and a stem; None where the kind or the syntax has no such number.
    pub(crate) fn restored<'a>(&self, table: &'a [u8], stem: &'a [u8]) -> Option<LentSession<'a>>
        ensures { option_map seen result ≡ session_of self.now table.now stem.now }
    {
        let kind = TableKind::numbered(self.table_kind)?;
        let syntax = syntax_numbered(self.syntax)?;
        let source = Stem::new(stem, LentTable { kind, bytes: table });
        let new = PropertyInterpolation::new(source, syntax, self.max_depth, self.max_work);
        Some(new.resume(self.total, self.breach()))
    }

    // The numbers after a call.
    pub(crate) fn kept<S: PropertySource>(&self, session: &PropertyInterpolation<S>) -> Self
        ensures { result ≡ kept self.now session.now.work.total session.now.breach }
    {
        let total = session.total_work();
        let (breach, breach_reached, breach_limit) = match session.breach() {
            None => (0, 0, 0),
            Some(BudgetBreach::PropertyExpansionDepth(reached, limit)) => (8, reached, limit),
            Some(BudgetBreach::PropertyInterpolationWork(reached, limit)) => (9, reached, limit),
        };
        DollarSession {
            total,
            breach,
            breach_reached,
            breach_limit,
            ..*self
        }
    }
}
