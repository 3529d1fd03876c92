ghost use Rattle.std.specs.Prelude.{◌≡◌, length, None};
ghost use Rattle.session.specs.Sessions.{made, with_breach, with_total};

use crate::breach::BudgetBreach;
use budget::WorkBudget;
use names::PropertySyntax;
use source::source::PropertySource;

// A source with a syntax and limits, and the work done so far.
#[derive(Drop)]
pub struct PropertyInterpolation<S> {
    pub(crate) source: S,
    pub(crate) syntax: PropertySyntax,
    pub(crate) max_expansion_depth: usize,
    pub(crate) work: WorkBudget,
    // the first limit that a call passed
    pub(crate) breach: Option<BudgetBreach>,
}

impl<S: PropertySource> PropertyInterpolation<S> {
    // A session with no work done and no limit passed.
    pub fn new(
        source: S,
        syntax: PropertySyntax,
        max_expansion_depth: usize,
        max_total_work: usize,
    ) -> Self
        ensures { result ≡ made source syntax max_expansion_depth max_total_work }
    {
        PropertyInterpolation {
            source,
            syntax,
            max_expansion_depth,
            work: WorkBudget {
                total: 0,
                limit: max_total_work,
            },
            breach: None,
        }
    }

    // The session with work done and a limit passed before: as one that was kept elsewhere stood.
    pub fn resume(self, total_work: usize, breach: Option<BudgetBreach>) -> Self
        ensures { result ≡ with_breach (with_total self total_work) breach }
    {
        PropertyInterpolation {
            work: WorkBudget {
                total: total_work,
                limit: self.work.limit,
            },
            breach,
            ..self
        }
    }

    // The work done so far.
    pub fn total_work(&self) -> usize
        ensures { result ≡ self.now.work.total }
    {
        self.work.total
    }

    // The first limit that a call passed.
    pub fn breach(&self) -> Option<BudgetBreach>
        ensures { result ≡ self.now.breach }
    {
        self.breach
    }
}
