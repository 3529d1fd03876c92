// A limit of the session that a call passed.
#[derive(Clone, Copy, PartialEq, Eq, Debug)]
pub enum BudgetBreach {
    // The depth that selected text came to, and the limit.
    PropertyExpansionDepth(usize, usize),
    // The work total that a charge came to, and the limit.
    PropertyInterpolationWork(usize, usize),
}
