use crate::marks::Marks;
use budget::WorkBudget;
use names::PropertySyntax;
use output::Output;

// What a walk is given, and leaves as it is.
#[derive(Drop)]
pub(crate) struct Given<'g, S> {
    pub source: &'g S,
    pub text: &'g [u8],
    pub max_depth: usize,
}

// Where an action stands: in a frame of this depth and syntax, and `close` is the last byte that was read.
#[derive(Clone, Copy)]
pub(crate) struct Site {
    pub close: usize,
    pub depth: usize,
    pub syntax: PropertySyntax,
}

// What a walk changes: the work that was done, the marks, and the text that was put out.
// The output is lent: where a struct owns one, the check loses what is then in the area.
#[derive(Drop)]
pub(crate) struct Walk<'w, 'a> {
    pub work: WorkBudget,
    pub marks: Marks,
    pub out: &'w mut Output<'a>,
}
