ghost use Rattle.std.specs.Prelude.{◌≡◌, ℕ, ◌+◌, ◌^◌, ◌<◌, length, IfOk};
ghost use Rattle.items.specs.Items.{op_act, plain_act, span};
ghost use Rattle.items.specs.Looks.{Yields, action_told, acted, shape_by};
ghost use Rattle.references.specs.Braces.{op_of};
ghost use Rattle.references.specs.Reads.{word_len};

use names::PropertySyntax;
use references::error::{PropertyError, Span};
use references::op::BraceOp;

// How a completed frame is applied: as the text, in its parent, or as the message of a required property with this name.
#[derive(Clone, Copy, PartialEq, Eq, Debug)]
pub enum FrameCompletion {
    Root,
    Append,
    RequiredButUnset(Span),
    RequiredButEmpty(Span),
}

// What is done at a place of a frame.
#[derive(Clone, Copy, PartialEq, Eq, Debug)]
pub enum Action<'a> {
    // The byte stands for itself.
    Keep(u8),
    // `$$` stands for `$`.
    Dollar,
    // A reference stands for the value of the property with this name, and of this length,
    Property(&'a [u8], usize),
    // for nothing,
    Nothing,
    // or for selected text.
    Interpolate(&'a [u8], FrameCompletion),
}

// An action, and the place behind what it was read from.
#[derive(Clone, Copy, PartialEq, Eq, Debug)]
pub struct Step<'a> {
    pub action: Action<'a>,
    pub next: usize,
}

// A property that a reference names: the name, its place in the call's text, and the length of the value; None where it is unset.
#[derive(Drop)]
pub(crate) struct Named<'a> {
    pub(crate) name: &'a [u8],
    pub(crate) from: usize,
    pub(crate) value: Option<usize>,
    ghost fits: { from + length name.now < 2 ^ 64 },
}

impl<'a> Named<'a> {
    // Where the name stands in the call's text.
    #[inline(always)]
    fn span(&self) -> Span
        ensures { result ≡ span self.now.from (length self.now.name.now) }
    {
        Span {
            start: self.from,
            end: self.from + self.name.len(),
        }
    }

    // What a reference without an operator yields.
    #[inline(always)]
    pub(crate) fn plain(&self, syntax: PropertySyntax) -> Result<Action<'a>, PropertyError>
        ensures says { (close : ℕ) → action_told close result ≡ acted (plain_act syntax (shape_by self.now.value) self.now.from self.now.name.now) }
        ensures yields { IfOk result (λ a. Yields self.now.name.now self.now.value 0 a) }
    {
        match (self.value, syntax) {
            (Some(len), _) => Ok(Action::Property(self.name, len)),
            (None, PropertySyntax::DockerCompose) => Ok(Action::Nothing),
            (None, PropertySyntax::Braced | PropertySyntax::BracedOrBare) => Err(
                PropertyError::Unresolved(self.span()),
            ),
        }
    }

    // What a reference in braces yields.
    #[inline(always)]
    pub(crate) fn braced(
        &self,
        op: BraceOp<'a>,
        syntax: PropertySyntax,
    ) -> Result<Action<'a>, PropertyError>
        ensures says { (close : ℕ) → action_told close result ≡ acted (op_act syntax (shape_by self.now.value) self.now.from self.now.name.now close (op_of op.entry)) }
        ensures yields { IfOk result (λ a. Yields self.now.name.now self.now.value (word_len (op_of op.entry)) a) }
    {
        match (op, self.value) {
            (BraceOp::Required, _) => self.plain(syntax),
            (BraceOp::DefaultIfUnset(text), None)
            | (BraceOp::DefaultIfUnsetOrEmpty(text), None | Some(0)) => {
                Ok(Action::Interpolate(text, FrameCompletion::Append))
            }
            (BraceOp::AlternateIfSet(_), None)
            | (BraceOp::AlternateIfSetAndNonEmpty(_), None | Some(0)) => Ok(Action::Nothing),
            (BraceOp::AlternateIfSet(text) | BraceOp::AlternateIfSetAndNonEmpty(text), Some(_)) => {
                Ok(Action::Interpolate(text, FrameCompletion::Append))
            }
            (BraceOp::ErrorIfUnset(text) | BraceOp::ErrorIfUnsetOrEmpty(text), None) => {
                Ok(Action::Interpolate(text, FrameCompletion::RequiredButUnset(self.span())))
            }
            (BraceOp::ErrorIfUnsetOrEmpty(text), Some(0)) => {
                Ok(Action::Interpolate(text, FrameCompletion::RequiredButEmpty(self.span())))
            }
            (
                BraceOp::DefaultIfUnset(_)
                | BraceOp::DefaultIfUnsetOrEmpty(_)
                | BraceOp::ErrorIfUnset(_)
                | BraceOp::ErrorIfUnsetOrEmpty(_),
                Some(len),
            ) => Ok(Action::Property(self.name, len)),
        }
    }
}
