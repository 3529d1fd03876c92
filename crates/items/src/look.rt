ghost use Rattle.std.specs.Prelude.{◌≡◌, ◌+◌, ◌-◌, ◌^◌, ◌<◌, length, drop, IfOk};
ghost use Rattle.std.specs.Option.{option_map};
ghost use Rattle.budget.specs.Charges.{spent};
ghost use Rattle.source.specs.Shapes.{shapes};
ghost use Rattle.references.specs.declared.error.PropertyError.TheVariants.{InvalidName};
ghost use Rattle.items.specs.Looks.{AskedLook, Ends, Known, Stays, acted, action_told, charges_at, look, looked_told};
ghost use Rattle.items.specs.Reading.{Held, found_act, found_more};

use crate::action::{Action, Named, Step};
use crate::read::{Found, read_byte};
use budget::WorkBudget;
use names::PropertySyntax;
use references::brace::BraceBody;
use references::error::{PropertyError, Span};
use source::source::PropertySource;

// What stands at the place `cursor` of a frame that ends where `input` ends; None at its end.
pub fn look_at<'a, S: PropertySource>(
    source: &S,
    input: &'a [u8],
    cursor: usize,
    syntax: PropertySyntax,
    work: &mut WorkBudget,
) -> Result<Option<Step<'a>>, PropertyError>
    ensures says { looked_told result ≡ look (shapes (S.PropertySource.means source.now)) syntax cursor work.old (drop cursor input.now) }
    ensures work { work.new ≡ spent work.old (charges_at (shapes (S.PropertySource.means source.now)) syntax cursor (drop cursor input.now)) }
    ensures within { Stays (length input.now) cursor result }
    ensures asked { AskedLook (S.PropertySource.means source.now) result }
{
    if cursor >= input.len() {
        return Ok(None);
    }
    let behind = &input[cursor + 1..];
    let found = read_byte(input[cursor], behind, syntax, work)?;
    let place = Place {
        source,
        cursor,
        left: behind.len(),
        syntax,
    };
    let action = place.action(found)?;
    Ok(Some(Step {
        action,
        next: place.next(found),
    }))
}

// A place of a frame, with `left` bytes behind the one that stands there.
#[derive(Drop)]
struct Place<'p, S: PropertySource> {
    source: &'p S,
    cursor: usize,
    left: usize,
    syntax: PropertySyntax,
    ghost fits: { cursor + 1 + left < 2 ^ 64 },
}

impl<'p, S: PropertySource> Place<'p, S> {
    // What is done for what was found here.
    #[inline(always)]
    fn action<'a>(&self, found: Found<'a>) -> Result<Action<'a>, PropertyError>
        requires { Held self.now.left found }
        ensures says { action_told (self.now.cursor + found_more found.entry) result ≡ acted (found_act (shapes (S.PropertySource.means self.now.source.now)) self.now.syntax self.now.cursor self.now.left found.entry) }
        ensures within { IfOk result (λ a. Ends (self.now.cursor + 1 + self.now.left) self.now.cursor a (self.now.cursor + 1 + found_more found.entry)) }
        ensures asked { IfOk result (λ a. Known (S.PropertySource.means self.now.source.now) a) }
    {
        match found {
            Found::Byte(byte) => Ok(Action::Keep(byte)),
            Found::Escape => Ok(Action::Dollar),
            Found::Braces(BraceBody::Unclosed) => match self.syntax {
                PropertySyntax::DockerCompose => Err(self.invalid(self.cursor + 1 + self.left)),
                PropertySyntax::Braced | PropertySyntax::BracedOrBare => Ok(Action::Keep(b'$')),
            },
            Found::Braces(BraceBody::Malformed(close)) => Err(self.invalid(
                self.cursor + close + 3,
            )),
            Found::Braces(BraceBody::Reference(_, brace)) => {
                self.named(brace.name, self.cursor + 2)
                    .braced(brace.op, self.syntax)
            }
            Found::Bare(name) => self.named(name, self.cursor + 1).plain(self.syntax),
        }
    }

    // A refusal of the text from here to the byte before `end`.
    #[inline(always)]
    fn invalid(&self, end: usize) -> PropertyError
        ensures { result ≡ InvalidName (record { start = self.now.cursor; end = end }) }
    {
        PropertyError::InvalidName(Span {
            start: self.cursor,
            end,
        })
    }

    // The property with this name, which stands at `from`.
    #[inline(always)]
    fn named<'a>(&self, name: &'a [u8], from: usize) -> Named<'a>
        requires { from + length name.now < 2 ^ 64 }
        ensures name { result.name.now ≡ name.now }
        ensures from { result.from ≡ from }
        ensures value { result.value ≡ option_map length (S.PropertySource.means self.now.source.now name.now) }
    {
        Named {
            name,
            from,
            value: self.source.value_len(name),
        }
    }

    // Where reading goes on behind what was found here.
    #[inline(always)]
    fn next(&self, found: Found<'_>) -> usize
        requires { Held self.now.left found }
        ensures { result ≡ self.now.cursor + 1 + found_more found.entry }
    {
        match found {
            Found::Byte(_) | Found::Braces(BraceBody::Unclosed) => self.cursor + 1,
            Found::Escape => self.cursor + 2,
            Found::Braces(BraceBody::Malformed(close) | BraceBody::Reference(close, _)) => {
                self.cursor + close + 3
            }
            Found::Bare(name) => self.cursor + 1 + name.len(),
        }
    }
}
