#![tactic(auto)]

ghost use Rattle.std.specs.Prelude.{◌≡◌, ◌<◌, length, IfSome, IfOk};
ghost use Rattle.budget.specs.Charges.{paid, spent};
ghost use Rattle.closes.specs.CloseLaws.{Complete, Sound};
ghost use Rattle.closes.specs.Closes.{close, close_looks};

mod braced;
mod compose;
mod fronts;

use braced::find_balanced_close;
use budget::{WorkBudget, WorkFault};
use compose::find_compose_braced_reference_close;
use names::PropertySyntax;

// The place of the `}` that closes a reference, in the bytes `body` after its `${`.
pub fn find_braced_reference_close(
    body: &[u8],
    syntax: PropertySyntax,
    work: &mut WorkBudget,
) -> Result<Option<usize>, WorkFault>
    ensures says { result ≡ paid work.old (close_looks syntax body.now) (close syntax body.now) }
    ensures work { work.new ≡ spent work.old (close_looks syntax body.now) }
    ensures within { IfOk result (λ o. IfSome o (λ k. k < length body.now)) }
    ensures sound { Sound syntax body.now }
    ensures complete { Complete syntax body.now }
{
    match syntax {
        PropertySyntax::Braced | PropertySyntax::BracedOrBare => find_balanced_close(body, work),
        PropertySyntax::DockerCompose => find_compose_braced_reference_close(body, work),
    }
}

#[cfg(test)]
mod tests;
