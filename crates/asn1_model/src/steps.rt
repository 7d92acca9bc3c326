//! The facets that a simple type has in a module.
ghost use Rattle.std.specs.Prelude.{◌≡◌};
ghost use Rattle.asn1_model.specs.ModuleOf.{sized_step, number_step, step_of};

use data_types::Kind;
use facets::{Simple, Step, least_written, plain_step};
use std::alloc::Global;

/// The facets that the kind has.
pub(crate) fn step_of(alloc: Global, simple: &Simple) -> Step
    ensures { result ≡ step_of simple.now }
{
    match simple.kind {
        Kind::Text | Kind::Binary => sized_step(alloc, simple),
        Kind::Decimal => number_step(alloc, simple),
        kind => plain_step(alloc, Some(kind)),
    }
}

/// The lengths of a text or of octets.
fn sized_step(alloc: Global, simple: &Simple) -> Step
    ensures { result ≡ sized_step simple.now }
{
    let mut step = plain_step(alloc, Some(simple.kind));
    step.min = least_written(simple.min);
    step.max = simple.max;
    step
}

/// The digits and the bounds of a number.
fn number_step(alloc: Global, simple: &Simple) -> Step
    ensures { result ≡ number_step simple.now }
{
    let mut step = plain_step(alloc, Some(simple.kind));
    step.total = Some(simple.total);
    step.fraction = simple.fraction;
    step.low = simple.low;
    step.high = simple.high;
    step
}
