//! The steps of a simple type, as a schema writes them (XML Schema part 2 §4.1.2).
ghost use Rattle.std.specs.Prelude.{◌≡◌, [], ◌∷◌, Some, None, IfOk};
ghost use Rattle.std.specs.Option.{option_to_list};
ghost use Rattle.facets.specs.Steps.{least_written, plain_step};
ghost use Rattle.xsd_model.specs.StepsOf.{date_steps, profile_pattern, steps_by, steps_of};

use crate::names::text_of;
use crate::schema::Steps;
use data_types::Kind;
use facets::{Codes, Simple, Step, Texts, least_written, plain_step};
use lexical_core::Items;
use std::alloc::{AllocError, Global};

/// The steps of a simple type: one, but of a date or a time with a pattern of its own two.
pub(crate) fn steps_of(alloc: Global, simple: &Simple) -> Result<Steps, AllocError>
    ensures { IfOk result (λ steps. steps ≡ steps_of simple.now) }
{
    let step = match simple.kind {
        Kind::Text => text_step(alloc, simple)?,
        Kind::Decimal => decimal_step(alloc, simple),
        Kind::Boolean => plain_step(alloc, Some(Kind::Boolean)),
        Kind::Binary => binary_step(alloc, simple),
        Kind::Envelope => return Ok(Items::new(alloc)),
        _ => return dated(alloc, simple),
    };
    one_step(alloc, step)
}

/// The step as a list.
fn one_step(alloc: Global, step: Step) -> Result<Steps, AllocError>
    ensures { IfOk result (λ steps. steps ≡ step ∷ []) }
{
    let mut steps = Items::new(alloc);
    steps.push(step)?;
    Ok(steps)
}

/// The step of texts: their codes where there is a set of them, else their lengths and their pattern.
fn text_step(alloc: Global, simple: &Simple) -> Result<Step, AllocError>
    ensures { IfOk result (λ step. step ∷ [] ≡ steps_by Kind.Text simple.now.codes simple.now) }
{
    match &simple.codes {
        Some(codes) => coded_step(alloc, codes),
        None => free_step(alloc, simple),
    }
}

/// The step of texts that are codes.
fn coded_step(alloc: Global, codes: &Codes) -> Result<Step, AllocError>
    ensures { IfOk result (λ step. step ≡ record (plain_step (Some Kind.Text)) { codes = codes.now }) }
{
    let mut step = plain_step(alloc, Some(Kind::Text));
    step.codes = codes.copy(alloc)?;
    Ok(step)
}

/// The step of texts without codes.
fn free_step(alloc: Global, simple: &Simple) -> Result<Step, AllocError>
    ensures { IfOk result (λ step. step ≡ record (plain_step (Some Kind.Text)) { min = least_written simple.now.min; max = simple.now.max; patterns = option_to_list simple.now.pattern }) }
{
    let mut step = plain_step(alloc, Some(Kind::Text));
    step.min = least_written(simple.min);
    step.max = simple.max;
    step.patterns = own_pattern(alloc, simple)?;
    Ok(step)
}

/// The step of numbers.
fn decimal_step(alloc: Global, simple: &Simple) -> Step
    ensures { result ≡ record (plain_step (Some Kind.Decimal)) { total = Some simple.now.total; fraction = simple.now.fraction; low = simple.now.low; high = simple.now.high } }
{
    let mut step = plain_step(alloc, Some(Kind::Decimal));
    step.total = Some(simple.total);
    step.fraction = simple.fraction;
    step.low = simple.low;
    step.high = simple.high;
    step
}

/// The step of octets.
fn binary_step(alloc: Global, simple: &Simple) -> Step
    ensures { result ≡ record (plain_step (Some Kind.Binary)) { min = least_written simple.now.min; max = simple.now.max } }
{
    let mut step = plain_step(alloc, Some(Kind::Binary));
    step.min = least_written(simple.min);
    step.max = simple.max;
    step
}

/// The pattern, where there is one.
fn own_pattern(alloc: Global, simple: &Simple) -> Result<Texts, AllocError>
    ensures { IfOk result (λ patterns. patterns ≡ option_to_list simple.now.pattern) }
{
    let mut patterns = Items::new(alloc);
    if let Some(pattern) = &simple.pattern {
        patterns.push(text_of(alloc, pattern.text())?)?;
    }
    Ok(patterns)
}

/// The steps of a date or a time: the base with its profile, and a pattern of its own in a step of its own.
fn dated(alloc: Global, simple: &Simple) -> Result<Steps, AllocError>
    ensures { IfOk result (λ steps. steps ≡ date_steps simple.now.kind simple.now.pattern) }
{
    let profile = profile_pattern(simple.kind);
    let mut steps = one_step(alloc, patterned(alloc, Some(simple.kind), profile)?)?;
    if let Some(pattern) = &simple.pattern {
        steps.push(patterned(alloc, None, pattern.text())?)?;
    }
    Ok(steps)
}

/// A step with this pattern alone.
fn patterned(alloc: Global, base: Option<Kind>, pattern: &[u8]) -> Result<Step, AllocError>
    ensures { IfOk result (λ step. step ≡ record (plain_step base) { patterns = pattern.now ∷ [] }) }
{
    let mut step = plain_step(alloc, base);
    step.patterns.push(text_of(alloc, pattern)?)?;
    Ok(step)
}

/// The profile of a date or a time: no more than the instances of messages have.
fn profile_pattern(kind: Kind) -> &'static [u8]
    ensures { result.now ≡ profile_pattern kind }
{
    match kind {
        Kind::Date => b"[0-9]{4}-[0-9]{2}-[0-9]{2}(Z|[+\\-][0-9]{2}:[0-9]{2})?",
        Kind::DateTime => {
            b"[0-9]{4}-[0-9]{2}-[0-9]{2}T([01][0-9]|2[0-3]):[0-5][0-9]:[0-5][0-9](\\.[0-9]{1,9})?(Z|[+\\-][0-9]{2}:[0-9]{2})?"
        }
        Kind::Time => {
            b"([01][0-9]|2[0-3]):[0-5][0-9]:[0-5][0-9](\\.[0-9]{1,9})?(Z|[+\\-][0-9]{2}:[0-9]{2})?"
        }
        Kind::Year => b"[0-9]{4}(Z|[+\\-][0-9]{2}:[0-9]{2})?",
        Kind::YearMonth => b"[0-9]{4}-[0-9]{2}(Z|[+\\-][0-9]{2}:[0-9]{2})?",
        Kind::MonthDay => b"--[0-9]{2}-[0-9]{2}(Z|[+\\-][0-9]{2}:[0-9]{2})?",
        Kind::Month => b"--[0-9]{2}(Z|[+\\-][0-9]{2}:[0-9]{2})?",
        Kind::Day => b"---[0-9]{2}(Z|[+\\-][0-9]{2}:[0-9]{2})?",
        _ => b"",
    }
}
