//! A route made of the steps of a flight that are done and of a way on.
ghost use Rattle.std.specs.Prelude.{◌≡◌, ◌++◌, IfOk, OnOk};
ghost use Rattle.taxi_base.specs.Again.{after_steps};

use std::alloc::Global;
use taxi_base::{Found, List, Memory, Step};

/// What was found for the way on, with the steps done put first.
pub(crate) fn after_steps(alloc: Global, done: &[Step], found: Found) -> Result<Found, Memory>
    ensures { IfOk result (λ joined. joined ≡ after_steps done.now found) }
{
    match found {
        Found::NoRoute { labels } => Ok(Found::NoRoute { labels }),
        Found::Route { steps, labels } => {
            let steps = joined(alloc, done, steps)?;
            Ok(Found::Route { steps, labels })
        }
    }
}

// Two parts of a route as one.
fn joined(alloc: Global, done: &[Step], rest: List<Step>) -> Result<List<Step>, Memory>
    ensures { IfOk result (λ steps. steps ≡ done.now ++ rest) }
{
    if done.is_empty() {
        return Ok(rest);
    }
    let mut steps = List::new(alloc);
    push_steps(&mut steps, done)?;
    push_steps(&mut steps, rest.as_slice())?;
    Ok(steps)
}

/// Puts more steps behind some.
pub fn push_steps(steps: &mut List<Step>, more: &[Step]) -> Result<(), Memory>
    ensures { OnOk result (steps.new ≡ steps.old ++ more.now) }
{
    for step in more {
        steps.push(*step)?;
    }
    Ok(())
}
