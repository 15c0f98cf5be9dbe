//! A route given by hand: what refuses it, or the flight that takes it.
ghost use Rattle.std.specs.Prelude.{◌≡◌, ◌⊎◌, ◌≤◌, length, Some, None, IfOk, IfErr};
ghost use Rattle.taxi_text.specs.declared.command.Command.TheVariants.{File};
ghost use Rattle.replies.specs.Printable.{IsName};
ghost use Rattle.replies.specs.Asked.{route_filed};
ghost use Rattle.commitments.specs.Book.{Fits, IsPrepared};
ghost use Rattle.command_refusals.specs.Accepted.{IsAccepted, IsRefused};

use crate::holders::{is_full, is_held};
use airport_file::Airport;
use commitments::Ledger;
use std::alloc::Global;
use taxi_base::{Flight, List, Refusal, Request, Step};
use taxi_text::Filed;

/// The flight that takes a route given by hand, with room for it in the ledger, or why it is refused.
pub fn check_filed(
    alloc: Global,
    airport: &Airport,
    ledger: &mut Ledger,
    filed: &Filed,
) -> Result<Flight, Refusal>
    requires fits { Fits airport.now ledger.old }
    requires unlifted { ledger.old.lifted ≡ None }
    requires name { IsName filed.now.flight }
    requires few { length filed.now.steps ≤ 256 }
    requires some { 1 ≤ length filed.now.steps }
    ensures ok { IfOk result (IsAccepted airport.now ledger.old.state (File filed.now)) }
    ensures prepared { IfOk result (λ f. IsPrepared airport.now f.steps ledger.new) }
    ensures err { IfErr result (IsRefused airport.now ledger.old.state (File filed.now)) }
    ensures state { ledger.new.state ≡ ledger.old.state }
    ensures unlifted { ledger.new.lifted ≡ None }
    ensures fits { Fits airport.now ledger.new }
{
    if is_held(ledger, &filed.flight) {
        return Err(Refusal::InForce);
    }
    let Some(class) = airport.class_named(&filed.class) else {
        return Err(Refusal::UnknownClass);
    };
    let steps = route_steps(alloc, airport, filed)?;
    if is_full(airport, ledger) {
        return Err(Refusal::Full);
    }
    if let Some(fault) = ledger.check_route(airport, class, steps.as_slice()) {
        return Err(Refusal::Step(fault));
    }
    ledger.prepare(airport, steps.as_slice())?;
    Ok(Flight {
        name: filed.flight,
        class,
        request: Request::Filed,
        steps,
    })
}

// The steps of a filed route.
fn route_steps(alloc: Global, airport: &Airport, filed: &Filed) -> Result<List<Step>, Refusal>
    ensures ok { IfOk result (λ steps. route_filed airport.now filed.now ≡ Some steps) }
    ensures err { IfErr result (λ why. (why ≡ Refusal.Memory) ⊎ ((why ≡ Refusal.UnknownSegment) × (route_filed airport.now filed.now ≡ None))) }
{
    let pairs = filed.steps.as_slice();
    let mut steps = List::with_capacity(alloc, pairs.len())?;
    let mut enter = filed.start;
    for pair in pairs {
        let Some(arc) = airport.arc_named(&pair.segment, pair.forward) else {
            return Err(Refusal::UnknownSegment);
        };
        steps.push(Step {
            arc,
            enter,
            leave: pair.leave,
        })?;
        enter = pair.leave;
    }
    Ok(steps)
}
