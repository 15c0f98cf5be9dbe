//! What is due to a route that is given by hand.
ghost use Rattle.std.specs.Prelude.{◌≡◌, IfOk, IsTrue, length};
ghost use Rattle.taxi_text.specs.Commands.{is_step_count};
ghost use Rattle.replies.specs.Asked.{filed_steps};
ghost use Rattle.checked_state.specs.Flights.{state_of, HasSpansOf};
ghost use Rattle.due_refusals.specs.KnownIn.{AreKnownIn};
ghost use Rattle.due_refusals.specs.Filing.{IsDueOf};

use crate::faults::route_fault;
use airport_file::Airport;
use check_rows::KnownWindows;
use checked_state::HeldFlights;
use std::alloc::Global;
use taxi_base::{Flight, List, MOST_HOLDERS, Memory, Refusal, Request, Step, Time};
use taxi_text::{Filed, FiledStep};

/// What is due to a filed route: its refusal, or that its flight is in force.
#[derive(Drop)]
pub enum Due {
    Refused(Refusal),
    Accepted(Flight),
}

/// What is due to a filed route. Of several refusals it is the first.
pub fn find_due(
    alloc: Global,
    airport: &Airport,
    held: &HeldFlights,
    known: &mut KnownWindows,
    filed: &Filed,
) -> Result<Due, Memory>
    requires spans { HasSpansOf airport.now (state_of held.now) held.now }
    requires known { AreKnownIn airport.now (state_of held.now) known.old }
    requires steps { IsTrue (is_step_count (length filed.now.steps)) }
    ensures due { IfOk result (IsDueOf airport.now (state_of held.now) filed.now) }
    ensures known { AreKnownIn airport.now (state_of held.now) known.new }
{
    if held.has_holder(&filed.flight) {
        return Ok(Due::Refused(Refusal::InForce));
    }
    let Some(class) = airport.class_named(&filed.class) else {
        return Ok(Due::Refused(Refusal::UnknownClass));
    };
    let Some(steps) = filed_steps(alloc, airport, filed.start, filed.steps.as_slice())? else {
        return Ok(Due::Refused(Refusal::UnknownSegment));
    };
    if held.count() >= MOST_HOLDERS {
        return Ok(Due::Refused(Refusal::Full));
    }
    let fault = route_fault(airport, class, held, known, steps.as_slice())?;
    if let Some(fault) = fault {
        return Ok(Due::Refused(Refusal::Step(fault)));
    }
    Ok(Due::Accepted(Flight {
        name: filed.flight,
        class,
        request: Request::Filed,
        steps,
    }))
}

// The steps that the words of a filed route mean, the first entered at `start`. None where one of them names no arc.
fn filed_steps(
    alloc: Global,
    airport: &Airport,
    start: Time,
    filed: &[FiledStep],
) -> Result<Option<List<Step>>, Memory>
    ensures { IfOk result (λ steps. steps ≡ filed_steps airport.now start filed.now) }
{
    let mut steps = List::new(alloc);
    let mut enter = start;
    for filed in filed {
        let Some(arc) = airport.arc_named(&filed.segment, filed.forward) else {
            return Ok(None);
        };
        let step = Step {
            arc,
            enter,
            leave: filed.leave,
        };
        steps.push(step)?;
        enter = filed.leave;
    }
    Ok(Some(steps))
}
