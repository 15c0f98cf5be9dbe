//! Flights, parties and spans once more.
ghost use Rattle.std.specs.Prelude.{◌≡◌, IfOk, map};
ghost use Rattle.taxi_base.specs.Airport.{Airport};
ghost use Rattle.taxi_base.specs.State.{State};
ghost use Rattle.checked_state.specs.Flights.{state_of, HasSpansOf};

use crate::HeldFlights;
use std::alloc::Global;
use taxi_base::{Flight, List, Memory, Step};

impl HeldFlights {
    /// The same flights and parties once more, and the same spans.
    pub fn copy(&self) -> Result<HeldFlights, Memory>
        ensures state { IfOk result (λ copy. state_of copy ≡ state_of self.now) }
        ensures spans { IfOk result (λ copy. (airport : Airport) (state : State) → HasSpansOf airport state self.now → HasSpansOf airport state copy) }
    {
        let flights = self.flights.copy()?;
        let parties = self.parties.copy()?;
        let spans = self.spans.copy()?;
        Ok(HeldFlights {
            flights,
            parties,
            spans,
        })
    }
}

/// Flights once more, each in a box of its own.
pub(crate) fn copy_boxes(alloc: Global, boxes: &[Box<Flight>]) -> Result<Vec<Box<Flight>>, Memory>
    ensures { IfOk result (λ copies. map (λ b. b.value) copies.items ≡ map (λ b. b.value) boxes.now) }
{
    let mut copies = Vec::with_capacity(alloc, boxes.len())?;
    for flight in boxes {
        let copy = copy_flight(alloc, flight)?;
        let boxed = Box::new(alloc, copy)?;
        copies.push(boxed)?;
    }
    Ok(copies)
}

fn copy_flight(alloc: Global, flight: &Flight) -> Result<Flight, Memory>
    ensures { IfOk result (λ copy. copy ≡ flight.now) }
{
    let steps = copy_steps(alloc, flight.steps.as_slice())?;
    Ok(Flight {
        name: flight.name,
        class: flight.class,
        request: flight.request,
        steps,
    })
}

/// The same steps once more.
pub fn copy_steps(alloc: Global, steps: &[Step]) -> Result<List<Step>, Memory>
    ensures { IfOk result (λ copy. copy ≡ steps.now) }
{
    let mut copy = List::with_capacity(alloc, steps.len())?;
    for step in steps {
        copy.push(*step)?;
    }
    Ok(copy)
}
