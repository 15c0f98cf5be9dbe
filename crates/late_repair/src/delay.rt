//! A flight that is late, and what it holds by that.
ghost use Rattle.std.specs.Prelude.{◌≡◌, IfOk};
ghost use Rattle.taxi_base.specs.Late.{prolonged_hold, is_late, time_sought};
ghost use Rattle.late_repair.specs.Repairing.{hold_seen};

use crate::kept::copy_of;
use airport_file::Airport;
use std::alloc::Global;
use std::marker::Model;
use taxi_base::{Flight, Memory, Name, Segment, Span, Step, Time};

/// A flight that at a time is on a step that it has begun, and stays on it until a second. The flight is a copy, since the one in
/// force is taken out.
#[derive(Drop)]
pub(crate) struct Delay {
    flight: Flight,
    begun: Step,
    time: Time,
    until: Time,
}

impl Model for Delay {
    ghost use Rattle.taxi_base.specs.Late.{Delay as Late};

    ghost Value = { Late };

    ghost view = { λ d. record { flight = d.flight; begun = d.begun; time = d.time; until = d.until } };
}

/// A segment that is held for a span.
#[derive(Clone, Copy)]
pub(crate) struct Hold {
    pub(crate) segment: Segment,
    pub(crate) span: Span,
}

impl Delay {
    /// A flight, and the step on which it stays.
    pub(crate) fn of(
        alloc: Global,
        flight: &Flight,
        begun: Step,
        time: Time,
        until: Time,
    ) -> Result<Delay, Memory>
        ensures { IfOk result (λ delay. delay ≡ record { flight = flight.now; begun = begun; time = time; until = until }) }
    {
        let steps = copy_of(alloc, flight.steps.as_slice())?;
        Ok(Delay {
            flight: Flight {
                name: flight.name,
                class: flight.class,
                request: flight.request,
                steps,
            },
            begun,
            time,
            until,
        })
    }

    /// The name of the flight that is late.
    pub(crate) fn name(&self) -> &Name
        ensures { result.now ≡ self.now.flight.name }
    {
        &self.flight.name
    }

    /// The time at which the flight is on its step.
    pub(crate) fn time(&self) -> Time
        ensures { result ≡ self.now.time }
    {
        self.time
    }

    /// The second until which it stays there.
    pub(crate) fn until(&self) -> Time
        ensures { result ≡ self.now.until }
    {
        self.until
    }

    /// Whether a flight is the one that is late.
    pub(crate) fn is_late(&self, flight: &Flight) -> bool
        ensures { result ≡ is_late self.now flight.now }
    {
        flight.name == self.flight.name
    }

    /// The time from which a flight may leave its last step, or begin.
    pub(crate) fn time_sought(&self, flight: &Flight) -> Time
        ensures { result ≡ time_sought self.now flight.now }
    {
        if self.is_late(flight) {
            self.until
        } else {
            self.time
        }
    }

    /// What the step holds now: its segment until the clearance after the later leave is over.
    pub(crate) fn hold(&self, airport: &Airport) -> Hold
        ensures { hold_seen result ≡ prolonged_hold airport.now self.now }
    {
        let prolonged = Step {
            arc: self.begun.arc,
            enter: self.begun.enter,
            leave: self.until,
        };
        let clearance = airport.clearance(self.flight.class);
        Hold {
            segment: prolonged.arc.segment(),
            span: prolonged.held(airport.horizon(), clearance),
        }
    }
}
