//! By how much a route is later, or sooner, than was asked, where it waits, and for whom.
ghost use Rattle.std.specs.Prelude.{◌≡◌, ◌<◌, ◌++◌, length, None, OnOk};
ghost use Rattle.commitments.specs.Book.{Fits};
ghost use Rattle.reply_reasons.specs.InTheWay.{in_the_way};
ghost use Rattle.reply_reasons.specs.Waits.{hold_reason, queue_reason, delay_reason, held_until, seconds_waited, holder_ahead, holder_behind, holder_waited_for, wait_reason, wait_reasons, listed, route_reasons};

use crate::in_the_way::in_the_way;
use crate::reason::Reason;
use airport_file::Airport;
use commitments::Ledger;
use taxi_base::{Class, List, Memory, Name, Request, Segment, Step, Time};

/// A route for a class and a request, among the other holders.
#[derive(Drop)]
pub(crate) struct RouteAmong<'a> {
    pub(crate) airport: &'a Airport,
    pub(crate) others: &'a Ledger,
    pub(crate) class: Class,
    pub(crate) request: Request,
    pub(crate) steps: &'a [Step],
}

impl<'a> RouteAmong<'a> {
    /// Adds by how much the route is later, or sooner, than was asked, and where it waits.
    #[tactic(auto, unfolding(crate::specs::Waits::route_reasons))]
    pub(crate) fn push_waits(&self, reasons: &mut List<Reason>) -> Result<(), Memory>
        requires fits { Fits self.now.airport.now self.now.others.now }
        requires unlifted { self.now.others.now.lifted ≡ None }
        ensures { OnOk result (reasons.new ≡ reasons.old ++ route_reasons self.now.airport.now self.now.class self.now.others.now.state self.now.request self.now.steps.now) }
    {
        push_some(reasons, self.delay_reason())?;
        self.push_each_wait(reasons)
    }

    // Adds the waits of all steps.
    fn push_each_wait(&self, reasons: &mut List<Reason>) -> Result<(), Memory>
        requires fits { Fits self.now.airport.now self.now.others.now }
        requires unlifted { self.now.others.now.lifted ≡ None }
        ensures { OnOk result (reasons.new ≡ reasons.old ++ wait_reasons self.now.airport.now self.now.class self.now.others.now.state self.now.request self.now.steps.now (length self.now.steps.now)) }
    {
        for place in 0..self.steps.len() {
            push_some(reasons, self.wait_reason(place))?;
        }
        Ok(())
    }

    // ---- before the first step, and after the last

    fn delay_reason(&self) -> Option<Reason>
        requires fits { Fits self.now.airport.now self.now.others.now }
        requires unlifted { self.now.others.now.lifted ≡ None }
        ensures { result ≡ delay_reason self.now.airport.now self.now.class self.now.others.now.state self.now.request self.now.steps.now }
    {
        match self.request {
            Request::Filed => None,
            Request::Arrival { time, .. } => self.hold_reason(time),
            Request::Departure { time, .. } => self.queue_reason(time),
        }
    }

    fn hold_reason(&self, time: Time) -> Option<Reason>
        requires fits { Fits self.now.airport.now self.now.others.now }
        requires unlifted { self.now.others.now.lifted ≡ None }
        ensures { result ≡ hold_reason self.now.airport.now self.now.others.now.state time self.now.steps.now }
    {
        let first = self.steps.first()?;
        if first.enter <= time {
            return None;
        }
        let holder = self.in_the_way(first.arc.segment(), first.enter - 1);
        Some(Reason::Hold {
            seconds: first.enter - time,
            holder,
        })
    }

    fn queue_reason(&self, time: Time) -> Option<Reason>
        requires fits { Fits self.now.airport.now self.now.others.now }
        requires unlifted { self.now.others.now.lifted ≡ None }
        ensures { result ≡ queue_reason self.now.airport.now self.now.class self.now.others.now.state time self.now.steps.now }
    {
        let last = self.steps.last()?;
        if time <= last.leave {
            return None;
        }
        let until = self.held_until(last);
        let holder = self.in_the_way(last.arc.segment(), until);
        Some(Reason::Queue {
            seconds: time - last.leave,
            holder,
        })
    }

    // Up to when a step holds its segment.
    fn held_until(&self, step: &Step) -> Time
        ensures { result ≡ held_until self.now.airport.now self.now.class step.now }
    {
        let clearance = self.airport.clearance(self.class);
        step.held(self.airport.horizon(), clearance).until
    }

    // ---- on the way

    // The wait on the step at a place, where it waits.
    fn wait_reason(&self, place: usize) -> Option<Reason>
        requires fits { Fits self.now.airport.now self.now.others.now }
        requires unlifted { self.now.others.now.lifted ≡ None }
        requires place { place < length self.now.steps.now }
        ensures { result ≡ wait_reason self.now.airport.now self.now.class self.now.others.now.state self.now.request self.now.steps.now place }
    {
        let step = &self.steps[place];
        let seconds = self.seconds_waited(step);
        if seconds == 0 {
            return None;
        }
        let holder = self.holder_waited_for(place, step);
        Some(Reason::Wait {
            step: place as u64 + 1,
            arc: step.arc,
            seconds,
            holder,
        })
    }

    // For how many seconds a step takes more than the class's least.
    fn seconds_waited(&self, step: &Step) -> Time
        ensures { result ≡ seconds_waited self.now.airport.now self.now.class step.now }
    {
        let least = self
            .airport
            .classes()
            .seconds(self.class, step.arc.segment())
            .unwrap_or(0);
        step.leave.saturating_sub(step.enter).saturating_sub(least)
    }

    fn holder_waited_for(&self, place: usize, step: &Step) -> Option<Name>
        requires fits { Fits self.now.airport.now self.now.others.now }
        requires unlifted { self.now.others.now.lifted ≡ None }
        requires place { place < length self.now.steps.now }
        ensures { result ≡ holder_waited_for self.now.airport.now self.now.class self.now.others.now.state self.now.request self.now.steps.now place step.now }
    {
        match self.request {
            Request::Departure { .. } => self.holder_behind(place),
            _ => self.holder_ahead(place, step),
        }
    }

    fn holder_ahead(&self, place: usize, step: &Step) -> Option<Name>
        requires fits { Fits self.now.airport.now self.now.others.now }
        requires unlifted { self.now.others.now.lifted ≡ None }
        requires place { place < length self.now.steps.now }
        ensures { result ≡ holder_ahead self.now.airport.now self.now.others.now.state self.now.steps.now place step.now }
    {
        if place + 1 == self.steps.len() {
            return None;
        }
        let next = &self.steps[place + 1];
        self.in_the_way(next.arc.segment(), step.leave.saturating_sub(1))
    }

    fn holder_behind(&self, place: usize) -> Option<Name>
        requires fits { Fits self.now.airport.now self.now.others.now }
        requires unlifted { self.now.others.now.lifted ≡ None }
        requires place { place < length self.now.steps.now }
        ensures { result ≡ holder_behind self.now.airport.now self.now.class self.now.others.now.state self.now.steps.now place }
    {
        if place == 0 {
            return None;
        }
        let before = &self.steps[place - 1];
        let until = self.held_until(before);
        self.in_the_way(before.arc.segment(), until)
    }

    // Who of the others is in the way at a second of a segment.
    fn in_the_way(&self, segment: Segment, second: Time) -> Option<Name>
        requires fits { Fits self.now.airport.now self.now.others.now }
        requires unlifted { self.now.others.now.lifted ≡ None }
        ensures { result ≡ in_the_way self.now.airport.now self.now.others.now.state segment second }
    {
        in_the_way(self.airport, self.others, segment, second)
    }
}

// Adds a line, where there is one.
fn push_some(reasons: &mut List<Reason>, reason: Option<Reason>) -> Result<(), Memory>
    ensures { OnOk result (reasons.new ≡ reasons.old ++ listed reason) }
{
    if let Some(reason) = reason {
        reasons.push(reason)?;
    }
    Ok(())
}
