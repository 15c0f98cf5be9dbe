//! The search for what is asked, among the holders in force.
ghost use Rattle.std.specs.Prelude.{◌≡◌, ◌<◌, ◌≤◌, length, None, All, IfOk, IfSome};
ghost use Rattle.taxi_base.specs.Faults.{conditions_in};
ghost use Rattle.commitments.specs.Book.{Fits};
ghost use Rattle.reply_reasons.specs.declared.asking.Way.TheVariants as way;
ghost use Rattle.sequence_exchange.specs.Serving.{IsShortRequest};
ghost use Rattle.reply_reasons.specs.Asking.{IsEarly, IsTimely};
ghost use Rattle.reply_reasons.specs.Routes.{AnswersToAny, AnswersOn, IsPickedBy, route_found, route_chosen};

use crate::asking::{Asking, Way};
use airport_file::Airport;
use backward_search::{Departure, depart};
use commitments::Ledger;
use forward_search::{Onward, Start, arrive_onward};
use place_cells::SearchRoom;
use replies::Wish;
use sequence_exchange::find_route;
use stand_choice::{choose_arrival, choose_departure};
use std::alloc::Global;
use taxi_base::{Chosen, Found, List, Memory, Node, Request, Step, Time};

/// The search for what is asked for a flight at an airport.
#[derive(Drop)]
pub(crate) struct Search<'a> {
    pub(crate) alloc: Global,
    pub(crate) airport: &'a Airport,
    pub(crate) asking: &'a Asking,
}

// A flight in force with these steps, from a time on.
#[derive(Drop)]
struct UnderWay<'a> {
    steps: &'a [Step],
    time: Time,
}

impl<'a> Search<'a> {
    /// The route that is picked for a request, by the way and for the class of what is asked, among the holders in force; none where there is
    /// no walk. What an earlier search left in the room does not matter.
    pub(crate) fn find(
        &self,
        room: &mut SearchRoom,
        others: &Ledger,
        request: Request,
    ) -> Result<Option<List<Step>>, Memory>
        requires fits { Fits self.now.airport.now others.now }
        requires unlifted { others.now.lifted ≡ None }
        requires timely { IsTimely self.now.airport.now request self.now.asking.now.way }
        ensures picked { IfOk result (IsPickedBy (conditions_in self.now.airport.now self.now.asking.now.class others.now.state) request self.now.asking.now.way) }
        ensures some { IfOk result (λ route. IfSome route (λ steps. 0 < length steps)) }
    {
        match &self.asking.way {
            Way::New => {
                let wish = Wish {
                    name: self.asking.name,
                    class: self.asking.class,
                    request,
                };
                let found = find_route(self.alloc, room, self.airport, others, &wish)?;
                Ok(route_found(found))
            }
            Way::ToAny { nodes } => {
                let chosen = self.choose(room, others, request, nodes.as_slice())?;
                Ok(route_chosen(chosen))
            }
            Way::On { steps, time } => {
                let flight = UnderWay {
                    steps: steps.as_slice(),
                    time: *time,
                };
                let found = self.find_on(room, others, request, &flight)?;
                Ok(route_found(found))
            }
        }
    }

    // Searches for a request of a new flight to the best of some nodes.
    fn choose(
        &self,
        room: &mut SearchRoom,
        others: &Ledger,
        request: Request,
        nodes: &[Node],
    ) -> Result<Chosen, Memory>
        requires fits { Fits self.now.airport.now others.now }
        requires unlifted { others.now.lifted ≡ None }
        requires asked { IsShortRequest request }
        requires nodes { All (λ n. n.0 < length self.now.airport.now.nodes) nodes.now }
        ensures { IfOk result (AnswersToAny (conditions_in self.now.airport.now self.now.asking.now.class others.now.state) request nodes.now) }
    {
        let (store, class) = (others.store(), self.asking.class);
        match request {
            Request::Filed => unreachable!(),
            Request::Arrival {
                from,
                time,
                hold,
                ..
            } => {
                let start = Start::Node {
                    from,
                    earliest: time,
                    latest: time + hold,
                };
                choose_arrival(self.alloc, room, self.airport, store, start, class, nodes)
            }
            Request::Departure {
                from,
                time,
                queue,
                ..
            } => {
                let departure = Departure {
                    class,
                    from,
                    earliest_out: time.saturating_sub(queue),
                    latest_out: time,
                };
                choose_departure(self.alloc, room, self.airport, store, departure, nodes)
            }
        }
    }

    // Searches for a request of a flight that is under way.
    fn find_on(
        &self,
        room: &mut SearchRoom,
        others: &Ledger,
        request: Request,
        flight: &UnderWay,
    ) -> Result<Found, Memory>
        requires fits { Fits self.now.airport.now others.now }
        requires unlifted { others.now.lifted ≡ None }
        requires early { IsEarly request }
        ensures { IfOk result (AnswersOn (conditions_in self.now.airport.now self.now.asking.now.class others.now.state) request flight.now.steps.now flight.now.time) }
    {
        let (store, class) = (others.store(), self.asking.class);
        match request {
            Request::Filed => unreachable!(),
            Request::Arrival {
                from,
                to,
                time: asked,
                hold,
            } => {
                let onward = Onward {
                    steps: flight.steps,
                    time: flight.time,
                    from,
                    asked,
                    hold,
                };
                arrive_onward(self.alloc, room, self.airport, store, onward, class, to)
            }
            Request::Departure {
                from,
                to,
                time: asked,
                queue,
            } => {
                let departure = Departure {
                    class,
                    from,
                    earliest_out: asked.saturating_sub(queue),
                    latest_out: asked,
                };
                depart(self.alloc, room, self.airport, store, departure, to)
            }
        }
    }
}

fn route_found(found: Found) -> Option<List<Step>>
    ensures { result ≡ route_found found }
{
    match found {
        Found::Route { steps, .. } => Some(steps),
        Found::NoRoute { .. } => None,
    }
}

fn route_chosen(chosen: Chosen) -> Option<List<Step>>
    ensures { result ≡ route_chosen chosen }
{
    match chosen {
        Chosen::Route { steps, .. } => Some(steps),
        Chosen::NoRoute { .. } => None,
    }
}
