//! The second by which a route is told, and which of two is better.
ghost use Rattle.std.specs.Prelude.{◌≡◌, ◌<◌, length, None, IfOk, IfSome};
ghost use Rattle.commitments.specs.Book.{Fits};
ghost use Rattle.reply_reasons.specs.Asking.{IsTimely};
ghost use Rattle.reply_reasons.specs.Routes.{second_found, is_better, is_gain, IsBestSecond};

use crate::searching::Search;
use commitments::Ledger;
use place_cells::SearchRoom;
use sequence_exchange::second_of;
use taxi_base::{List, Memory, Request, Step, Time};

/// The best second for what is asked among all holders, and the best with none in force.
#[derive(Clone, Copy)]
pub(crate) struct Seconds {
    pub answer: Option<Time>,
    pub alone: Option<Time>,
}

impl<'a> Search<'a> {
    /// The best second for what is asked, among the holders in force; none where there is no walk.
    pub(crate) fn best_second(
        &self,
        room: &mut SearchRoom,
        others: &Ledger,
    ) -> Result<Option<Time>, Memory>
        requires fits { Fits self.now.airport.now others.now }
        requires unlifted { others.now.lifted ≡ None }
        requires timely { IsTimely self.now.airport.now self.now.asking.now.request self.now.asking.now.way }
        ensures { IfOk result (IsBestSecond self.now.airport.now self.now.asking.now others.now.state) }
    {
        let request = self.asking.request;
        let route = self.find(room, others, request)?;
        Ok(second_found(&request, &route))
    }
}

/// The second by which a route is told: an arrival's end, a departure's begin.
pub(crate) fn second_found(request: &Request, route: &Option<List<Step>>) -> Option<Time>
    requires { IfSome route.now (λ steps. 0 < length steps) }
    ensures { result ≡ second_found request.now route.now }
{
    match route {
        Some(steps) => Some(second_of(request, steps.as_slice())),
        None => None,
    }
}

/// Whether a second is better than another: sooner for an arrival, later for a departure. Each is better than none.
pub(crate) fn is_better(request: &Request, second: Time, other: Option<Time>) -> bool
    ensures { result ≡ is_better request.now second other }
{
    let Some(other) = other else {
        return true;
    };
    match request {
        Request::Departure { .. } => other < second,
        _ => second < other,
    }
}

/// Whether there is a second that is better than another.
pub(crate) fn is_gain(request: &Request, second: Option<Time>, other: Option<Time>) -> bool
    ensures { result ≡ is_gain request.now second other }
{
    match second {
        Some(second) => is_better(request, second, other),
        None => false,
    }
}
