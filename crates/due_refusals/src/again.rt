//! Why a flight in force is not routed anew.
ghost use Rattle.std.specs.Prelude.{◌≡◌, ◌<◌, ◌∷◌, [], length};
ghost use Rattle.replies.specs.Refusals.{is_filed, is_departure, first_of, not_routed, not_arrival, already_done, already_moving};

use replies::fixed_refused;
use taxi_base::{Flight, Refusal, Request, Time, begin_of, end_of};

/// Why a reroute of a flight in force is refused.
pub fn reroute_refused(flight: &Flight, time: Time) -> Option<Refusal>
    requires { 0 < length flight.now.steps }
    ensures { result ≡ first_of (not_routed flight.now ∷ already_done time flight.now ∷ already_moving time flight.now ∷ []) }
{
    if let Some(why) = fixed_refused(flight, time) {
        return Some(why);
    }
    let start = begin_of(flight.steps.as_slice());
    if is_departure(&flight.request) && start <= time {
        return Some(Refusal::AlreadyMoving { start });
    }
    None
}

/// Why a divert of a flight in force is refused.
pub fn divert_refused(flight: &Flight, time: Time) -> Option<Refusal>
    requires { 0 < length flight.now.steps }
    ensures { result ≡ first_of (not_routed flight.now ∷ not_arrival flight.now ∷ already_done time flight.now ∷ []) }
{
    if is_filed(&flight.request) {
        return Some(Refusal::NotRouted);
    }
    if is_departure(&flight.request) {
        return Some(Refusal::NotArrival);
    }
    let end = end_of(flight.steps.as_slice());
    if end <= time {
        return Some(Refusal::AlreadyDone { end });
    }
    None
}

fn is_filed(request: &Request) -> bool
    ensures { result ≡ is_filed request.now }
{
    matches!(request, Request::Filed)
}

fn is_departure(request: &Request) -> bool
    ensures { result ≡ is_departure request.now }
{
    matches!(request, Request::Departure { .. })
}
