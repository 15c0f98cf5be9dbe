//! Why a flight in force is not changed, or not said to be late.
ghost use Rattle.std.specs.Prelude.{◌≡◌, ◌<◌, ◌∷◌, [], length};
ghost use Rattle.replies.specs.Refusals.{first_of, not_routed, already_done, not_moving, not_late, past_end};

use airport_file::Airport;
use taxi_base::{Flight, Refusal, Request, Time, begin_of, end_of, under_way};

/// Why nothing of a flight is changed from a time on: its route was given by hand, or it has ended.
pub fn fixed_refused(flight: &Flight, time: Time) -> Option<Refusal>
    requires { 0 < length flight.now.steps }
    ensures { result ≡ first_of (not_routed flight.now ∷ already_done time flight.now ∷ []) }
{
    if matches!(flight.request, Request::Filed) {
        return Some(Refusal::NotRouted);
    }
    let end = end_of(flight.steps.as_slice());
    if end <= time {
        return Some(Refusal::AlreadyDone { end });
    }
    None
}

/// Why a flight in force is not said to stay on its step at a time until a second; none where it may be.
pub fn delay_refused(airport: &Airport, flight: &Flight, time: Time, until: Time) -> Option<Refusal>
    requires { 0 < length flight.now.steps }
    ensures { result ≡ first_of (not_routed flight.now ∷ already_done time flight.now ∷ not_moving time flight.now ∷ not_late time until flight.now ∷ past_end airport.now until ∷ []) }
{
    if let Some(why) = fixed_refused(flight, time) {
        return Some(why);
    }
    let start = begin_of(flight.steps.as_slice());
    if time < start {
        return Some(Refusal::NotMoving { start });
    }
    if let Some(why) = not_late(flight, time, until) {
        return Some(why);
    }
    let horizon = airport.horizon();
    if horizon < until {
        return Some(Refusal::PastEnd { horizon });
    }
    None
}

// The flight leaves its step at a time no earlier than the second until which it is said to stay.
fn not_late(flight: &Flight, time: Time, until: Time) -> Option<Refusal>
    ensures { result ≡ not_late time until flight.now }
{
    let Some((begun, _)) = under_way(flight.steps.as_slice(), time) else {
        return None;
    };
    let leave = begun.leave;
    if until <= leave {
        return Some(Refusal::NotLate { leave });
    }
    None
}
