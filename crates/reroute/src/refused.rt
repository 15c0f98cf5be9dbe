//! Why a flight is not routed anew.
ghost use Rattle.std.specs.Prelude.{◌≡◌, ◌<◌, length};
ghost use Rattle.reroute.specs.Refused.{flight_refusal};

use taxi_base::{Flight, Memory, Request, Time, begin_of, end_of};
use thiserror::Error;

/// Why a flight is not routed anew.
#[derive(Debug, Drop, Error)]
pub enum RerouteRefused {
    #[error("no flight of the name is in force")]
    NotInForce,
    #[error("the flight's route was given by hand")]
    NotRouted,
    #[error("only an arrival can be led to another node")]
    NotArrival,
    #[error("the flight has ended at {end}")]
    AlreadyDone { end: Time },
    #[error("the flight has begun at {start}")]
    AlreadyMoving { start: Time },
    #[error("out of memory")]
    Memory,
}

impl From<Memory> for RerouteRefused {
    ghost use Rattle.std.specs.Prelude.{◌≡◌};
    ghost use Rattle.reroute.specs.declared.refused.RerouteRefused.TheVariants as refused;

    ghost from_gives = { λ _ e. e ≡ refused.Memory };

    fn from(_memory: Memory) -> RerouteRefused {
        RerouteRefused::Memory
    }
}

/// Why a flight in force may not be routed anew from a time on, or led to another node; none where it may be.
pub(crate) fn flight_refusal(flight: &Flight, time: Time, diverted: bool) -> Option<RerouteRefused>
    requires { 0 < length flight.now.steps }
    ensures { result ≡ flight_refusal time diverted flight.now }
{
    let start = begin_of(flight.steps.as_slice());
    let end = end_of(flight.steps.as_slice());
    match flight.request {
        Request::Filed => Some(RerouteRefused::NotRouted),
        Request::Departure { .. } if diverted => Some(RerouteRefused::NotArrival),
        _ if end <= time => Some(RerouteRefused::AlreadyDone { end }),
        Request::Departure { .. } if start <= time => Some(RerouteRefused::AlreadyMoving { start }),
        _ => None,
    }
}
