//! What a flight asks for, and what is answered.
ghost use Rattle.std.specs.Prelude.{◌≡◌};
ghost use Rattle.taxi_base.specs.Again.{retargeted};
ghost use Rattle.taxi_base.specs.Reports.{kind_of_request};

use crate::{Class, FlightKind, LabelRow, List, Memory, Name, Node, Segment, Step, Time};

/// What a flight asked for. An arrival begins at `time` or up to `hold` seconds later; a departure reaches its node at `time` or up to
/// `queue` seconds sooner.
#[derive(Clone, Copy, Debug, PartialEq, Eq)]
pub enum Request {
    Filed,
    Arrival {
        from: Node,
        to: Node,
        time: Time,
        hold: Time,
    },
    Departure {
        from: Node,
        to: Node,
        time: Time,
        queue: Time,
    },
}

impl Request {
    /// How a flight with this request came to its route.
    pub fn kind(&self) -> FlightKind
        ensures { result ≡ kind_of_request self.now }
    {
        match self {
            Request::Filed => FlightKind::Filed,
            Request::Arrival { .. } => FlightKind::Arrival,
            Request::Departure { .. } => FlightKind::Departure,
        }
    }

    /// The same request for another node to reach; a route given by hand asks for none.
    pub fn retargeted(self, to: Node) -> Request
        ensures { result ≡ retargeted self to }
    {
        match self {
            Request::Filed => Request::Filed,
            Request::Arrival {
                from,
                time,
                hold,
                ..
            } => Request::Arrival {
                from,
                to,
                time,
                hold,
            },
            Request::Departure {
                from,
                time,
                queue,
                ..
            } => Request::Departure {
                from,
                to,
                time,
                queue,
            },
        }
    }
}

/// A flight in force, with its route.
#[derive(Drop)]
pub struct Flight {
    pub name: Name,
    pub class: Class,
    pub request: Request,
    pub steps: List<Step>,
}

/// A work party: it shuts a segment for a time.
#[derive(Clone, Copy, Debug, PartialEq, Eq)]
pub struct Party {
    pub name: Name,
    pub segment: Segment,
    pub from: Time,
    pub until: Time,
}

/// What a search answers.
#[derive(Drop)]
pub enum Found {
    Route {
        steps: List<Step>,
        labels: List<LabelRow>,
    },
    NoRoute {
        labels: List<LabelRow>,
    },
}

/// What is answered where one of several nodes may be reached: the node that is chosen, with the route to it.
#[derive(Drop)]
pub enum Chosen {
    Route {
        to: Node,
        steps: List<Step>,
        labels: List<LabelRow>,
    },
    NoRoute {
        labels: List<LabelRow>,
    },
}

/// Why a step of a filed route fails.
#[derive(Clone, Copy, Debug, PartialEq, Eq)]
pub enum StepCause {
    ClassBarred,
    BadTurn,
    TooFast,
    PastHorizon,
    Taken { at: Time, by: Name },
}

/// The first step of a filed route that fails. Steps count from 1.
#[derive(Clone, Copy, Debug, PartialEq, Eq)]
pub struct StepFault {
    pub number: u32,
    pub cause: StepCause,
}

/// Why a command is refused.
#[derive(Clone, Copy, Debug, PartialEq, Eq)]
pub enum Refusal {
    BadLine,
    InForce,
    UnknownClass,
    UnknownNode,
    WrongKind,
    UnknownSegment,
    NotInForce,
    NotRouted,
    NotArrival,
    AlreadyDone { end: Time },
    AlreadyMoving { start: Time },
    Full,
    Step(StepFault),
    /// The flight has not begun: it begins at `start`.
    NotMoving { start: Time },
    /// The flight is not late: it leaves its segment at `leave`.
    NotLate { leave: Time },
    /// It would stay past the horizon.
    PastEnd { horizon: Time },
    Memory,
}

impl From<Memory> for Refusal {
    ghost use Rattle.std.specs.Prelude.{◌≡◌};
    ghost use Rattle.taxi_base.specs.declared.answers.Refusal.TheVariants as refusal;

    ghost from_gives = { λ _ why. why ≡ refusal.Memory };

    fn from(_memory: Memory) -> Refusal {
        Refusal::Memory
    }
}
