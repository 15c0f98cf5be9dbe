//! The commands, one for each form of line.
use taxi_base::{List, Memory, Name, Time};
use thiserror::Error;

/// A step of a filed route: the arc, and when the flight leaves it.
#[derive(Clone, Copy, Debug, PartialEq, Eq)]
pub struct FiledStep {
    pub segment: Name,
    pub forward: bool,
    pub leave: Time,
}

/// A flight's wish for a route from one node to another.
#[derive(Clone, Copy, Debug, PartialEq, Eq)]
pub struct Asked {
    pub flight: Name,
    pub class: Name,
    pub from: Name,
    pub to: Name,
    pub time: Time,
    /// The HOLD of an arrival, the QUEUE of a departure.
    pub slack: Time,
}

/// A flight's wish for a route to any of 1 to 16 nodes, as they are written.
#[derive(Drop)]
pub struct AskedAny {
    pub flight: Name,
    pub class: Name,
    pub from: Name,
    pub time: Time,
    /// The HOLD of an arrival, the QUEUE of a departure.
    pub slack: Time,
    pub nodes: List<Name>,
}

/// A route given by hand: 1 to 256 steps, the first of which is entered at `start`.
#[derive(Drop)]
pub struct Filed {
    pub flight: Name,
    pub class: Name,
    pub start: Time,
    pub steps: List<FiledStep>,
}

/// A work party's wish to shut a segment for `[from, until)`.
#[derive(Clone, Copy, Debug, PartialEq, Eq)]
pub struct Shut {
    pub name: Name,
    pub segment: Name,
    pub from: Time,
    pub until: Time,
}

/// A request of a batch, as it would be asked for on a line of its own.
#[derive(Clone, Copy, Debug, PartialEq, Eq)]
pub enum BatchRequest {
    Arrival(Asked),
    Departure(Asked),
}

/// What a line asks for. Names are as written: no airport is consulted.
#[derive(Drop)]
pub enum Command {
    File(Filed),
    Arrival(Asked),
    Departure(Asked),
    Cancel {
        flight: Name,
    },
    Reroute {
        flight: Name,
        time: Time,
    },
    Divert {
        flight: Name,
        time: Time,
        node: Name,
    },
    Windows {
        segment: Name,
    },
    Occupancy {
        segment: Name,
    },
    Timetable,
    Work(Shut),
    /// The party is done.
    WorkDone {
        name: Name,
    },
    /// An arrival that may be led to any of several stands.
    ArrivalAny(AskedAny),
    /// A departure that may be led to any of several runway nodes.
    DepartureAny(AskedAny),
    /// 2 to 6 arrivals and departures, to be served in an order that no exchange of neighbours betters.
    Batch(List<BatchRequest>),
    /// The flight stays on its segment at `time` until a second that is later than planned.
    Late {
        flight: Name,
        time: Time,
        until: Time,
    },
}

/// Why no command was read.
#[derive(Debug, Drop, Error)]
pub enum CommandRefused {
    #[error("the line is not in the grammar")]
    BadLine,
    #[error("out of memory")]
    Memory,
}

impl From<Memory> for CommandRefused {
    ghost use Rattle.std.specs.Prelude.{◌≡◌};
    ghost use Rattle.taxi_text.specs.declared.command.CommandRefused.TheVariants as refused;

    ghost from_gives = { λ _ e. e ≡ refused.Memory };

    fn from(_memory: Memory) -> CommandRefused {
        CommandRefused::Memory
    }
}
