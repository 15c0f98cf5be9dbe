//! What answers a command.
use crate::entries::Entries;
use taxi_base::{FlightRow, HeldRow, LabelRow, List, Name, Refusal, Segment, Span, Step, Time};

/// What is answered to one command. Arcs, segments and classes are those of the airport that the block is for.
#[derive(Drop)]
pub enum Block {
    /// The command changes nothing, and why.
    Refused(Refusal),
    /// A route given by hand, or a work party, is in force from `start` to `end`.
    Filed {
        flight: Name,
        start: Time,
        end: Time,
    },
    /// The flight or the work party is no longer in force.
    Cancelled {
        flight: Name,
    },
    /// A route was found. `second` is the end of an arrival, and the pushback of a departure.
    Route {
        flight: Name,
        second: Time,
        steps: List<Step>,
        labels: List<LabelRow>,
    },
    /// No walk does what was asked for.
    NoRoute {
        labels: List<LabelRow>,
    },
    /// The free windows of a segment.
    Windows {
        segment: Segment,
        windows: List<Span>,
    },
    /// What is held of a segment and of those in conflict with it.
    Occupancy {
        segment: Segment,
        held: List<HeldRow>,
    },
    /// The flights in force.
    Timetable {
        flights: List<FlightRow>,
    },
    /// The requests of a batch in the order in which they were served, and what all of them cost together.
    Batch {
        total: u32,
        entries: Entries,
    },
    /// The flight that is late and those in its way, in turn.
    Late {
        flight: Name,
        entries: Entries,
    },
}
