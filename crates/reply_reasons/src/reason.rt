//! The lines by which a reply is explained.
use taxi_base::{Arc, Name, Segment, Time};

/// A line of an explanation. Steps count from 1. A holder stands where one is in the way.
#[derive(Clone, Copy)]
pub enum Reason {
    /// The second of the route that is found; none where there is no route.
    Answer {
        second: Option<Time>,
    },
    /// The same with no other holder.
    Alone {
        second: Option<Time>,
    },
    /// A better second, with this holder left out.
    Without {
        holder: Name,
        second: Time,
    },
    /// When an arrival that may begin at any later second begins and ends.
    Later {
        begin: Time,
        end: Time,
    },
    /// When a departure that may end at any sooner second begins and ends.
    Sooner {
        begin: Time,
        end: Time,
    },
    /// By how many seconds an arrival begins after its time, and for whom.
    Hold {
        seconds: Time,
        holder: Option<Name>,
    },
    /// By how many seconds a departure ends before its time, and for whom.
    Queue {
        seconds: Time,
        holder: Option<Name>,
    },
    /// By how many seconds a step takes more than its class's least, and for whom.
    Wait {
        step: u64,
        arc: Arc,
        seconds: Time,
        holder: Option<Name>,
    },
    /// From which second on, and for whom, a step of a filed route, or a work party, is refused.
    Refused {
        step: u32,
        at: Time,
        by: Name,
    },
    /// What is held there meanwhile, and by whom.
    Held {
        from: Time,
        until: Time,
        holder: Name,
        segment: Segment,
    },
    /// There is nothing to explain.
    Nothing,
}
