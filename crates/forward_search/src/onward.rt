//! The search for how an arrival goes on from given steps.
ghost use Rattle.std.specs.Prelude.{◌≡◌, ◌+◌, ◌≤◌, max, min, length, All, IfOk, IfSome, None};
ghost use Rattle.taxi_base.specs.declared.answers.Request.TheVariants as request;
ghost use Rattle.taxi_base.specs.Walks.{conditions_of_class, IsFeasibleWalk};
ghost use Rattle.taxi_base.specs.Again.{AnswersAgain, IsBestAgain};
ghost use Rattle.place_cells.specs.Laid.{windows_of};
ghost use Rattle.forward_search.specs.declared.starting.Start.TheVariants as start;

use crate::arriving::arrive;
use crate::joining::after_steps;
use crate::starting::Start;
use airport_file::Airport;
use place_cells::SearchRoom;
use std::alloc::Global;
use taxi_base::{Class, Found, Memory, Node, Step, Time, under_way};
use window_store::WindowStore;

/// From where walks go on at a time: from the step that was entered last by then, or, where none was, from a node.
#[derive(Clone, Copy)]
pub struct Onward<'a> {
    /// The steps so far. Those that were entered by the time stay.
    pub steps: &'a [Step],
    /// The step under way is left at this time or later, and a walk that has no step yet begins then or later.
    pub time: Time,
    /// The node that a walk with no step yet leaves, at the time asked for or at most `hold` seconds after it.
    pub from: Node,
    pub asked: Time,
    pub hold: Time,
}

/// The picked one of the walks in the store's windows that go on so and reach the node soonest, with the steps done before it and
/// the labels short of its end; or that there is no walk, with all labels. The step under way keeps its arc and its enter. What an
/// earlier search left in the room does not matter.
///
/// The store is as for `arrive`, and has the windows that the others leave. Where the steps are a walk in them, what is told is the
/// best that may still be taken.
///
/// Say that a flight goes from RW by S1 to A and by S2 to G, each in 30 seconds, that it entered S1 at 0, and that S2 is now held
/// until 200. From 50 on it stays on S1 from 0 to 200, and is on S2 from 200 to 230.
pub fn arrive_onward(
    alloc: Global,
    room: &mut SearchRoom,
    airport: &Airport,
    store: &WindowStore,
    onward: Onward<'_>,
    class: Class,
    to: Node,
) -> Result<Found, Memory>
    requires segments { length store.now.lists ≡ length airport.now.segments }
    requires horizon { All (All (λ w. w.until ≤ airport.now.horizon)) (windows_of store.now) }
    ensures answers { IfOk result (AnswersAgain (conditions_of_class airport.now class (windows_of store.now)) onward.entry.steps.now onward.entry.time to (request.Arrival onward.entry.from to onward.entry.asked onward.entry.hold)) }
    ensures best { IsFeasibleWalk (conditions_of_class airport.now class (windows_of store.now)) onward.entry.steps.now
        → IfOk result (IsBestAgain (conditions_of_class airport.now class (windows_of store.now)) onward.entry.steps.now onward.entry.time to (request.Arrival onward.entry.from to onward.entry.asked onward.entry.hold)) }
{
    // With the horizon comes that no time is past the greatest number.
    let _horizon = airport.horizon();
    let way = under_way(onward.steps, onward.time);
    let start = start_onward(&onward, way);
    let rest = arrive(alloc, room, airport, store, start, class, to)?;
    match way {
        None => Ok(rest),
        Some((_, done)) => after_steps(alloc, done, rest),
    }
}

// How walks begin: with what is left of the step under way, or at the node.
fn start_onward(onward: &Onward<'_>, way: Option<(&Step, &[Step])>) -> Start
    ensures node { way.entry ≡ None → result ≡ start.Node onward.now.from (max onward.now.asked onward.now.time) (min (onward.now.asked + onward.now.hold) 4294967295) }
    ensures step { IfSome way.entry (λ w. result ≡ start.Frozen w.0.now.arc w.0.now.enter onward.now.time) }
{
    match way {
        None => Start::Node {
            from: onward.from,
            earliest: onward.asked.max(onward.time),
            latest: onward.asked.saturating_add(onward.hold),
        },
        Some((begun, _)) => Start::Frozen {
            arc: begun.arc,
            enter: begun.enter,
            exit_from: onward.time,
        },
    }
}
