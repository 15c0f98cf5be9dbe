//! What a row of the plan tells.
ghost use Rattle.std.specs.Prelude.{◌≡◌, ◌+◌, ◌-◌, ◌<◌, ◌≤◌, All, IsTrue, IsSomeAnd, Some, length, slice_get, option_map};
ghost use Rattle.taxi_base.specs.Airport.{arc_exists, layout_of, segment_of, seconds};
ghost use Rattle.plan_table.specs.Rows.{step_row, party_row, tail_word, head_word};

use airport_file::Airport;
use taxi_base::{Arc, Flight, FlightKind, Name, Party, Step, Time};

/// A row of the plan: a step of a flight, or a work party. A work party has no kind of flight, no class and no direction.
#[derive(Drop)]
pub(crate) struct PlanRow {
    pub name: Name,
    pub kind: Option<FlightKind>,
    pub class: Option<Name>,
    /// Where the whole route begins, and where it ends.
    pub from: Name,
    pub to: Name,
    /// Which step it is, from 1.
    pub number: u32,
    pub segment: Name,
    pub forward: Option<bool>,
    pub tail: Name,
    pub head: Name,
    pub enter: Time,
    pub leave: Time,
    /// Up to when the segment is held.
    pub until: Time,
    /// The class's least seconds, and how much longer the step takes.
    pub least: Time,
    pub wait: Time,
    pub slack: Time,
}

/// The row of a flight's step, with its number and its slack.
#[tactic(auto, unfolding(crate::specs::Rows::step_row))]
pub(crate) fn step_row(
    airport: &Airport,
    flight: &Flight,
    number: u32,
    step: &Step,
    slack: Time,
) -> PlanRow
    requires routed { 0 < length flight.now.steps }
    requires arcs { All (λ s. IsTrue (arc_exists (layout_of airport.now) s.arc)) flight.now.steps }
    requires arc { IsTrue (arc_exists (layout_of airport.now) step.now.arc) }
    requires lasts { IsSomeAnd (seconds airport.now flight.now.class (segment_of step.now.arc)) (λ n. step.now.enter + n ≤ step.now.leave) }
    ensures { result ≡ step_row airport.now flight.now number step.now slack }
{
    let steps = flight.steps.as_slice();
    let segment = step.arc.segment();
    let held = step.held(airport.horizon(), airport.clearance(flight.class));
    let least = airport
        .classes()
        .seconds(flight.class, segment)
        .unwrap_or(0);
    PlanRow {
        name: flight.name,
        kind: Some(flight.request.kind()),
        class: Some(airport.class_name(flight.class)),
        from: tail_of(airport, first_arc(steps)),
        to: head_of(airport, last_arc(steps)),
        number,
        segment: airport.segment_name(segment),
        forward: Some(step.arc.is_forward()),
        tail: tail_of(airport, step.arc),
        head: head_of(airport, step.arc),
        enter: step.enter,
        leave: step.leave,
        until: held.until,
        least,
        wait: step.leave - step.enter - least,
        slack,
    }
}

/// The row of a work party, with its slack.
#[tactic(auto, unfolding(crate::specs::Rows::party_row))]
pub(crate) fn party_row(airport: &Airport, party: &Party, slack: Time) -> PlanRow
    requires segment { party.now.segment.0 < length airport.now.segments }
    requires some { party.now.from ≤ party.now.until }
    ensures { result ≡ party_row airport.now party.now slack }
{
    let _horizon = airport.horizon();
    let arc = Arc::of(party.segment, true);
    let tail = tail_of(airport, arc);
    let head = head_of(airport, arc);
    PlanRow {
        name: party.name,
        kind: None,
        class: None,
        from: tail,
        to: head,
        number: 1,
        segment: airport.segment_name(party.segment),
        forward: None,
        tail,
        head,
        enter: party.from,
        leave: party.until,
        until: party.until,
        least: party.until - party.from,
        wait: 0,
        slack,
    }
}

fn first_arc(steps: &[Step]) -> Arc
    requires { 0 < length steps.now }
    ensures { option_map (λ s. s.arc) (slice_get steps.now 0) ≡ Some result }
{
    steps[0].arc
}

fn last_arc(steps: &[Step]) -> Arc
    requires { 0 < length steps.now }
    ensures { option_map (λ s. s.arc) (slice_get steps.now (length steps.now - 1)) ≡ Some result }
{
    steps[steps.len() - 1].arc
}

// The name of the node where an arc begins.
fn tail_of(airport: &Airport, arc: Arc) -> Name
    requires { IsTrue (arc_exists (layout_of airport.now) arc) }
    ensures { result ≡ tail_word airport.now arc }
{
    airport.node_name(airport.graph().tail(arc))
}

// The name of the node where an arc ends.
fn head_of(airport: &Airport, arc: Arc) -> Name
    requires { IsTrue (arc_exists (layout_of airport.now) arc) }
    ensures { result ≡ head_word airport.now arc }
{
    airport.node_name(airport.graph().head(arc))
}
