//! All that is odd about an airport, in order.
ghost use Rattle.std.specs.Prelude.{◌≡◌, ◌<◌, ◌+◌, ◌&&◌, ◌==◌, not, ◌++◌, ◌∷◌, [], flat_map, if◌then◌else◌, slice_index_or, true, IfOk, OnOk, length};
ghost use Rattle.taxi_base.specs.Airport.{IsWellFormed};
ghost use Rattle.airport_lint.specs.Advice.{below, class_advice, segment_advice, node_advice, arc_advice, turn_advice, set_advice, all_advice, AreTold, Tells};
ghost use Rattle.airport_lint.specs.Sets.{needed_marks};
ghost use Rattle.airport_lint.specs.Tables.{AreWays};

use crate::advice::Advice;
use crate::judge::{has_no_arrival, has_no_departure, is_dead_end, is_unused};
use crate::seconds::{has_seconds, is_shared};
use crate::sets::{first_like, needed_sets};
use crate::ways::{Ways, has_node, ways_of};
use airport_file::Airport;
use std::alloc::Global;
use taxi_base::{Arc, Class, Kind, Memory, Node, Segment};

/// What is odd about an airport, in order. The only error is that memory ran out.
pub(crate) fn advice_of(alloc: Global, airport: &Airport) -> Result<Vec<Advice>, Memory>
    ensures { IfOk result (λ told. AreTold airport.now (all_advice airport.now) told.items) }
{
    // The airport keeps its rules, so its classes are few.
    let _horizon = airport.horizon();
    let ways = ways_of(alloc, airport)?;
    let mut told = Vec::new(alloc);
    tell_classes(&mut told, airport, &ways)?;
    tell_segments(&mut told, airport)?;
    tell_nodes(&mut told, airport, &ways)?;
    tell_arcs(&mut told, airport)?;
    tell_turns(&mut told, airport, airport.graph().forbidden())?;
    tell_sets(alloc, &mut told, airport)?;
    Ok(told)
}

fn tell_classes(told: &mut Vec<Advice>, airport: &Airport, ways: &Ways) -> Result<(), Memory>
    requires rules { IsWellFormed airport.now }
    requires ways { AreWays airport.now ways.now }
    ensures { OnOk result (Tells airport.now (below (length airport.now.classes) class_advice) told.old.items told.new.items) }
{
    for number in 0..airport.classes().count() as u32 {
        tell_class(told, airport, ways, Class(number))?;
    }
    Ok(())
}

fn tell_class(
    told: &mut Vec<Advice>,
    airport: &Airport,
    ways: &Ways,
    class: Class,
) -> Result<(), Memory>
    requires class { class.0 < length airport.now.classes }
    requires ways { AreWays airport.now ways.now }
    ensures { OnOk result (Tells airport.now (class_advice class.0) told.old.items told.new.items) }
{
    let seconds = has_seconds(airport, class);
    let to_stands = has_node(
        airport,
        ways.from_runways[class.0 as usize].as_slice(),
        Kind::Stand,
    );
    let to_runways = has_node(
        airport,
        ways.from_stands[class.0 as usize].as_slice(),
        Kind::Runway,
    );
    tell_if(told, Advice::ClassNoSeconds(class), !seconds)?;
    let no_arrival = has_no_way(seconds, to_stands);
    let no_departure = has_no_way(seconds, to_runways);
    tell_if(told, Advice::ClassNoArrival(class), no_arrival)?;
    tell_if(told, Advice::ClassNoDeparture(class), no_departure)?;
    Ok(())
}

// Tells something, where it is so.
fn tell_if(told: &mut Vec<Advice>, advice: Advice, is_so: bool) -> Result<(), Memory>
    ensures { OnOk result (told.new.items ≡ told.old.items ++ (if is_so then advice ∷ [] else [])) }
{
    if is_so {
        told.push(advice)?;
    }
    Ok(())
}

fn tell_segments(told: &mut Vec<Advice>, airport: &Airport) -> Result<(), Memory>
    requires rules { IsWellFormed airport.now }
    ensures { OnOk result (Tells airport.now (below (length airport.now.segments) segment_advice) told.old.items told.new.items) }
{
    for number in 0..airport.graph().segments() as u32 {
        let segment = Segment(number);
        let shared = is_shared(airport, segment, segment);
        tell_if(told, Advice::SegmentNoSeconds(segment), !shared)?;
    }
    Ok(())
}

fn tell_nodes(told: &mut Vec<Advice>, airport: &Airport, ways: &Ways) -> Result<(), Memory>
    requires ways { AreWays airport.now ways.now }
    ensures { OnOk result (Tells airport.now (below (length airport.now.nodes) node_advice) told.old.items told.new.items) }
{
    for number in 0..airport.graph().nodes() as u32 {
        tell_node(told, airport, ways, Node(number))?;
    }
    Ok(())
}

fn tell_node(
    told: &mut Vec<Advice>,
    airport: &Airport,
    ways: &Ways,
    node: Node,
) -> Result<(), Memory>
    requires node { node.0 < length airport.now.nodes }
    requires ways { AreWays airport.now ways.now }
    ensures { OnOk result (Tells airport.now (node_advice node.0) told.old.items told.new.items) }
{
    let arrival = has_no_arrival(airport, ways, node);
    let departure = has_no_departure(airport, ways, node);
    let unused = is_unused(airport, ways, node);
    tell_if(told, Advice::NodeNoArrival(node), arrival)?;
    tell_if(told, Advice::NodeNoDeparture(node), departure)?;
    tell_if(told, Advice::NodeUnused(node), unused)?;
    Ok(())
}

fn tell_arcs(told: &mut Vec<Advice>, airport: &Airport) -> Result<(), Memory>
    requires rules { IsWellFormed airport.now }
    ensures { OnOk result (Tells airport.now (below (length airport.now.segments + length airport.now.segments) arc_advice) told.old.items told.new.items) }
{
    for number in 0..2 * airport.graph().segments() as u32 {
        let dead_end = is_dead_end(airport, Arc(number));
        tell_if(told, Advice::DeadEnd(Arc(number)), dead_end)?;
    }
    Ok(())
}

fn tell_turns(told: &mut Vec<Advice>, airport: &Airport, turns: &[(Arc, Arc)]) -> Result<(), Memory>
    requires rules { IsWellFormed airport.now }
    ensures { OnOk result (Tells airport.now (flat_map turn_advice turns.now) told.old.items told.new.items) }
{
    for turn in turns {
        let shared = is_shared(airport, turn.0.segment(), turn.1.segment());
        tell_if(told, Advice::IdleTurn(turn.0, turn.1), !shared)?;
    }
    Ok(())
}

fn tell_sets(alloc: Global, told: &mut Vec<Advice>, airport: &Airport) -> Result<(), Memory>
    requires rules { IsWellFormed airport.now }
    ensures { OnOk result (Tells airport.now (below (length airport.now.conflicts) (set_advice airport.now.conflicts)) told.old.items told.new.items) }
{
    let sets = airport.conflicts().sets();
    let needed = needed_sets(alloc, sets)?;
    for at in 0..sets.len() as u32 {
        tell_set(told, airport, at, needed[at as usize])?;
    }
    Ok(())
}

fn tell_set(told: &mut Vec<Advice>, airport: &Airport, at: u32, needed: bool) -> Result<(), Memory>
    requires at { at < length airport.now.conflicts }
    requires needed { needed ≡ slice_index_or (needed_marks [] airport.now.conflicts) at true }
    ensures { OnOk result (Tells airport.now (set_advice airport.now.conflicts at) told.old.items told.new.items) }
{
    let first = first_like(airport.conflicts().sets(), at);
    tell_if(told, Advice::SameSet { set: at, first }, first < at)?;
    let needless = is_needless(first, at, needed);
    tell_if(told, Advice::NeedlessSet(at), needless)?;
    Ok(())
}

// Whether no set before has the same members, and it isn't needed.
fn is_needless(first: u32, at: u32, needed: bool) -> bool
    ensures { result ≡ (first == at && not needed) }
{
    first == at && !needed
}

// Whether a class has seconds, but doesn't get there.
fn has_no_way(seconds: bool, gets_there: bool) -> bool
    ensures { result ≡ (seconds && not gets_there) }
{
    seconds && !gets_there
}
