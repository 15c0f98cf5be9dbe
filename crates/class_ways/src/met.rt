//! The arcs that a class meets on a course from the nodes of a kind.
ghost use Rattle.std.specs.Prelude.{◌≡◌, ◌+◌, ◌<◌, ◌↔◌, Contains, if◌then◌else◌, All, IfOk, OnOk, length, IsTrue};
ghost use Rattle.taxi_base.specs.Airport.{layout_of, arc_exists};
ghost use Rattle.taxi_base.specs.declared.numbers.Arc.{Arc as ArcNumber};
ghost use Rattle.class_ways.specs.Ways.{is_open};
ghost use Rattle.class_ways.specs.Courses.{is_start, IsOpenTurn, IsMet, IsGoneOn};
ghost use Rattle.class_ways.specs.Found.{has_arc, with_arc, Gained};

use crate::course::{Course, is_of, near, turns};
use crate::found::Found;
use airport_file::Airport;
use std::alloc::Global;
use taxi_base::{Arc, Class, Kind, Memory};

/// The arcs on which a class comes, on a course that begins at a node of a kind. Each turn is looked at once.
pub(crate) fn arcs_met(
    alloc: Global,
    airport: &Airport,
    class: Class,
    kind: Kind,
    course: Course,
) -> Result<Found, Memory>
    ensures { IfOk result (λ found. (arc : ArcNumber) → IsTrue (has_arc found.arcs arc) ↔ IsMet course airport.now class (is_start course kind airport.now class) arc) }
{
    let mut found = Found::new(alloc, 2 * airport.graph().segments())?;
    add_starts(&mut found, airport, class, kind, course)?;
    spread(&mut found, airport, class, course)?;
    Ok(found)
}

fn add_starts(
    found: &mut Found,
    airport: &Airport,
    class: Class,
    kind: Kind,
    course: Course,
) -> Result<(), Memory>
    requires { found.old.limit ≡ length airport.now.segments + length airport.now.segments }
    ensures { OnOk result (Gained (λ arc. IsTrue (is_start course kind airport.now class arc)) found.old found.new) }
{
    for number in 0..2 * airport.graph().segments() as u32 {
        let wanted = is_start(airport, class, kind, course, Arc(number));
        add_if(found, Arc(number), wanted)?;
    }
    Ok(())
}

// Whether a course may begin with an arc.
fn is_start(airport: &Airport, class: Class, kind: Kind, course: Course, arc: Arc) -> bool
    ensures { result ≡ is_start course kind airport.now class arc }
{
    if !airport.graph().exists(arc) {
        return false;
    }
    is_open(airport, class, arc) && is_of(airport, kind, near(airport.graph(), course, arc))
}

fn is_open(airport: &Airport, class: Class, arc: Arc) -> bool
    requires { IsTrue (arc_exists (layout_of airport.now) arc) }
    ensures { result ≡ is_open airport.now class arc }
{
    airport.classes().seconds(class, arc.segment()).is_some()
}

// Goes on from each arc that is found, those among them that it finds itself.
fn spread(found: &mut Found, airport: &Airport, class: Class, course: Course) -> Result<(), Memory>
    requires limit { found.old.limit ≡ length airport.now.segments + length airport.now.segments }
    requires exist { All (λ arc. IsTrue (arc_exists (layout_of airport.now) arc)) found.old.arcs }
    ensures { IfOk result (λ _. (arc : ArcNumber) → IsTrue (has_arc found.new.arcs arc) ↔ IsMet course airport.now class (has_arc found.old.arcs) arc) }
{
    for at in 0..found.limit() {
        go_on(found, airport, class, course, at)?;
    }
    // There are no more arcs than were gone on from.
    let _limit = found.limit();
    Ok(())
}

// Goes on from the arc that was found at a place, where there is one.
fn go_on(
    found: &mut Found,
    airport: &Airport,
    class: Class,
    course: Course,
    at: usize,
) -> Result<(), Memory>
    requires limit { found.old.limit ≡ length airport.now.segments + length airport.now.segments }
    requires exist { All (λ arc. IsTrue (arc_exists (layout_of airport.now) arc)) found.old.arcs }
    ensures { OnOk result (IsGoneOn course airport.now class at found.old found.new) }
{
    match found.get(at) {
        Some(arc) => add_turns(found, airport, class, course, arc),
        None => Ok(()),
    }
}

fn add_turns(
    found: &mut Found,
    airport: &Airport,
    class: Class,
    course: Course,
    from: Arc,
) -> Result<(), Memory>
    requires limit { found.old.limit ≡ length airport.now.segments + length airport.now.segments }
    requires from { IsTrue (arc_exists (layout_of airport.now) from) }
    ensures { OnOk result (Gained (IsOpenTurn course airport.now class from) found.old found.new) }
{
    let arcs = turns(airport.graph(), course, from);
    add_open(found, airport, class, arcs)
}

// Finds those of some arcs that are open to the class.
fn add_open(found: &mut Found, airport: &Airport, class: Class, arcs: &[Arc]) -> Result<(), Memory>
    requires limit { found.old.limit ≡ length airport.now.segments + length airport.now.segments }
    requires exist { All (λ arc. IsTrue (arc_exists (layout_of airport.now) arc)) arcs.now }
    ensures { OnOk result (Gained (λ arc. Contains arcs.now arc × IsTrue (is_open airport.now class arc)) found.old found.new) }
{
    for arc in arcs {
        let wanted = is_open(airport, class, *arc);
        add_if(found, *arc, wanted)?;
    }
    Ok(())
}

fn add_if(found: &mut Found, arc: Arc, wanted: bool) -> Result<(), Memory>
    requires { IsTrue wanted → arc.0 < found.old.limit }
    ensures { OnOk result (found.new ≡ (if wanted then with_arc found.old arc else found.old)) }
{
    if wanted {
        return found.add(arc);
    }
    Ok(())
}
