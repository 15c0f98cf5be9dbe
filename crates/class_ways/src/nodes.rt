//! The nodes to which a class comes on a course from the nodes of a kind.
ghost use Rattle.std.specs.Prelude.{◌≡◌, IfOk};
ghost use Rattle.std.specs.List.{list_any};
ghost use Rattle.class_ways.specs.Ways.{AreMet};
ghost use Rattle.class_ways.specs.Courses.{AreMarksOf};
ghost use Rattle.class_ways.specs.Found.{has_arc};

use crate::course::{Course, coming_to};
use crate::found::Found;
use crate::met::arcs_met;
use airport_file::Airport;
use std::alloc::Global;
use taxi_base::{Arc, Class, Kind, Memory, Node};

/// For each node, whether the class can come to it from some node of the kind; on the course back, whether it can come from it to one.
/// The only error is that memory ran out.
pub fn nodes_met(
    alloc: Global,
    airport: &Airport,
    class: Class,
    kind: Kind,
    course: Course,
) -> Result<Vec<bool>, Memory>
    ensures { IfOk result (λ marks. AreMet course kind airport.now class marks.items) }
{
    let found = arcs_met(alloc, airport, class, kind, course)?;
    node_marks(alloc, airport, course, &found)
}

// For each node, whether the course comes to it on an arc that was found.
fn node_marks(
    alloc: Global,
    airport: &Airport,
    course: Course,
    found: &Found,
) -> Result<Vec<bool>, Memory>
    ensures { IfOk result (λ marks. AreMarksOf course airport.now found.now.arcs marks.items) }
{
    let mut marks = Vec::new(alloc);
    for number in 0..airport.graph().nodes() as u32 {
        let arcs = coming_to(airport.graph(), course, Node(number));
        marks.push(has_any(found, arcs))?;
    }
    Ok(marks)
}

fn has_any(found: &Found, arcs: &[Arc]) -> bool
    ensures { result ≡ list_any (has_arc found.now.arcs) arcs.now }
{
    arcs.iter().any(|arc| found.has(*arc))
}
