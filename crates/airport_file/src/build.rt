//! Building an airport of a plan: its graph, the times of its classes and its conflicts.
ghost use Rattle.std.specs.Prelude.{◌≡◌, ◌+◌, ◌≤◌, [], Some, None, length, replicate, IfOk};
ghost use Rattle.airport_rules.specs.Plan.{layout_of_plan, table_of, airport_of_plan};
ghost use Rattle.airport_rules.specs.Sound.{IsSound};
ghost use Rattle.airport_file.specs.Built.{times_of_plan, conflicts_of_plan};

use crate::Airport;
use aircraft_class::Classes;
use airport_rules::Plan;
use conflict_sets::Conflicts;
use segment_graph::{Graph, GraphBuilder};
use std::alloc::Global;
use taxi_base::{Memory, Time};

pub(crate) fn build(alloc: Global, plan: Plan, horizon: Time) -> Result<Airport, Memory>
    requires given { plan.horizon ≡ Some horizon }
    requires sound { IsSound plan }
    ensures { IfOk result (λ airport. airport ≡ airport_of_plan horizon plan) }
{
    let parts = parts_of(alloc, &plan)?;
    Ok(Airport {
        horizon,
        plan,
        graph: parts.graph,
        classes: parts.classes,
        conflicts: parts.conflicts,
    })
}

/// What an airport has beside its plan.
#[derive(Drop)]
struct Parts {
    graph: Graph,
    classes: Classes,
    conflicts: Conflicts,
}

// The plan is lent, so that each want of memory gives up finished parts alone.
fn parts_of(alloc: Global, plan: &Plan) -> Result<Parts, Memory>
    requires { IsSound plan.now }
    ensures { IfOk result (λ parts. (parts.graph ≡ layout_of_plan plan.now) × (parts.classes ≡ times_of_plan plan.now) × (parts.conflicts ≡ conflicts_of_plan plan.now)) }
{
    let graph = graph_of(alloc, plan)?;
    let (classes, conflicts) = tables_of(alloc, plan)?;
    Ok(Parts {
        graph,
        classes,
        conflicts,
    })
}

// The times of the classes and the conflicts, without the graph.
fn tables_of(alloc: Global, plan: &Plan) -> Result<(Classes, Conflicts), Memory>
    requires { IsSound plan.now }
    ensures { IfOk result (λ tables. (tables.0 ≡ times_of_plan plan.now) × (tables.1 ≡ conflicts_of_plan plan.now)) }
{
    let classes = classes_of(alloc, plan)?;
    let conflicts = Conflicts::build(alloc, plan.segments().len(), plan.conflicts())?;
    Ok((classes, conflicts))
}

fn graph_of(alloc: Global, plan: &Plan) -> Result<Graph, Memory>
    requires { IsSound plan.now }
    ensures { IfOk result (λ graph. graph ≡ layout_of_plan plan.now) }
{
    let mut builder = GraphBuilder::new(alloc);
    lay_nodes(&mut builder, plan.nodes().len())?;
    lay_segments(&mut builder, plan)?;
    lay_turns(alloc, &mut builder, plan)?;
    builder.finish()
}

fn lay_nodes(builder: &mut GraphBuilder, nodes: usize) -> Result<(), Memory>
    requires empty { builder.old ≡ record { nodes = 0; links = []; forbidden = [] } }
    requires few { nodes ≤ 10000 }
    ensures { IfOk result (λ _. builder.new ≡ record { nodes = nodes; links = []; forbidden = [] }) }
{
    for at in 0..nodes {
        let _ = at;
        builder.node()?;
    }
    Ok(())
}

fn lay_segments(builder: &mut GraphBuilder, plan: &Plan) -> Result<(), Memory>
    requires nodes { builder.old ≡ record { nodes = length plan.now.nodes; links = []; forbidden = [] } }
    requires sound { IsSound plan.now }
    ensures { IfOk result (λ _. builder.new ≡ record { nodes = length plan.now.nodes; links = plan.now.links; forbidden = [] }) }
{
    for way in plan.ways() {
        builder.segment(way.from, way.to, way.both)?;
    }
    Ok(())
}

fn lay_turns(alloc: Global, builder: &mut GraphBuilder, plan: &Plan) -> Result<(), Memory>
    requires links { builder.old ≡ record { nodes = length plan.now.nodes; links = plan.now.links; forbidden = [] } }
    requires sound { IsSound plan.now }
    ensures { IfOk result (λ _. builder.new ≡ layout_of_plan plan.now) }
{
    let turns = plan.forbidden(alloc)?;
    for turn in &turns {
        builder.forbid(turn.0, turn.1)?;
    }
    Ok(())
}

fn classes_of(alloc: Global, plan: &Plan) -> Result<Classes, Memory>
    requires { IsSound plan.now }
    ensures { IfOk result (λ classes. classes ≡ times_of_plan plan.now) }
{
    let mut table = Classes::new(alloc, plan.segments().len())?;
    add_classes(&mut table, plan.classes().len())?;
    set_times(&mut table, plan);
    set_clearances(&mut table, plan);
    Ok(table)
}

fn add_classes(table: &mut Classes, classes: usize) -> Result<(), Memory>
    requires empty { (table.old.table ≡ []) × (table.old.clearances ≡ []) }
    requires few { classes ≤ 32 }
    ensures { IfOk result (λ _. table.new ≡ record { segments = table.old.segments; table = replicate classes (replicate table.old.segments None); clearances = replicate classes 0 }) }
{
    for at in 0..classes {
        let _ = at;
        table.class()?;
    }
    Ok(())
}

fn set_times(table: &mut Classes, plan: &Plan)
    requires blank { table.old ≡ record { segments = length plan.now.segments; table = replicate (length plan.now.classes) (replicate (length plan.now.segments) None); clearances = replicate (length plan.now.classes) 0 } }
    requires sound { IsSound plan.now }
    ensures { table.new ≡ record table.old { table = table_of (length plan.now.classes) (length plan.now.segments) plan.now.times } }
{
    for row in plan.times() {
        table.set(row.class, row.segment, row.seconds);
    }
}

fn set_clearances(table: &mut Classes, plan: &Plan)
    requires none { table.old ≡ record { segments = length plan.now.segments; table = table_of (length plan.now.classes) (length plan.now.segments) plan.now.times; clearances = replicate (length plan.now.classes) 0 } }
    requires sound { IsSound plan.now }
    ensures { table.new ≡ times_of_plan plan.now }
{
    for row in plan.clearances() {
        table.set_clearance(row.class, row.seconds);
    }
}
