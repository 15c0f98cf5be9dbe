//! The tables of a graph: the arcs at each node, and the turns from and to each arc.
ghost use Rattle.std.specs.Prelude.{◌≡◌, ◌+◌, ◌<◌, ◌≤◌, [], All, IfOk, length, filter, slice_index_or};
ghost use Rattle.segment_graph.specs.Groups.{groups_of, tail_in, head_in, end_in, AreGrouped, AreBarred, AreEndRows, AreTurnsFrom, AreTurnsTo, has_arc, may_turn};
ghost use Rattle.segment_graph.specs.Graphs.{AreArcRows};

use crate::links::{Link, Side, end_in, head_in, tail_in};
use packed_rows::PackedRows;
use std::alloc::Global;
use taxi_base::{Arc, Memory, Node};

/// Rows of the arcs that have each node at this end.
pub fn rows_by_end(
    alloc: Global,
    nodes: usize,
    links: &[Link],
    side: Side,
) -> Result<PackedRows<Arc>, Memory>
    requires few { length links.now ≤ 10000 }
    requires ends { All (λ l. (l.from.0 < nodes) × (l.to.0 < nodes)) links.now }
    ensures { IfOk result (AreEndRows side links.now nodes) }
{
    let mut groups = empty_groups(alloc, nodes)?;
    for number in 0..2 * links.len() as u32 {
        let arc = Arc(number);
        match end_in(links, side, arc) {
            Some(node) => groups[node.0 as usize].push(arc)?,
            None => {}
        }
    }
    packed(alloc, &groups)
}

/// For each arc a group of those to which a turn from it is forbidden.
pub fn barred_turns(
    alloc: Global,
    arcs: usize,
    forbidden: &[(Arc, Arc)],
) -> Result<Vec<Vec<Arc>>, Memory>
    requires { All (λ p. p.0.0 < arcs) forbidden.now }
    ensures { IfOk result (λ groups. AreBarred forbidden.now (groups_of groups.items)) }
{
    let mut groups = empty_groups(alloc, arcs)?;
    for pair in forbidden {
        groups[pair.0.0 as usize].push(pair.1)?;
    }
    Ok(groups)
}

fn empty_groups(alloc: Global, count: usize) -> Result<Vec<Vec<Arc>>, Memory>
    ensures count { IfOk result (λ groups. length groups.items ≡ count) }
    ensures empty { IfOk result (λ groups. All (λ group. group.items ≡ []) groups.items) }
{
    let mut groups = Vec::new(alloc);
    for _ in 0..count {
        groups.push(Vec::new(alloc))?;
    }
    Ok(groups)
}

fn packed(alloc: Global, groups: &[Vec<Arc>]) -> Result<PackedRows<Arc>, Memory>
    ensures { IfOk result (λ rows. rows ≡ groups_of groups.now) }
{
    let mut rows = PackedRows::new(alloc);
    for group in groups {
        rows.push_row(group)?;
    }
    Ok(rows)
}

/// A row for each arc of those to which a turn from it is permitted.
pub fn next_rows(
    alloc: Global,
    links: &[Link],
    barred: &[Vec<Arc>],
    leaving: &PackedRows<Arc>,
) -> Result<PackedRows<Arc>, Memory>
    requires few { length links.now ≤ 10000 }
    requires ends { All (λ l. (l.from.0 < length leaving.now) × (l.to.0 < length leaving.now)) links.now }
    requires leaving { AreEndRows Side.Tail links.now (length leaving.now) leaving.now }
    ensures { IfOk result (AreArcRows (length links.now + length links.now) (AreTurnsFrom links.now (groups_of barred.now))) }
{
    let mut rows = PackedRows::new(alloc);
    for number in 0..2 * links.len() as u32 {
        let row = turns_from(alloc, links, barred, leaving, Arc(number))?;
        rows.push_row(&row)?;
    }
    Ok(rows)
}

fn turns_from(
    alloc: Global,
    links: &[Link],
    barred: &[Vec<Arc>],
    leaving: &PackedRows<Arc>,
    x: Arc,
) -> Result<Vec<Arc>, Memory>
    requires ends { All (λ l. (l.from.0 < length leaving.now) × (l.to.0 < length leaving.now)) links.now }
    requires leaving { AreEndRows Side.Tail links.now (length leaving.now) leaving.now }
    ensures { IfOk result (λ row. AreTurnsFrom links.now (groups_of barred.now) x row.items) }
{
    match head_in(links, x) {
        Some(node) => permitted_from(alloc, barred, x, leaving.row(node.0 as usize)),
        None => Ok(Vec::new(alloc)),
    }
}

fn permitted_from(
    alloc: Global,
    barred: &[Vec<Arc>],
    x: Arc,
    leaving: &[Arc],
) -> Result<Vec<Arc>, Memory>
    ensures { IfOk result (λ turns. turns.items ≡ filter (may_turn (groups_of barred.now) x) leaving.now) }
{
    let mut turns = Vec::new(alloc);
    for y in leaving {
        if may_turn(barred, x, *y) {
            turns.push(*y)?;
        }
    }
    Ok(turns)
}

/// A row for each arc of those from which a turn to it is permitted.
pub fn previous_rows(
    alloc: Global,
    links: &[Link],
    barred: &[Vec<Arc>],
    entering: &PackedRows<Arc>,
) -> Result<PackedRows<Arc>, Memory>
    requires few { length links.now ≤ 10000 }
    requires ends { All (λ l. (l.from.0 < length entering.now) × (l.to.0 < length entering.now)) links.now }
    requires entering { AreEndRows Side.Head links.now (length entering.now) entering.now }
    ensures { IfOk result (AreArcRows (length links.now + length links.now) (AreTurnsTo links.now (groups_of barred.now))) }
{
    let mut rows = PackedRows::new(alloc);
    for number in 0..2 * links.len() as u32 {
        let row = turns_to(alloc, links, barred, entering, Arc(number))?;
        rows.push_row(&row)?;
    }
    Ok(rows)
}

fn turns_to(
    alloc: Global,
    links: &[Link],
    barred: &[Vec<Arc>],
    entering: &PackedRows<Arc>,
    y: Arc,
) -> Result<Vec<Arc>, Memory>
    requires ends { All (λ l. (l.from.0 < length entering.now) × (l.to.0 < length entering.now)) links.now }
    requires entering { AreEndRows Side.Head links.now (length entering.now) entering.now }
    ensures { IfOk result (λ row. AreTurnsTo links.now (groups_of barred.now) y row.items) }
{
    match tail_in(links, y) {
        Some(node) => permitted_to(alloc, barred, y, entering.row(node.0 as usize)),
        None => Ok(Vec::new(alloc)),
    }
}

fn permitted_to(
    alloc: Global,
    barred: &[Vec<Arc>],
    y: Arc,
    entering: &[Arc],
) -> Result<Vec<Arc>, Memory>
    ensures { IfOk result (λ turns. turns.items ≡ filter (λ x. may_turn (groups_of barred.now) x y) entering.now) }
{
    let mut turns = Vec::new(alloc);
    for x in entering {
        if may_turn(barred, *x, y) {
            turns.push(*x)?;
        }
    }
    Ok(turns)
}

// Whether a turn between two arcs that meet is permitted.
fn may_turn(barred: &[Vec<Arc>], x: Arc, y: Arc) -> bool
    ensures { result ≡ may_turn (groups_of barred.now) x y }
{
    x.segment() != y.segment() && !is_barred(barred, x, y)
}

fn is_barred(barred: &[Vec<Arc>], x: Arc, y: Arc) -> bool
    ensures { result ≡ has_arc (slice_index_or (groups_of barred.now) x.0 []) y }
{
    match barred.get(x.0 as usize) {
        Some(group) => has_arc(group, y),
        None => false,
    }
}

fn has_arc(arcs: &[Arc], y: Arc) -> bool
    ensures { result ≡ has_arc arcs.now y }
{
    arcs.iter().any(|a| *a == y)
}
