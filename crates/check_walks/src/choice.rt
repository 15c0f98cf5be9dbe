//! Whether what a block tells of a search to any of some nodes is right.
ghost use Rattle.std.specs.Prelude.{◌≡◌, ◌↔◌, ◌<◌, ℕ, None, List as Items, All, IfOk, IsTrue, length};
ghost use Rattle.taxi_base.specs.declared.numbers.Node.{Node as NodeNumber};
ghost use Rattle.taxi_base.specs.Airport.{arc_exists, layout_of};
ghost use Rattle.taxi_base.specs.Walks.{conditions_among, free_among};
ghost use Rattle.taxi_base.specs.Choices.{OneOf};
ghost use Rattle.taxi_base.specs.Again.{retargeted};
ghost use Rattle.replies.specs.declared.block.Block.TheVariants.{Route, NoRoute};
ghost use Rattle.replies.specs.CarriedOut.{second_of};
ghost use Rattle.replies.specs.Sought.{Sought, DoesAsAsked};
ghost use Rattle.replies.specs.Passes.{KeepsSought, IsFirstOf};
ghost use Rattle.check_rows.specs.Known.{AreKnown};
ghost use Rattle.check_walks.specs.Choice.{IsAmong, CanBeSoughtAny};
ghost use Rattle.check_walks.specs.Steps.{GoesAsAsked};
ghost use Rattle.check_walks.specs.Told.{CanBeSought, Seeks, IsVerdictOn};

use crate::course::SoughtWalk;
use crate::feasible::is_feasible_walk;
use crate::tables::rule_of;
use crate::told::ToldRoute;
use crate::walk::{goes_as_asked, second_at};
use airport_file::Airport;
use check_rows::{Begin, End, KnownWindows, RowRule, check_arrival, check_departure};
use held_spans::HoldsOf;
use replies::Rule;
use taxi_base::{Class, LabelRow, Memory, Node, Request, Step, Time};

/// The walk that is sought of a new flight to any of some nodes: what it asks for with the first of them, and all of them.
#[derive(Clone, Copy)]
pub struct SoughtWalkToAny<'a> {
    pub request: Request,
    pub nodes: &'a [Node],
}

/// The first rule that a route to any of some nodes breaks, as `check_route` tells it.
pub fn check_route_to_any<H: HoldsOf>(
    airport: &Airport,
    class: Class,
    holds: &H,
    known: &mut KnownWindows,
    sought: &SoughtWalkToAny<'_>,
    told: &ToldRoute<'_>,
) -> Result<Option<Rule>, Memory>
    requires sought { CanBeSoughtAny airport.now sought.now.request sought.now.nodes.now }
    requires some { 0 < length sought.now.nodes.now }
    requires known { AreKnown (length airport.now.segments) (free_among airport.now (H.held holds.now)) known.old }
    ensures known { AreKnown (length airport.now.segments) (free_among airport.now (H.held holds.now)) known.new }
    ensures first { IfOk result (λ broken. (others : Items NodeNumber) → IsAmong sought.now.request sought.now.nodes.now others → (s : Sought) → Seeks (conditions_among airport.now class (H.held holds.now)) sought.now.request others None s → (name : Items ℕ) → IsFirstOf (λ rule. KeepsSought rule s (Route name told.now.second told.now.steps.now told.now.labels.now)) broken) }
{
    let walk = keeps_walk_to_any(
        airport,
        class,
        holds,
        known,
        sought,
        told.steps,
        told.second,
    )?;
    if !walk {
        return Ok(Some(Rule::Walk));
    }
    let bound = Some(told.second);
    let verdict = check_table_to_any(airport, class, holds, known, sought, told.labels, bound)?;
    Ok(rule_of(verdict))
}

/// The same where a block tells that there is no route to any of the nodes.
pub fn check_no_route_to_any<H: HoldsOf>(
    airport: &Airport,
    class: Class,
    holds: &H,
    known: &mut KnownWindows,
    sought: &SoughtWalkToAny<'_>,
    labels: &[LabelRow],
) -> Result<Option<Rule>, Memory>
    requires sought { CanBeSoughtAny airport.now sought.now.request sought.now.nodes.now }
    requires some { 0 < length sought.now.nodes.now }
    requires known { AreKnown (length airport.now.segments) (free_among airport.now (H.held holds.now)) known.old }
    ensures known { AreKnown (length airport.now.segments) (free_among airport.now (H.held holds.now)) known.new }
    ensures first { IfOk result (λ broken. (others : Items NodeNumber) → IsAmong sought.now.request sought.now.nodes.now others → (s : Sought) → Seeks (conditions_among airport.now class (H.held holds.now)) sought.now.request others None s → IsFirstOf (λ rule. KeepsSought rule s (NoRoute labels.now)) broken) }
{
    let verdict = check_table_to_any(airport, class, holds, known, sought, labels, None)?;
    Ok(rule_of(verdict))
}

// Whether the steps are a walk to any of the nodes, and the second is that of the walk.
fn keeps_walk_to_any<H: HoldsOf>(
    airport: &Airport,
    class: Class,
    holds: &H,
    known: &mut KnownWindows,
    sought: &SoughtWalkToAny<'_>,
    steps: &[Step],
    second: Time,
) -> Result<bool, Memory>
    requires sought { CanBeSoughtAny airport.now sought.now.request sought.now.nodes.now }
    requires known { AreKnown (length airport.now.segments) (free_among airport.now (H.held holds.now)) known.old }
    ensures known { AreKnown (length airport.now.segments) (free_among airport.now (H.held holds.now)) known.new }
    ensures walk { IfOk result (λ yes. (others : Items NodeNumber) → IsAmong sought.now.request sought.now.nodes.now others → IsTrue yes ↔ (DoesAsAsked (conditions_among airport.now class (H.held holds.now)) sought.now.request others None steps.now × (second_of sought.now.request steps.now ≡ second))) }
{
    let walk = is_feasible_walk(airport, class, holds, known, steps)?;
    if !walk {
        return Ok(false);
    }
    if !goes_to_any(airport, sought.request, sought.nodes, steps) {
        return Ok(false);
    }
    Ok(second_at(&sought.request, steps) == second)
}

// Whether a walk begins as was asked, and ends so at any of the nodes.
fn goes_to_any(airport: &Airport, request: Request, nodes: &[Node], steps: &[Step]) -> bool
    requires sought { CanBeSoughtAny airport.now request nodes.now }
    requires some { 0 < length steps.now }
    requires arcs { All (λ step. IsTrue (arc_exists (layout_of airport.now) step.arc)) steps.now }
    ensures { IsTrue result ↔ OneOf (λ node. GoesAsAsked (layout_of airport.now) (retargeted request node) None steps.now) nodes.now }
{
    for node in nodes {
        if goes_to(airport, request, *node, steps) {
            return true;
        }
    }
    false
}

// Whether a walk begins as was asked, and ends so at the node.
fn goes_to(airport: &Airport, request: Request, node: Node, steps: &[Step]) -> bool
    requires sought { CanBeSought airport.now (retargeted request node) }
    requires some { 0 < length steps.now }
    requires arcs { All (λ step. IsTrue (arc_exists (layout_of airport.now) step.arc)) steps.now }
    ensures { IsTrue result ↔ GoesAsAsked (layout_of airport.now) (retargeted request node) None steps.now }
{
    let sought = SoughtWalk {
        request: request.retargeted(node),
        way: None,
        floor: None,
    };
    goes_as_asked(airport, &sought, steps)
}

// The first rule that the table of a search to any of some nodes breaks.
fn check_table_to_any<H: HoldsOf>(
    airport: &Airport,
    class: Class,
    holds: &H,
    known: &mut KnownWindows,
    sought: &SoughtWalkToAny<'_>,
    labels: &[LabelRow],
    bound: Option<Time>,
) -> Result<Option<RowRule>, Memory>
    requires sought { CanBeSoughtAny airport.now sought.now.request sought.now.nodes.now }
    requires some { 0 < length sought.now.nodes.now }
    requires known { AreKnown (length airport.now.segments) (free_among airport.now (H.held holds.now)) known.old }
    ensures known { AreKnown (length airport.now.segments) (free_among airport.now (H.held holds.now)) known.new }
    ensures verdict { IfOk result (λ verdict. (others : Items NodeNumber) → IsAmong sought.now.request sought.now.nodes.now others → IsVerdictOn (conditions_among airport.now class (H.held holds.now)) sought.now.request others None bound labels.now verdict) }
{
    let nodes = sought.nodes;
    match sought.request {
        Request::Filed => Ok(None),
        Request::Arrival {
            from,
            time,
            hold,
            ..
        } => {
            let begin = Begin::AtNode {
                node: from,
                earliest: time,
                latest: time + hold,
            };
            check_arrival(airport, class, holds, known, begin, nodes, labels, bound)
        }
        Request::Departure {
            from,
            time,
            queue,
            ..
        } => {
            let end = End {
                nodes,
                earliest: time.saturating_sub(queue),
                latest: time,
            };
            check_departure(airport, class, holds, known, from, &end, labels, bound)
        }
    }
}
