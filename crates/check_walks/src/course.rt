//! Which steps of an arrival stay, and how its walk begins after them.
ghost use Rattle.std.specs.Prelude.{◌≡◌, ◌↔◌, ◌<◌, ◌≤◌, ◌+◌, ◌^◌, ◌-◌, [], IsTrue, All, length, take, slice_index_or};
ghost use Rattle.taxi_base.specs.declared.rows.Step.{Step as StepRow};
ghost use Rattle.taxi_base.specs.Airport.{arc_exists, layout_of};
ghost use Rattle.taxi_base.specs.State.{entered_count};
ghost use Rattle.walk_labels.specs.Requests.{BeginsBy};
ghost use Rattle.walk_labels.specs.Requests.Beginning.{at_node, resuming};
ghost use Rattle.check_rows.specs.Rules.{beginning_of};
ghost use Rattle.check_walks.specs.Course.{way_of, beginning_for, done_for, GoesBy, LeadsOn, is_within, resumes};

use airport_file::Airport;
use check_rows::Begin;
use taxi_base::{Node, Request, Step, Time};

/// A flight that is under way: its steps, and the time from which on it is routed anew.
#[derive(Clone, Copy)]
pub struct OnTheWay<'a> {
    pub steps: &'a [Step],
    pub time: Time,
}

/// The walk that is sought of a flight: what the flight asks for, and where it is if it is under way. It may have to begin after
/// a second, the floor.
#[derive(Clone, Copy)]
pub struct SoughtWalk<'a> {
    pub request: Request,
    pub way: Option<OnTheWay<'a>>,
    pub floor: Option<Time>,
}

/// The steps that stay, and how the walk begins after them.
#[derive(Clone, Copy)]
pub struct Course<'a> {
    pub done: &'a [Step],
    pub begin: Begin,
}

/// What stays of an arrival, and how it begins: at its node, or by going on with the step that was begun.
pub fn course_of<'a>(from: Node, time: Time, hold: Time, sought: &SoughtWalk<'a>) -> Course<'a>
    requires { time + hold < 2 ^ 32 }
    ensures begin { beginning_of result.begin ≡ beginning_for from time hold (way_of sought.now.way) }
    ensures done { result.done.now ≡ done_for (way_of sought.now.way) }
{
    let latest = time + hold;
    let Some(way) = sought.way else {
        return from_node(from, time, latest);
    };
    let entered = entered_count(way.steps, way.time);
    if entered == 0 {
        return from_node(from, time.max(way.time), latest);
    }
    resume(way.steps, entered, way.time)
}

// Of the steps that were entered, the last is gone on with, and the others stay.
fn resume<'a>(steps: &'a [Step], entered: usize, exit_from: Time) -> Course<'a>
    requires some { 0 < entered }
    requires few { entered ≤ length steps.now }
    ensures begin { (begun : StepRow) → begun ≡ slice_index_or steps.now (entered - 1) begun → beginning_of result.begin ≡ resuming begun exit_from }
    ensures done { result.done.now ≡ take (entered - 1) steps.now }
{
    let begun = steps[entered - 1];
    let done = &steps[..entered - 1];
    let begin = Begin::Resuming { begun, exit_from };
    Course { done, begin }
}

fn from_node<'a>(node: Node, earliest: Time, latest: Time) -> Course<'a>
    ensures begin { beginning_of result.begin ≡ at_node node earliest latest }
    ensures done { result.done.now ≡ [] }
{
    let done: &'a [Step] = &[];
    let begin = Begin::AtNode {
        node,
        earliest,
        latest,
    };
    Course { done, begin }
}

/// How many steps were entered by a time.
fn entered_count(steps: &[Step], time: Time) -> usize
    ensures count { result ≡ entered_count time steps.now }
    ensures few { result ≤ length steps.now }
{
    steps.iter().filter(|step| step.enter <= time).count()
}

/// Whether some steps keep those that stay, begin as they are to after them, and lead to the node.
pub fn goes_by(airport: &Airport, course: &Course<'_>, to: Node, steps: &[Step]) -> bool
    requires { All (λ step. IsTrue (arc_exists (layout_of airport.now) step.arc)) steps.now }
    ensures { IsTrue result ↔ GoesBy (layout_of airport.now) course.now.done.now (beginning_of course.now.begin) to steps.now }
{
    if !steps.starts_with(course.done) {
        return false;
    }
    let rest = &steps[course.done.len()..];
    leads_on(airport, course.begin, to, rest)
}

fn leads_on(airport: &Airport, begin: Begin, to: Node, rest: &[Step]) -> bool
    requires { All (λ step. IsTrue (arc_exists (layout_of airport.now) step.arc)) rest.now }
    ensures { IsTrue result ↔ LeadsOn (layout_of airport.now) (beginning_of begin) to rest.now }
{
    if rest.is_empty() {
        return false;
    }
    let first = rest[0];
    let last = rest[rest.len() - 1];
    begins_by(airport, begin, first) && airport.graph().head(last.arc) == to
}

fn begins_by(airport: &Airport, begin: Begin, step: Step) -> bool
    requires { IsTrue (arc_exists (layout_of airport.now) step.arc) }
    ensures { IsTrue result ↔ BeginsBy (layout_of airport.now) (beginning_of begin) step }
{
    match begin {
        Begin::AtNode {
            node,
            earliest,
            latest,
        } => {
            let tail = airport.graph().tail(step.arc);
            tail == node && is_within(step.enter, earliest, latest)
        }
        Begin::Resuming { begun, exit_from } => resumes(begun, exit_from, step),
    }
}

/// Whether a second is within a time.
pub fn is_within(second: Time, earliest: Time, latest: Time) -> bool
    ensures { result ≡ is_within second earliest latest }
{
    earliest <= second && second <= latest
}

fn resumes(begun: Step, exit_from: Time, step: Step) -> bool
    ensures { result ≡ resumes begun exit_from step }
{
    step.arc == begun.arc && step.enter == begun.enter && exit_from <= step.leave
}
