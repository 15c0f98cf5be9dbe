//! The rules for the table of a search.
ghost use Rattle.std.specs.Prelude.{◌≡◌, ◌≤◌, [], All, IfOk, length};
ghost use Rattle.std.specs.Option.{ForSome};
ghost use Rattle.taxi_base.specs.Walks.{conditions_among, free_among};
ghost use Rattle.check_rows.specs.Known.{AreKnown};
ghost use Rattle.check_walks.specs.Course.{way_of};
ghost use Rattle.check_walks.specs.Told.{CanBeSought, IsVerdictOn, rule_of};

use crate::course::{SoughtWalk, course_of};
use airport_file::Airport;
use check_rows::{End, KnownWindows, RowRule, check_arrival, check_departure};
use held_spans::HoldsOf;
use replies::Rule;
use taxi_base::{Class, LabelRow, Memory, Request, Time};

/// The first rule that the table of a search breaks, with the bound that its route gives.
pub fn check_table<H: HoldsOf>(
    airport: &Airport,
    class: Class,
    holds: &H,
    known: &mut KnownWindows,
    sought: &SoughtWalk<'_>,
    labels: &[LabelRow],
    bound: Option<Time>,
) -> Result<Option<RowRule>, Memory>
    requires sought { CanBeSought airport.now sought.now.request }
    requires early { ForSome (way_of sought.now.way) (λ way. All (λ step. step.enter ≤ 9999999) way.steps) }
    requires known { AreKnown (length airport.now.segments) (free_among airport.now (H.held holds.now)) known.old }
    ensures known { AreKnown (length airport.now.segments) (free_among airport.now (H.held holds.now)) known.new }
    ensures verdict { IfOk result (IsVerdictOn (conditions_among airport.now class (H.held holds.now)) sought.now.request [] (way_of sought.now.way) bound labels.now) }
{
    match sought.request {
        Request::Filed => Ok(None),
        Request::Arrival {
            from,
            to,
            time,
            hold,
        } => {
            let begin = course_of(from, time, hold, sought).begin;
            check_arrival(airport, class, holds, known, begin, &[to], labels, bound)
        }
        Request::Departure {
            from,
            to,
            time,
            queue,
        } => {
            let end = End {
                nodes: &[to],
                earliest: time.saturating_sub(queue),
                latest: time,
            };
            check_departure(airport, class, holds, known, from, &end, labels, bound)
        }
    }
}

/// The rule for blocks that stands for a rule for rows.
pub fn rule_of(verdict: Option<RowRule>) -> Option<Rule>
    ensures { result ≡ rule_of verdict }
{
    match verdict {
        None => None,
        Some(RowRule::Rows) => Some(Rule::Rows),
        Some(RowRule::Start) => Some(Rule::Start),
        Some(RowRule::Step) => Some(Rule::Step),
        Some(RowRule::Target) => Some(Rule::Target),
    }
}
