//! Whether what a block tells of a search is right.
ghost use Rattle.std.specs.Prelude.{◌≤◌, ℕ, List, [], All, IfOk, length};
ghost use Rattle.std.specs.Option.{ForSome};
ghost use Rattle.taxi_base.specs.Walks.{conditions_among, free_among};
ghost use Rattle.replies.specs.declared.block.Block.TheVariants.{Route, NoRoute};
ghost use Rattle.replies.specs.Sought.{Sought};
ghost use Rattle.replies.specs.Passes.{KeepsSought, IsFirstOf};
ghost use Rattle.check_rows.specs.Known.{AreKnown};
ghost use Rattle.check_walks.specs.Course.{way_of};
ghost use Rattle.check_walks.specs.Told.{CanBeSought, SeeksAfter};

use crate::course::SoughtWalk;
use crate::tables::{check_table, rule_of};
use crate::walk::keeps_walk;
use airport_file::Airport;
use check_rows::KnownWindows;
use held_spans::HoldsOf;
use replies::Rule;
use taxi_base::{Class, LabelRow, Memory, Step, Time};

/// What a block tells of a route.
#[derive(Clone, Copy)]
pub struct ToldRoute<'a> {
    pub second: Time,
    pub steps: &'a [Step],
    pub labels: &'a [LabelRow],
}

/// The first rule that a route that is told breaks: `walk`, `rows`, `start`, `step` or `target`. None where it keeps them all.
/// What is sought is a walk of a flight of a class among the holds, which may be under way. The windows are to be known for
/// these holds, and stay so, also after an error.
pub fn check_route<H: HoldsOf>(
    airport: &Airport,
    class: Class,
    holds: &H,
    known: &mut KnownWindows,
    sought: &SoughtWalk<'_>,
    told: &ToldRoute<'_>,
) -> Result<Option<Rule>, Memory>
    requires sought { CanBeSought airport.now sought.now.request }
    requires early { ForSome (way_of sought.now.way) (λ way. All (λ step. step.enter ≤ 9999999) way.steps) }
    requires known { AreKnown (length airport.now.segments) (free_among airport.now (H.held holds.now)) known.old }
    ensures known { AreKnown (length airport.now.segments) (free_among airport.now (H.held holds.now)) known.new }
    ensures first { IfOk result (λ broken. (s : Sought) → SeeksAfter (conditions_among airport.now class (H.held holds.now)) sought.now.request [] (way_of sought.now.way) sought.now.floor s → (name : List ℕ) → IsFirstOf (λ rule. KeepsSought rule s (Route name told.now.second told.now.steps.now told.now.labels.now)) broken) }
{
    let walk = keeps_walk(
        airport,
        class,
        holds,
        known,
        sought,
        told.steps,
        told.second,
    )?;
    if !walk {
        return Ok(Some(Rule::Walk));
    }
    let bound = Some(told.second);
    let verdict = check_table(airport, class, holds, known, sought, told.labels, bound)?;
    Ok(rule_of(verdict))
}

/// The same where a block tells that there is no route. The floor, where there is one, bounds the table.
pub fn check_no_route<H: HoldsOf>(
    airport: &Airport,
    class: Class,
    holds: &H,
    known: &mut KnownWindows,
    sought: &SoughtWalk<'_>,
    labels: &[LabelRow],
) -> Result<Option<Rule>, Memory>
    requires sought { CanBeSought airport.now sought.now.request }
    requires early { ForSome (way_of sought.now.way) (λ way. All (λ step. step.enter ≤ 9999999) way.steps) }
    requires known { AreKnown (length airport.now.segments) (free_among airport.now (H.held holds.now)) known.old }
    ensures known { AreKnown (length airport.now.segments) (free_among airport.now (H.held holds.now)) known.new }
    ensures first { IfOk result (λ broken. (s : Sought) → SeeksAfter (conditions_among airport.now class (H.held holds.now)) sought.now.request [] (way_of sought.now.way) sought.now.floor s → IsFirstOf (λ rule. KeepsSought rule s (NoRoute labels.now)) broken) }
{
    let verdict = check_table(airport, class, holds, known, sought, labels, sought.floor)?;
    Ok(rule_of(verdict))
}
