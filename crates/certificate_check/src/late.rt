//! Lines that tell that a flight is late.
ghost use Rattle.std.specs.Prelude.{◌≡◌, None, All, OnOk};
ghost use Rattle.taxi_base.specs.State.{IsSound};
ghost use Rattle.taxi_text.specs.declared.command.Command.TheVariants as command;
ghost use Rattle.replies.specs.Refusals.{first_refusal};
ghost use Rattle.checked_state.specs.Flights.{state_of};
ghost use Rattle.certificate_check.specs.Desk.{CanGoOn, IsReady, IsTidy};
ghost use Rattle.certificate_check.specs.Judged.{IsJudged};
ghost use Rattle.certificate_check.specs.Late.{IsRepairJudged};

use crate::CheckRefused;
use crate::late_base::give_way;
use crate::late_form::{LateLine, told_in_turn};
use crate::late_turns::check_turns;
use crate::reply::{is_refusal, pass_if};
use airport_file::Airport;
use check_rows::KnownWindows;
use checked_state::HeldFlights;
use due_refusals::late_refused;
use replies::{Block, Rule};
use std::alloc::Global;

/// Checks the block of a late flight. Where it passes, what is told of each flight is in force afterwards. Else a copy that was made
/// before takes the place of the holders: to put back those that gave way could want memory.
pub fn check_late(
    alloc: Global,
    airport: &Airport,
    held: &mut HeldFlights,
    known: &mut KnownWindows,
    line: &LateLine<'_>,
    block: Block,
) -> Result<(), CheckRefused>
    requires ready { IsReady airport.now held.old known.old }
    ensures judged { IsJudged airport.now (command.Late line.now.flight.now line.now.time line.now.until) block (state_of held.old) result (state_of held.new) }
    ensures ready { IsSound airport.now (state_of held.new) → IsReady airport.now held.new known.new }
{
    if let Some(why) = late_refused(airport, held, line.flight, line.time, line.until) {
        return pass_if(is_refusal(&block, &why));
    }
    let before = held.copy()?;
    let unknown = KnownWindows::new(alloc, airport)?;
    let checked = check_repair(alloc, airport, &before, held, known, line, block);
    if checked.is_err() {
        *held = before;
        *known = unknown;
        return checked;
    }
    checked
}

// Checks what is told of a late flight and of those in its way, as it was before the line. Where it passes it is in force afterwards.
fn check_repair(
    alloc: Global,
    airport: &Airport,
    before: &HeldFlights,
    held: &mut HeldFlights,
    known: &mut KnownWindows,
    line: &LateLine<'_>,
    block: Block,
) -> Result<(), CheckRefused>
    requires sound { IsSound airport.now (state_of before.now) }
    requires can_go_on { All (λ f. CanGoOn airport.now f.request) (state_of before.now).flights }
    requires unrefused { first_refusal airport.now (state_of before.now) (command.Late line.now.flight.now line.now.time line.now.until) ≡ None }
    requires same { state_of held.old ≡ state_of before.now }
    requires tidy { IsTidy airport.now held.old known.old }
    ensures judged { IsRepairJudged airport.now (state_of before.now) (command.Late line.now.flight.now line.now.time line.now.until) block result (state_of held.new) }
    ensures tidy { OnOk result (IsTidy airport.now held.new known.new) }
{
    let Some(told) = told_in_turn(airport, before, line, block) else {
        return Err(CheckRefused::Wrong { rule: Rule::Reply });
    };
    give_way(alloc, airport, before, &told.late, held, known)?;
    let entries = told.entries.into_vec();
    check_turns(alloc, airport, before, &told.late, held, known, entries)
}
