//! Commands that seek no walk: flights that are cancelled, and windows that are told.
ghost use Rattle.std.specs.Prelude.{◌≡◌, ◌↔◌, IsTrue, length};
ghost use Rattle.taxi_text.specs.declared.command.Command.TheVariants as command;
ghost use Rattle.replies.specs.declared.block.Block.TheVariants.{Windows};
ghost use Rattle.checked_state.specs.Flights.{state_of};
ghost use Rattle.certificate_check.specs.Desk.{IsReady};
ghost use Rattle.certificate_check.specs.Judged.{IsJudged};

use crate::CheckRefused;
use crate::reply::{is_cancelled, is_refusal, pass_if};
use airport_file::Airport;
use check_rows::KnownWindows;
use checked_state::HeldFlights;
use replies::Block;
use taxi_base::{Name, Refusal, Segment, Span};

/// Checks the block of a cancelled flight. Where it passes the flight is taken out of force.
pub fn check_cancel(
    airport: &Airport,
    held: &mut HeldFlights,
    known: &mut KnownWindows,
    name: &Name,
    block: &Block,
) -> Result<(), CheckRefused>
    requires { IsReady airport.now held.old known.old }
    ensures judged { IsJudged airport.now (command.Cancel name.now) block.now (state_of held.old) result (state_of held.new) }
    ensures ready { IsReady airport.now held.new known.new }
{
    let Some(flight) = held.flight(name) else {
        return pass_if(is_refusal(block, &Refusal::NotInForce));
    };
    pass_if(is_cancelled(block, name))?;
    let clearance = airport.clearance(flight.class);
    let gone = held.take_out(airport, name);
    known.give_back(airport, held.spans(), clearance, gone.steps.as_slice());
    Ok(())
}

/// Checks the block of the windows of a segment.
pub fn check_windows(
    airport: &Airport,
    held: &HeldFlights,
    known: &mut KnownWindows,
    name: &Name,
    block: &Block,
) -> Result<(), CheckRefused>
    requires { IsReady airport.now held.now known.old }
    ensures judged { IsJudged airport.now (command.Windows name.now) block.now (state_of held.now) result (state_of held.now) }
    ensures ready { IsReady airport.now held.now known.new }
{
    let Some(segment) = airport.segment_named(name) else {
        return pass_if(is_refusal(block, &Refusal::UnknownSegment));
    };
    known.make(airport, held.spans(), segment)?;
    pass_if(are_windows(block, segment, known.of(segment)))
}

// Whether a block tells that these are the windows of a segment.
fn are_windows(block: &Block, segment: Segment, windows: &[Span]) -> bool
    ensures { IsTrue result ↔ (block.now ≡ Windows segment windows.now) }
{
    match block {
        Block::Windows {
            segment: told,
            windows: list,
        } => *told == segment && list.as_slice() == windows,
        _ => false,
    }
}
