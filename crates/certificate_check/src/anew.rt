//! Lines that route a flight in force anew: as it asked, or to another node.
ghost use Rattle.std.specs.Prelude.{◌≡◌, true, false, Some, All, IfOk, IfErr};
ghost use Rattle.taxi_base.specs.State.{IsSound};
ghost use Rattle.taxi_text.specs.declared.command.Command.TheVariants as command;
ghost use Rattle.replies.specs.Refusals.{first_refusal};
ghost use Rattle.checked_state.specs.Flights.{state_of};
ghost use Rattle.certificate_check.specs.Again.{IsAskedAnew};
ghost use Rattle.certificate_check.specs.Desk.{CanGoOn, IsReady};
ghost use Rattle.certificate_check.specs.Judged.{IsJudged};

use crate::CheckRefused;
use crate::again::{Anew, check_again};
use crate::reply::{is_refusal, pass_if};
use airport_file::Airport;
use check_rows::KnownWindows;
use checked_state::HeldFlights;
use due_refusals::{divert_refused, reroute_refused};
use replies::Block;
use taxi_base::{Name, Refusal, Request, Time};

/// Checks the block of a reroute.
pub fn check_reroute(
    airport: &Airport,
    held: &mut HeldFlights,
    known: &mut KnownWindows,
    name: &Name,
    time: Time,
    block: Block,
) -> Result<(), CheckRefused>
    requires ready { IsReady airport.now held.old known.old }
    ensures judged { IsJudged airport.now (command.Reroute name.now time) block (state_of held.old) result (state_of held.new) }
    ensures ready { IsReady airport.now held.new known.new }
{
    match rerouted(airport, held, name, time) {
        Ok(request) => {
            let anew = Anew {
                name,
                time,
                request,
                may_be_none: false,
            };
            check_again(airport, held, known, &anew, block)
        }
        Err(why) => pass_if(is_refusal(&block, &why)),
    }
}

// What a reroute asks for, or why it is refused.
fn rerouted(
    airport: &Airport,
    held: &HeldFlights,
    name: &Name,
    time: Time,
) -> Result<Request, Refusal>
    requires sound { IsSound airport.now (state_of held.now) }
    requires can_go_on { All (λ f. CanGoOn airport.now f.request) (state_of held.now).flights }
    ensures ok { IfOk result (IsAskedAnew airport.now (state_of held.now) (command.Reroute name.now time) name.now time false) }
    ensures err { IfErr result (λ why. first_refusal airport.now (state_of held.now) (command.Reroute name.now time) ≡ Some why) }
{
    let _names = airport;
    let Some(flight) = held.flight(name) else {
        return Err(Refusal::NotInForce);
    };
    if let Some(why) = reroute_refused(flight, time) {
        return Err(why);
    }
    Ok(flight.request)
}

/// Checks the block of a divert.
pub fn check_divert(
    airport: &Airport,
    held: &mut HeldFlights,
    known: &mut KnownWindows,
    name: &Name,
    time: Time,
    node: &Name,
    block: Block,
) -> Result<(), CheckRefused>
    requires ready { IsReady airport.now held.old known.old }
    ensures judged { IsJudged airport.now (command.Divert name.now time node.now) block (state_of held.old) result (state_of held.new) }
    ensures ready { IsReady airport.now held.new known.new }
{
    match diverted(airport, held, name, time, node) {
        Ok(request) => {
            let anew = Anew {
                name,
                time,
                request,
                may_be_none: true,
            };
            check_again(airport, held, known, &anew, block)
        }
        Err(why) => pass_if(is_refusal(&block, &why)),
    }
}

// What a divert asks for, or why it is refused.
fn diverted(
    airport: &Airport,
    held: &HeldFlights,
    name: &Name,
    time: Time,
    node: &Name,
) -> Result<Request, Refusal>
    requires sound { IsSound airport.now (state_of held.now) }
    requires can_go_on { All (λ f. CanGoOn airport.now f.request) (state_of held.now).flights }
    ensures ok { IfOk result (IsAskedAnew airport.now (state_of held.now) (command.Divert name.now time node.now) name.now time true) }
    ensures err { IfErr result (λ why. first_refusal airport.now (state_of held.now) (command.Divert name.now time node.now) ≡ Some why) }
{
    let Some(target) = airport.node_named(node) else {
        return Err(Refusal::UnknownNode);
    };
    if !airport.is_stand(target) {
        return Err(Refusal::WrongKind);
    }
    let Some(flight) = held.flight(name) else {
        return Err(Refusal::NotInForce);
    };
    if let Some(why) = divert_refused(flight, time) {
        return Err(why);
    }
    Ok(flight.request.retargeted(target))
}
