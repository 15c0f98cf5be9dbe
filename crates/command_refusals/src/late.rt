//! Why a flight in force is not said to be late.
ghost use Rattle.std.specs.Prelude.{◌≡◌, Some, None, IfErr, OnOk};
ghost use Rattle.taxi_text.specs.declared.command.Command.TheVariants as command;
ghost use Rattle.replies.specs.Refusals.{first_refusal};

use airport_file::Airport;
use commitments::Ledger;
use replies::delay_refused;
use taxi_base::{Name, Refusal, Time};

/// The flight of a name may be said to stay on its step at a time until a second, or why not. It needs no memory.
pub fn asked_late(
    airport: &Airport,
    ledger: &Ledger,
    name: &Name,
    time: Time,
    until: Time,
) -> Result<(), Refusal>
    ensures ok { OnOk result (first_refusal airport.now ledger.now.state (command.Late name.now time until) ≡ None) }
    ensures err { IfErr result (λ why. first_refusal airport.now ledger.now.state (command.Late name.now time until) ≡ Some why) }
{
    // The ledger keeps that each flight has a step.
    let _flights = ledger.count();
    let Some(flight) = ledger.flight(name) else {
        return Err(Refusal::NotInForce);
    };
    match delay_refused(airport, flight, time, until) {
        Some(why) => Err(why),
        None => Ok(()),
    }
}
