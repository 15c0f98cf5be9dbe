//! How much later a step could be left, and a work party end.
ghost use Rattle.std.specs.Prelude.{◌≡◌, None, Contains};
ghost use Rattle.taxi_base.specs.Walks.{IsFeasibleStep};
ghost use Rattle.taxi_base.specs.State.{conditions_of};
ghost use Rattle.commitments.specs.Book.{Fits};
ghost use Rattle.plan_table.specs.Slack.{latest_leave, IsStepSlack, IsPartySlack};

use airport_file::Airport;
use commitments::Ledger;
use taxi_base::{Flight, Party, Step, Time};

/// By how many seconds later a step of a flight could be left, among the other holders.
pub(crate) fn step_slack(airport: &Airport, ledger: &Ledger, flight: &Flight, step: &Step) -> Time
    requires fits { Fits airport.now ledger.now }
    requires unlifted { ledger.now.lifted ≡ None }
    requires feasible { IsFeasibleStep (conditions_of airport.now ledger.now.state flight.now) step.now }
    ensures { IsStepSlack airport.now ledger.now.state flight.now step.now result }
{
    let horizon = airport.horizon();
    let clearance = airport.clearance(flight.class);
    let held = step.held(horizon, clearance);
    let end = ledger.free_until(airport, &flight.name, step.arc.segment(), held.until);
    latest_leave(horizon, clearance, end) - step.leave
}

// The last second at which a step may be left whose segment is free up to then.
fn latest_leave(horizon: Time, clearance: Time, end: Time) -> Time
    ensures { result ≡ latest_leave horizon clearance end }
{
    if end == horizon {
        horizon
    } else {
        end.saturating_sub(clearance)
    }
}

/// By how many seconds later a work party in force could end, among the other holders.
pub(crate) fn party_slack(airport: &Airport, ledger: &Ledger, party: &Party) -> Time
    requires fits { Fits airport.now ledger.now }
    requires unlifted { ledger.now.lifted ≡ None }
    requires in_force { Contains ledger.now.state.parties party.now }
    ensures { IsPartySlack airport.now ledger.now.state party.now result }
{
    ledger.free_until(airport, &party.name, party.segment, party.until) - party.until
}
