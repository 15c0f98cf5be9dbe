//! A flight that is put in force.
ghost use Rattle.std.specs.Prelude.{◌≡◌, ◌<◌, OnOk, IsFalse, None, length};
ghost use Rattle.taxi_base.specs.Walks.{IsFeasibleWalk};
ghost use Rattle.taxi_base.specs.State.{has_holder, holder_count, with_flight};
ghost use Rattle.taxi_base.specs.Faults.{conditions_in};
ghost use Rattle.commitments.specs.Book.{Fits};
ghost use Rattle.late_repair.specs.Repairing.{with_kept};
ghost use Rattle.late_repair.specs.TakenOut.{ChangesOnly};

use airport_file::Airport;
use commitments::Ledger;
use taxi_base::{Flight, List, Memory, Request, Step};

/// Puts a flight in force with a request of its own, on steps that are a walk among all holders. After an error it is out.
pub(crate) fn put_in_force(
    airport: &Airport,
    ledger: &mut Ledger,
    flight: &Flight,
    request: Request,
    steps: List<Step>,
) -> Result<(), Memory>
    requires fits { Fits airport.now ledger.old }
    requires unlifted { ledger.old.lifted ≡ None }
    requires absent { IsFalse (has_holder flight.now.name ledger.old.state) }
    requires few { holder_count ledger.old.state < 4096 }
    requires walk { IsFeasibleWalk (conditions_in airport.now flight.now.class ledger.old.state) steps }
    ensures state { OnOk result (ledger.new.state ≡ with_flight (record flight.now { request = request; steps = steps }) ledger.old.state) }
    ensures only { ChangesOnly flight.now.name ledger.old ledger.new }
    ensures unlifted { ledger.new.lifted ≡ None }
    ensures fits { Fits airport.now ledger.new }
{
    // The airport keeps its rules, so a walk has few steps.
    let _horizon = airport.horizon();
    ledger.prepare(airport, steps.as_slice())?;
    ledger.commit(
        airport,
        Flight {
            name: flight.name,
            class: flight.class,
            request,
            steps,
        },
    );
    Ok(())
}

/// The same on the steps that it keeps, if there are any.
pub(crate) fn keep_in_force(
    airport: &Airport,
    ledger: &mut Ledger,
    flight: &Flight,
    request: Request,
    kept: List<Step>,
) -> Result<(), Memory>
    requires fits { Fits airport.now ledger.old }
    requires unlifted { ledger.old.lifted ≡ None }
    requires absent { IsFalse (has_holder flight.now.name ledger.old.state) }
    requires few { holder_count ledger.old.state < 4096 }
    requires kept { 0 < length kept → IsFeasibleWalk (conditions_in airport.now flight.now.class ledger.old.state) kept }
    ensures state { OnOk result (ledger.new.state ≡ with_kept (record flight.now { request = request }) kept ledger.old.state) }
    ensures only { ChangesOnly flight.now.name ledger.old ledger.new }
    ensures unlifted { ledger.new.lifted ≡ None }
    ensures fits { Fits airport.now ledger.new }
{
    if kept.as_slice().is_empty() {
        return Ok(());
    }
    put_in_force(airport, ledger, flight, request, kept)
}
