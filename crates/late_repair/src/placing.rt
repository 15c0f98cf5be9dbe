//! What is in force at once: the flights that are late or in the way are so on the steps that they keep.
ghost use Rattle.std.specs.Prelude.{◌≡◌, ◌<◌, List, map, OnOk, IsFalse, None};
ghost use Rattle.taxi_base.specs.State.{has_holder, holder_count, IsFeasibleState};
ghost use Rattle.taxi_base.specs.Late.{Meeting, IsDelay, AreInTheWay, base_state};
ghost use Rattle.replies.specs.Repairs.{names_in_turn};
ghost use Rattle.commitments.specs.Book.{Fits};
ghost use Rattle.late_repair.specs.Repairing.{placed_at_once, CanBePlaced};
ghost use Rattle.late_repair.specs.TakenOut.{name_of, taken_back, AreOut, ChangesOnly, ChangesTheirs};

use crate::delay::Delay;
use crate::force::keep_in_force;
use crate::holder::Holder;
use crate::kept::steps_kept;
use crate::taken_out::TakenOut;
use airport_file::Airport;
use commitments::Ledger;
use std::alloc::Global;
use taxi_base::Memory;

/// Puts the flights of those that were taken out in force, each on the steps that it keeps.
pub(crate) fn place_at_once(
    alloc: Global,
    airport: &Airport,
    delay: &Delay,
    before: &TakenOut,
    ledger: &mut Ledger,
) -> Result<(), Memory>
    requires fits { Fits airport.now ledger.old }
    requires unlifted { ledger.old.lifted ≡ None }
    requires feasible { IsFeasibleState airport.now (taken_back before.now ledger.old.state) }
    requires delay { IsDelay airport.now (taken_back before.now ledger.old.state) delay.now }
    requires in_turn { (meetings : List Meeting) × AreInTheWay airport.now (taken_back before.now ledger.old.state) delay.now meetings × (map name_of before.now ≡ names_in_turn delay.now meetings) }
    requires out { AreOut ledger.old.state before.now }
    ensures state { OnOk result (ledger.new.state ≡ base_state airport.now (taken_back before.now ledger.old.state) delay.now) }
    ensures theirs { ChangesTheirs before.now ledger.old ledger.new }
    ensures unlifted { ledger.new.lifted ≡ None }
    ensures fits { Fits airport.now ledger.new }
{
    for holder in before.holders() {
        place_one(alloc, airport, delay, holder, ledger)?;
    }
    Ok(())
}

// Puts a flight in force on the steps that it keeps, if there are any; a work party stays out.
fn place_one(
    alloc: Global,
    airport: &Airport,
    delay: &Delay,
    holder: &Holder,
    ledger: &mut Ledger,
) -> Result<(), Memory>
    requires fits { Fits airport.now ledger.old }
    requires unlifted { ledger.old.lifted ≡ None }
    requires out { IsFalse (has_holder (name_of holder.now) ledger.old.state) }
    requires few { holder_count ledger.old.state < 4096 }
    requires kept { CanBePlaced airport.now delay.now ledger.old.state holder.now }
    ensures state { OnOk result (ledger.new.state ≡ placed_at_once airport.now delay.now holder.now ledger.old.state) }
    ensures only { ChangesOnly (name_of holder.now) ledger.old ledger.new }
    ensures unlifted { ledger.new.lifted ≡ None }
    ensures fits { Fits airport.now ledger.new }
{
    match holder {
        Holder::Flight(flight) => {
            let kept = steps_kept(alloc, airport, delay, flight)?;
            keep_in_force(airport, ledger, flight, flight.request, kept)
        }
        Holder::Party(_) => Ok(()),
    }
}
