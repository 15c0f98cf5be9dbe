//! The repair after which a flight is late.
ghost use Rattle.std.specs.Prelude.{◌≡◌, List, Option, Some, None, map, IfOk, OnErr};
ghost use Rattle.taxi_base.specs.declared.answers.Found.{Found};
ghost use Rattle.taxi_base.specs.State.{State, IsFeasibleState, IsSound};
ghost use Rattle.taxi_base.specs.Late.{Delay as Late, Meeting, IsDelay, AreInTheWay, base_state, IsTurnOf, AreTurns};
ghost use Rattle.replies.specs.Repairs.{delay_of, names_in_turn, request_at_turn, entry_told, entries_told};
ghost use Rattle.commitments.specs.Book.{Fits};
ghost use Rattle.commitments.specs.Room.{HasRoomForAll};
ghost use Rattle.late_repair.specs.Repairing.{IsRepairedAs, WaitsForTurn};
ghost use Rattle.late_repair.specs.TakenOut.{name_of, taken_back, AreOut, IsFound, ChangesOnly, ChangesTheirs};

use crate::delay::Delay;
use crate::holder::Holder;
use crate::placing::place_at_once;
use crate::taken_out::{TakenOut, take_back, take_out};
use crate::turn::take_turn;
use crate::who::names_in_turn;
use airport_file::Airport;
use commitments::Ledger;
use place_cells::SearchRoom;
use replies::{Entries, Entry};
use std::alloc::Global;
use taxi_base::{Memory, Name, Time, under_way};

/// A flight that at a time is on a step, and stays there until a second.
#[derive(Clone, Copy, Debug, PartialEq, Eq)]
pub struct Lateness {
    pub flight: Name,
    pub time: Time,
    pub until: Time,
}

/// What comes of it: what the flight and those in its way are told in turn, and how all of them were in force before.
#[derive(Drop)]
pub struct Repaired {
    pub entries: Entries,
    pub before: TakenOut,
}

/// A flight that is late stays on its step, and those in its way take their turns. After an error all are in force as before. What an
/// earlier search left in the room does not matter.
pub fn repair(
    alloc: Global,
    room: &mut SearchRoom,
    airport: &Airport,
    ledger: &mut Ledger,
    late: &Lateness,
) -> Result<Repaired, Memory>
    requires fits { Fits airport.now ledger.old }
    requires unlifted { ledger.old.lifted ≡ None }
    requires sound { IsSound airport.now ledger.old.state }
    requires delay { (delay : Late) × (delay_of ledger.old.state late.now.flight late.now.time late.now.until ≡ Some delay) × IsDelay airport.now ledger.old.state delay }
    ensures repaired { IfOk result (λ done. (delay : Late) × (delay_of ledger.old.state late.now.flight late.now.time late.now.until ≡ Some delay) × IsRepairedAs airport.now ledger.old.state delay done.entries ledger.new.state) }
    ensures back { IfOk result (λ done. taken_back done.before ledger.new.state ≡ ledger.old.state) }
    ensures room { IfOk result (λ _. HasRoomForAll airport.now ledger.old.state ledger.new) }
    ensures err { OnErr result (ledger.new.state ≡ ledger.old.state) }
    ensures unlifted { ledger.new.lifted ≡ None }
    ensures fits { Fits airport.now ledger.new }
{
    let delay = delay_in(alloc, ledger, late)?;
    repair_delay(alloc, room, airport, ledger, &delay)
}

// What is said of the flight that is late: as it is in force, and on which step.
fn delay_in(alloc: Global, ledger: &Ledger, late: &Lateness) -> Result<Delay, Memory>
    requires { (delay : Late) × (delay_of ledger.now.state late.now.flight late.now.time late.now.until ≡ Some delay) }
    ensures { IfOk result (λ delay. delay_of ledger.now.state late.now.flight late.now.time late.now.until ≡ Some delay) }
{
    let flight = ledger.flight(&late.flight).unwrap();
    let (begun, _) = under_way(flight.steps.as_slice(), late.time).unwrap();
    Delay::of(alloc, flight, *begun, late.time, late.until)
}

// The repair after a delay.
fn repair_delay(
    alloc: Global,
    room: &mut SearchRoom,
    airport: &Airport,
    ledger: &mut Ledger,
    delay: &Delay,
) -> Result<Repaired, Memory>
    requires fits { Fits airport.now ledger.old }
    requires unlifted { ledger.old.lifted ≡ None }
    requires sound { IsSound airport.now ledger.old.state }
    requires delay { IsDelay airport.now ledger.old.state delay.now }
    ensures repaired { IfOk result (λ done. IsRepairedAs airport.now ledger.old.state delay.now done.entries ledger.new.state) }
    ensures back { IfOk result (λ done. taken_back done.before ledger.new.state ≡ ledger.old.state) }
    ensures room { IfOk result (λ _. HasRoomForAll airport.now ledger.old.state ledger.new) }
    ensures err { OnErr result (ledger.new.state ≡ ledger.old.state) }
    ensures unlifted { ledger.new.lifted ≡ None }
    ensures fits { Fits airport.now ledger.new }
{
    let names = names_in_turn(alloc, airport, ledger, delay)?;
    let before = take_out(alloc, airport, ledger, names.as_slice())?;
    match let_through(alloc, room, airport, delay, &before, ledger) {
        Ok(entries) => Ok(Repaired { entries, before }),
        Err(memory) => {
            take_back(airport, ledger, before);
            Err(memory)
        }
    }
}

// Those that were taken out are put in force on the steps that they keep, and take their turns.
fn let_through(
    alloc: Global,
    room: &mut SearchRoom,
    airport: &Airport,
    delay: &Delay,
    before: &TakenOut,
    ledger: &mut Ledger,
) -> Result<Entries, Memory>
    requires fits { Fits airport.now ledger.old }
    requires unlifted { ledger.old.lifted ≡ None }
    requires sound { IsSound airport.now (taken_back before.now ledger.old.state) }
    requires delay { IsDelay airport.now (taken_back before.now ledger.old.state) delay.now }
    requires in_turn { (meetings : List Meeting) × AreInTheWay airport.now (taken_back before.now ledger.old.state) delay.now meetings × (map name_of before.now ≡ names_in_turn delay.now meetings) }
    requires out { AreOut ledger.old.state before.now }
    ensures repaired { IfOk result (λ entries. IsRepairedAs airport.now (taken_back before.now ledger.old.state) delay.now entries ledger.new.state) }
    ensures theirs { ChangesTheirs before.now ledger.old ledger.new }
    ensures unlifted { ledger.new.lifted ≡ None }
    ensures fits { Fits airport.now ledger.new }
{
    place_at_once(alloc, airport, delay, before, ledger)?;
    take_turns(alloc, room, airport, delay, before, ledger)
}

// The turns of those that were taken out, one after the other.
fn take_turns(
    alloc: Global,
    room: &mut SearchRoom,
    airport: &Airport,
    delay: &Delay,
    before: &TakenOut,
    ledger: &mut Ledger,
) -> Result<Entries, Memory>
    requires fits { Fits airport.now ledger.old }
    requires unlifted { ledger.old.lifted ≡ None }
    requires sound { IsSound airport.now (taken_back before.now ledger.old.state) }
    requires delay { IsDelay airport.now (taken_back before.now ledger.old.state) delay.now }
    requires in_turn { (meetings : List Meeting) × AreInTheWay airport.now (taken_back before.now ledger.old.state) delay.now meetings × (map name_of before.now ≡ names_in_turn delay.now meetings) }
    requires base { ledger.old.state ≡ base_state airport.now (taken_back before.now ledger.old.state) delay.now }
    ensures turns { IfOk result (λ entries. (tells : List (Option Found)) × AreTurns airport.now delay.now (taken_back before.now ledger.old.state) (map name_of before.now) ledger.old.state tells ledger.new.state × (entries ≡ entries_told airport.now delay.now (taken_back before.now ledger.old.state) (map name_of before.now) tells)) }
    ensures theirs { ChangesTheirs before.now ledger.old ledger.new }
    ensures unlifted { ledger.new.lifted ≡ None }
    ensures fits { Fits airport.now ledger.new }
{
    let mut entries = Entries::new(alloc);
    for holder in before.holders() {
        let entry = take_turn_of(alloc, room, airport, delay, holder, ledger)?;
        entries.push(*holder.name(), entry)?;
    }
    Ok(entries)
}

// The turn of one that was taken out. A work party is dropped.
fn take_turn_of(
    alloc: Global,
    room: &mut SearchRoom,
    airport: &Airport,
    delay: &Delay,
    holder: &Holder,
    ledger: &mut Ledger,
) -> Result<Entry, Memory>
    requires fits { Fits airport.now ledger.old }
    requires unlifted { ledger.old.lifted ≡ None }
    requires waits { WaitsForTurn airport.now delay.now ledger.old.state holder.now }
    ensures turn { (at_first : State) → IsFound at_first holder.now → IfOk result (λ entry. (told : Option Found) × IsTurnOf airport.now delay.now at_first (name_of holder.now) ledger.old.state told ledger.new.state × (entry ≡ entry_told (request_at_turn airport.now delay.now at_first (name_of holder.now)) told)) }
    ensures only { ChangesOnly (name_of holder.now) ledger.old ledger.new }
    ensures unlifted { ledger.new.lifted ≡ None }
    ensures fits { Fits airport.now ledger.new }
{
    match holder {
        Holder::Flight(flight) => take_turn(alloc, room, airport, delay, flight, ledger),
        Holder::Party(_) => Ok(Entry::Dropped),
    }
}
