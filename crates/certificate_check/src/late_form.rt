//! Rule `reply` for a late flight: it is told of first, and then those in its way, each once and in order. Those that seek no
//! route are dropped.
ghost use Rattle.std.specs.Prelude.{◌≡◌, ◌↔◌, ◌<◌, IsTrue, All, MatchOption, Some, None, length, map};
ghost use Rattle.std.specs.List.{list_all};
ghost use Rattle.taxi_base.specs.Airport.{layout_of, arc_exists};
ghost use Rattle.taxi_base.specs.State.{IsSound};
ghost use Rattle.replies.specs.declared.block.Block.TheVariants.{Late};
ghost use Rattle.replies.specs.Repairs.{delay_of, is_dropped, IsDroppedAsDue, TellsRepair};
ghost use Rattle.checked_state.specs.Flights.{state_of};
ghost use Rattle.certificate_check.specs.Late.{delay_in, AreInOrder, AreAllNamed, IsToldFirst, drops_as_due, TellInTurn};

use crate::late_order::{are_all_named, are_in_order};
use airport_file::Airport;
use checked_state::HeldFlights;
use replies::{Block, Entries, Entry};
use taxi_base::{Flight, Name, Request, Step, Time, under_way};

/// What a line tells of a flight that is late: the time, and until when it stays on the step that it is on then.
#[derive(Clone, Copy)]
pub struct LateLine<'a> {
    pub flight: &'a Name,
    pub time: Time,
    pub until: Time,
}

/// A flight that is late: the step that it is on at a time, and until when it stays on it.
#[derive(Clone, Copy)]
pub struct LateFlight<'a> {
    pub flight: &'a Flight,
    pub begun: Step,
    pub time: Time,
    pub until: Time,
}

/// What is told of a late flight and of those in its way.
#[derive(Drop)]
pub struct ToldInTurn<'a> {
    pub late: LateFlight<'a>,
    pub entries: Entries,
}

/// What a block tells of a late flight and of those in its way. None where the block is not of the form that is due.
pub fn told_in_turn<'a>(
    airport: &Airport,
    before: &'a HeldFlights,
    line: &LateLine<'_>,
    block: Block,
) -> Option<ToldInTurn<'a>>
    requires sound { IsSound airport.now (state_of before.now) }
    ensures { MatchOption result (TellsRepair airport.now (state_of before.now) line.now.flight.now line.now.time line.now.until block → ⊥) (λ told. (delay_of (state_of before.now) line.now.flight.now line.now.time line.now.until ≡ Some (delay_in told.late)) × (block ≡ Late line.now.flight.now told.entries) × TellInTurn airport.now (state_of before.now) (delay_in told.late) told.entries) }
{
    let late = late_flight(before, line)?;
    let Block::Late { flight, entries } = block else {
        return None;
    };
    if flight != *line.flight {
        return None;
    }
    if !tell_in_turn(airport, before, &late, entries.as_slice()) {
        return None;
    }
    Some(ToldInTurn { late, entries })
}

// The flight that is late, if it is on a step at the time.
fn late_flight<'a>(before: &'a HeldFlights, line: &LateLine<'_>) -> Option<LateFlight<'a>>
    ensures { MatchOption result (delay_of (state_of before.now) line.now.flight.now line.now.time line.now.until ≡ None) (λ late. delay_of (state_of before.now) line.now.flight.now line.now.time line.now.until ≡ Some (delay_in late)) }
{
    let flight = before.flight(line.flight)?;
    let (begun, _) = under_way(flight.steps.as_slice(), line.time)?;
    Some(LateFlight {
        flight,
        begun: *begun,
        time: line.time,
        until: line.until,
    })
}

// Whether entries tell of the late flight first, and then of all those in its way in order, and drop whom they are to drop.
fn tell_in_turn(
    airport: &Airport,
    before: &HeldFlights,
    late: &LateFlight<'_>,
    entries: &[(Name, Entry)],
) -> bool
    requires sound { IsSound airport.now (state_of before.now) }
    requires arc { IsTrue (arc_exists (layout_of airport.now) late.now.begun.arc) }
    ensures { IsTrue result ↔ TellInTurn airport.now (state_of before.now) (delay_in late.now) entries.now }
{
    if !is_told_first(&late.flight.name, entries) {
        return false;
    }
    let others = &entries[1..];
    if !are_in_order(airport, before, late, others) {
        return false;
    }
    if !are_all_named(airport, before, late, others) {
        return false;
    }
    drop_as_due(before, entries)
}

// Whether the first entry is that of a name.
fn is_told_first(name: &Name, entries: &[(Name, Entry)]) -> bool
    ensures { IsTrue result ↔ IsToldFirst name.now entries.now }
{
    match entries.first() {
        Some(told) => told.0 == *name,
        None => false,
    }
}

// Whether each entry drops its holder exactly where it is to be dropped.
fn drop_as_due(before: &HeldFlights, entries: &[(Name, Entry)]) -> bool
    ensures { result ≡ list_all (drops_as_due (state_of before.now)) entries.now }
{
    entries.iter().all(|told| drops_as_due(before, told))
}

fn drops_as_due(before: &HeldFlights, told: &(Name, Entry)) -> bool
    ensures { result ≡ drops_as_due (state_of before.now) told.now }
{
    let is_to_be = is_dropped(before, &told.0);
    match told.1 {
        Entry::Dropped => is_to_be,
        Entry::Route { .. } | Entry::NoRoute { .. } => !is_to_be,
    }
}

// Whether the holder of a name is dropped: a flight that asked for nothing, or a work party.
fn is_dropped(before: &HeldFlights, name: &Name) -> bool
    ensures { result ≡ is_dropped (state_of before.now) name.now }
{
    match before.flight(name) {
        Some(flight) => matches!(flight.request, Request::Filed),
        None => true,
    }
}
