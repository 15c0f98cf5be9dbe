//! What the free windows are once a holder holds its segments, or holds them no longer.
ghost use Rattle.std.specs.Prelude.{◌≡◌, ◌+◌, ◌<◌, true, List, [], ◌∷◌, ◌++◌, length, map, remove, slice_get, IfSome};
ghost use Rattle.taxi_base.specs.Airport.{IsWellFormed, arc_of};
ghost use Rattle.taxi_base.specs.Windows.{Hold, holds_of};
ghost use Rattle.taxi_base.specs.Walks.{IsFeasibleWalk, conditions_among};
ghost use Rattle.taxi_base.specs.State.{State, IsFeasibleHold, IsFeasibleState, flight_holds, holds_in, party_hold, party_step};
ghost use Rattle.window_store.specs.Stands.{StandsFor, HasRoomFor, route_holds};
ghost use Rattle.window_store.specs.Kept.{IsApartFrom, IsClearOf, KeepsWindows, KeepsNodes};
ghost use Rattle.commitments.specs.Book.{routes_of};
ghost use Rattle.commitments.specs.Held.{hold_by, AreAsMany, flight_steps, party_steps, steps_of_each, joined, steps_in};
ghost use Rattle.commitments.specs.Holders.{state_of};

use crate::held_segments::HeldSegments;
use crate::holders::Holders;
use crate::segment_holds::Holder;
use airport_file::Airport;
use std::slice;
use taxi_base::{Arc, Flight, Party, Segment, Step};

// Holds what a flight holds, whose walk is feasible among what is held already.
pub(crate) fn hold_flight(held: &mut HeldSegments, airport: &Airport, flight: &Flight)
    requires lists { length held.old.store.lists ≡ length airport.now.segments }
    requires horizon { held.old.store.horizon ≡ airport.now.horizon }
    requires feasible { (holds : List Hold) × StandsFor airport.now.conflicts airport.now.horizon holds held.old.store × IsFeasibleWalk (conditions_among airport.now flight.now.class holds) flight.now.steps }
    requires room { HasRoomFor airport.now.conflicts flight.now.steps held.old.store }
    requires steps { StandsFor airport.now.conflicts airport.now.horizon (map (hold_by airport.now) held.old.steps) held.old.store }
    ensures stands { (holds : List Hold) → StandsFor airport.now.conflicts airport.now.horizon holds held.old.store → StandsFor airport.now.conflicts airport.now.horizon (holds ++ flight_holds airport.now flight.now) held.new.store }
    ensures steps { AreAsMany (held.old.steps ++ flight_steps flight.now) held.new.steps }
    ensures kept { KeepsWindows IsApartFrom airport.now.conflicts (flight_holds airport.now flight.now) held.old.store held.new.store }
    ensures nodes { KeepsNodes held.old.store held.new.store }
{
    keep_rules(airport);
    held.occupy(airport, flight.steps.as_slice(), &Holder::of_flight(flight));
}

// Holds what a party holds, where its segment may be shut; and gives the step by which it does so.
pub(crate) fn hold_party(held: &mut HeldSegments, airport: &Airport, party: &Party) -> Step
    requires lists { length held.old.store.lists ≡ length airport.now.segments }
    requires horizon { held.old.store.horizon ≡ airport.now.horizon }
    requires feasible { (state : State) × IsFeasibleHold airport.now state (party_hold party.now) }
    requires stands { (holds : List Hold) × StandsFor airport.now.conflicts airport.now.horizon holds held.old.store }
    requires room { HasRoomFor airport.now.conflicts (party_step party.now ∷ []) held.old.store }
    requires steps { StandsFor airport.now.conflicts airport.now.horizon (map (hold_by airport.now) held.old.steps) held.old.store }
    ensures step { result ≡ party_step party.now }
    ensures steps { AreAsMany (held.old.steps ++ party_steps party.now) held.new.steps }
    ensures stands { (holds : List Hold) → StandsFor airport.now.conflicts airport.now.horizon holds held.old.store → StandsFor airport.now.conflicts airport.now.horizon (holds ++ party_hold party.now ∷ []) held.new.store }
    ensures kept { KeepsWindows IsApartFrom airport.now.conflicts (party_hold party.now ∷ []) held.old.store held.new.store }
    ensures nodes { KeepsNodes held.old.store held.new.store }
{
    let step = Step {
        arc: forward(airport, party.segment),
        enter: party.from,
        leave: party.until,
    };
    keep_rules(airport);
    held.occupy(airport, slice::from_ref(&step), &Holder::of_party(party));
    step
}

// The arc of a segment from its first end to its other.
pub(crate) fn forward(airport: &Airport, segment: Segment) -> Arc
    requires { segment.0 < length airport.now.segments }
    ensures { result ≡ arc_of segment true }
{
    let _horizon = airport.horizon();
    Arc::of(segment, true)
}

// Holds no longer what the holder of a number holds, while the others hold what they do.
pub(crate) fn free_holder(
    held: &mut HeldSegments,
    airport: &Airport,
    holders: &Holders,
    number: usize,
)
    requires lists { length held.old.store.lists ≡ length airport.now.segments }
    requires horizon { held.old.store.horizon ≡ airport.now.horizon }
    requires number { number < length holders.now.parties.parties + length holders.now.flights.flights }
    requires feasible { IsFeasibleState airport.now (state_of holders.now) }
    requires stands { StandsFor airport.now.conflicts airport.now.horizon (holds_in airport.now (state_of holders.now)) held.old.store }
    requires steps { AreAsMany held.old.steps (steps_in (state_of holders.now)) }
    ensures steps { AreAsMany held.new.steps (joined (remove (steps_of_each (state_of holders.now)) number)) }
    ensures stands { StandsFor airport.now.conflicts airport.now.horizon (route_holds airport.now.horizon (remove (routes_of airport.now (state_of holders.now)) number)) held.new.store }
    ensures room { IfSome (slice_get (routes_of airport.now (state_of holders.now)) number) (λ route. HasRoomFor airport.now.conflicts route.steps held.new.store) }
    ensures kept { IfSome (slice_get (routes_of airport.now (state_of holders.now)) number) (λ route. KeepsWindows IsClearOf airport.now.conflicts (holds_of airport.now.horizon route.clearance route.steps) held.old.store held.new.store) }
    ensures nodes { KeepsNodes held.old.store held.new.store }
{
    keep_rules(airport);
    let (steps, holder) = holders.route(number);
    held.release(airport, steps, &holder);
}

// An airport keeps its rules: so its horizon is near, and each step takes time.
pub(crate) fn keep_rules(airport: &Airport)
    ensures { IsWellFormed airport.now }
{
    let _horizon = airport.horizon();
}
