//! The flights and work parties in force, and the free windows that they leave.
ghost use Rattle.std.specs.Prelude.{◌≡◌, ◌+◌, ◌<◌, ◌≤◌, ◌^◌, false, List, Some, None, length, slice_get, All, IsTrue, IsSome, IfOk, IfNone, IfSome, OnOk, option_copied};
ghost use Rattle.std.specs.Option.{ForSome};
ghost use Rattle.taxi_base.specs.declared.rows.Step.{Step as StepRow};
ghost use Rattle.taxi_base.specs.Airport.{arc_exists, layout_of};
ghost use Rattle.taxi_base.specs.Walks.{IsFeasibleWalk};
ghost use Rattle.taxi_base.specs.State.{no_holder, holder_count, has_holder, flight_named, without, with_flight, flight_holds, conditions_of, with_route};
ghost use Rattle.taxi_base.specs.Faults.{conditions_in};
ghost use Rattle.window_store.specs.Stands.{HasRoomFor};
ghost use Rattle.window_store.specs.Kept.{IsApartFrom, IsClearOf, KeepsWindows, KeepsNodes, GainsRoom, DrawsWhatIsLacking};
ghost use Rattle.holder_lists.specs.Lists.{IsBook};
ghost use Rattle.commitments.specs.Book.{Book, Fits, IsPrepared, lifted_flight};

use crate::held_segments::HeldSegments;
use crate::holders::Holders;
use crate::holds::{free_holder, hold_flight, keep_rules};
use airport_file::Airport;
use std::alloc::Global;
use std::marker::Model;
use taxi_base::{Flight, List, Memory, Name, Request, Step};
use window_store::WindowStore;

/// The flights in force, by rising names, each with at least one step, the work parties by rising names, and the free windows
/// of each segment. One of the flights may be lifted: it is in force still, and the windows are those that the others leave.
#[derive(Drop)]
pub struct Ledger {
    pub(crate) holders: Holders,
    pub(crate) lifted: Option<Name>,
    // All that the holders hold, but for the lifted flight.
    pub(crate) held: HeldSegments,
}

impl Model for Ledger {
    ghost use Rattle.commitments.specs.Book.{Book, without_lifted};
    ghost use Rattle.commitments.specs.Held.{AreAsMany, steps_in};
    ghost use Rattle.commitments.specs.Holders.{state_of};

    ghost Value = { Book };

    ghost view = { λ l. record {
      state = state_of l.holders;
      lifted = l.lifted;
      room = l.holders.flights.room;
      party_room = l.holders.parties.room;
      store = l.held.store;
    } };

    ghost invariant = { λ l. AreAsMany l.held.steps (steps_in (without_lifted l.lifted (state_of l.holders))) };
}

impl Ledger {
    /// No flight and no party over an airport: all seconds are free.
    pub fn new(alloc: Global, airport: &Airport) -> Result<Ledger, Memory>
        ensures state { IfOk result (λ l. l.state ≡ no_holder) }
        ensures unlifted { IfOk result (λ l. l.lifted ≡ None) }
        ensures fits { IfOk result (Fits airport.now) }
    {
        Ok(Ledger {
            holders: Holders::new(alloc)?,
            lifted: None,
            held: HeldSegments::new(alloc, airport)?,
        })
    }

    /// How many flights are in force.
    pub fn count(&self) -> usize
        ensures count { result ≡ length self.now.state.flights }
        ensures book { IsBook self.now.state.flights }
    {
        self.holders.flights.count()
    }

    /// The flight at a place, by rising names.
    pub fn at(&self, place: usize) -> &Flight
        requires { place < length self.now.state.flights }
        ensures { slice_get self.now.state.flights place ≡ Some result.now }
    {
        self.holders.flights.at(place)
    }

    /// The flight of a name.
    pub fn flight(&self, name: &Name) -> Option<&Flight>
        ensures { option_copied result ≡ flight_named name.now self.now.state.flights }
    {
        self.holders.flights.flight(name)
    }

    /// The free windows of each segment.
    pub fn store(&self) -> &WindowStore
        ensures { result.now ≡ self.now.store }
    {
        self.held.store()
    }

    /// Makes room for one more flight with these steps, and no more nodes than these lack. All holders and windows stay, also where memory
    /// runs out.
    pub fn prepare(&mut self, airport: &Airport, steps: &[Step]) -> Result<(), Memory>
        requires fits { Fits airport.now self.old }
        requires arcs { All (λ s. IsTrue (arc_exists (layout_of airport.now) s.arc)) steps.now }
        requires few { length steps.now < 2 ^ 32 }
        requires not_full { holder_count self.old.state < 4096 }
        ensures room { OnOk result (IsPrepared airport.now steps.now self.new) }
        ensures state { self.new.state ≡ self.old.state }
        ensures lifted { self.new.lifted ≡ self.old.lifted }
        ensures kept { self.old.room ≤ self.new.room }
        ensures party_room { self.new.party_room ≡ self.old.party_room }
        ensures windows { GainsRoom self.old.store self.new.store }
        ensures lacking { DrawsWhatIsLacking airport.now.conflicts steps.now self.old.store self.new.store }
        ensures fits { Fits airport.now self.new }
    {
        self.holders.flights.prepare()?;
        self.prepare_again(airport, steps)
    }

    /// Makes room for other steps of a flight that is in force already, however many are in force, and no more nodes than these lack. All
    /// holders and windows stay, also where memory runs out.
    pub fn prepare_again(&mut self, airport: &Airport, steps: &[Step]) -> Result<(), Memory>
        requires fits { Fits airport.now self.old }
        requires arcs { All (λ s. IsTrue (arc_exists (layout_of airport.now) s.arc)) steps.now }
        requires few { length steps.now < 2 ^ 32 }
        ensures room { OnOk result (HasRoomFor airport.now.conflicts steps.now self.new.store) }
        ensures state { self.new.state ≡ self.old.state }
        ensures lifted { self.new.lifted ≡ self.old.lifted }
        ensures flight_room { self.new.room ≡ self.old.room }
        ensures party_room { self.new.party_room ≡ self.old.party_room }
        ensures windows { GainsRoom self.old.store self.new.store }
        ensures lacking { DrawsWhatIsLacking airport.now.conflicts steps.now self.old.store self.new.store }
        ensures fits { Fits airport.now self.new }
    {
        keep_rules(airport);
        self.held.reserve(airport, steps)
    }

    /// Puts a flight in force. It needs no memory. A window that has no second of its route stays as it is.
    pub fn commit(&mut self, airport: &Airport, flight: Flight)
        requires fits { Fits airport.now self.old }
        requires unlifted { self.old.lifted ≡ None }
        requires prepared { IsPrepared airport.now flight.steps self.old }
        requires absent { has_holder flight.name self.old.state ≡ false }
        requires few { holder_count self.old.state < 4096 }
        requires feasible { IsFeasibleWalk (conditions_in airport.now flight.class self.old.state) flight.steps }
        ensures state { self.new.state ≡ with_flight flight self.old.state }
        ensures unlifted { self.new.lifted ≡ None }
        ensures room { self.new.room + 1 ≡ self.old.room }
        ensures party_room { self.new.party_room ≡ self.old.party_room }
        ensures kept { KeepsWindows IsApartFrom airport.now.conflicts (flight_holds airport.now flight) self.old.store self.new.store }
        ensures nodes { KeepsNodes self.old.store self.new.store }
        ensures fits { Fits airport.now self.new }
    {
        hold_flight(&mut self.held, airport, &flight);
        self.holders.flights.insert(flight);
    }

    /// Takes the flight of a name out of force. It needs no memory, and there is room for it afterwards. A window that
    /// neither meets nor touches its route stays as it is.
    pub fn cancel(&mut self, airport: &Airport, name: &Name) -> Option<Flight>
        requires fits { Fits airport.now self.old }
        requires unlifted { self.old.lifted ≡ None }
        ensures flight { result ≡ flight_named name.now self.old.state.flights }
        ensures state { IfSome result (λ _. self.new.state ≡ without name.now self.old.state) }
        ensures unlifted { self.new.lifted ≡ None }
        ensures unchanged { IfNone result (self.new ≡ self.old) }
        ensures prepared { IfSome result (λ flight. IsPrepared airport.now flight.steps self.new) }
        ensures room { IfSome result (λ _. self.new.room ≡ self.old.room + 1) }
        ensures party_room { self.new.party_room ≡ self.old.party_room }
        ensures kept { IfSome result (λ flight. KeepsWindows IsClearOf airport.now.conflicts (flight_holds airport.now flight) self.old.store self.new.store) }
        ensures nodes { KeepsNodes self.old.store self.new.store }
        ensures fits { Fits airport.now self.new }
    {
        let place = self.holders.flights.place(name)?;
        let number = self.holders.parties.count() + place;
        free_holder(&mut self.held, airport, &self.holders, number);
        Some(self.holders.flights.remove(place))
    }

    /// Lifts the flight of a name: the windows are from now on those that the others leave, and there is room for its
    /// steps. It needs no memory, and what there was room for before there is room for still.
    pub fn lift(&mut self, airport: &Airport, name: &Name)
        requires fits { Fits airport.now self.old }
        requires unlifted { self.old.lifted ≡ None }
        requires in_force { IsSome (flight_named name.now self.old.state.flights) }
        ensures state { self.new.state ≡ self.old.state }
        ensures lifted { self.new.lifted ≡ Some name.now }
        ensures prepared { (steps : List StepRow) → HasRoomFor airport.now.conflicts steps self.old.store → HasRoomFor airport.now.conflicts steps self.new.store }
        ensures room { self.new.room ≡ self.old.room }
        ensures party_room { self.new.party_room ≡ self.old.party_room }
        ensures nodes { KeepsNodes self.old.store self.new.store }
        ensures fits { Fits airport.now self.new }
    {
        let place = self.holders.flights.place(name).unwrap();
        let number = self.holders.parties.count() + place;
        free_holder(&mut self.held, airport, &self.holders, number);
        self.lifted = Some(*name);
    }

    /// Puts the lifted flight back: the windows are again those that all holders leave. It needs no memory.
    pub fn lower(&mut self, airport: &Airport)
        requires fits { Fits airport.now self.old }
        requires lifted { IsSome self.old.lifted }
        ensures state { self.new.state ≡ self.old.state }
        ensures unlifted { self.new.lifted ≡ None }
        ensures room { self.new.room ≡ self.old.room }
        ensures party_room { self.new.party_room ≡ self.old.party_room }
        ensures nodes { KeepsNodes self.old.store self.new.store }
        ensures fits { Fits airport.now self.new }
    {
        let name = self.lifted.take().unwrap();
        let place = self.holders.flights.place(&name).unwrap();
        let flight = self.holders.flights.at(place);
        hold_flight(&mut self.held, airport, flight);
    }

    /// Puts the lifted flight back with another request and other steps. It needs no memory.
    pub fn replace(&mut self, airport: &Airport, request: Request, steps: List<Step>)
        requires fits { Fits airport.now self.old }
        requires lifted { IsSome self.old.lifted }
        requires prepared { HasRoomFor airport.now.conflicts steps self.old.store }
        requires feasible { ForSome (lifted_flight self.old) (λ flight. IsFeasibleWalk (conditions_of airport.now self.old.state flight) steps) }
        ensures state { IfSome (lifted_flight self.old) (λ flight. self.new.state ≡ with_route flight request steps self.old.state) }
        ensures unlifted { self.new.lifted ≡ None }
        ensures room { self.new.room ≡ self.old.room }
        ensures party_room { self.new.party_room ≡ self.old.party_room }
        ensures nodes { KeepsNodes self.old.store self.new.store }
        ensures fits { Fits airport.now self.new }
    {
        let name = self.lifted.take().unwrap();
        let place = self.holders.flights.place(&name).unwrap();
        let mut flight = self.holders.flights.remove(place);
        flight.request = request;
        flight.steps = steps;
        hold_flight(&mut self.held, airport, &flight);
        self.holders.flights.insert(flight);
    }
}
