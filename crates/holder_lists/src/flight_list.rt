//! Flights in a slab, and their keys in the order of their names.
ghost use Rattle.std.specs.Prelude.{◌≡◌, ◌+◌, ◌<◌, ◌≤◌, [], Some, None, length, remove, slice_get, IsTrue, IfOk, OnOk, option_copied};
ghost use Rattle.holder_lists.specs.Lists.{IsBook};
ghost use Rattle.holder_lists.specs.NameOrder.{order_of, order_at};
ghost use Rattle.holder_lists.specs.Places.{IsPlace, IsFlightPlace};
ghost use Rattle.taxi_base.specs.State.{flight_named, flights_with};
ghost use Rattle.taxi_base.specs.Words.{is_name};

use crate::name_order::{order_at, order_of};
use slab::Slab;
use std::alloc::Global;
use std::marker::Model;
use taxi_base::{Flight, MOST_HOLDERS, Memory, Name};

// So many keys are told apart in two bytes.
const MOST_KEYS: usize = 1 << 16;

/// The flights in force, by rising names, each with at least one step, of which there are 4,096 at most. The slab never grows, so
/// that a key takes two bytes, and little is moved where a name goes in or out.
#[derive(Drop)]
pub struct FlightList {
    flights: Slab<Flight>,
    // At the key of each flight the number of its name.
    orders: Vec<u128>,
    // In the order of the flights' names.
    keys: Vec<u16>,
}

impl Model for FlightList {
    ghost use Rattle.std.specs.Prelude.{◌≡◌, ◌-◌, ◌^◌, ◌≤◌, length, min, vec_len, vec_capacity};
    ghost use Rattle.slab.specs.Slab.{slab_len};
    ghost use Rattle.holder_lists.specs.Lists.{Listing};
    ghost use Rattle.holder_lists.specs.Kept.{flights_of, IsKept};
    ghost use Rattle.holder_lists.specs.NameOrder.{AreNumbered};

    ghost Value = { Listing };

    ghost view = { λ l. record {
      flights = flights_of l.flights l.keys.items;
      room = min (l.flights.capacity - slab_len l.flights) (vec_capacity l.keys - vec_len l.keys);
    } };

    ghost invariant = { λ l.
        IsKept l.flights l.keys.items × AreNumbered l.flights l.orders.items × (l.flights.capacity ≤ length l.orders.items) × (l.flights.capacity ≤ 2 ^ 16)
        × (slab_len l.flights ≡ length l.keys.items) × (4096 ≤ l.flights.capacity) };
}

impl FlightList {
    /// No flight.
    pub fn new(alloc: Global) -> Result<FlightList, Memory>
        ensures { IfOk result (λ l. l.flights ≡ []) }
    {
        let flights = Slab::with_capacity(alloc, MOST_HOLDERS)?;
        if MOST_KEYS < flights.capacity() {
            return Err(Memory::for_so_many(flights.capacity()));
        }
        let orders = Vec::from_elem(alloc, 0, flights.capacity())?;
        Ok(FlightList {
            flights,
            orders,
            keys: Vec::new(alloc),
        })
    }

    /// How many flights are in force.
    pub fn count(&self) -> usize
        ensures count { result ≡ length self.now.flights }
        ensures book { IsBook self.now.flights }
    {
        self.keys.len()
    }

    /// The flight at a place, by rising names.
    pub fn at(&self, place: usize) -> &Flight
        requires { place < length self.now.flights }
        ensures { slice_get self.now.flights place ≡ Some result.now }
    {
        &self.flights[self.keys[place] as usize]
    }

    /// The place of the flight of a name.
    pub fn place(&self, name: &Name) -> Option<usize>
        ensures { IsFlightPlace self.now.flights name.now result }
    {
        self.place_of(name, order_of(name)).ok()
    }

    /// The flight of a name.
    pub fn flight(&self, name: &Name) -> Option<&Flight>
        ensures { option_copied result ≡ flight_named name.now self.now.flights }
    {
        let place = self.place(name)?;
        Some(self.at(place))
    }

    /// Makes room for one more flight. The flights stay, also where memory runs out.
    pub fn prepare(&mut self) -> Result<(), Memory>
        requires few { length self.old.flights < 4096 }
        ensures room { OnOk result (1 ≤ self.new.room) }
        ensures flights { self.new.flights ≡ self.old.flights }
        ensures kept { self.old.room ≤ self.new.room }
    {
        self.keys.reserve(1)?;
        Ok(())
    }

    /// Puts a flight among the others. It needs no memory.
    pub fn insert(&mut self, flight: Flight)
        requires room { 1 ≤ self.old.room }
        requires absent { flight_named flight.name self.old.flights ≡ None }
        requires routed { 1 ≤ length flight.steps }
        ensures flights { self.new.flights ≡ flights_with flight self.old.flights }
        ensures room { self.new.room + 1 ≡ self.old.room }
    {
        let order = order_of(&flight.name);
        let place = self.place_of(&flight.name, order).unwrap_err();
        let key = self.flights.insert_reserved(flight);
        self.orders[key] = order;
        self.keys.insert(place, key as u16).unwrap();
    }

    /// Takes the flight at a place out. It needs no memory, and leaves room for one flight more.
    pub fn remove(&mut self, place: usize) -> Flight
        requires { place < length self.old.flights }
        ensures flight { slice_get self.old.flights place ≡ Some result }
        ensures flights { self.new.flights ≡ remove self.old.flights place }
        ensures room { self.new.room ≡ self.old.room + 1 }
    {
        let key = self.keys.remove(place);
        self.flights.remove(key as usize)
    }

    // The place of the flight of a name, whose number this is, or where its key would go.
    fn place_of(&self, name: &Name, order: u128) -> Result<usize, usize>
        requires order { order ≡ order_of name.now }
        requires name { IsTrue (is_name name.now) }
        ensures place { IsPlace (λ f. f.name) self.now.flights name.now result }
        ensures book { IsBook self.now.flights }
    {
        let _name = name;
        let orders = &self.orders;
        self.keys
            .binary_search_by(|key| order_at(orders, *key as usize, order))
    }
}
