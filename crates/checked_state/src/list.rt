//! Flights by rising names, each in a box of its own.
ghost use Rattle.std.specs.Prelude.{map};
ghost use Rattle.checked_state.specs.Order.{AreInOrder};

use crate::copies::copy_boxes;
use std::alloc::Global;
use taxi_base::{Flight, List, Memory, Name, Request, Step};

/// Flights, by rising names always. Each lies in a box of its own, so that one that goes in or out moves no other.
#[derive(Drop)]
pub struct FlightList {
    boxes: Vec<Box<Flight>>,
    pub ghost ordered: { AreInOrder (map (λ b. b.value) boxes.items) },
}

impl FlightList {
    ghost use Rattle.std.specs.Prelude.{◌≡◌, ◌<◌, ◌^◌, [], Err, IfOk, OnOk, OnErr, length, slice_index_or, slice_set};
    ghost use Rattle.std.specs.List.{insert, remove};
    ghost use Rattle.taxi_base.specs.declared.answers.Flight.{Flight};
    ghost use Rattle.checked_state.specs.Order.{IsPlace};
    ghost use Rattle.checked_state.specs.Flights.{flights_of};

    /// No flight.
    pub(crate) fn new(alloc: Global) -> FlightList
        ensures { flights_of result ≡ [] }
    {
        FlightList {
            boxes: Vec::new(alloc),
        }
    }

    /// The same flights once more.
    pub(crate) fn copy(&self) -> Result<FlightList, Memory>
        ensures { IfOk result (λ copy. flights_of copy ≡ flights_of self.now) }
    {
        let alloc = *self.boxes.allocator();
        let boxes = copy_boxes(alloc, &self.boxes)?;
        Ok(FlightList { boxes })
    }

    /// How many flights there are.
    pub fn len(&self) -> usize
        ensures count { result ≡ length (flights_of self.now) }
        ensures range { result < 2 ^ 63 }
    {
        self.boxes.len()
    }

    /// The flight at a place.
    pub fn at(&self, place: usize) -> &Flight
        requires { place < length (flights_of self.now) }
        ensures { result.now ≡ slice_index_or (flights_of self.now) place result.now }
    {
        &self.boxes[place]
    }

    /// The place of a name, or where it would go.
    pub(crate) fn place_of(&self, name: &Name) -> Result<usize, usize>
        ensures { IsPlace (λ f. f.name) (flights_of self.now) name.now result }
    {
        self.boxes.binary_search_by_key(name, |flight| flight.name)
    }

    /// Puts a flight in at the place where its name goes. Where memory runs out nothing changes.
    pub(crate) fn insert(&mut self, place: usize, flight: Flight) -> Result<(), Memory>
        requires { IsPlace (λ f. f.name) (flights_of self.old) flight.name (Err place) }
        ensures ok { OnOk result (flights_of self.new ≡ insert (flights_of self.old) place flight) }
        ensures err { OnErr result (flights_of self.new ≡ flights_of self.old) }
    {
        let alloc = *self.boxes.allocator();
        let boxed = Box::new(alloc, flight)?;
        self.boxes.insert(place, boxed)?;
        Ok(())
    }

    /// Takes the flight at a place out.
    pub(crate) fn remove(&mut self, place: usize) -> Flight
        requires { place < length (flights_of self.old) }
        ensures value { result ≡ slice_index_or (flights_of self.old) place result }
        ensures items { flights_of self.new ≡ remove (flights_of self.old) place }
    {
        Box::into_inner(self.boxes.remove(place))
    }

    /// Gives the flight at a place another request and other steps.
    pub(crate) fn set_route(&mut self, place: usize, request: Request, steps: List<Step>)
        requires { place < length (flights_of self.old) }
        ensures { (flight : Flight) → flight ≡ slice_index_or (flights_of self.old) place flight → flights_of self.new ≡ slice_set (flights_of self.old) place (record flight { request = request; steps = steps }) }
    {
        let flight: &mut Flight = &mut self.boxes[place];
        flight.request = request;
        flight.steps = steps;
    }
}
