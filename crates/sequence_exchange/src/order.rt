//! An order in which flights are served.
ghost use Rattle.std.specs.Prelude.{◌≡◌, ◌+◌, ◌<◌, ◌≤◌, ◌++◌, length, take, All, IfOk, OnErr, IsTrue, IsFalse, None};
ghost use Rattle.taxi_base.specs.State.{State, holder_count};
ghost use Rattle.replies.specs.Batches.{IsServed};
ghost use Rattle.commitments.specs.Book.{Fits};
ghost use Rattle.sequence_exchange.specs.Serving.{IsShortRequest, AreNew, AreFairFor, all_seconds_lost};
ghost use Rattle.sequence_exchange.specs.Orders.{IsServedFrom, IsTakenOut, IsExchanged, IsKept};

use crate::costs::total_cost;
use crate::serving::{put_back, serve_all, take_out};
use airport_file::Airport;
use commitments::Ledger;
use place_cells::SearchRoom;
use replies::{Entry, Wish};
use std::alloc::Global;
use taxi_base::{Memory, Name};

/// Wishes in an order, what each flight is told where they are served in it, and what all of them cost together.
#[derive(Drop)]
pub(crate) struct Order {
    pub(crate) wishes: Vec<Wish>,
    pub(crate) entries: Vec<(Name, Entry)>,
    pub(crate) total: u32,
}

impl Order {
    /// Serves wishes in the order given. After an error none of their flights is in force.
    pub(crate) fn serve(
        alloc: Global,
        room: &mut SearchRoom,
        airport: &Airport,
        ledger: &mut Ledger,
        wishes: &[Wish],
    ) -> Result<Order, Memory>
        requires fits { Fits airport.now ledger.old }
        requires unlifted { ledger.old.lifted ≡ None }
        requires asked { All (λ wish. IsShortRequest wish.request) wishes.now }
        requires new { AreNew ledger.old.state wishes.now }
        requires few { holder_count ledger.old.state + length wishes.now ≤ 4096 }
        requires count { length wishes.now ≤ 6 }
        ensures ok { IfOk result (λ order. IsServedFrom airport.now ledger.old.state order ledger.new.state) }
        ensures wishes { IfOk result (λ order. order.wishes.items ≡ wishes.now) }
        ensures err { OnErr result (ledger.new.state ≡ ledger.old.state) }
        ensures unlifted { ledger.new.lifted ≡ None }
        ensures fits { Fits airport.now ledger.new }
    {
        // The airport keeps its rules, so what is due costs no less than nothing.
        let _horizon = airport.horizon();
        let mut order = Vec::new(alloc);
        order.extend_from_slice(wishes)?;
        let entries = serve_all(alloc, room, airport, ledger, wishes)?;
        let total = total_cost(wishes, entries.as_slice());
        Ok(Order {
            wishes: order,
            entries,
            total,
        })
    }

    /// Exchanges the wishes at a place and behind it, where all cost less together then, and says whether they do. Those before them
    /// are not served again. Where they do not cost less, all is as before. After an error no flight of the order is in force.
    pub(crate) fn exchange(
        &mut self,
        alloc: Global,
        room: &mut SearchRoom,
        airport: &Airport,
        ledger: &mut Ledger,
        place: usize,
    ) -> Result<bool, Memory>
        requires fits { Fits airport.now ledger.old }
        requires unlifted { ledger.old.lifted ≡ None }
        requires served { (before : State) × IsServedFrom airport.now before self.old ledger.old.state }
        requires place { place + 1 < length self.old.wishes.items }
        ensures exchanged { (before : State) → IsServedFrom airport.now before self.old ledger.old.state → IfOk result (λ is_cheaper. IsTrue is_cheaper → IsExchanged airport.now before place self.old self.new ledger.new.state) }
        ensures kept { (before : State) → IsServedFrom airport.now before self.old ledger.old.state → IfOk result (λ is_cheaper. IsFalse is_cheaper → IsKept airport.now before place self.old self.new × (ledger.new.state ≡ ledger.old.state)) }
        ensures err { (before : State) → IsServedFrom airport.now before self.old ledger.old.state → OnErr result (ledger.new.state ≡ before) }
        ensures unlifted { ledger.new.lifted ≡ None }
        ensures fits { Fits airport.now ledger.new }
    {
        take_out(airport, ledger, &self.entries[place..]);
        let is_cheaper = self.exchange_rest(alloc, room, airport, ledger, place);
        if is_cheaper.is_err() {
            take_out(airport, ledger, &self.entries[..place]);
        }
        is_cheaper
    }

    // The same where the flights from the place on are out. After an error they are still.
    fn exchange_rest(
        &mut self,
        alloc: Global,
        room: &mut SearchRoom,
        airport: &Airport,
        ledger: &mut Ledger,
        place: usize,
    ) -> Result<bool, Memory>
        requires fits { Fits airport.now ledger.old }
        requires unlifted { ledger.old.lifted ≡ None }
        requires served { (before : State) × (now : State) × IsTakenOut airport.now before place self.old ledger.old.state now }
        requires place { place + 1 < length self.old.wishes.items }
        ensures exchanged { (before now : State) → IsTakenOut airport.now before place self.old ledger.old.state now → IfOk result (λ is_cheaper. IsTrue is_cheaper → IsExchanged airport.now before place self.old self.new ledger.new.state) }
        ensures kept { (before now : State) → IsTakenOut airport.now before place self.old ledger.old.state now → IfOk result (λ is_cheaper. IsFalse is_cheaper → IsKept airport.now before place self.old self.new × (ledger.new.state ≡ now)) }
        ensures err { OnErr result (ledger.new.state ≡ ledger.old.state) }
        ensures front { OnErr result (take place self.new.entries.items ≡ take place self.old.entries.items) }
        ensures unlifted { ledger.new.lifted ≡ None }
        ensures fits { Fits airport.now ledger.new }
    {
        // The airport keeps its rules, so what is due costs no less than nothing.
        let _horizon = airport.horizon();
        self.wishes.swap(place, place + 1);
        let tried = serve_all(alloc, room, airport, ledger, &self.wishes[place..])?;
        let total = self.total_with(place, tried.as_slice());
        if total < self.total {
            self.tell_from(place, tried, total);
            return Ok(true);
        }
        take_out(airport, ledger, tried.as_slice());
        self.wishes.swap(place, place + 1);
        put_back(
            alloc,
            airport,
            ledger,
            &self.wishes[place..],
            &self.entries[place..],
        )?;
        Ok(false)
    }
    // What all cost together where others are told from a place on.
    fn total_with(&self, place: usize, others: &[(Name, Entry)]) -> u32
        requires same { place + length others.now ≡ length self.now.wishes.items }
        requires front { length (take place self.now.entries.items) ≡ place }
        requires fair { AreFairFor self.now.wishes.items (take place self.now.entries.items ++ others.now) }
        requires few { length self.now.wishes.items ≤ 6 }
        ensures { result ≡ all_seconds_lost self.now.wishes.items (take place self.now.entries.items ++ others.now) }
    {
        total_cost(&self.wishes[..place], &self.entries[..place])
            + total_cost(&self.wishes[place..], others)
    }

    // Others are told from a place on, which are as many as were told from there. That needs no memory.
    fn tell_from(&mut self, place: usize, mut others: Vec<(Name, Entry)>, total: u32)
        requires { place + length others.items ≡ length self.old.entries.items }
        ensures wishes { self.new.wishes.items ≡ self.old.wishes.items }
        ensures entries { self.new.entries.items ≡ take place self.old.entries.items ++ others.items }
        ensures total { self.new.total ≡ total }
    {
        self.entries.truncate(place);
        self.entries.append(&mut others).unwrap();
        self.total = total;
    }
}
