//! Flights that are served, taken out again, and put back.
ghost use Rattle.std.specs.Prelude.{◌≡◌, ◌+◌, ◌<◌, ◌≤◌, ◌^◌, length, List, All, IfOk, OnOk, OnErr, IsFalse, None};
ghost use Rattle.taxi_base.specs.Walks.{Meets};
ghost use Rattle.taxi_base.specs.State.{State, has_holder, holder_count, with_flight};
ghost use Rattle.taxi_base.specs.Faults.{conditions_in};
ghost use Rattle.replies.specs.declared.wish.Wish.{Wish as WishSeen};
ghost use Rattle.replies.specs.Routed.{routed_flight};
ghost use Rattle.replies.specs.Batches.{IsServedAs, IsServed};
ghost use Rattle.commitments.specs.Book.{Fits};
ghost use Rattle.sequence_exchange.specs.Serving.{IsShortRequest, AreNew};

use crate::routing::{find_route, second_of};
use airport_file::Airport;
use commitments::Ledger;
use place_cells::SearchRoom;
use replies::{Entry, Wish};
use std::alloc::Global;
use taxi_base::{Flight, Found, List, Memory, Name, Step};

/// Serves wishes one after the other, each among the holders that are in force at its turn. After an error none of their flights is.
pub(crate) fn serve_all(
    alloc: Global,
    room: &mut SearchRoom,
    airport: &Airport,
    ledger: &mut Ledger,
    wishes: &[Wish],
) -> Result<Vec<(Name, Entry)>, Memory>
    requires fits { Fits airport.now ledger.old }
    requires unlifted { ledger.old.lifted ≡ None }
    requires asked { All (λ wish. IsShortRequest wish.request) wishes.now }
    requires new { AreNew ledger.old.state wishes.now }
    requires few { holder_count ledger.old.state + length wishes.now ≤ 4096 }
    ensures ok { IfOk result (λ entries. IsServed airport.now ledger.old.state wishes.now entries.items ledger.new.state) }
    ensures err { OnErr result (ledger.new.state ≡ ledger.old.state) }
    ensures unlifted { ledger.new.lifted ≡ None }
    ensures fits { Fits airport.now ledger.new }
{
    let mut entries = Vec::with_capacity(alloc, wishes.len())?;
    for wish in wishes {
        match serve(alloc, room, airport, ledger, wish) {
            Ok(entry) => entries.push_reserved((wish.name, entry)),
            Err(memory) => {
                take_out(airport, ledger, entries.as_slice());
                return Err(memory);
            }
        }
    }
    Ok(entries)
}

// Searches for the route of a new flight, and puts it in force where there is one. After an error all is as before.
fn serve(
    alloc: Global,
    room: &mut SearchRoom,
    airport: &Airport,
    ledger: &mut Ledger,
    wish: &Wish,
) -> Result<Entry, Memory>
    requires fits { Fits airport.now ledger.old }
    requires unlifted { ledger.old.lifted ≡ None }
    requires asked { IsShortRequest wish.now.request }
    requires absent { IsFalse (has_holder wish.now.name ledger.old.state) }
    requires few { holder_count ledger.old.state < 4096 }
    ensures ok { IfOk result (λ entry. IsServedAs airport.now ledger.old.state wish.now (wish.now.name, entry) ledger.new.state) }
    ensures err { OnErr result (ledger.new.state ≡ ledger.old.state) }
    ensures unlifted { ledger.new.lifted ≡ None }
    ensures fits { Fits airport.now ledger.new }
{
    match find_route(alloc, room, airport, ledger, wish)? {
        Found::Route { steps, labels } => {
            put_in_force(alloc, airport, ledger, wish, steps.as_slice())?;
            Ok(Entry::Route {
                second: second_of(&wish.request, steps.as_slice()),
                steps,
                labels,
            })
        }
        Found::NoRoute { labels } => Ok(Entry::NoRoute { labels }),
    }
}

// Puts a new flight in force on steps that do what it wishes for. After an error all is as before.
fn put_in_force(
    alloc: Global,
    airport: &Airport,
    ledger: &mut Ledger,
    wish: &Wish,
    steps: &[Step],
) -> Result<(), Memory>
    requires fits { Fits airport.now ledger.old }
    requires unlifted { ledger.old.lifted ≡ None }
    requires absent { IsFalse (has_holder wish.now.name ledger.old.state) }
    requires few { holder_count ledger.old.state < 4096 }
    requires met { Meets (conditions_in airport.now wish.now.class ledger.old.state) wish.now.request steps.now }
    ensures ok { OnOk result (ledger.new.state ≡ with_flight (routed_flight wish.now.name wish.now.class wish.now.request steps.now) ledger.old.state) }
    ensures err { OnErr result (ledger.new.state ≡ ledger.old.state) }
    ensures unlifted { ledger.new.lifted ≡ None }
    ensures fits { Fits airport.now ledger.new }
{
    // The airport keeps its rules, so a walk has few steps.
    let _horizon = airport.horizon();
    let flight = Flight {
        name: wish.name,
        class: wish.class,
        request: wish.request,
        steps: copy_of(alloc, steps)?,
    };
    ledger.prepare(airport, steps)?;
    ledger.commit(airport, flight);
    Ok(())
}

// The same steps.
fn copy_of(alloc: Global, steps: &[Step]) -> Result<List<Step>, Memory>
    ensures { IfOk result (λ copy. copy ≡ steps.now) }
{
    let mut copy = List::with_capacity(alloc, steps.len())?;
    for step in steps {
        copy.push(*step)?;
    }
    Ok(copy)
}

/// Takes the flights of entries out again, which were served one after the other. It needs no memory.
pub(crate) fn take_out(airport: &Airport, ledger: &mut Ledger, entries: &[(Name, Entry)])
    requires fits { Fits airport.now ledger.old }
    requires unlifted { ledger.old.lifted ≡ None }
    ensures state { (before : State) (wishes : List WishSeen) → AreNew before wishes → IsServed airport.now before wishes entries.now ledger.old.state → ledger.new.state ≡ before }
    ensures unlifted { ledger.new.lifted ≡ None }
    ensures fits { Fits airport.now ledger.new }
{
    let mut left = entries.len();
    while left > 0 {
        left -= 1;
        let (name, _) = &entries[left];
        ledger.cancel(airport, name);
    }
}

/// Puts flights back that were taken out, on the routes that they had. It searches for none. After an error none of them is in force.
pub(crate) fn put_back(
    alloc: Global,
    airport: &Airport,
    ledger: &mut Ledger,
    wishes: &[Wish],
    entries: &[(Name, Entry)],
) -> Result<(), Memory>
    requires fits { Fits airport.now ledger.old }
    requires unlifted { ledger.old.lifted ≡ None }
    requires served { (after : State) × IsServed airport.now ledger.old.state wishes.now entries.now after }
    requires new { AreNew ledger.old.state wishes.now }
    requires few { holder_count ledger.old.state + length wishes.now ≤ 4096 }
    ensures ok { (after : State) → IsServed airport.now ledger.old.state wishes.now entries.now after → OnOk result (ledger.new.state ≡ after) }
    ensures err { OnErr result (ledger.new.state ≡ ledger.old.state) }
    ensures unlifted { ledger.new.lifted ≡ None }
    ensures fits { Fits airport.now ledger.new }
{
    for place in 0..wishes.len() {
        let (_, entry) = &entries[place];
        let put = put_one_back(alloc, airport, ledger, &wishes[place], entry);
        if put.is_err() {
            take_out(airport, ledger, &entries[..place]);
            return put;
        }
    }
    Ok(())
}

// Puts one flight back, where it had a route.
fn put_one_back(
    alloc: Global,
    airport: &Airport,
    ledger: &mut Ledger,
    wish: &Wish,
    entry: &Entry,
) -> Result<(), Memory>
    requires fits { Fits airport.now ledger.old }
    requires unlifted { ledger.old.lifted ≡ None }
    requires served { (after : State) × IsServedAs airport.now ledger.old.state wish.now (wish.now.name, entry.now) after }
    requires absent { IsFalse (has_holder wish.now.name ledger.old.state) }
    requires few { holder_count ledger.old.state < 4096 }
    ensures ok { (after : State) → IsServedAs airport.now ledger.old.state wish.now (wish.now.name, entry.now) after → OnOk result (ledger.new.state ≡ after) }
    ensures err { OnErr result (ledger.new.state ≡ ledger.old.state) }
    ensures unlifted { ledger.new.lifted ≡ None }
    ensures fits { Fits airport.now ledger.new }
{
    match entry {
        Entry::Route { steps, .. } => put_in_force(alloc, airport, ledger, wish, steps.as_slice()),
        _ => Ok(()),
    }
}
