//! The order in which the exchange of neighbours ends.
ghost use Rattle.std.specs.Prelude.{ℕ, ◌≡◌, ◌+◌, ◌≤◌, length, List, All, IfOk, OnErr, None};
ghost use Rattle.taxi_base.specs.State.{State, holder_count};
ghost use Rattle.replies.specs.declared.wish.Wish.{Wish as WishSeen};
ghost use Rattle.replies.specs.Batches.{IsSequenced};
ghost use Rattle.commitments.specs.Book.{Fits};
ghost use Rattle.sequence_exchange.specs.Serving.{IsShortRequest, AreNew};

use crate::order::Order;
use crate::serving::take_out;
use airport_file::Airport;
use commitments::Ledger;
use place_cells::SearchRoom;
use replies::{Entries, Wish};
use std::alloc::Global;
use taxi_base::Memory;

/// What flights are told in the order in which they are served, and what all of them cost together.
#[derive(Drop)]
pub struct Sequenced {
    pub total: u32,
    pub entries: Entries,
}

/// Serves new flights in the order in which the exchange of neighbours ends, from the given one on. Those that have a route are in force
/// then. After an error none of them is. What an earlier search left in the room does not matter.
pub fn sequence(
    alloc: Global,
    room: &mut SearchRoom,
    airport: &Airport,
    ledger: &mut Ledger,
    wishes: &[Wish],
) -> Result<Sequenced, Memory>
    requires fits { Fits airport.now ledger.old }
    requires unlifted { ledger.old.lifted ≡ None }
    requires asked { All (λ wish. IsShortRequest wish.request) wishes.now }
    requires new { AreNew ledger.old.state wishes.now }
    requires few { holder_count ledger.old.state + length wishes.now ≤ 4096 }
    requires count { length wishes.now ≤ 6 }
    ensures ok { IfOk result (λ done. IsSequenced airport.now ledger.old.state wishes.now done.total done.entries ledger.new.state) }
    ensures err { OnErr result (ledger.new.state ≡ ledger.old.state) }
    ensures unlifted { ledger.new.lifted ≡ None }
    ensures fits { Fits airport.now ledger.new }
{
    let mut order = Order::serve(alloc, room, airport, ledger, wishes)?;
    let mut place = 0;
    while place + 1 < wishes.len() {
        let is_cheaper = order.exchange(alloc, room, airport, ledger, place)?;
        place = if is_cheaper { 0 } else { place + 1 };
    }
    Ok(Sequenced {
        total: order.total,
        entries: Entries::of(order.entries),
    })
}

/// Takes flights that were sequenced out again. It needs no memory.
pub fn undo(airport: &Airport, ledger: &mut Ledger, entries: &Entries)
    requires fits { Fits airport.now ledger.old }
    requires unlifted { ledger.old.lifted ≡ None }
    ensures state { (before : State) (wishes : List WishSeen) (total : ℕ) → AreNew before wishes → IsSequenced airport.now before wishes total entries.now ledger.old.state → ledger.new.state ≡ before }
    ensures unlifted { ledger.new.lifted ≡ None }
    ensures fits { Fits airport.now ledger.new }
{
    take_out(airport, ledger, entries.as_slice());
}
