//! New flights that are routed together, in the order in which the exchange of neighbours ends.
ghost use Rattle.std.specs.Prelude.{ℕ, ◌≡◌, ◌+◌, ◌≤◌, List, length, All, IsTrue, OnOk, OnErr, None};
ghost use Rattle.taxi_base.specs.State.{State, holder_count};
ghost use Rattle.taxi_text.specs.Commands.{is_batch_count};
ghost use Rattle.taxi_text.specs.declared.command.Command.TheVariants as command;
ghost use Rattle.replies.specs.declared.block.Block.TheVariants as block;
ghost use Rattle.replies.specs.declared.entries.Entry.{Entry};
ghost use Rattle.replies.specs.declared.wish.Wish.{Wish as WishSeen};
ghost use Rattle.replies.specs.Texts.{block_text};
ghost use Rattle.replies.specs.Printable.{IsName};
ghost use Rattle.replies.specs.Asked.{asked_in, IsAskedInGrammar};
ghost use Rattle.replies.specs.Batches.{IsSequenced};
ghost use Rattle.commitments.specs.Book.{Fits};
ghost use Rattle.sequence_exchange.specs.Serving.{IsShortRequest, AreNew};
ghost use Rattle.taxi_engine.specs.Done.{IsDoneOrMemory};
ghost use Rattle.taxi_engine.specs.Batched.{IsSequencedTold};

use crate::Engine;
use crate::reply::ReplyText;
use airport_file::Airport;
use command_refusals::asked_batch;
use commitments::Ledger;
use place_cells::SearchRoom;
use replies::Wish;
use sequence_exchange::{sequence, undo};
use std::alloc::Global;
use taxi_base::{Memory, Refusal};
use taxi_text::BatchRequest;

impl Engine {
    /// Routes the flights of a batch, or refuses it.
    pub(crate) fn route_batch(&mut self, requests: &[BatchRequest])
        requires each { All (λ request. IsAskedInGrammar (asked_in request)) requests.now }
        requires count { IsTrue (is_batch_count (length requests.now)) }
        ensures { IsDoneOrMemory (command.Batch requests.now) self.old self.new }
    {
        match asked_batch(self.alloc, &self.airport, &self.ledger, requests) {
            Ok(wishes) => self.tell_sequenced(wishes.as_slice()),
            Err(why) => self.refuse(&why),
        }
    }

    // Routes new flights together, and tells what came of it. Where memory runs out nothing else changes.
    fn tell_sequenced(&mut self, wishes: &[Wish])
        requires names { All (λ wish. IsName wish.name) wishes.now }
        requires asked { All (λ wish. IsShortRequest wish.request) wishes.now }
        requires new { AreNew self.old.state wishes.now }
        requires few { holder_count self.old.state + length wishes.now ≤ 4096 }
        requires count { length wishes.now ≤ 6 }
        ensures { IsSequencedTold wishes.now self.old self.new }
    {
        let (room, reply) = (&mut self.room, &mut self.reply);
        let (airport, ledger) = (&self.airport, &mut self.ledger);
        if print_sequenced(self.alloc, room, airport, ledger, reply, wishes).is_err() {
            self.refuse(&Refusal::Memory);
        }
    }
}

// Routes new flights together, and writes what came of it as the reply. After an error none of them is in force.
fn print_sequenced(
    alloc: Global,
    room: &mut SearchRoom,
    airport: &Airport,
    ledger: &mut Ledger,
    reply: &mut ReplyText,
    wishes: &[Wish],
) -> Result<(), Memory>
    requires fits { Fits airport.now ledger.old }
    requires unlifted { ledger.old.lifted ≡ None }
    requires names { All (λ wish. IsName wish.name) wishes.now }
    requires asked { All (λ wish. IsShortRequest wish.request) wishes.now }
    requires new { AreNew ledger.old.state wishes.now }
    requires few { holder_count ledger.old.state + length wishes.now ≤ 4096 }
    requires count { length wishes.now ≤ 6 }
    ensures ok { OnOk result ((total : ℕ) × (entries : List (List ℕ × Entry)) × IsSequenced airport.now ledger.old.state wishes.now total entries ledger.new.state × (reply.new ≡ block_text airport.now (block.Batch total entries))) }
    ensures err { OnErr result (ledger.new.state ≡ ledger.old.state) }
    ensures unlifted { ledger.new.lifted ≡ None }
    ensures fits { Fits airport.now ledger.new }
{
    // The airport keeps its rules, so what is due can be written.
    let _horizon = airport.horizon();
    let done = sequence(alloc, room, airport, ledger, wishes)?;
    let printed = reply.print_batch(airport, done.total, &done.entries);
    if printed.is_err() {
        undo(airport, ledger, &done.entries);
    }
    printed
}
