//! A flight that stays on its segment longer than planned, and everyone in its way.
ghost use Rattle.std.specs.Prelude.{◌≡◌, OnOk, OnErr, None};
ghost use Rattle.taxi_base.specs.State.{IsSound, IsFeasibleState};
ghost use Rattle.taxi_text.specs.declared.command.Command.TheVariants as command;
ghost use Rattle.replies.specs.declared.block.Block.{Block as BlockSeen};
ghost use Rattle.replies.specs.Texts.{block_text};
ghost use Rattle.replies.specs.Printable.{IsName};
ghost use Rattle.replies.specs.Refusals.{first_refusal};
ghost use Rattle.replies.specs.Replies.{HaveNames};
ghost use Rattle.replies.specs.Repairs.{IsRepairTold};
ghost use Rattle.block_writer.specs.Printed.{IsWritable};
ghost use Rattle.commitments.specs.Book.{Fits};
ghost use Rattle.commitments.specs.Room.{HasRoomForAll};
ghost use Rattle.late_repair.specs.TakenOut.{taken_back};
ghost use Rattle.taxi_engine.specs.Done.{IsDoneOrMemory};
ghost use Rattle.taxi_engine.specs.Repaired.{IsRepairedTold};

use crate::Engine;
use crate::reply::ReplyText;
use airport_file::Airport;
use command_refusals::asked_late;
use commitments::Ledger;
use late_repair::{Lateness, Repaired, TakenOut, repair, take_back};
use place_cells::SearchRoom;
use replies::Block;
use std::alloc::Global;
use taxi_base::{Memory, Name, Refusal, Time};

impl Engine {
    /// Keeps a flight on its step at a time until a second and lets those in its way take their turns, or refuses it.
    pub(crate) fn repair_late(&mut self, flight: &Name, time: Time, until: Time)
        requires { IsName flight.now }
        ensures { IsDoneOrMemory (command.Late flight.now time until) self.old self.new }
    {
        match asked_late(&self.airport, &self.ledger, flight, time, until) {
            Ok(()) => self.tell_repaired(&Lateness {
                flight: *flight,
                time,
                until,
            }),
            Err(why) => self.refuse(&why),
        }
    }

    // Repairs, and tells what came of it. Where memory runs out nothing else changes.
    fn tell_repaired(&mut self, late: &Lateness)
        requires name { IsName late.now.flight }
        requires none { first_refusal self.old.airport self.old.state (command.Late late.now.flight late.now.time late.now.until) ≡ None }
        ensures { IsRepairedTold late.now.flight late.now.time late.now.until self.old self.new }
    {
        let (room, reply) = (&mut self.room, &mut self.reply);
        let (airport, ledger) = (&self.airport, &mut self.ledger);
        if print_repaired(self.alloc, room, airport, ledger, reply, late).is_err() {
            self.refuse(&Refusal::Memory);
        }
    }
}

// Repairs, and writes what comes of it as the reply. After an error all are in force as before.
fn print_repaired(
    alloc: Global,
    room: &mut SearchRoom,
    airport: &Airport,
    ledger: &mut Ledger,
    reply: &mut ReplyText,
    late: &Lateness,
) -> Result<(), Memory>
    requires fits { Fits airport.now ledger.old }
    requires unlifted { ledger.old.lifted ≡ None }
    requires sound { IsSound airport.now ledger.old.state }
    requires named { HaveNames ledger.old.state }
    requires name { IsName late.now.flight }
    requires none { first_refusal airport.now ledger.old.state (command.Late late.now.flight late.now.time late.now.until) ≡ None }
    ensures told { OnOk result ((block : BlockSeen) × IsRepairTold airport.now ledger.old.state late.now.flight late.now.time late.now.until block ledger.new.state × (reply.new ≡ block_text airport.now block)) }
    ensures sound { OnOk result (IsSound airport.now ledger.new.state) }
    ensures named { OnOk result (HaveNames ledger.new.state) }
    ensures err { OnErr result (ledger.new.state ≡ ledger.old.state) }
    ensures unlifted { ledger.new.lifted ≡ None }
    ensures fits { Fits airport.now ledger.new }
{
    // The airport keeps its rules, so what is due can be written.
    let _horizon = airport.horizon();
    let Repaired { entries, before } = repair(alloc, room, airport, ledger, late)?;
    let block = Block::Late {
        flight: late.flight,
        entries,
    };
    print_late(airport, ledger, reply, block, before)
}

// Writes the block of a repair as the reply. Where memory runs out those who were taken out are in force again as before.
fn print_late(
    airport: &Airport,
    ledger: &mut Ledger,
    reply: &mut ReplyText,
    block: Block,
    before: TakenOut,
) -> Result<(), Memory>
    requires fits { Fits airport.now ledger.old }
    requires unlifted { ledger.old.lifted ≡ None }
    requires writable { IsWritable airport.now block }
    requires feasible { IsFeasibleState airport.now (taken_back before ledger.old.state) }
    requires room { HasRoomForAll airport.now (taken_back before ledger.old.state) ledger.old }
    ensures text { OnOk result (reply.new ≡ block_text airport.now block) }
    ensures kept { OnOk result (ledger.new.state ≡ ledger.old.state) }
    ensures err { OnErr result (ledger.new.state ≡ taken_back before ledger.old.state) }
    ensures unlifted { ledger.new.lifted ≡ None }
    ensures fits { Fits airport.now ledger.new }
{
    match reply.print(airport, block) {
        Ok(()) => Ok(()),
        Err(memory) => {
            take_back(airport, ledger, before);
            Err(memory)
        }
    }
}
