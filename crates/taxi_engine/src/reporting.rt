//! The reports of what holds a segment, and of the flights in force.
ghost use Rattle.std.specs.Prelude.{◌≡◌, ◌<◌, List, length, OnOk};
ghost use Rattle.taxi_base.specs.declared.rows.HeldRow.{HeldRow};
ghost use Rattle.taxi_base.specs.State.{IsSound};
ghost use Rattle.taxi_base.specs.Reports.{timetable_rows, AreHeldRows};
ghost use Rattle.taxi_text.specs.declared.command.Command.TheVariants as asked;
ghost use Rattle.replies.specs.declared.block.Block.TheVariants as block;
ghost use Rattle.replies.specs.Texts.{block_text};
ghost use Rattle.replies.specs.Replies.{HaveNames};
ghost use Rattle.taxi_engine.specs.Done.{IsDoneOrMemory};

use crate::Engine;
use crate::reply::ReplyText;
use airport_file::Airport;
use commitments::Ledger;
use ledger_reports::{occupancy, timetable};
use replies::Block;
use std::alloc::Global;
use taxi_base::{Memory, Name, Refusal, Segment};

impl Engine {
    /// Tells what holds the segment of a name, or that there is none.
    pub(crate) fn tell_occupancy(&mut self, segment: &Name)
        ensures { IsDoneOrMemory (asked.Occupancy segment.now) self.old self.new }
    {
        let Some(segment) = self.airport.segment_named(segment) else {
            self.refuse(&Refusal::UnknownSegment);
            return;
        };
        let reply = &mut self.reply;
        if print_occupancy(self.alloc, &self.airport, &self.ledger, segment, reply).is_err() {
            self.refuse(&Refusal::Memory);
        }
    }

    /// Tells the flights in force.
    pub(crate) fn tell_timetable(&mut self)
        ensures { IsDoneOrMemory asked.Timetable self.old self.new }
    {
        let reply = &mut self.reply;
        if print_timetable(self.alloc, &self.airport, &self.ledger, reply).is_err() {
            self.refuse(&Refusal::Memory);
        }
    }
}

// Writes what holds a segment as the reply.
fn print_occupancy(
    alloc: Global,
    airport: &Airport,
    ledger: &Ledger,
    segment: Segment,
    reply: &mut ReplyText,
) -> Result<(), Memory>
    requires exists { segment.0 < length airport.now.segments }
    requires sound { IsSound airport.now ledger.now.state }
    requires names { HaveNames ledger.now.state }
    ensures { OnOk result ((rows : List HeldRow) × AreHeldRows airport.now ledger.now.state segment rows × (reply.new ≡ block_text airport.now (block.Occupancy segment rows))) }
{
    // The airport keeps its rules, so each row is of one of its segments.
    let _ = airport.horizon();
    let held = occupancy(alloc, airport, ledger, segment)?;
    reply.print(airport, Block::Occupancy { segment, held })
}

// Writes the flights in force as the reply.
fn print_timetable(
    alloc: Global,
    airport: &Airport,
    ledger: &Ledger,
    reply: &mut ReplyText,
) -> Result<(), Memory>
    requires sound { IsSound airport.now ledger.now.state }
    requires names { HaveNames ledger.now.state }
    ensures { OnOk result (reply.new ≡ block_text airport.now (block.Timetable (timetable_rows ledger.now.state))) }
{
    // The airport keeps its rules, so each flight is of one of its classes.
    let _ = airport.horizon();
    let flights = timetable(alloc, ledger)?;
    reply.print(airport, Block::Timetable { flights })
}
