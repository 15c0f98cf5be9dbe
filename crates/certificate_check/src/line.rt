//! The check of the block that answers a line.
ghost use Rattle.std.specs.Prelude.{◌≡◌, ◌↔◌, IsTrue, Some};
ghost use Rattle.taxi_base.specs.declared.answers.Refusal.TheVariants as refusal;
ghost use Rattle.taxi_base.specs.State.{IsSound};
ghost use Rattle.replies.specs.declared.block.Block.TheVariants.{Refused};
ghost use Rattle.replies.specs.Asked.{IsInGrammar};
ghost use Rattle.replies.specs.Replies.{NeedsNoMemory};
ghost use Rattle.checked_state.specs.Flights.{state_of};
ghost use Rattle.certificate_check.specs.Desk.{IsReady};
ghost use Rattle.certificate_check.specs.Judged.{IsPlain, IsJudged};
ghost use Rattle.transcripts.specs.Turns.{ChecksIn};
ghost use Rattle.certificate_check.specs.Checker.{IsBadLineChecked};

use crate::CheckRefused;
use crate::anew::{check_divert, check_reroute};
use crate::batch::check_batch;
use crate::choice::{check_arrival_any, check_departure_any};
use crate::filing::check_file;
use crate::late::check_late;
use crate::late_form::LateLine;
use crate::parties::{check_work, check_work_done};
use crate::plain::{check_cancel, check_windows};
use crate::reply::{is_refusal, pass_if};
use crate::reports::{check_occupancy, check_timetable};
use crate::searches::{check_arrival, check_departure};
use airport_file::Airport;
use check_rows::KnownWindows;
use checked_state::HeldFlights;
use replies::Block;
use std::alloc::Global;
use taxi_base::Refusal;
use taxi_text::{Command, CommandRefused, read_command};

/// Checks the block that answers a line. Where it does not pass the flights and parties stay as they are.
pub fn check_line(
    alloc: Global,
    airport: &Airport,
    held: &mut HeldFlights,
    known: &mut KnownWindows,
    line: &[u8],
    block: Block,
) -> Result<(), CheckRefused>
    requires { IsReady airport.now held.old known.old }
    ensures checks { ChecksIn airport.now line.now block (state_of held.old) result (state_of held.new) }
    ensures ready { IsReady airport.now held.new known.new }
{
    // The airport keeps its rules.
    let _ = airport.horizon();
    match read_command(alloc, line) {
        Ok(command) => {
            if may_want_memory(&command, &block) {
                return Ok(());
            }
            judge(alloc, airport, held, known, &command, block)
        }
        Err(CommandRefused::BadLine) => check_bad_line(&block),
        Err(CommandRefused::Memory) => Err(CheckRefused::Memory),
    }
}

// A line that is no command is refused as such, or for want of memory.
fn check_bad_line(block: &Block) -> Result<(), CheckRefused>
    ensures { IsBadLineChecked block.now result }
{
    pass_if(is_refusal(block, &Refusal::BadLine) || is_refusal(block, &Refusal::Memory))
}

// Whether `refused memory` stands for the reply to a command: it may to every one but those that take a flight or a party out.
fn may_want_memory(command: &Command, block: &Block) -> bool
    ensures { IsTrue result ↔ ((NeedsNoMemory (Some command.now) → ⊥) × (block.now ≡ Refused refusal.Memory)) }
{
    match command {
        Command::Cancel { .. } | Command::WorkDone { .. } => false,
        _ => is_refusal(block, &Refusal::Memory),
    }
}

// Checks a block as the answer to a command, `refused memory` aside.
fn judge(
    alloc: Global,
    airport: &Airport,
    held: &mut HeldFlights,
    known: &mut KnownWindows,
    command: &Command,
    block: Block,
) -> Result<(), CheckRefused>
    requires grammar { IsInGrammar command.now }
    requires ready { IsReady airport.now held.old known.old }
    ensures judged { IsJudged airport.now command.now block (state_of held.old) result (state_of held.new) }
    ensures ready { IsSound airport.now (state_of held.new) → IsReady airport.now held.new known.new }
{
    match command {
        Command::Arrival(asked) => check_arrival(airport, held, known, asked, block),
        Command::Departure(asked) => check_departure(airport, held, known, asked, block),
        Command::Reroute { flight, time } => {
            check_reroute(airport, held, known, flight, *time, block)
        }
        Command::Divert { flight, time, node } => {
            check_divert(airport, held, known, flight, *time, node, block)
        }
        Command::ArrivalAny(asked) => check_arrival_any(alloc, airport, held, known, asked, block),
        Command::DepartureAny(asked) => {
            check_departure_any(alloc, airport, held, known, asked, block)
        }
        Command::Batch(requests) => {
            check_batch(alloc, airport, held, known, requests.as_slice(), block)
        }
        Command::Late {
            flight,
            time,
            until,
        } => {
            let late = LateLine {
                flight,
                time: *time,
                until: *until,
            };
            check_late(alloc, airport, held, known, &late, block)
        }
        Command::File(_)
        | Command::Cancel { .. }
        | Command::Windows { .. }
        | Command::Occupancy { .. }
        | Command::Timetable
        | Command::Work(_)
        | Command::WorkDone { .. } => judge_plain(alloc, airport, held, known, command, &block),
    }
}

// The same for a command that seeks no walk. It keeps nothing of the block.
fn judge_plain(
    alloc: Global,
    airport: &Airport,
    held: &mut HeldFlights,
    known: &mut KnownWindows,
    command: &Command,
    block: &Block,
) -> Result<(), CheckRefused>
    requires plain { IsPlain command.now }
    requires grammar { IsInGrammar command.now }
    requires ready { IsReady airport.now held.old known.old }
    ensures judged { IsJudged airport.now command.now block.now (state_of held.old) result (state_of held.new) }
    ensures ready { IsReady airport.now held.new known.new }
{
    match command {
        Command::File(filed) => check_file(alloc, airport, held, known, filed, block),
        Command::Cancel { flight } => check_cancel(airport, held, known, flight, block),
        Command::Windows { segment } => check_windows(airport, held, known, segment, block),
        Command::Occupancy { segment } => check_occupancy(airport, held, segment, block),
        Command::Timetable => check_timetable(held, block),
        Command::Work(shut) => check_work(airport, held, known, shut, block),
        Command::WorkDone { name } => check_work_done(airport, held, known, name, block),
        Command::Arrival(_)
        | Command::Departure(_)
        | Command::Reroute { .. }
        | Command::Divert { .. }
        | Command::ArrivalAny(_)
        | Command::DepartureAny(_)
        | Command::Batch(_)
        | Command::Late { .. } => unreachable!(),
    }
}
