//! The engine.
ghost use Rattle.std.specs.Prelude.{◌≡◌, [], None, IfOk};
ghost use Rattle.taxi_base.specs.State.{no_holder, IsSound};
ghost use Rattle.replies.specs.Asked.{IsInGrammar};
ghost use Rattle.replies.specs.Replies.{refused};
ghost use Rattle.commitments.specs.Book.{Fits};
ghost use Rattle.taxi_engine.specs.Engine.{Answers};
ghost use Rattle.taxi_engine.specs.Done.{IsDone, IsDoneOrMemory};

use crate::reply::ReplyText;
use airport_file::Airport;
use block_writer::refused_text;
use commitments::Ledger;
use place_cells::SearchRoom;
use std::alloc::Global;
use std::marker::Model;
use taxi_base::{Memory, Refusal};
use taxi_text::{Command, CommandRefused, read_command};

/// Answers commands over an airport and the flights and work parties in force, which are always sound.
#[derive(Drop)]
pub struct Engine {
    pub(crate) alloc: Global,
    pub(crate) airport: Airport,
    pub(crate) ledger: Ledger,
    pub(crate) reply: ReplyText,
    // What searches use up, kept for the next one.
    pub(crate) room: SearchRoom,
}

// What an engine begins with beside its airport, and wants memory for.
#[derive(Drop)]
struct Beginning {
    ledger: Ledger,
    room: SearchRoom,
}

impl Model for Engine {
    ghost use Rattle.std.specs.Prelude.{◌≡◌, None};
    ghost use Rattle.taxi_base.specs.State.{IsSound};
    ghost use Rattle.commitments.specs.Book.{Fits};
    ghost use Rattle.replies.specs.Replies.{HaveNames};
    ghost use Rattle.taxi_engine.specs.Engine.{EngineState};

    ghost Value = { EngineState };

    ghost view = { λ e. record { airport = e.airport; state = e.ledger.state; reply = e.reply } };

    ghost invariant = { λ e. IsSound e.airport e.ledger.state × Fits e.airport e.ledger × HaveNames e.ledger.state × (e.ledger.lifted ≡ None) };
}

impl Engine {
    /// An engine over an airport, with no flight and no party in force. After an error the airport is gone.
    pub fn new(alloc: Global, airport: Airport) -> Result<Engine, Memory>
        ensures { IfOk result (λ e. e ≡ record { airport = airport; state = no_holder; reply = [] }) }
    {
        // A match moves what the engine begins with once, a `?` twice.
        match beginning_over(alloc, &airport) {
            Ok(beginning) => Ok(Engine::begun(alloc, airport, beginning)),
            Err(memory) => Err(memory),
        }
    }

    // The engine that begins so. Nothing fails any more where the airport goes in.
    fn begun(alloc: Global, airport: Airport, beginning: Beginning) -> Engine
        requires state { beginning.ledger.state ≡ no_holder }
        requires unlifted { beginning.ledger.lifted ≡ None }
        requires fits { Fits airport beginning.ledger }
        ensures { result ≡ record { airport = airport; state = no_holder; reply = [] } }
    {
        let Beginning { ledger, room } = beginning;
        let reply = ReplyText::new(alloc);
        Engine {
            alloc,
            airport,
            ledger,
            reply,
            room,
        }
    }

    /// The airport for which it answers.
    pub fn airport(&self) -> &Airport
        ensures airport { result.now ≡ self.now.airport }
        ensures sound { IsSound self.now.airport self.now.state }
    {
        &self.airport
    }

    /// The flights and work parties in force, and what they hold.
    pub fn ledger(&self) -> &Ledger
        ensures state { result.now.state ≡ self.now.state }
        ensures fits { Fits self.now.airport result.now }
        ensures unlifted { result.now.lifted ≡ None }
    {
        &self.ledger
    }

    /// The airport and the ledger, as the last answer left them.
    pub fn into_parts(self) -> (Airport, Ledger)
        ensures airport { result.0 ≡ self.airport }
        ensures state { result.1.state ≡ self.state }
        ensures sound { IsSound self.airport self.state }
        ensures fits { Fits self.airport result.1 }
        ensures unlifted { result.1.lifted ≡ None }
    {
        let Engine {
            airport,
            ledger,
            ..
        } = self;
        (airport, ledger)
    }

    /// The text of the reply to the last command; empty before the first.
    pub fn reply(&self) -> &[u8]
        ensures { result.now ≡ self.now.reply }
    {
        self.reply.bytes()
    }

    /// Answers one command. Only a command that ends in a list, or one that is refused nothing, may want
    /// for memory.
    pub fn answer(&mut self, line: &[u8])
        ensures { Answers self.old line.now self.new }
    {
        // The airport keeps its rules, so each block has a text in the grammar.
        let _ = self.airport.horizon();
        match read_command(self.alloc, line) {
            Ok(command) => self.carry_out(&command),
            Err(CommandRefused::BadLine) => self.refuse(&Refusal::BadLine),
            Err(CommandRefused::Memory) => self.refuse(&Refusal::Memory),
        }
    }

    // Does what a command asks for, or refuses it.
    fn carry_out(&mut self, command: &Command)
        requires { IsInGrammar command.now }
        ensures { IsDoneOrMemory command.now self.old self.new }
    {
        match command {
            Command::File(filed) => self.file(filed),
            Command::Arrival(asked) => self.route_arrival(asked),
            Command::Departure(asked) => self.route_departure(asked),
            Command::ArrivalAny(asked) => self.route_arrival_any(asked),
            Command::DepartureAny(asked) => self.route_departure_any(asked),
            Command::Batch(requests) => self.route_batch(requests.as_slice()),
            Command::Late {
                flight,
                time,
                until,
            } => self.repair_late(flight, *time, *until),
            Command::Cancel { flight } => self.cancel(flight),
            Command::Reroute { flight, time } => self.reroute(flight, *time),
            Command::Divert { flight, time, node } => self.divert(flight, *time, node),
            Command::Work(shut) => self.shut(shut),
            Command::WorkDone { name } => self.open_again(name),
            Command::Windows { segment } => self.tell_windows(segment),
            Command::Occupancy { segment } => self.tell_occupancy(segment),
            Command::Timetable => self.tell_timetable(),
        }
    }

    /// Writes a refusal, which changes nothing else.
    pub(crate) fn refuse(&mut self, why: &Refusal)
        ensures { IsDone (refused self.old.state why.now) self.old self.new }
    {
        self.reply.set_short(refused_text(why));
    }
}

// No holder over an airport, and room for searches. The airport is lent, so that only the caller lets it go.
fn beginning_over(alloc: Global, airport: &Airport) -> Result<Beginning, Memory>
    ensures state { IfOk result (λ b. b.ledger.state ≡ no_holder) }
    ensures unlifted { IfOk result (λ b. b.ledger.lifted ≡ None) }
    ensures fits { IfOk result (λ b. Fits airport.now b.ledger) }
{
    let ledger = Ledger::new(alloc, airport)?;
    let room = SearchRoom::new(alloc)?;
    Ok(Beginning { ledger, room })
}
