//! An engine with what it answered and the text that was asked for last.
ghost use Rattle.std.specs.Prelude.{◌≡◌, ◌≤◌, [], Some, Ok, Err, IfOk, length};
ghost use Rattle.taxi_base.specs.State.{no_holder};
ghost use Rattle.airport_file.specs.Reading.{airport_of};
ghost use Rattle.airport_file.specs.Refused.{ForBad};
ghost use Rattle.taxi_engine.specs.Engine.{Answers};
ghost use Rattle.engine_texts.specs.Log.{lines_in};
ghost use Rattle.engine_texts.specs.Session.{IsNew, IsLogged};
ghost use Rattle.engine_texts.specs.InStep.{IsBeginning, IsEmptyLog};

use crate::log::{Log, copy_of};
use airport_file::{AirportRefused, read_airport};
use std::alloc::Global;
use std::marker::Model;
use taxi_base::Memory;
use taxi_engine::Engine;

/// An engine, the lines of the commands that it answered, and the text that was asked for last.
#[derive(Drop)]
pub struct Session {
    pub(crate) alloc: Global,
    // The airport file, for a second engine.
    pub(crate) airport: Vec<u8>,
    pub(crate) engine: Engine,
    pub(crate) log: Log,
    // Whether the log has all commands, and memory ran out for none.
    pub(crate) whole: bool,
    told: Vec<u8>,
}

// What a session begins with beside its engine.
#[derive(Drop)]
struct Beginning {
    airport: Vec<u8>,
    log: Log,
}

impl Model for Session {
    ghost use Rattle.engine_texts.specs.Log.{lines_in};
    ghost use Rattle.engine_texts.specs.Session.{SessionState, log_of};
    ghost use Rattle.engine_texts.specs.InStep.{IsInStep};

    ghost Value = { SessionState };

    ghost view = { λ s. record { engine = s.engine; log = log_of s.whole (lines_in s.log.lines); told = s.told.items } };

    ghost invariant = { λ s. IsInStep s.airport.items s.engine s.whole s.log };
}

impl Session {
    /// A session over the airport of these bytes, with nothing in force, no command and no text.
    pub fn new(alloc: Global, airport: &[u8]) -> Result<Session, AirportRefused>
        requires { length airport.now ≤ 4194304 }
        ensures ok { IfOk result (IsNew airport.now) }
        ensures bad { ForBad result (λ at why. airport_of airport.now ≡ Err (record { at = at; why = why })) }
    {
        let beginning = beginning_over(alloc, airport)?;
        match new_engine(alloc, airport) {
            Ok(engine) => Ok(Session::begun(alloc, beginning, engine)),
            Err(refused) => {
                drop(beginning);
                Err(refused)
            }
        }
    }

    // The session that begins so. Nothing fails any more where the engine goes in.
    fn begun(alloc: Global, beginning: Beginning, engine: Engine) -> Session
        requires { IsBeginning beginning.airport.items beginning.log engine }
        ensures engine { result.engine ≡ engine }
        ensures log { result.log ≡ Some [] }
        ensures told { result.told ≡ [] }
    {
        let Beginning { airport, log } = beginning;
        Session {
            alloc,
            airport,
            engine,
            log,
            whole: true,
            told: Vec::new(alloc),
        }
    }

    /// The text of the reply to the last command; empty before the first.
    pub fn reply(&self) -> &[u8]
        ensures { result.now ≡ self.now.engine.reply }
    {
        self.engine.reply()
    }

    /// The text that was asked for last; empty before the first.
    pub fn told(&self) -> &[u8]
        ensures { result.now ≡ self.now.told }
    {
        self.told.as_slice()
    }

    /// Answers one command, and logs it. Where memory runs out, for the command or for the log, there is no log from then on.
    pub fn answer(&mut self, line: &[u8])
        ensures answered { Answers self.old.engine line.now self.new.engine }
        ensures log { IsLogged self.old.log line.now self.new.log }
        ensures told { self.new.told ≡ self.old.told }
    {
        self.engine.answer(line);
        if self.whole {
            let (airport, reply) = (self.engine.airport(), self.engine.reply());
            self.whole = self.log.add(self.alloc, airport, line, reply).is_ok();
        }
    }

    /// Keeps a text as the one that was asked for last, and gives its length.
    pub fn tell(&mut self, text: Vec<u8>) -> usize
        ensures kept { self.new ≡ record self.old { told = text.items } }
        ensures counted { result ≡ length text.items }
    {
        self.told = text;
        self.told.len()
    }
}

// What a session begins with beside its engine, over an airport's bytes. The only error is that memory ran out.
fn beginning_over(alloc: Global, airport: &[u8]) -> Result<Beginning, Memory>
    ensures airport { IfOk result (λ b. b.airport.items ≡ airport.now) }
    ensures log { IfOk result (λ b. IsEmptyLog b.log) }
{
    let log = Log::new(alloc)?;
    let airport = copy_of(alloc, airport)?;
    Ok(Beginning { airport, log })
}

/// An engine over the airport of these bytes, with nothing in force.
pub(crate) fn new_engine(alloc: Global, airport: &[u8]) -> Result<Engine, AirportRefused>
    requires { length airport.now ≤ 4194304 }
    ensures airport { IfOk result (λ e. airport_of airport.now ≡ Ok e.airport) }
    ensures state { IfOk result (λ e. e.state ≡ no_holder) }
    ensures reply { IfOk result (λ e. e.reply ≡ []) }
    ensures bad { ForBad result (λ at why. airport_of airport.now ≡ Err (record { at = at; why = why })) }
{
    let airport = read_airport(alloc, airport)?;
    Ok(Engine::new(alloc, airport)?)
}
