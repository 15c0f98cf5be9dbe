//! The engine as a teller of objects.
ghost use Rattle.std.specs.Prelude.{◌≡◌, IfOk};
ghost use Rattle.taxi_base.specs.State.{no_holder};
ghost use Rattle.taxi_tools.specs.Objects.{object_of};

use airport_file::Airport;
use command_run::Teller;
use reply_json::write_object_line;
use std::alloc::Global;
use taxi_base::Memory;
use taxi_engine::Engine;

/// An engine, whose replies are told as JSON objects.
#[derive(Drop)]
pub(crate) struct ObjectTeller {
    alloc: Global,
    engine: Engine,
    // The line of the last command. Its memory is kept for the next.
    line: Vec<u8>,
}

impl ObjectTeller {
    /// A teller at an airport, with no flight in force. After an error the airport is gone.
    pub(crate) fn new(alloc: Global, airport: Airport) -> Result<ObjectTeller, Memory>
        ensures airport { IfOk result (λ teller. teller.engine.airport ≡ airport) }
        ensures fresh { IfOk result (λ teller. teller.engine.state ≡ no_holder) }
    {
        let engine = Engine::new(alloc, airport)?;
        Ok(ObjectTeller {
            alloc,
            engine,
            line: Vec::new(alloc),
        })
    }
}

impl Teller for ObjectTeller {
    ghost airport = { λ teller. teller.engine.airport };

    ghost state = { λ teller. teller.engine.state };

    ghost told = { λ teller. teller.line.items };

    ghost telling = { object_of };

    fn tell(&mut self, command: u64, number: u64, line: &[u8]) -> Result<(), Memory> {
        self.engine.answer(line);
        let reply = self.engine.reply();
        self.line.clear();
        write_object_line(
            self.alloc,
            self.engine.airport(),
            command,
            number,
            line,
            reply,
            &mut self.line,
        )
    }

    fn told(&self) -> &[u8] {
        self.line.as_slice()
    }
}
