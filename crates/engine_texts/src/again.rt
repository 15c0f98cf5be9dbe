//! A second engine, brought to where a first one is.
ghost use Rattle.std.specs.Prelude.{◌≡◌, ◌≤◌, Ok, IfOk, OnOk, IsOk, length};
ghost use Rattle.taxi_base.specs.State.{no_holder};
ghost use Rattle.airport_file.specs.Reading.{airport_of};
ghost use Rattle.command_run.specs.Supplied.{IsSuppliedRun};
ghost use Rattle.engine_texts.specs.Log.{texts_of};

use crate::session::new_engine;
use command_run::answer_with_memory;
use std::alloc::Global;
use taxi_base::Memory;
use taxi_engine::Engine;

/// A new engine over the airport of these bytes, which answered these lines. The only error is that memory ran out, for a line too.
pub(crate) fn engine_again(
    alloc: Global,
    airport: &[u8],
    lines: &[Vec<u8>],
) -> Result<Engine, Memory>
    requires few { length airport.now ≤ 4194304 }
    ensures airport { IfOk result (λ e. airport_of airport.now ≡ Ok e.airport) }
    ensures run { IfOk result (λ e. IsSuppliedRun e.airport (texts_of lines.now) e.state) }
{
    let Ok(mut engine) = new_engine(alloc, airport) else {
        return Err(Memory::told());
    };
    match answer_all(&mut engine, lines) {
        Ok(()) => Ok(engine),
        Err(memory) => {
            drop(engine);
            Err(memory)
        }
    }
}

// Has an engine answer each of these lines, from nothing in force. The only error is that memory ran out, for a line too.
fn answer_all(engine: &mut Engine, lines: &[Vec<u8>]) -> Result<(), Memory>
    requires fresh { engine.old.state ≡ no_holder }
    ensures run { OnOk result (IsSuppliedRun engine.old.airport (texts_of lines.now) engine.new.state) }
    ensures airport { engine.new.airport ≡ engine.old.airport }
{
    for line in lines {
        answer_with_memory(engine, line.as_slice())?;
    }
    Ok(())
}
