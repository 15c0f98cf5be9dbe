//! Why a line would be answered as it would.
ghost use Rattle.std.specs.Prelude.{◌≡◌, None, IfOk};
ghost use Rattle.taxi_base.specs.State.{IsSound};
ghost use Rattle.commitments.specs.Book.{Fits};
ghost use Rattle.engine_texts.specs.Texts.{IsExplanation, IsReasonsText};

use crate::again::engine_again;
use crate::session::Session;
use airport_file::Airport;
use commitments::Ledger;
use reply_reasons::{explain, write_reasons};
use std::alloc::Global;
use taxi_base::Memory;
use taxi_engine::Engine;

impl Session {
    /// Why a line would be answered as it would if it came next, as the program explains a command. A second engine answers all commands
    /// for it. The only error is that memory ran out, for a command too.
    pub fn explanation(&self, line: &[u8]) -> Result<Vec<u8>, Memory>
        ensures { IfOk result (λ text. IsExplanation self.now line.now text.items) }
    {
        if !self.whole {
            return Err(Memory::told());
        }
        let engine = engine_again(
            self.alloc,
            self.airport.as_slice(),
            self.log.lines.as_slice(),
        )?;
        explained(self.alloc, engine, line)
    }
}

// Why an engine would answer a line as it would. One call ends the engine's parts, since a body that ends them at several places is slow to
// prove.
fn explained(alloc: Global, engine: Engine, line: &[u8]) -> Result<Vec<u8>, Memory>
    ensures { IfOk result (λ text. IsReasonsText engine.airport engine.state line.now text.items) }
{
    let (airport, mut ledger) = engine.into_parts();
    let text = text_of_line(alloc, &airport, &mut ledger, line);
    drop((airport, ledger));
    text
}

// The same for the holders in force, which are used up.
fn text_of_line(
    alloc: Global,
    airport: &Airport,
    ledger: &mut Ledger,
    line: &[u8],
) -> Result<Vec<u8>, Memory>
    requires fits { Fits airport.now ledger.old }
    requires unlifted { ledger.old.lifted ≡ None }
    requires sound { IsSound airport.now ledger.old.state }
    ensures { IfOk result (λ text. IsReasonsText airport.now ledger.old.state line.now text.items) }
{
    let reasons = explain(alloc, airport, ledger, line)?;
    write_reasons(alloc, airport, reasons.as_slice())
}
