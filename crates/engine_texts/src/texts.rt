//! The texts that tell of a session.
ghost use Rattle.std.specs.Prelude.{◌≡◌, Some, None, IfOk, IfErr};
ghost use Rattle.replies.specs.declared.block.Block.{Block};
ghost use Rattle.replies.specs.Printable.{IsPrintable};
ghost use Rattle.replies.specs.Texts.{block_text};
ghost use Rattle.block_reader.specs.Read.{IsBlockText};
ghost use Rattle.reply_json.specs.Lines.{object_line};
ghost use Rattle.engine_texts.specs.declared.refused.NoText.TheVariants as refused;
ghost use Rattle.engine_texts.specs.Texts.{IsObject, IsPlanText, AreFigures, IsCheckpoint, start_in};

use crate::refused::NoText;
use crate::session::Session;
use airport_file::Airport;
use checkpoint_file::write_checkpoint;
use civil_times::Start;
use plan_table::write_plan;
use reply_json::write_object_line;
use run_figures::write_figures;
use std::alloc::Global;
use taxi_base::Memory;

impl Session {
    /// The last command and its reply as an object on a line of its own, where the command's line has this number. Empty before the first
    /// command. The only error is that memory ran out, for a command too.
    pub fn object(&self, number: u64) -> Result<Vec<u8>, Memory>
        ensures { IfOk result (λ text. IsObject self.now number text.items) }
    {
        if !self.whole {
            return Err(Memory::told());
        }
        match self.log.lines.last() {
            None => Ok(Vec::new(self.alloc)),
            Some(line) => {
                let command = self.log.lines.len() as u64;
                let (airport, reply) = (self.engine.airport(), self.engine.reply());
                object_text(self.alloc, airport, command, number, line.as_slice(), reply)
            }
        }
    }

    /// What is in force as a table, with its times as seconds or, where the start is not empty, as civil times.
    pub fn plan(&self, start: &[u8]) -> Result<Vec<u8>, NoText>
        ensures ok { IfOk result (λ text. IsPlanText self.now start.now text.items) }
        ensures start { IfErr result (λ why. why ≡ refused.Start → start_in start.now ≡ None) }
    {
        let start = start_of(start)?;
        Ok(write_plan(
            self.alloc,
            self.engine.airport(),
            self.engine.ledger(),
            &start,
        )?)
    }

    /// The figures of the commands that were answered. The only error is that memory ran out, for a command too.
    pub fn figures(&self) -> Result<Vec<u8>, Memory>
        ensures { IfOk result (λ text. AreFigures self.now text.items) }
    {
        if !self.whole {
            return Err(Memory::told());
        }
        write_figures(
            self.alloc,
            self.engine.airport(),
            &self.log.counts,
            self.engine.ledger(),
        )
    }

    /// What is in force as a command file. The only error is that memory ran out.
    pub fn checkpoint(&self) -> Result<Vec<u8>, Memory>
        ensures { IfOk result (λ text. IsCheckpoint self.now text.items) }
    {
        write_checkpoint(self.alloc, self.engine.airport(), self.engine.ledger())
    }
}

// The object of a command and the reply to it, on a line of its own. The only error is that memory ran out.
fn object_text(
    alloc: Global,
    airport: &Airport,
    command: u64,
    number: u64,
    line: &[u8],
    reply: &[u8],
) -> Result<Vec<u8>, Memory>
    requires { IsBlockText airport.now reply.now }
    ensures { (block : Block) → IsPrintable airport.now block → reply.now ≡ block_text airport.now block → IfOk result (λ text. text.items ≡ object_line airport.now command number line.now block) }
{
    let mut text = Vec::new(alloc);
    write_object_line(alloc, airport, command, number, line, reply, &mut text)?;
    Ok(text)
}

// The start that a text names. None where the text is empty.
fn start_of(text: &[u8]) -> Result<Option<Start>, NoText>
    ensures ok { IfOk result (λ start. start_in text.now ≡ Some start) }
    ensures err { IfErr result (λ why. start_in text.now ≡ None) }
{
    if text.is_empty() {
        return Ok(None);
    }
    match Start::read(text) {
        Some(start) => Ok(Some(start)),
        None => Err(NoText::Start),
    }
}
