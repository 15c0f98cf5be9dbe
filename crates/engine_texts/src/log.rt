//! The lines of the commands that an engine answered, and the counts of its replies.
ghost use Rattle.std.specs.Prelude.{◌≡◌, ◌<◌, ◌^◌, ◌++◌, ◌∷◌, [], List, IfOk, OnOk, length, map};
ghost use Rattle.taxi_base.specs.Airport.{Airport as Plain};
ghost use Rattle.replies.specs.declared.block.Block.{Block};
ghost use Rattle.replies.specs.Printable.{IsPrintable};
ghost use Rattle.replies.specs.Texts.{block_text};
ghost use Rattle.command_run.specs.Supplied.{FoundMemory};
ghost use Rattle.run_figures.specs.Counts.{AreCounts};
ghost use Rattle.engine_texts.specs.Log.{IsCounted, lines_in};

use airport_file::Airport;
use run_figures::ReplyCounts;
use std::alloc::Global;
use taxi_base::Memory;

// So many replies can be counted.
const MOST_REPLIES: usize = 1_073_741_823;

// The lines of the commands that were answered, in order, and the counts of their replies.
#[derive(Drop)]
pub(crate) struct Log {
    pub(crate) lines: Vec<Vec<u8>>,
    pub(crate) counts: ReplyCounts,
}

impl Log {
    // No command yet.
    pub(crate) fn new(alloc: Global) -> Result<Log, Memory>
        ensures lines { IfOk result (λ log. lines_in log.lines ≡ []) }
        ensures counts { (airport : Plain) → IfOk result (λ log. AreCounts airport [] log.counts) }
    {
        let counts = ReplyCounts::new(alloc)?;
        Ok(Log {
            lines: Vec::new(alloc),
            counts,
        })
    }

    // Adds a command's line and its reply. The only error is that memory ran out, for the command too; the log is then of no use.
    pub(crate) fn add(
        &mut self,
        alloc: Global,
        airport: &Airport,
        line: &[u8],
        reply: &[u8],
    ) -> Result<(), Memory>
        requires { IsCounted airport.now self.old reply.now }
        ensures lines { OnOk result (lines_in self.new.lines ≡ lines_in self.old.lines ++ line.now ∷ []) }
        ensures counts { (blocks : List Block) (block : Block) → AreCounts airport.now blocks self.old.counts → IsPrintable airport.now block → reply.now ≡ block_text airport.now block → OnOk result (AreCounts airport.now (blocks ++ block ∷ []) self.new.counts) }
        ensures found { (block : Block) → reply.now ≡ block_text airport.now block → OnOk result (FoundMemory block) }
    {
        if reply == b"refused memory\n".as_slice() {
            return Err(Memory::told());
        }
        if self.lines.len() >= MOST_REPLIES {
            return Err(Memory::for_so_many(self.lines.len()));
        }
        self.counts.add(alloc, airport, reply)?;
        self.lines.push(copy_of(alloc, line)?)?;
        Ok(())
    }
}

// The same bytes.
pub(crate) fn copy_of(alloc: Global, bytes: &[u8]) -> Result<Vec<u8>, Memory>
    ensures { IfOk result (λ copy. copy.items ≡ bytes.now) }
{
    let mut copy = Vec::new(alloc);
    copy.extend_from_slice(bytes)?;
    Ok(copy)
}
