//! The engine as a counter of its replies.
ghost use Rattle.std.specs.Prelude.{◌≡◌, [], List, IfOk};
ghost use Rattle.taxi_base.specs.State.{no_holder};
ghost use Rattle.replies.specs.declared.block.Block.{Block};
ghost use Rattle.run_figures.specs.Counts.{AreCounts};
ghost use Rattle.taxi_tools.specs.Outcomes.{IsTextAfter};

use airport_file::Airport;
use checkpoint_file::write_checkpoint;
use command_run::{Keeper, answer_with_memory};
use plan_table::write_plan;
use run_figures::{ReplyCounts, write_figures};
use std::alloc::Global;
use taxi_base::Memory;
use taxi_engine::Engine;
use tool_words::RunTool;

/// An engine, whose replies are counted.
#[derive(Drop)]
pub(crate) struct ReplyCounter {
    alloc: Global,
    engine: Engine,
    counts: ReplyCounts,
}

impl ReplyCounter {
    /// A counter at an airport, with no flight in force and no reply. After an error the airport is gone.
    pub(crate) fn new(alloc: Global, airport: Airport) -> Result<ReplyCounter, Memory>
        ensures airport { IfOk result (λ counter. counter.engine.airport ≡ airport) }
        ensures fresh { IfOk result (λ counter. counter.engine.state ≡ no_holder) }
        ensures none { IfOk result (λ counter. AreCounts counter.engine.airport [] counter.counts) }
    {
        let engine = Engine::new(alloc, airport)?;
        match ReplyCounts::new(alloc) {
            Ok(counts) => Ok(ReplyCounter {
                alloc,
                engine,
                counts,
            }),
            Err(memory) => {
                drop(engine);
                Err(memory)
            }
        }
    }

    /// What a tool writes after the replies that are counted. The only error is that memory ran out.
    pub(crate) fn text(&self, tool: &RunTool) -> Result<Vec<u8>, Memory>
        ensures { (blocks : List Block) → AreCounts self.now.engine.airport blocks self.now.counts → IfOk result (λ text. IsTextAfter self.now.engine.airport blocks self.now.engine.state tool.now text.items) }
    {
        let (airport, ledger) = (self.engine.airport(), self.engine.ledger());
        match tool {
            RunTool::Plan { start } => write_plan(self.alloc, airport, ledger, start),
            RunTool::Figures => write_figures(self.alloc, airport, &self.counts, ledger),
            RunTool::Checkpoint => write_checkpoint(self.alloc, airport, ledger),
        }
    }
}

impl Keeper for ReplyCounter {
    ghost airport = { λ counter. counter.engine.airport };

    ghost state = { λ counter. counter.engine.state };

    ghost Kept = { λ counter blocks. AreCounts counter.engine.airport blocks counter.counts };

    fn answer_and_keep(&mut self, line: &[u8]) -> Result<(), Memory> {
        answer_with_memory(&mut self.engine, line)?;
        let (airport, reply) = (self.engine.airport(), self.engine.reply());
        self.counts.add(self.alloc, airport, reply)
    }
}
