//! What comes of the commands of an input.
ghost use Rattle.std.specs.Prelude.{◌≡◌, ◌<◌, ◌≤◌, ◌+◌, ◌-◌, ◌*◌, ◌^◌, ◌++◌, ◌∷◌, [], List, length, IfOk, OnOk};
ghost use Rattle.taxi_base.specs.Airport.{Airport as Plain};
ghost use Rattle.taxi_base.specs.Walks.{begin_of, end_of};
ghost use Rattle.replies.specs.declared.block.Block.{Block as PlainBlock};
ghost use Rattle.generated_run.specs.Summaries.{seconds_of, summary_of, count_line, six_lines};

use airport_file::Airport;
use replies::Block;
use std::alloc::Global;
use taxi_base::{Memory, Step, Time};
use taxi_text::{push_bytes, push_number};

/// How many nodes and segments an airport has, and what came of the commands over it: how many there are, how many were
/// answered by a route and how many by none, and how many seconds all routes take together, each from its begin to its
/// end.
#[derive(Clone, Copy, Debug, Drop)]
pub struct Summary {
    pub nodes: u32,
    pub segments: u32,
    pub commands: u32,
    pub routes: u32,
    pub no_routes: u32,
    pub seconds: u64,
}

impl Summary {
    /// Six lines, each with a name and a count. The only error is that memory ran out.
    pub fn text(&self, alloc: Global) -> Result<Vec<u8>, Memory>
        ensures { IfOk result (λ text. text.items ≡ six_lines self.now) }
    {
        let mut text = Vec::new(alloc);
        push_line(&mut text, b"nodes", u64::from(self.nodes))?;
        push_line(&mut text, b"segments", u64::from(self.segments))?;
        push_line(&mut text, b"commands", u64::from(self.commands))?;
        push_line(&mut text, b"routes", u64::from(self.routes))?;
        push_line(&mut text, b"no-route", u64::from(self.no_routes))?;
        push_line(&mut text, b"seconds", self.seconds)?;
        Ok(text)
    }

    /// Before the first command.
    pub(crate) fn new(airport: &Airport) -> Summary
        ensures { result ≡ summary_of airport.now [] }
    {
        let graph = airport.graph();
        Summary {
            nodes: graph.nodes() as u32,
            segments: graph.segments() as u32,
            commands: 0,
            routes: 0,
            no_routes: 0,
            seconds: 0,
        }
    }

    /// Counts one more command with its block.
    pub(crate) fn count(&mut self, block: &Block)
        requires few { self.old.commands < 2000 }
        requires routes { self.old.routes ≤ self.old.commands }
        requires no_routes { self.old.no_routes ≤ self.old.commands }
        requires seconds { self.old.seconds ≤ self.old.commands * 2 ^ 32 }
        ensures counted { (airport : Plain) (blocks : List PlainBlock) → self.old ≡ summary_of airport blocks → self.new ≡ summary_of airport (blocks ++ block.now ∷ []) }
        ensures seconds { self.new.seconds ≤ self.new.commands * 2 ^ 32 }
    {
        self.commands += 1;
        match block {
            Block::Route { steps, .. } => {
                self.routes += 1;
                self.seconds += u64::from(seconds_of(steps.as_slice()));
            }
            Block::NoRoute { .. } => self.no_routes += 1,
            Block::Refused(_)
            | Block::Filed { .. }
            | Block::Cancelled { .. }
            | Block::Windows { .. }
            | Block::Occupancy { .. }
            | Block::Timetable { .. }
            | Block::Batch { .. }
            | Block::Late { .. } => (),
        }
    }
}

/// How long a route is under way.
#[tactic(auto, using(taxi_base::proofs::WalkLaws::ending))]
fn seconds_of(steps: &[Step]) -> Time
    ensures { result ≡ end_of steps.now - begin_of steps.now }
{
    if steps.is_empty() {
        return 0;
    }
    // No walk ends before it begins, so nothing is cut off.
    let end = steps[steps.len() - 1].leave;
    end.saturating_sub(steps[0].enter)
}

fn push_line(text: &mut Vec<u8>, name: &[u8], count: u64) -> Result<(), Memory>
    ensures { OnOk result (text.new.items ≡ text.old.items ++ count_line name.now count) }
{
    push_bytes(text, name)?;
    push_bytes(text, b" ")?;
    push_number(text, count)?;
    push_bytes(text, b"\n")
}
