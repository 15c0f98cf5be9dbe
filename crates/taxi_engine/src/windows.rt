//! The report of a segment's windows.
ghost use Rattle.std.specs.Prelude.{◌≡◌, ◌<◌, length, None, IfOk, OnOk};
ghost use Rattle.replies.specs.declared.block.Block.TheVariants.{Windows};
ghost use Rattle.replies.specs.Texts.{block_text};
ghost use Rattle.taxi_text.specs.declared.command.Command.TheVariants as asked;
ghost use Rattle.replies.specs.CarriedOut.{windows_among};
ghost use Rattle.window_store.specs.Store.{spans_at};
ghost use Rattle.commitments.specs.Book.{Fits};
ghost use Rattle.taxi_engine.specs.Done.{IsDoneOrMemory};

use crate::Engine;
use crate::reply::ReplyText;
use airport_file::Airport;
use commitments::Ledger;
use replies::Block;
use std::alloc::Global;
use taxi_base::{List, Memory, Name, Refusal, Segment, Span};
use window_store::WindowStore;

impl Engine {
    /// Tells the windows of the segment of a name, or that there is none.
    pub(crate) fn tell_windows(&mut self, segment: &Name)
        ensures { IsDoneOrMemory (asked.Windows segment.now) self.old self.new }
    {
        let Some(segment) = self.airport.segment_named(segment) else {
            self.refuse(&Refusal::UnknownSegment);
            return;
        };
        let reply = &mut self.reply;
        if print_windows(self.alloc, &self.airport, &self.ledger, segment, reply).is_err() {
            self.refuse(&Refusal::Memory);
        }
    }
}

// Writes the windows of a segment as the reply.
fn print_windows(
    alloc: Global,
    airport: &Airport,
    ledger: &Ledger,
    segment: Segment,
    reply: &mut ReplyText,
) -> Result<(), Memory>
    requires fits { Fits airport.now ledger.now }
    requires unlifted { ledger.now.lifted ≡ None }
    requires exists { segment.0 < length airport.now.segments }
    ensures { OnOk result (reply.new ≡ block_text airport.now (Windows segment (windows_among airport.now ledger.now.state segment))) }
{
    let windows = spans_of(alloc, ledger.store(), segment)?;
    reply.print(airport, Block::Windows { segment, windows })
}

// The windows of a segment without their ids.
fn spans_of(alloc: Global, store: &WindowStore, segment: Segment) -> Result<List<Span>, Memory>
    requires { segment.0 < length store.now.lists }
    ensures { IfOk result (λ spans. spans ≡ spans_at store.now segment) }
{
    let mut spans = List::new(alloc);
    for window in store.windows(segment) {
        spans.push(Span {
            from: window.from,
            until: window.until,
        })?;
    }
    Ok(spans)
}
