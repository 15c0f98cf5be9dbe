//! The text of a reply.
ghost use Rattle.std.specs.Prelude.{◌≡◌, [], All, OnOk};
ghost use Rattle.replies.specs.Texts.{block_text};
ghost use Rattle.replies.specs.declared.block.Block.TheVariants.{Route, Batch};
ghost use Rattle.replies.specs.Printable.{HasArc};
ghost use Rattle.block_writer.specs.Printed.{IsWritable, IsWritableEntry};

use airport_file::Airport;
use block_writer::{print_batch, print_block, print_route};
use replies::{Block, Entries};
use std::alloc::Global;
use std::marker::Model;
use taxi_base::{LabelRow, Memory, Name, Step, Time};
use taxi_text::ShortText;

/// The text of a reply: a short one needs no memory, a long one lies in a buffer that is kept for the next.
#[derive(Drop)]
pub struct ReplyText {
    is_long: bool,
    short: ShortText,
    long: Vec<u8>,
}

impl Model for ReplyText {
    ghost use Rattle.std.specs.Prelude.{ℕ, List, if◌then◌else◌};

    ghost Value = { List ℕ };

    ghost view = { λ r. if r.is_long then r.long.items else r.short };
}

impl ReplyText {
    /// No bytes.
    pub fn new(alloc: Global) -> ReplyText
        ensures { result ≡ [] }
    {
        ReplyText {
            is_long: false,
            short: ShortText::new(),
            long: Vec::new(alloc),
        }
    }

    /// The bytes of the reply.
    pub fn bytes(&self) -> &[u8]
        ensures { result.now ≡ self.now }
    {
        if self.is_long {
            self.long.as_slice()
        } else {
            self.short.bytes()
        }
    }

    /// A short text in place of what was there.
    pub fn set_short(&mut self, text: ShortText)
        ensures { self.new ≡ text }
    {
        self.is_long = false;
        self.short = text;
    }

    /// The text of a block in place of what was there. Where memory runs out nothing is said of what stands there.
    pub fn print(&mut self, airport: &Airport, block: Block) -> Result<(), Memory>
        requires { IsWritable airport.now block }
        ensures { OnOk result (self.new ≡ block_text airport.now block) }
    {
        self.is_long = true;
        self.long.clear();
        print_block(airport, &block, &mut self.long)
    }

    /// The text of a batch's block in place of what was there. Where memory runs out nothing is said of what stands there.
    pub fn print_batch(
        &mut self,
        airport: &Airport,
        total: u32,
        entries: &Entries,
    ) -> Result<(), Memory>
        requires { All (IsWritableEntry airport.now) entries.now }
        ensures { OnOk result (self.new ≡ block_text airport.now (Batch total entries.now)) }
    {
        self.is_long = true;
        self.long.clear();
        print_batch(airport, total, entries, &mut self.long)
    }

    /// The text of a route's block in place of what was there. Where memory runs out nothing is said of what stands there.
    pub fn print_route(
        &mut self,
        airport: &Airport,
        flight: &Name,
        second: Time,
        steps: &[Step],
        labels: &[LabelRow],
    ) -> Result<(), Memory>
        requires steps { All (λ step. HasArc airport.now step.arc) steps.now }
        requires labels { All (λ label. HasArc airport.now label.arc) labels.now }
        ensures { OnOk result (self.new ≡ block_text airport.now (Route flight.now second steps.now labels.now)) }
    {
        self.is_long = true;
        self.long.clear();
        print_route(airport, flight, second, steps, labels, &mut self.long)
    }
}
