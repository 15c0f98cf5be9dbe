//! How often each kind of reply came.
ghost use Rattle.std.specs.Prelude.{◌≡◌, ◌+◌, ◌<◌, ◌^◌, ◌++◌, ◌∷◌, [], ℕ, List, length, map, nat_le, IsTrue, All, IfOk, OnOk};
ghost use Rattle.std.specs.List.{list_all};
ghost use Rattle.taxi_base.specs.declared.answers.Refusal.{Refusal as PlainRefusal};
ghost use Rattle.taxi_base.specs.Airport.{Airport as Plain};
ghost use Rattle.taxi_text.specs.Lines.{lines_of};
ghost use Rattle.replies.specs.declared.block.Block.{Block as PlainBlock};
ghost use Rattle.replies.specs.declared.entries.Entry.{Entry as PlainEntry};
ghost use Rattle.replies.specs.Texts.{block_text};
ghost use Rattle.replies.specs.Printable.{IsPrintable};
ghost use Rattle.block_reader.specs.Read.{IsBlockText};
ghost use Rattle.run_figures.specs.Counts.{AreCounts, entry_word, entry_kinds, refusals_of, entries_of, tallied, refusal_word, refusal_kinds};
ghost use Rattle.run_figures.specs.Tallies.{with_one, none_yet, tells_more};

use crate::words::{entry_word, first_word, refusal_word};
use airport_file::Airport;
use block_reader::read_back;
use replies::{Block, Entry};
use std::alloc::Global;
use taxi_base::{Memory, Name};
use taxi_text::{ShortText, lines};

/// A kind of what is told, by its words, and how often it came.
#[derive(Clone, Copy)]
pub struct Count {
    pub kind: ShortText,
    pub number: u64,
}

/// How many commands were answered, and how often each kind of reply came, each kind of entry, and each refusal.
#[derive(Drop)]
pub struct ReplyCounts {
    pub(crate) commands: u64,
    pub(crate) replies: Vec<Count>,
    pub(crate) entries: Vec<Count>,
    pub(crate) refusals: Vec<Count>,
}

impl ReplyCounts {
    /// No reply yet.
    pub fn new(alloc: Global) -> Result<ReplyCounts, Memory>
        ensures { (airport : Plain) → IfOk result (AreCounts airport []) }
    {
        let replies = none_yet(
            alloc,
            b"filed\ncancelled\nroute\nno-route\nwindows\noccupancy\ntimetable\nbatch\nlate\nrefused\n",
        )?;
        let entries = none_yet(alloc, b"route\nno-route\ndropped\n")?;
        let refusals = none_yet(
            alloc,
            b"bad-line\nin-force\nunknown-class\nunknown-node\nwrong-kind\nunknown-segment\nnot-in-force\nnot-routed\nnot-arrival\nalready-done\nalready-moving\nfull\nstep class-barred\nstep bad-turn\nstep too-fast\nstep past-horizon\nstep taken\nnot-moving\nnot-late\npast-end\n",
        )?;
        Ok(ReplyCounts {
            commands: 0,
            replies,
            entries,
            refusals,
        })
    }

    /// Counts one more reply, by its text. The only error is that memory ran out; the counts are then of no use.
    pub fn add(&mut self, alloc: Global, airport: &Airport, reply: &[u8]) -> Result<(), Memory>
        requires reply { IsBlockText airport.now reply.now }
        requires few { (blocks : List PlainBlock) × AreCounts airport.now blocks self.old × (length blocks < 2 ^ 30) }
        ensures { (blocks : List PlainBlock) (block : PlainBlock) → AreCounts airport.now blocks self.old → IsPrintable airport.now block → reply.now ≡ block_text airport.now block → OnOk result (AreCounts airport.now (blocks ++ block ∷ []) self.new) }
    {
        let word = first_word(reply);
        self.commands += 1;
        count_one(&mut self.replies, word);
        if tells_more(word) {
            let block = read_back(alloc, airport, reply)?;
            self.count_told(&block);
        }
        Ok(())
    }

    // Counts the refusal of a block, or its entries.
    fn count_told(&mut self, block: &Block)
        requires entries { (told : List (List ℕ × PlainEntry)) × (self.old.entries.items ≡ tallied (λ (t : List ℕ × PlainEntry). entry_word t.1) entry_kinds told) × (length told + length (entries_of block.now) < 2 ^ 64) }
        requires refusals { All (λ c. c.number + 1 < 2 ^ 64) self.old.refusals.items }
        ensures entries { (told : List (List ℕ × PlainEntry)) → self.old.entries.items ≡ tallied (λ (t : List ℕ × PlainEntry). entry_word t.1) entry_kinds told → self.new.entries.items ≡ tallied (λ (t : List ℕ × PlainEntry). entry_word t.1) entry_kinds (told ++ entries_of block.now) }
        ensures refusals { (told : List PlainRefusal) → self.old.refusals.items ≡ tallied refusal_word refusal_kinds told → self.new.refusals.items ≡ tallied refusal_word refusal_kinds (told ++ refusals_of block.now) }
        ensures replies { self.new.replies ≡ self.old.replies }
        ensures commands { self.new.commands ≡ self.old.commands }
    {
        match block {
            Block::Refused(why) => count_one(&mut self.refusals, refusal_word(why)),
            Block::Batch { entries, .. } => count_entries(&mut self.entries, entries.as_slice()),
            Block::Late { entries, .. } => count_entries(&mut self.entries, entries.as_slice()),
            _ => {}
        }
    }
}

// Each kind of a list of lines, none of which came yet.
fn none_yet(alloc: Global, kinds: &[u8]) -> Result<Vec<Count>, Memory>
    requires { IsTrue (list_all (λ kind. nat_le (length kind) 64) (lines_of kinds.now)) }
    ensures { IfOk result (λ counts. counts.items ≡ map none_yet (lines_of kinds.now)) }
{
    let mut counts = Vec::new(alloc);
    for line in lines(kinds) {
        let mut kind = ShortText::new();
        kind.push(line);
        counts.push(Count { kind, number: 0 })?;
    }
    Ok(counts)
}

// One more of the kind with these words, where it is one of those that are counted.
fn count_one(counts: &mut Vec<Count>, words: &[u8])
    requires { All (λ c. c.number + 1 < 2 ^ 64) counts.old.items }
    ensures { counts.new.items ≡ map (with_one words.now) counts.old.items }
{
    for place in 0..counts.len() {
        count_if_kind(&mut counts[place], words);
    }
}

// One more, if the kind is the one with these words.
fn count_if_kind(count: &mut Count, words: &[u8])
    requires { count.old.number + 1 < 2 ^ 64 }
    ensures { count.new ≡ with_one words.now count.old }
{
    if count.kind.bytes() == words {
        count.number += 1;
    }
}

// Counts entries by whether they tell of a route, that there is none, or of one who is dropped.
fn count_entries(counts: &mut Vec<Count>, entries: &[(Name, Entry)])
    requires { (told : List (List ℕ × PlainEntry)) × (counts.old.items ≡ tallied (λ (t : List ℕ × PlainEntry). entry_word t.1) entry_kinds told) × (length told + length entries.now < 2 ^ 64) }
    ensures { (told : List (List ℕ × PlainEntry)) → counts.old.items ≡ tallied (λ (t : List ℕ × PlainEntry). entry_word t.1) entry_kinds told → counts.new.items ≡ tallied (λ (t : List ℕ × PlainEntry). entry_word t.1) entry_kinds (told ++ entries.now) }
{
    for told in entries {
        count_one(counts, entry_word(&told.1));
    }
}

// Whether a block that begins with this word refuses a command or tells of several flights.
fn tells_more(word: &[u8]) -> bool
    ensures { result ≡ tells_more word.now }
{
    word == b"refused".as_slice() || word == b"batch".as_slice() || word == b"late".as_slice()
}
