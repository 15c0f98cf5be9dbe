//! Lines of a text that comes in pieces.
ghost use Rattle.std.specs.Prelude.{◌≡◌, ◌+◌, ◌<◌, ◌^◌, ◌++◌, [], length, OnOk, OnErr, IsSome};
ghost use Rattle.taxi_text.specs.FirstLines.{first_line_of, behind_first_line, last_line_of, line_end_with, lent};

use crate::line::without_carriage_return;
use crate::part::place_of;
use std::alloc::Global;
use std::marker::Model;
use taxi_base::Memory;

/// A text of which pieces are fed at its end and lines are taken off its front. Contracts see the
/// bytes that are kept: those that were fed and not yet taken off.
///
/// No byte is looked at twice for a line feed, and dropped bytes are moved out only once they are
/// at least half of what is stored, so that each byte is moved about once.
#[derive(Drop)]
pub struct LineReader {
    stored: Vec<u8>,
    // How many of the stored bytes were dropped.
    dropped: usize,
    // How many kept bytes stand before the first line feed, if one is kept.
    line: Option<usize>,
}

impl Model for LineReader {
    ghost use Rattle.std.specs.Prelude.{List, ℕ, ◌≡◌, ◌≤◌, length, drop};
    ghost use Rattle.taxi_text.specs.FirstLines.{line_end};

    ghost Value = { List ℕ };

    ghost view = { λ r. drop r.dropped r.stored.items };

    ghost invariant = { λ r. (r.dropped ≤ length r.stored.items) × (r.line ≡ line_end (drop r.dropped r.stored.items)) };
}

impl LineReader {
    /// Nothing is kept.
    pub fn new(alloc: Global) -> LineReader
        ensures { result ≡ [] }
    {
        LineReader {
            stored: Vec::new(alloc),
            dropped: 0,
            line: None,
        }
    }

    /// Keeps the piece behind what is kept.
    pub fn feed(&mut self, piece: &[u8]) -> Result<(), Memory>
        ensures ok { OnOk result (self.new ≡ self.old ++ piece.now) }
        ensures err { OnErr result (self.new ≡ self.old) }
    {
        self.move_out_dropped();
        let before = self.stored.len() - self.dropped;
        self.stored.extend_from_slice(piece)?;
        self.line = line_end_with(self.line, before, piece);
        Ok(())
    }

    /// The first line that has ended, without its line feed and without one carriage return at its end.
    pub fn first_line(&self) -> Option<&[u8]>
        ensures { lent result ≡ first_line_of self.now }
    {
        let end = self.line?;
        let kept = &self.stored[self.dropped..];
        Some(without_carriage_return(&kept[..end]))
    }

    /// Takes the first line off, with its line feed.
    pub fn drop_first(&mut self)
        requires { IsSome (first_line_of self.old) }
        ensures { self.new ≡ behind_first_line self.old }
    {
        if let Some(end) = self.line {
            self.dropped += end + 1;
            self.line = place_of(b'\n', &self.stored[self.dropped..]);
        }
    }

    /// Where no line has ended: all that is kept as the last line, without one carriage return at
    /// its end. None where nothing is kept.
    pub fn last_line(&self) -> Option<&[u8]>
        requires { first_line_of self.now ≡ None }
        ensures { lent result ≡ last_line_of self.now }
    {
        let kept = &self.stored[self.dropped..];
        if kept.is_empty() {
            return None;
        }
        Some(without_carriage_return(kept))
    }

    // Moves the kept bytes to the front, where those dropped before them are as many or more.
    fn move_out_dropped(&mut self)
        ensures { self.new ≡ self.old }
    {
        let kept = self.stored.len() - self.dropped;
        if self.dropped >= kept {
            self.stored.rotate_left(self.dropped);
            self.stored.truncate(kept);
            self.dropped = 0;
        }
    }
}

// Where the first line ends once a piece stands behind so many bytes, in which it ended at `line` or not at all.
fn line_end_with(line: Option<usize>, before: usize, piece: &[u8]) -> Option<usize>
    requires { before + length piece.now < 2 ^ 64 }
    ensures { result ≡ line_end_with line before piece.now }
{
    if line.is_some() {
        return line;
    }
    match place_of(b'\n', piece) {
        Some(at) => Some(before + at),
        None => None,
    }
}
