//! Some lines of a block, written from the end of the last to the front of the first in a buffer that is kept for the next. So
//! digits are written where they are to stand, the last first, and many lines come to a text in one piece. A word is written with
//! what stands behind it: a blank, or behind the last word of a line the line feed.
ghost use Rattle.std.specs.Prelude.{◌≡◌, ◌+◌, ◌≤◌, ◌∷◌, ◌++◌, [], length, take, drop, decimal};
ghost use Rattle.airport_file.specs.Words.{class_word, segment_word, word_of_arc};
ghost use Rattle.replies.specs.Printable.{HasArc, HasSegment, HasClass};

use crate::digits::{write_last_number, write_number, write_two};
use airport_file::Airport;
use std::marker::Model;
use taxi_base::{Arc, Class, Name, Segment};

/// How many lines have room in the buffer. None has more than 96 bytes.
pub(crate) const MOST_LINES: usize = 16;

const ROOM: usize = 96 * MOST_LINES;

/// What is written of some lines so far, which is their end.
#[derive(Drop)]
pub(crate) struct LineBuffer {
    // The bytes from `start` on are those of the lines.
    bytes: [u8; ROOM],
    start: usize,
}

impl Model for LineBuffer {
    ghost use Rattle.std.specs.Prelude.{List, ℕ, ◌≤◌, drop};

    ghost Value = { List ℕ };

    ghost view = { λ l. drop l.start l.bytes };

    ghost invariant = { λ l. l.start ≤ 1536 };
}

impl LineBuffer {
    pub(crate) fn new() -> LineBuffer
        ensures { result ≡ [] }
    {
        LineBuffer {
            bytes: [0; ROOM],
            start: ROOM,
        }
    }

    pub(crate) fn bytes(&self) -> &[u8]
        ensures { result.now ≡ self.now }
    {
        &self.bytes[self.start..]
    }

    /// No bytes.
    pub(crate) fn clear(&mut self)
        ensures { self.new ≡ [] }
    {
        self.start = ROOM;
    }

    /// A byte before what is written.
    pub(crate) fn put_byte(&mut self, byte: u8)
        requires { 1 + length self.old ≤ 1536 }
        ensures { self.new ≡ byte ∷ self.old }
    {
        let start = self.start - 1;
        self.bytes[start] = byte;
        self.start = start;
    }

    /// A text before what is written.
    #[inline(always)]
    pub(crate) fn put<const N: usize>(&mut self, text: &[u8; N])
        requires { length text.now + length self.old ≤ 1536 }
        ensures { self.new ≡ text.now ++ self.old }
    {
        let start = self.start - N;
        write_group(text, &mut self.bytes, start);
        self.start = start;
    }

    /// A number and a blank before what is written.
    #[inline(always)]
    pub(crate) fn put_number(&mut self, number: u64)
        requires { length self.old + 21 ≤ 1536 }
        ensures text { self.new ≡ decimal number ++ 32 ∷ self.old }
        ensures length { length self.new ≤ length self.old + 21 }
    {
        self.start = write_number(number, &mut self.bytes, self.start);
    }

    /// A number and a line feed before what is written.
    #[inline(always)]
    pub(crate) fn put_last_number(&mut self, number: u64)
        requires { length self.old + 21 ≤ 1536 }
        ensures text { self.new ≡ decimal number ++ 10 ∷ self.old }
        ensures length { length self.new ≤ length self.old + 21 }
    {
        self.start = write_last_number(number, &mut self.bytes, self.start);
    }

    /// Three numbers before what is written, a blank behind each of the first two and a line feed behind the last.
    #[inline(always)]
    pub(crate) fn put_last_three(&mut self, first: u64, second: u64, third: u64)
        requires { length self.old + 63 ≤ 1536 }
        ensures text { self.new ≡ decimal first ++ 32 ∷ decimal second ++ 32 ∷ decimal third ++ 10 ∷ self.old }
        ensures length { length self.new ≤ length self.old + 63 }
    {
        // Where the lines start is written once, and not after each number.
        let third_start = write_last_number(third, &mut self.bytes, self.start);
        let second_start = write_number(second, &mut self.bytes, third_start);
        self.start = write_number(first, &mut self.bytes, second_start);
    }

    /// A name and a blank before what is written.
    pub(crate) fn put_name(&mut self, name: &Name)
        requires { length self.old + 17 ≤ 1536 }
        ensures text { self.new ≡ name.now ++ 32 ∷ self.old }
        ensures length { length self.new ≤ length self.old + 17 }
    {
        self.put_byte(b' ');
        self.put_name_alone(name);
    }

    /// A name and a line feed before what is written.
    pub(crate) fn put_last_name(&mut self, name: &Name)
        requires { length self.old + 17 ≤ 1536 }
        ensures text { self.new ≡ name.now ++ 10 ∷ self.old }
        ensures length { length self.new ≤ length self.old + 17 }
    {
        self.put_byte(b'\n');
        self.put_name_alone(name);
    }

    // A name before what is written, with nothing behind it.
    #[inline(always)]
    fn put_name_alone(&mut self, name: &Name)
        requires { length self.old + 16 ≤ 1536 }
        ensures text { self.new ≡ name.now ++ self.old }
        ensures length { length self.new ≤ length self.old + 16 }
    {
        self.start = write_name(name, &mut self.bytes, self.start);
    }

    /// The name of a segment and a blank before what is written.
    pub(crate) fn put_segment(&mut self, airport: &Airport, segment: Segment)
        requires exists { HasSegment airport.now segment }
        requires room { length self.old + 17 ≤ 1536 }
        ensures text { self.new ≡ segment_word airport.now segment ++ 32 ∷ self.old }
        ensures length { length self.new ≤ length self.old + 17 }
    {
        self.put_name(&airport.segment_name(segment));
    }

    /// The name of a segment and a line feed before what is written.
    pub(crate) fn put_last_segment(&mut self, airport: &Airport, segment: Segment)
        requires exists { HasSegment airport.now segment }
        requires room { length self.old + 17 ≤ 1536 }
        ensures text { self.new ≡ segment_word airport.now segment ++ 10 ∷ self.old }
        ensures length { length self.new ≤ length self.old + 17 }
    {
        self.put_last_name(&airport.segment_name(segment));
    }

    /// The name of a class and a blank before what is written.
    pub(crate) fn put_class(&mut self, airport: &Airport, class: Class)
        requires exists { HasClass airport.now class }
        requires room { length self.old + 17 ≤ 1536 }
        ensures text { self.new ≡ class_word airport.now class ++ 32 ∷ self.old }
        ensures length { length self.new ≤ length self.old + 17 }
    {
        self.put_name(&airport.class_name(class));
    }

    /// The word of an arc and a blank before what is written.
    pub(crate) fn put_arc(&mut self, airport: &Airport, arc: Arc)
        requires exists { HasArc airport.now arc }
        requires room { length self.old + 18 ≤ 1536 }
        ensures text { self.new ≡ word_of_arc airport.now arc ++ 32 ∷ self.old }
        ensures length { length self.new ≤ length self.old + 18 }
    {
        let sign = if arc.is_forward() { b'+' } else { b'-' };
        let end = self.start - 2;
        write_two(sign, b' ', &mut self.bytes, end);
        self.start = write_name(&airport.segment_name(arc.segment()), &mut self.bytes, end);
    }
}

// A name, written so that it ends at `end`, and where it starts.
#[inline(always)]
fn write_name(name: &Name, bytes: &mut [u8], end: usize) -> usize
    requires { (16 ≤ end) × (end ≤ length bytes.old) }
    ensures start { result + length name.now ≡ end }
    ensures short { end ≤ result + 16 }
    ensures written { drop result bytes.new ≡ name.now ++ drop end bytes.old }
{
    let text = name.bytes();
    let start = end - text.len();
    write_short(text, bytes, start);
    start
}

// A text of at most 16 bytes, written from a place on: its last bytes and its first, which meet. So no call copies them.
#[inline(always)]
fn write_short(text: &[u8], bytes: &mut [u8], at: usize)
    requires short { length text.now ≤ 16 }
    requires room { at + length text.now ≤ length bytes.old }
    ensures { drop at bytes.new ≡ text.now ++ drop (at + length text.now) bytes.old }
{
    if text.len() >= 8 {
        write_ends::<8>(text, bytes, at);
    } else if text.len() >= 4 {
        write_ends::<4>(text, bytes, at);
    } else {
        bytes[at..at + text.len()].copy_from_slice(text);
    }
}

#[inline(always)]
fn write_ends<const N: usize>(text: &[u8], bytes: &mut [u8], at: usize)
    requires text { (N ≤ length text.now) × (length text.now ≤ N + N) }
    requires room { at + length text.now ≤ length bytes.old }
    ensures { drop at bytes.new ≡ text.now ++ drop (at + length text.now) bytes.old }
{
    let rest = text.len() - N;
    write_group(&group_at::<N>(text, rest), bytes, at + rest);
    write_group(&group_at::<N>(text, 0), bytes, at);
}

// The bytes of a text from a place on, in a copy of their own.
#[inline(always)]
fn group_at<const N: usize>(text: &[u8], from: usize) -> [u8; N]
    requires { from + N ≤ length text.now }
    ensures { result ≡ take N (drop from text.now) }
{
    <[u8; N]>::try_from(&text[from..from + N]).unwrap()
}

// A group of bytes, written from a place on. How many they are is known when the program is built, so the loop becomes a move or
// two; `copy_from_slice` would first look whether the two overlap.
#[inline(always)]
fn write_group<const N: usize>(group: &[u8; N], bytes: &mut [u8], at: usize)
    requires { at + N ≤ length bytes.old }
    ensures { drop at bytes.new ≡ group.now ++ drop (at + N) bytes.old }
{
    for i in 0..N {
        bytes[at + i] = group[i];
    }
}
