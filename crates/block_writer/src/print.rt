//! Blocks, written at the end of a text.
ghost use Rattle.std.specs.Prelude.{◌≡◌, ◌≤◌, ◌∷◌, ◌++◌, [], length, decimal, codes, All, OnOk, OnErr};
ghost use Rattle.replies.specs.declared.block.Block.TheVariants.{Route, NoRoute, Windows, Occupancy, Timetable, Batch, Late};
ghost use Rattle.replies.specs.Texts.{line_text, lines_text, step_words, label_words, entry_lines, block_text};
ghost use Rattle.replies.specs.Printable.{HasArc, HasSegment, HasClass};
ghost use Rattle.block_writer.specs.Printed.{rows_text, entries_text, IsWritableEntry, IsWritable, IsCutShort};

use crate::line_buffer::LineBuffer;
use crate::rows::print_rows;
use crate::short::{cancelled_text, filed_text, refused_text};
use airport_file::Airport;
use replies::{Block, Entries, Entry};
use taxi_base::{FlightRow, HeldRow, LabelRow, Memory, Name, Segment, Span, Step, Time};
use taxi_text::push_bytes;

/// Writes the text of a block at the end of `out`. Where memory runs out a first part of it stands there.
pub fn print_block(airport: &Airport, block: &Block, out: &mut Vec<u8>) -> Result<(), Memory>
    requires { IsWritable airport.now block.now }
    ensures ok { OnOk result (out.new.items ≡ out.old.items ++ block_text airport.now block.now) }
    ensures err { OnErr result (IsCutShort (block_text airport.now block.now) out.old.items out.new.items) }
{
    match block {
        Block::Refused(why) => push_bytes(out, refused_text(why).bytes()),
        Block::Filed { flight, start, end } => {
            push_bytes(out, filed_text(flight, *start, *end).bytes())
        }
        Block::Cancelled { flight } => push_bytes(out, cancelled_text(flight).bytes()),
        Block::Route {
            flight,
            second,
            steps,
            labels,
        } => {
            let (steps, labels) = (steps.as_slice(), labels.as_slice());
            print_route(airport, flight, *second, steps, labels, out)
        }
        Block::NoRoute { labels } => print_no_route(airport, labels.as_slice(), out),
        Block::Windows { segment, windows } => {
            print_windows(airport, *segment, windows.as_slice(), out)
        }
        Block::Occupancy { segment, held } => {
            print_occupancy(airport, *segment, held.as_slice(), out)
        }
        Block::Timetable { flights } => print_timetable(airport, flights.as_slice(), out),
        Block::Batch { total, entries } => print_batch(airport, *total, entries, out),
        Block::Late { flight, entries } => print_late(airport, flight, entries, out),
    }
}

/// Writes the text of a route's block at the end of `out`. Where memory runs out a first part of it stands there.
pub fn print_route(
    airport: &Airport,
    flight: &Name,
    second: Time,
    steps: &[Step],
    labels: &[LabelRow],
    out: &mut Vec<u8>,
) -> Result<(), Memory>
    requires steps { All (λ step. HasArc airport.now step.arc) steps.now }
    requires labels { All (λ label. HasArc airport.now label.arc) labels.now }
    ensures ok { OnOk result (out.new.items ≡ out.old.items ++ block_text airport.now (Route flight.now second steps.now labels.now)) }
    ensures err { OnErr result (IsCutShort (block_text airport.now (Route flight.now second steps.now labels.now)) out.old.items out.new.items) }
{
    let mut line = LineBuffer::new();
    write_route_head(flight, second, steps.len(), labels.len(), &mut line);
    print_line_and_rows(airport, &mut line, steps, labels, out)
}

#[tactic(auto, unfolding(replies::specs::Texts::block_text))]
fn print_no_route(airport: &Airport, labels: &[LabelRow], out: &mut Vec<u8>) -> Result<(), Memory>
    requires { All (λ label. HasArc airport.now label.arc) labels.now }
    ensures ok { OnOk result (out.new.items ≡ out.old.items ++ block_text airport.now (NoRoute labels.now)) }
    ensures err { OnErr result (IsCutShort (block_text airport.now (NoRoute labels.now)) out.old.items out.new.items) }
{
    let mut line = LineBuffer::new();
    write_no_route_head(labels.len(), &mut line);
    print_rows(airport, &mut line, labels, out)
}

#[tactic(auto, unfolding(replies::specs::Texts::block_text))]
fn print_windows(
    airport: &Airport,
    segment: Segment,
    windows: &[Span],
    out: &mut Vec<u8>,
) -> Result<(), Memory>
    requires { HasSegment airport.now segment }
    ensures ok { OnOk result (out.new.items ≡ out.old.items ++ block_text airport.now (Windows segment windows.now)) }
    ensures err { OnErr result (IsCutShort (block_text airport.now (Windows segment windows.now)) out.old.items out.new.items) }
{
    let mut line = LineBuffer::new();
    line.put_last_number(windows.len() as u64);
    line.put_segment(airport, segment);
    line.put(b"windows ");
    print_rows(airport, &mut line, windows, out)
}

#[tactic(auto, unfolding(replies::specs::Texts::block_text))]
fn print_occupancy(
    airport: &Airport,
    segment: Segment,
    held: &[HeldRow],
    out: &mut Vec<u8>,
) -> Result<(), Memory>
    requires segment { HasSegment airport.now segment }
    requires held { All (λ row. HasSegment airport.now row.segment) held.now }
    ensures ok { OnOk result (out.new.items ≡ out.old.items ++ block_text airport.now (Occupancy segment held.now)) }
    ensures err { OnErr result (IsCutShort (block_text airport.now (Occupancy segment held.now)) out.old.items out.new.items) }
{
    let mut line = LineBuffer::new();
    line.put_last_number(held.len() as u64);
    line.put_segment(airport, segment);
    line.put(b"occupancy ");
    print_rows(airport, &mut line, held, out)
}

#[tactic(auto, unfolding(replies::specs::Texts::block_text))]
fn print_timetable(
    airport: &Airport,
    flights: &[FlightRow],
    out: &mut Vec<u8>,
) -> Result<(), Memory>
    requires { All (λ row. HasClass airport.now row.class) flights.now }
    ensures ok { OnOk result (out.new.items ≡ out.old.items ++ block_text airport.now (Timetable flights.now)) }
    ensures err { OnErr result (IsCutShort (block_text airport.now (Timetable flights.now)) out.old.items out.new.items) }
{
    let mut line = LineBuffer::new();
    line.put_last_number(flights.len() as u64);
    line.put(b"timetable ");
    print_rows(airport, &mut line, flights, out)
}

/// Writes the text of a batch's block at the end of `out`. Where memory runs out a first part of it stands there.
#[tactic(auto, unfolding(replies::specs::Texts::block_text))]
pub fn print_batch(
    airport: &Airport,
    total: u32,
    entries: &Entries,
    out: &mut Vec<u8>,
) -> Result<(), Memory>
    requires { All (IsWritableEntry airport.now) entries.now }
    ensures ok { OnOk result (out.new.items ≡ out.old.items ++ block_text airport.now (Batch total entries.now)) }
    ensures err { OnErr result (IsCutShort (block_text airport.now (Batch total entries.now)) out.old.items out.new.items) }
{
    let mut line = LineBuffer::new();
    line.put_last_number(u64::from(total));
    line.put_number(entries.len() as u64);
    line.put(b"batch ");
    print_line_and_entries(airport, &mut line, entries, out)
}

#[tactic(auto, unfolding(replies::specs::Texts::block_text))]
fn print_late(
    airport: &Airport,
    flight: &Name,
    entries: &Entries,
    out: &mut Vec<u8>,
) -> Result<(), Memory>
    requires { All (IsWritableEntry airport.now) entries.now }
    ensures ok { OnOk result (out.new.items ≡ out.old.items ++ block_text airport.now (Late flight.now entries.now)) }
    ensures err { OnErr result (IsCutShort (block_text airport.now (Late flight.now entries.now)) out.old.items out.new.items) }
{
    let mut line = LineBuffer::new();
    line.put_last_number(entries.len() as u64);
    line.put_name(flight);
    line.put(b"late ");
    print_line_and_entries(airport, &mut line, entries, out)
}

// Writes the line as it stands, the steps and the labels.
fn print_line_and_rows(
    airport: &Airport,
    line: &mut LineBuffer,
    steps: &[Step],
    labels: &[LabelRow],
    out: &mut Vec<u8>,
) -> Result<(), Memory>
    requires steps { All (λ step. HasArc airport.now step.arc) steps.now }
    requires labels { All (λ label. HasArc airport.now label.arc) labels.now }
    ensures ok { OnOk result (out.new.items ≡ out.old.items ++ (line.old ++ (rows_text (step_words airport.now) steps.now ++ rows_text (label_words airport.now) labels.now))) }
    ensures err { OnErr result (IsCutShort (line.old ++ (rows_text (step_words airport.now) steps.now ++ rows_text (label_words airport.now) labels.now)) out.old.items out.new.items) }
{
    print_rows(airport, line, steps, out)?;
    line.clear();
    print_rows(airport, line, labels, out)
}

// Writes the line as it stands, and the entries.
fn print_line_and_entries(
    airport: &Airport,
    line: &mut LineBuffer,
    entries: &Entries,
    out: &mut Vec<u8>,
) -> Result<(), Memory>
    requires { All (IsWritableEntry airport.now) entries.now }
    ensures ok { OnOk result (out.new.items ≡ out.old.items ++ (line.old ++ entries_text airport.now entries.now)) }
    ensures err { OnErr result (IsCutShort (line.old ++ entries_text airport.now entries.now) out.old.items out.new.items) }
{
    push_bytes(out, line.bytes())?;
    for place in 0..entries.len() {
        let (name, entry) = entries.at(place);
        print_entry(airport, line, name, entry, out)?;
    }
    Ok(())
}

// Writes what is told of one flight.
fn print_entry(
    airport: &Airport,
    line: &mut LineBuffer,
    name: &Name,
    entry: &Entry,
    out: &mut Vec<u8>,
) -> Result<(), Memory>
    requires { IsWritableEntry airport.now (name.now, entry.now) }
    ensures ok { OnOk result (out.new.items ≡ out.old.items ++ lines_text (entry_lines airport.now (name.now, entry.now))) }
    ensures err { OnErr result (IsCutShort (lines_text (entry_lines airport.now (name.now, entry.now))) out.old.items out.new.items) }
{
    match entry {
        Entry::Route {
            second,
            steps,
            labels,
        } => {
            let (steps, labels) = (steps.as_slice(), labels.as_slice());
            write_route_head(name, *second, steps.len(), labels.len(), line);
            write_next(name, line);
            print_line_and_rows(airport, line, steps, labels, out)
        }
        Entry::NoRoute { labels } => {
            write_no_route_head(labels.as_slice().len(), line);
            write_next(name, line);
            print_rows(airport, line, labels.as_slice(), out)
        }
        Entry::Dropped => {
            write_dropped(name, line);
            push_bytes(out, line.bytes())
        }
    }
}

// Of which flight is told, before the line as it stands.
fn write_next(name: &Name, line: &mut LineBuffer)
    requires { length line.old ≤ 96 }
    ensures { line.new ≡ line_text (codes "next" ∷ name.now ∷ []) ++ line.old }
{
    line.put_last_name(name);
    line.put(b"next ");
}

fn write_dropped(name: &Name, line: &mut LineBuffer)
    ensures { line.new ≡ line_text (codes "dropped" ∷ name.now ∷ []) }
{
    line.clear();
    line.put_last_name(name);
    line.put(b"dropped ");
}

fn write_route_head(flight: &Name, second: Time, steps: usize, labels: usize, line: &mut LineBuffer)
    ensures text { line.new ≡ line_text (codes "route" ∷ flight.now ∷ decimal second ∷ decimal steps ∷ decimal labels ∷ []) }
    ensures length { length line.new ≤ 96 }
{
    line.clear();
    line.put_last_three(u64::from(second), steps as u64, labels as u64);
    line.put_name(flight);
    line.put(b"route ");
}

fn write_no_route_head(labels: usize, line: &mut LineBuffer)
    ensures text { line.new ≡ line_text (codes "no-route" ∷ decimal labels ∷ []) }
    ensures length { length line.new ≤ 96 }
{
    line.clear();
    line.put_last_number(labels as u64);
    line.put(b"no-route ");
}
