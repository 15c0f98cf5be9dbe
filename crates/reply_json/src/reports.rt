//! Reports, and what is told of several flights.
ghost use Rattle.std.specs.Prelude.{◌≡◌, ◌++◌, codes, All, OnOk};
ghost use Rattle.airport_file.specs.Words.{segment_word};
ghost use Rattle.replies.specs.Printable.{HasSegment, IsPrintableWindow, IsPrintableHeld, IsPrintableFlight, IsPrintableEntry};
ghost use Rattle.replies.specs.declared.block.Block.TheVariants.{Windows, Occupancy, Timetable, Batch, Late};
ghost use Rattle.serde_json.specs.Written.{compact_text};
ghost use Rattle.reply_json.specs.Values.{text_value};
ghost use Rattle.reply_json.specs.Lines.{command_object};

use crate::lists::write_rows;
use crate::numbered::{Numbered, write_command, write_line, write_words};
use crate::pieces::{quoted_name, quoted_segment};
use airport_file::Airport;
use replies::Entry;
use taxi_base::{FlightRow, HeldRow, Memory, Name, Segment, Span};
use taxi_text::{push_bytes, push_number};

/// Writes the object of the windows of a segment at the end.
pub(crate) fn write_windows(
    airport: &Airport,
    command: &Numbered,
    segment: Segment,
    windows: &[Span],
    out: &mut Vec<u8>,
) -> Result<(), Memory>
    requires segment { HasSegment airport.now segment }
    requires windows { All IsPrintableWindow windows.now }
    ensures { OnOk result (out.new.items ≡ out.old.items ++ compact_text (command_object airport.now command.now.command command.now.line command.now.text.now (Windows segment windows.now))) }
{
    write_command(command, out)?;
    write_line(command, out)?;
    push_bytes(out, b",\"reply\":\"windows\"")?;
    write_segment(airport, segment, out)?;
    push_bytes(out, b",\"windows\":")?;
    write_rows(airport, windows, out)?;
    write_words(command, out)
}

/// Writes the object of what is held of a segment at the end.
pub(crate) fn write_occupancy(
    airport: &Airport,
    command: &Numbered,
    segment: Segment,
    held: &[HeldRow],
    out: &mut Vec<u8>,
) -> Result<(), Memory>
    requires segment { HasSegment airport.now segment }
    requires held { All (IsPrintableHeld airport.now) held.now }
    ensures { OnOk result (out.new.items ≡ out.old.items ++ compact_text (command_object airport.now command.now.command command.now.line command.now.text.now (Occupancy segment held.now))) }
{
    write_command(command, out)?;
    push_bytes(out, b",\"held\":")?;
    write_rows(airport, held, out)?;
    write_line(command, out)?;
    push_bytes(out, b",\"reply\":\"occupancy\"")?;
    write_segment(airport, segment, out)?;
    write_words(command, out)
}

fn write_segment(airport: &Airport, segment: Segment, out: &mut Vec<u8>) -> Result<(), Memory>
    requires { HasSegment airport.now segment }
    ensures { OnOk result (out.new.items ≡ (out.old.items ++ codes ",\"segment\":") ++ compact_text (text_value (segment_word airport.now segment))) }
{
    let name = quoted_segment(airport, segment);
    push_bytes(out, b",\"segment\":")?;
    push_bytes(out, name.bytes())
}

/// Writes the object of the flights in force at the end.
pub(crate) fn write_timetable(
    airport: &Airport,
    command: &Numbered,
    flights: &[FlightRow],
    out: &mut Vec<u8>,
) -> Result<(), Memory>
    requires { All (IsPrintableFlight airport.now) flights.now }
    ensures { OnOk result (out.new.items ≡ out.old.items ++ compact_text (command_object airport.now command.now.command command.now.line command.now.text.now (Timetable flights.now))) }
{
    write_command(command, out)?;
    push_bytes(out, b",\"flights\":")?;
    write_rows(airport, flights, out)?;
    write_line(command, out)?;
    push_bytes(out, b",\"reply\":\"timetable\"")?;
    write_words(command, out)
}

/// Writes the object of a batch at the end.
pub(crate) fn write_batch(
    airport: &Airport,
    command: &Numbered,
    total: u32,
    entries: &[(Name, Entry)],
    out: &mut Vec<u8>,
) -> Result<(), Memory>
    requires { All (IsPrintableEntry airport.now) entries.now }
    ensures { OnOk result (out.new.items ≡ out.old.items ++ compact_text (command_object airport.now command.now.command command.now.line command.now.text.now (Batch total entries.now))) }
{
    write_command(command, out)?;
    push_bytes(out, b",\"entries\":")?;
    write_rows(airport, entries, out)?;
    write_line(command, out)?;
    push_bytes(out, b",\"reply\":\"batch\",\"total\":")?;
    push_number(out, u64::from(total))?;
    write_words(command, out)
}

/// Writes the object of a late flight at the end.
pub(crate) fn write_late(
    airport: &Airport,
    command: &Numbered,
    flight: &Name,
    entries: &[(Name, Entry)],
    out: &mut Vec<u8>,
) -> Result<(), Memory>
    requires { All (IsPrintableEntry airport.now) entries.now }
    ensures { OnOk result (out.new.items ≡ out.old.items ++ compact_text (command_object airport.now command.now.command command.now.line command.now.text.now (Late flight.now entries.now))) }
{
    let name = quoted_name(flight);
    write_command(command, out)?;
    push_bytes(out, b",\"entries\":")?;
    write_rows(airport, entries, out)?;
    push_bytes(out, b",\"flight\":")?;
    push_bytes(out, name.bytes())?;
    write_line(command, out)?;
    push_bytes(out, b",\"reply\":\"late\"")?;
    write_words(command, out)
}
