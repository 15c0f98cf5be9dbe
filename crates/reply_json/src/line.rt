//! The line of a command and its reply, and the last line.
ghost use Rattle.std.specs.Prelude.{◌≡◌, ◌++◌, OnOk};
ghost use Rattle.replies.specs.declared.block.Block.{Block as Plain};
ghost use Rattle.replies.specs.Printable.{IsPrintable};
ghost use Rattle.replies.specs.Texts.{block_text};
ghost use Rattle.serde_json.specs.Written.{compact_text};
ghost use Rattle.reply_json.specs.Lines.{command_object, object_line, done_line};

use crate::numbered::Numbered;
use crate::refusals::write_refused;
use crate::reports::{write_batch, write_late, write_occupancy, write_timetable, write_windows};
use crate::routes::{write_no_route, write_route};
use crate::short_replies::{write_cancelled, write_filed};
use airport_file::Airport;
use block_reader::read_back;
use itoa::Buffer;
use replies::Block;
use std::alloc::Global;
use taxi_base::Memory;
use taxi_text::{ShortText, push_bytes};

/// Writes the line of a command and of the reply to it at the end. The command has a number, and so has its line in the file, whose
/// text is given. The only error is that memory ran out.
pub fn write_object_line(
    alloc: Global,
    airport: &Airport,
    command: u64,
    line: u64,
    text: &[u8],
    reply: &[u8],
    out: &mut Vec<u8>,
) -> Result<(), Memory>
    requires reply { (block : Plain) × IsPrintable airport.now block × (reply.now ≡ block_text airport.now block) }
    ensures { (block : Plain) → IsPrintable airport.now block → reply.now ≡ block_text airport.now block → OnOk result (out.new.items ≡ out.old.items ++ object_line airport.now command line text.now block) }
{
    let block = read_back(alloc, airport, reply)?;
    let numbered = Numbered {
        command,
        line,
        text,
    };
    write_object(airport, &numbered, &block, out)?;
    push_bytes(out, b"\n")
}

// Writes the object of a command and its reply at the end.
fn write_object(
    airport: &Airport,
    command: &Numbered,
    block: &Block,
    out: &mut Vec<u8>,
) -> Result<(), Memory>
    requires { IsPrintable airport.now block.now }
    ensures { OnOk result (out.new.items ≡ out.old.items ++ compact_text (command_object airport.now command.now.command command.now.line command.now.text.now block.now)) }
{
    match block {
        Block::Refused(why) => write_refused(command, why, out),
        Block::Filed { flight, start, end } => {
            write_filed(airport, command, flight, *start, *end, out)
        }
        Block::Cancelled { flight } => write_cancelled(airport, command, flight, out),
        Block::Route {
            flight,
            second,
            steps,
            labels,
        } => {
            let (steps, labels) = (steps.as_slice(), labels.as_slice());
            write_route(airport, command, flight, *second, steps, labels, out)
        }
        Block::NoRoute { labels } => write_no_route(airport, command, labels.as_slice(), out),
        Block::Windows { segment, windows } => {
            write_windows(airport, command, *segment, windows.as_slice(), out)
        }
        Block::Occupancy { segment, held } => {
            write_occupancy(airport, command, *segment, held.as_slice(), out)
        }
        Block::Timetable { flights } => write_timetable(airport, command, flights.as_slice(), out),
        Block::Batch { total, entries } => {
            write_batch(airport, command, *total, entries.as_slice(), out)
        }
        Block::Late { flight, entries } => {
            write_late(airport, command, flight, entries.as_slice(), out)
        }
    }
}

/// The last line, with the number of commands.
pub fn done_line(count: u64) -> ShortText
    ensures { result ≡ done_line count }
{
    let mut digits = Buffer::new();
    let mut text = ShortText::new();
    text.push(b"{\"done\":");
    text.push(digits.format(count).as_bytes());
    text.push(b"}\n");
    text
}
