//! From a line to its command.
ghost use Rattle.std.specs.Prelude.{◌≡◌, ◌↔◌, ◌==◌, Some, None, IfOk, IsSome, IsSomeAnd, length, take, drop};
ghost use Rattle.taxi_text.specs.Commands.{command_of, EndsInList, file_of, unlisted_of, asked_of, arrival_of, departure_of, cancel_of, reroute_of, divert_of, late_of, windows_of, occupancy_of, timetable_of, work_of, work_done_of, first_as, the_end};
ghost use Rattle.taxi_text.specs.Fields.{name_of, number_of};
ghost use Rattle.taxi_text.specs.Reading.{IsReading};
ghost use Rattle.taxi_text.specs.Words.{words_left};

use crate::batch::read_batch;
use crate::choice::{read_arrival_any, read_departure_any};
use crate::command::{Asked, Command, CommandRefused, Filed, Shut};
use crate::fields::read_number;
use crate::filed::read_steps;
use crate::word::{WordSlices, words};
use std::alloc::Global;
use taxi_base::{Name, Time};

/// The one command of a line. A line that is not in the grammar is a `BadLine`; only a
/// command that ends in a list takes memory.
#[tactic(auto, unfolding(crate::specs::Commands::command_of))]
pub fn read_command(alloc: Global, line: &[u8]) -> Result<Command, CommandRefused>
    ensures ok { IfOk result (λ command. command_of line.now ≡ Some command) }
    ensures bad_line { (result ≡ Err CommandRefused.BadLine) ↔ (command_of line.now ≡ None) }
    ensures memory { result ≡ Err CommandRefused.Memory → IsSomeAnd (command_of line.now) EndsInList }
{
    let mut words = words(line);
    let Some(verb) = words.next() else {
        return Err(CommandRefused::BadLine);
    };
    if verb == b"file".as_slice() {
        return read_file(alloc, &mut words);
    }
    if verb == b"arrival-any".as_slice() {
        return read_arrival_any(alloc, &mut words);
    }
    if verb == b"departure-any".as_slice() {
        return read_departure_any(alloc, &mut words);
    }
    if verb == b"batch".as_slice() {
        return read_batch(alloc, &mut words);
    }
    match read_unlisted(verb, &mut words) {
        Some(command) => Ok(command),
        None => Err(CommandRefused::BadLine),
    }
}

fn read_file(alloc: Global, words: &mut WordSlices<'_>) -> Result<Command, CommandRefused>
    ensures { IsReading (file_of (words_left words.old)) result }
{
    let Some(flight) = next_name(words) else {
        return Err(CommandRefused::BadLine);
    };
    let Some(class) = next_name(words) else {
        return Err(CommandRefused::BadLine);
    };
    let Some(start) = next_number(words) else {
        return Err(CommandRefused::BadLine);
    };
    let steps = read_steps(alloc, words)?;
    Ok(Command::File(Filed {
        flight,
        class,
        start,
        steps,
    }))
}

fn read_unlisted(verb: &[u8], words: &mut WordSlices<'_>) -> Option<Command>
    ensures { result ≡ unlisted_of verb.now (words_left words.old) }
{
    if verb == b"arrival".as_slice() {
        read_arrival(words)
    } else if verb == b"departure".as_slice() {
        read_departure(words)
    } else if verb == b"cancel".as_slice() {
        read_cancel(words)
    } else if verb == b"reroute".as_slice() {
        read_reroute(words)
    } else if verb == b"divert".as_slice() {
        read_divert(words)
    } else if verb == b"late".as_slice() {
        read_late(words)
    } else if verb == b"windows".as_slice() {
        read_windows(words)
    } else if verb == b"occupancy".as_slice() {
        read_occupancy(words)
    } else if verb == b"timetable".as_slice() {
        at_end(words, Command::Timetable)
    } else if verb == b"work".as_slice() {
        read_work(words)
    } else if verb == b"workdone".as_slice() {
        read_work_done(words)
    } else {
        None
    }
}

fn read_asked(words: &mut WordSlices<'_>) -> Option<Asked>
    ensures { result ≡ asked_of (words_left words.old) }
{
    let asked = next_asked(words)?;
    at_end(words, asked)
}

// What the next six words ask for.
pub(crate) fn next_asked(words: &mut WordSlices<'_>) -> Option<Asked>
    ensures value { result ≡ asked_of (take 6 (words_left words.old)) }
    ensures rest { IsSome result → words_left words.new ≡ drop 6 (words_left words.old) }
{
    let flight = next_name(words)?;
    let class = next_name(words)?;
    let from = next_name(words)?;
    let to = next_name(words)?;
    let time = next_number(words)?;
    let slack = next_number(words)?;
    Some(Asked {
        flight,
        class,
        from,
        to,
        time,
        slack,
    })
}

fn read_arrival(words: &mut WordSlices<'_>) -> Option<Command>
    ensures { result ≡ arrival_of (words_left words.old) }
{
    let asked = read_asked(words)?;
    Some(Command::Arrival(asked))
}

fn read_departure(words: &mut WordSlices<'_>) -> Option<Command>
    ensures { result ≡ departure_of (words_left words.old) }
{
    let asked = read_asked(words)?;
    Some(Command::Departure(asked))
}

fn read_cancel(words: &mut WordSlices<'_>) -> Option<Command>
    ensures { result ≡ cancel_of (words_left words.old) }
{
    let flight = next_name(words)?;
    at_end(words, Command::Cancel { flight })
}

fn read_reroute(words: &mut WordSlices<'_>) -> Option<Command>
    ensures { result ≡ reroute_of (words_left words.old) }
{
    let flight = next_name(words)?;
    let time = next_number(words)?;
    at_end(words, Command::Reroute { flight, time })
}

fn read_divert(words: &mut WordSlices<'_>) -> Option<Command>
    ensures { result ≡ divert_of (words_left words.old) }
{
    let flight = next_name(words)?;
    let time = next_number(words)?;
    let node = next_name(words)?;
    at_end(words, Command::Divert { flight, time, node })
}

fn read_late(words: &mut WordSlices<'_>) -> Option<Command>
    ensures { result ≡ late_of (words_left words.old) }
{
    let flight = next_name(words)?;
    let time = next_number(words)?;
    let until = next_number(words)?;
    at_end(
        words,
        Command::Late {
            flight,
            time,
            until,
        },
    )
}

fn read_windows(words: &mut WordSlices<'_>) -> Option<Command>
    ensures { result ≡ windows_of (words_left words.old) }
{
    let segment = next_name(words)?;
    at_end(words, Command::Windows { segment })
}

fn read_occupancy(words: &mut WordSlices<'_>) -> Option<Command>
    ensures { result ≡ occupancy_of (words_left words.old) }
{
    let segment = next_name(words)?;
    at_end(words, Command::Occupancy { segment })
}

fn read_work(words: &mut WordSlices<'_>) -> Option<Command>
    ensures { result ≡ work_of (words_left words.old) }
{
    let name = next_name(words)?;
    let segment = next_name(words)?;
    let from = next_number(words)?;
    let until = next_number(words)?;
    let shut = Shut {
        name,
        segment,
        from,
        until,
    };
    at_end(words, Command::Work(shut))
}

fn read_work_done(words: &mut WordSlices<'_>) -> Option<Command>
    ensures { result ≡ work_done_of (words_left words.old) }
{
    let name = next_name(words)?;
    at_end(words, Command::WorkDone { name })
}

pub(crate) fn next_name(words: &mut WordSlices<'_>) -> Option<Name>
    ensures value { result ≡ first_as name_of (words_left words.old) }
    ensures rest { words_left words.new ≡ drop 1 (words_left words.old) }
{
    let word = words.next()?;
    Name::read(word)
}

pub(crate) fn next_number(words: &mut WordSlices<'_>) -> Option<Time>
    ensures value { result ≡ first_as number_of (words_left words.old) }
    ensures rest { words_left words.new ≡ drop 1 (words_left words.old) }
{
    let word = words.next()?;
    read_number(word)
}

// The value, where no further word comes.
fn at_end<T: Drop>(words: &mut WordSlices<'_>, value: T) -> Option<T>
    ensures { result ≡ the_end value (words_left words.old) }
{
    match words.next() {
        None => Some(value),
        Some(_) => None,
    }
}
