//! The commands that end in a choice of nodes.
ghost use Rattle.std.specs.Prelude.{◌≡◌};
ghost use Rattle.taxi_text.specs.Commands.{choice_of, asked_any_of, arrival_any_of, departure_any_of};
ghost use Rattle.taxi_text.specs.Reading.{IsReading};
ghost use Rattle.taxi_text.specs.Words.{words_left};

use crate::command::{AskedAny, Command, CommandRefused};
use crate::gathered::Gathered;
use crate::reader::{next_name, next_number};
use crate::word::WordSlices;
use std::alloc::Global;
use taxi_base::{List, Name};

const MOST_NODES: usize = 16;

pub(crate) fn read_arrival_any(
    alloc: Global,
    words: &mut WordSlices<'_>,
) -> Result<Command, CommandRefused>
    ensures { IsReading (arrival_any_of (words_left words.old)) result }
{
    let asked = read_asked_any(alloc, words)?;
    Ok(Command::ArrivalAny(asked))
}

pub(crate) fn read_departure_any(
    alloc: Global,
    words: &mut WordSlices<'_>,
) -> Result<Command, CommandRefused>
    ensures { IsReading (departure_any_of (words_left words.old)) result }
{
    let asked = read_asked_any(alloc, words)?;
    Ok(Command::DepartureAny(asked))
}

fn read_asked_any(alloc: Global, words: &mut WordSlices<'_>) -> Result<AskedAny, CommandRefused>
    ensures { IsReading (asked_any_of (words_left words.old)) result }
{
    let Some(flight) = next_name(words) else {
        return Err(CommandRefused::BadLine);
    };
    let Some(class) = next_name(words) else {
        return Err(CommandRefused::BadLine);
    };
    let Some(from) = next_name(words) else {
        return Err(CommandRefused::BadLine);
    };
    let Some(time) = next_number(words) else {
        return Err(CommandRefused::BadLine);
    };
    let Some(slack) = next_number(words) else {
        return Err(CommandRefused::BadLine);
    };
    let nodes = read_choice(alloc, words)?;
    Ok(AskedAny {
        flight,
        class,
        from,
        time,
        slack,
        nodes,
    })
}

// The names of the words that are left.
fn read_choice(alloc: Global, words: &mut WordSlices<'_>) -> Result<List<Name>, CommandRefused>
    ensures { IsReading (choice_of (words_left words.old)) result }
{
    let mut gathered = Gathered::new(alloc);
    while let Some(word) = words.next() {
        let Some(name) = Name::read(word) else {
            return Err(CommandRefused::BadLine);
        };
        if gathered.count == MOST_NODES {
            return Err(CommandRefused::BadLine);
        }
        gathered.add(name);
    }
    gathered.finish()
}
