//! The command that asks for several routes at once.
ghost use Rattle.std.specs.Prelude.{◌≡◌, IsSome, take, drop};
ghost use Rattle.taxi_text.specs.Commands.{batch_of, request_of};
ghost use Rattle.taxi_text.specs.Reading.{IsReading};
ghost use Rattle.taxi_text.specs.Words.{words_left};

use crate::command::{BatchRequest, Command, CommandRefused};
use crate::gathered::Gathered;
use crate::reader::next_asked;
use crate::word::WordSlices;
use std::alloc::Global;

const LEAST_REQUESTS: usize = 2;

const MOST_REQUESTS: usize = 6;

pub(crate) fn read_batch(
    alloc: Global,
    words: &mut WordSlices<'_>,
) -> Result<Command, CommandRefused>
    ensures { IsReading (batch_of (words_left words.old)) result }
{
    let mut gathered = Gathered::new(alloc);
    while let Some(verb) = words.next() {
        let Some(request) = next_request(verb, words) else {
            return Err(CommandRefused::BadLine);
        };
        if gathered.count == MOST_REQUESTS {
            return Err(CommandRefused::BadLine);
        }
        gathered.add(request);
    }
    if gathered.count < LEAST_REQUESTS {
        return Err(CommandRefused::BadLine);
    }
    let requests = gathered.finish()?;
    Ok(Command::Batch(requests))
}

// The request of its first word and the next six.
fn next_request(verb: &[u8], words: &mut WordSlices<'_>) -> Option<BatchRequest>
    ensures value { result ≡ request_of verb.now (take 6 (words_left words.old)) }
    ensures rest { IsSome result → words_left words.new ≡ drop 6 (words_left words.old) }
{
    if verb == b"arrival".as_slice() {
        let asked = next_asked(words)?;
        Some(BatchRequest::Arrival(asked))
    } else if verb == b"departure".as_slice() {
        let asked = next_asked(words)?;
        Some(BatchRequest::Departure(asked))
    } else {
        None
    }
}
