//! The steps of a `file` command.
ghost use Rattle.std.specs.Prelude.{◌≡◌, drop};
ghost use Rattle.taxi_text.specs.Commands.{first_as, step_of, filed_steps_of};
ghost use Rattle.taxi_text.specs.Reading.{IsReading};
ghost use Rattle.taxi_text.specs.Words.{words_left};

use crate::command::{CommandRefused, FiledStep};
use crate::fields::{read_arc_word, read_number};
use crate::gathered::Gathered;
use crate::word::WordSlices;
use std::alloc::Global;
use taxi_base::List;

const MOST_STEPS: usize = 256;

// The steps of the words that are left.
pub(crate) fn read_steps(
    alloc: Global,
    words: &mut WordSlices<'_>,
) -> Result<List<FiledStep>, CommandRefused>
    ensures { IsReading (filed_steps_of (words_left words.old)) result }
{
    let mut gathered = Gathered::new(alloc);
    while let Some(arc) = words.next() {
        let Some(step) = next_step(arc, words) else {
            return Err(CommandRefused::BadLine);
        };
        if gathered.count == MOST_STEPS {
            return Err(CommandRefused::BadLine);
        }
        gathered.add(step);
    }
    gathered.finish()
}

// The step of an arc word and the next word.
fn next_step(arc: &[u8], words: &mut WordSlices<'_>) -> Option<FiledStep>
    ensures value { result ≡ first_as (step_of arc.now) (words_left words.old) }
    ensures rest { words_left words.new ≡ drop 1 (words_left words.old) }
{
    let out = words.next()?;
    let (segment, forward) = read_arc_word(arc)?;
    let leave = read_number(out)?;
    Some(FiledStep {
        segment,
        forward,
        leave,
    })
}
