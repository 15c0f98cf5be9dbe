//! The check of a transcript.
ghost use Rattle.std.specs.Prelude.{◌≡◌, ◌≤◌, length, IfOk};
ghost use Rattle.taxi_base.specs.Airport.{IsWellFormed};
ghost use Rattle.taxi_base.specs.State.{no_holder};
ghost use Rattle.taxi_text.specs.Lines.{commands_of};
ghost use Rattle.transcript_check.specs.Verdicts.{IsBlockVerdict, IsVerdict};

use crate::failure::Failure;
use crate::not_passed::NotPassed;
use airport_file::Airport;
use block_reader::read_block;
use std::alloc::Global;
use taxi_base::Memory;
use taxi_text::{lines, skipped};
use transcripts::{BlockChecker, done_line};

/// What the check of a transcript finds.
#[derive(Clone, Copy, Debug, Drop)]
pub enum Verdict {
    /// Each command has its block, all pass, and there are so many.
    Right { count: u64 },
    /// The first block that fails, by its number from 1, and why.
    Wrong { number: u64, why: Failure },
}

/// Has a checker, to whom no flight is in force, check the block of each command where it is due, and sees that the last
/// line stands behind them.
pub fn check_transcript<C: BlockChecker>(
    alloc: Global,
    airport: &Airport,
    checker: &mut C,
    commands: &[u8],
    transcript: &[u8],
) -> Result<Verdict, Memory>
    requires same { C.airport checker.old ≡ airport.now }
    requires fresh { C.state checker.old ≡ no_holder }
    requires within { length commands.now ≤ 16777216 }
    ensures { IfOk result (IsVerdict airport.now (commands_of commands.now) transcript.now) }
{
    // The airport keeps its rules, so what passes is best.
    let _ = airport.horizon();
    let mut rest = transcript;
    let mut count: u64 = 0;
    for line in lines(commands) {
        if !skipped(line) {
            match check_block(alloc, airport, checker, line, rest) {
                Ok(length) => rest = &rest[length..],
                Err(NotPassed::Fails(why)) => {
                    return Ok(Verdict::Wrong {
                        number: count + 1,
                        why,
                    });
                }
                Err(NotPassed::Memory) => return Err(Memory::told()),
            }
            count += 1;
        }
    }
    if rest == done_line(count).bytes() {
        return Ok(Verdict::Right { count });
    }
    Ok(Verdict::Wrong {
        number: count + 1,
        why: Failure::Form,
    })
}

// Reads the block that is due for a line, and has it checked: how many bytes its text has.
fn check_block<C: BlockChecker>(
    alloc: Global,
    airport: &Airport,
    checker: &mut C,
    line: &[u8],
    rest: &[u8],
) -> Result<usize, NotPassed>
    requires same { C.airport checker.old ≡ airport.now }
    ensures verdict { IsBlockVerdict airport.now (C.state checker.old) line.now rest.now (C.state checker.new) result }
    ensures airport { C.airport checker.new ≡ airport.now }
{
    let (block, length) = read_block(alloc, airport, rest)?;
    checker.check_next(line, block)?;
    Ok(length)
}
