//! One command answered, and its reply read back and checked.
ghost use Rattle.std.specs.Prelude.{◌≡◌, IfOk, OnOk};
ghost use Rattle.taxi_base.specs.State.{State};
ghost use Rattle.replies.specs.Replies.{IsAnswered};
ghost use Rattle.replies.specs.Passes.{IsPassed};
ghost use Rattle.generated_run.specs.Summaries.{FoundMemory};

use airport_file::Airport;
use block_reader::read_back;
use replies::Block;
use std::alloc::Global;
use taxi_base::{Memory, Refusal};
use transcripts::{BlockChecker, CheckRefused, Router};

/// Has a command answered, and reads the reply back: the block that answers it, which passes every rule. The only error is that
/// memory ran out, for the command too.
pub(crate) fn read_answer<R: Router>(
    alloc: Global,
    airport: &Airport,
    router: &mut R,
    line: &[u8],
) -> Result<Block, Memory>
    requires router { R.airport router.old ≡ airport.now }
    ensures answered { IfOk result (λ block. IsAnswered airport.now (R.state router.old) line.now block (R.state router.new)) }
    ensures passed { IfOk result (λ block. IsPassed airport.now (R.state router.old) line.now block (R.state router.new)) }
    ensures memory { IfOk result (λ block. FoundMemory block) }
    ensures router { R.airport router.new ≡ airport.now }
{
    router.answer(line);
    let block = read_back(alloc, airport, router.reply())?;
    if let Block::Refused(Refusal::Memory) = block {
        return Err(Memory::told());
    }
    Ok(block)
}

/// Has a block checked that passes. The only error is that memory ran out.
pub(crate) fn check_answer<C: BlockChecker>(
    airport: &Airport,
    checker: &mut C,
    line: &[u8],
    block: Block,
) -> Result<(), Memory>
    requires checker { C.airport checker.old ≡ airport.now }
    requires passes { (after : State) × IsPassed airport.now (C.state checker.old) line.now block after }
    ensures checker { C.airport checker.new ≡ airport.now }
    ensures follows { OnOk result ((after : State) → IsPassed airport.now (C.state checker.old) line.now block after → C.state checker.new ≡ after) }
{
    // The airport keeps its rules, so what passes leaves one state.
    let _ = airport.horizon();
    match checker.check_next(line, block) {
        Ok(()) => Ok(()),
        Err(CheckRefused::Memory) => Err(Memory::told()),
        Err(CheckRefused::Wrong { .. }) => unreachable!(),
    }
}
