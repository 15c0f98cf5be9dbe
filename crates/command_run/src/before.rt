//! A run over the commands of a text that come before one of them. No block is written.
ghost use Rattle.std.specs.Prelude.{◌≡◌, ◌<◌, IfOk, OnOk};
ghost use Rattle.taxi_base.specs.State.{no_holder};
ghost use Rattle.taxi_text.specs.FirstLines.{lent};
ghost use Rattle.taxi_text.specs.Lines.{commands_of};
ghost use Rattle.transcripts.specs.Turns.{IsReplyText};
ghost use Rattle.command_run.specs.Supplied.{FoundMemory, IsRunBefore};

use taxi_base::Memory;
use taxi_text::{lines, skipped};
use transcripts::Router;

/// Has a router answer the commands of a text that come before the one of this number, from no flight in force. Gives the line of that
/// one, which is not answered, or none where there are fewer. Commands are counted from 1. The only error is that memory ran out, for
/// a command too.
pub fn run_before<'a, R: Router>(
    router: &mut R,
    commands: &'a [u8],
    number: u32,
) -> Result<Option<&'a [u8]>, Memory>
    requires fresh { R.state router.old ≡ no_holder }
    requires counted { 0 < number }
    ensures run { IfOk result (λ next. IsRunBefore (R.airport router.old) (commands_of commands.now) number (lent next) (R.state router.new)) }
    ensures airport { R.airport router.new ≡ R.airport router.old }
{
    let mut next = 1;
    for line in lines(commands) {
        if !skipped(line) {
            if next == number {
                return Ok(Some(line));
            }
            answer_with_memory(router, line)?;
            next += 1;
        }
    }
    Ok(None)
}

/// Has a line answered. Where memory ran out for it, that is the error.
pub fn answer_with_memory<R: Router>(router: &mut R, line: &[u8]) -> Result<(), Memory>
    ensures answered { OnOk result ((reply : IsReplyText (R.airport router.old) (R.state router.old) line.now (R.replied router.new) (R.state router.new)) × FoundMemory reply.block) }
    ensures airport { R.airport router.new ≡ R.airport router.old }
{
    router.answer(line);
    if router.reply() == b"refused memory\n".as_slice() {
        return Err(Memory::told());
    }
    Ok(())
}
