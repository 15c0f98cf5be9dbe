//! The texts that are asked for.
ghost use Rattle.std.specs.Prelude.{◌≡◌, MatchResult, length};
ghost use Rattle.taxi_library.specs.Calls.{IsObjectAsked, IsPlanAsked, AreFiguresAsked, IsCheckpointAsked, IsExplanationAsked};

use engine_texts::{NoText, Session};
use taxi_base::Memory;

// What is given in place of a length where memory runs out.
const NO_MEMORY: usize = usize::MAX;

// What is given in place of a length where a plan's start is no civil time.
const NO_START: usize = usize::MAX - 1;

/// Tells of the last command and its reply as an object.
pub(crate) fn object_told(session: &mut Session, number: u64) -> usize
    ensures { IsObjectAsked number session.old session.new result }
{
    let made = session.object(number);
    kept(session, made)
}

/// Tells of what is in force as a table.
pub(crate) fn plan_told(session: &mut Session, start: &[u8]) -> usize
    ensures { IsPlanAsked start.now session.old session.new result }
{
    match session.plan(start) {
        Ok(text) => session.tell(text),
        Err(NoText::Memory(_)) => NO_MEMORY,
        Err(NoText::Start) => NO_START,
    }
}

/// Tells the figures of the commands that were answered.
pub(crate) fn figures_told(session: &mut Session) -> usize
    ensures { AreFiguresAsked session.old session.new result }
{
    let made = session.figures();
    kept(session, made)
}

/// Tells of what is in force as a command file.
pub(crate) fn checkpoint_told(session: &mut Session) -> usize
    ensures { IsCheckpointAsked session.old session.new result }
{
    let made = session.checkpoint();
    kept(session, made)
}

/// Tells why a line would be answered as it would.
pub(crate) fn explanation_told(session: &mut Session, line: &[u8]) -> usize
    ensures { IsExplanationAsked line.now session.old session.new result }
{
    let made = session.explanation(line);
    kept(session, made)
}

// Keeps a text that was made, and gives its length.
fn kept(session: &mut Session, made: Result<Vec<u8>, Memory>) -> usize
    ensures { MatchResult made
        (λ text. (session.new ≡ record session.old { told = text.items }) × (result ≡ length text.items))
        (λ _. (session.new ≡ session.old) × (result ≡ 18446744073709551615)) }
{
    match made {
        Ok(text) => session.tell(text),
        Err(_) => NO_MEMORY,
    }
}
