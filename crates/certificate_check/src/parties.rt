//! Lines that shut a segment for a work party, and open it again.
ghost use Rattle.std.specs.Prelude.{◌≡◌, ◌↔◌, IsTrue};
ghost use Rattle.taxi_text.specs.declared.command.Command.TheVariants as command;
ghost use Rattle.replies.specs.declared.block.Block.TheVariants.{Filed};
ghost use Rattle.checked_state.specs.Flights.{state_of};
ghost use Rattle.certificate_check.specs.Desk.{IsReady};
ghost use Rattle.certificate_check.specs.Judged.{IsJudged};
ghost use Rattle.certificate_check.specs.Parties.{MayShut};

use crate::CheckRefused;
use crate::reply::{is_cancelled, is_refusal, pass_if};
use airport_file::Airport;
use check_rows::KnownWindows;
use checked_state::HeldFlights;
use due_refusals::{hold_fault, named_party};
use replies::Block;
use taxi_base::{Name, Party, Refusal, Segment, Span};
use taxi_text::Shut;

/// Checks the block of a work party. Where it passes, and the party is not refused, it is in force afterwards.
pub fn check_work(
    airport: &Airport,
    held: &mut HeldFlights,
    known: &mut KnownWindows,
    asked: &Shut,
    block: &Block,
) -> Result<(), CheckRefused>
    requires { IsReady airport.now held.old known.old }
    ensures judged { IsJudged airport.now (command.Work asked.now) block.now (state_of held.old) result (state_of held.new) }
    ensures ready { IsReady airport.now held.new known.new }
{
    let segment = match named_party(airport, held, asked) {
        Ok(segment) => segment,
        Err(why) => return pass_if(is_refusal(block, &why)),
    };
    if let Some(fault) = hold_fault(airport, held, known, segment, span_of(asked))? {
        return pass_if(is_refusal(block, &Refusal::Step(fault)));
    }
    put_party(airport, held, known, asked, segment, block)
}

// Checks the block of a party that is not refused. Where it passes the party is in force afterwards.
fn put_party(
    airport: &Airport,
    held: &mut HeldFlights,
    known: &mut KnownWindows,
    asked: &Shut,
    segment: Segment,
    block: &Block,
) -> Result<(), CheckRefused>
    requires ready { IsReady airport.now held.old known.old }
    requires may { MayShut airport.now (state_of held.old) asked.now segment }
    ensures judged { IsJudged airport.now (command.Work asked.now) block.now (state_of held.old) result (state_of held.new) }
    ensures ready { IsReady airport.now held.new known.new }
{
    pass_if(is_filed(block, asked))?;
    let party = Party {
        name: asked.name,
        segment,
        from: asked.from,
        until: asked.until,
    };
    held.shut(party)?;
    known.cut_segment(airport, segment, span_of(asked));
    Ok(())
}

// The span for which a segment is to be shut.
fn span_of(asked: &Shut) -> Span
    ensures { result ≡ record { from = asked.now.from; until = asked.now.until } }
{
    Span {
        from: asked.from,
        until: asked.until,
    }
}

/// Checks the block of a party that is done. Where it passes the party is taken out.
pub fn check_work_done(
    airport: &Airport,
    held: &mut HeldFlights,
    known: &mut KnownWindows,
    name: &Name,
    block: &Block,
) -> Result<(), CheckRefused>
    requires { IsReady airport.now held.old known.old }
    ensures judged { IsJudged airport.now (command.WorkDone name.now) block.now (state_of held.old) result (state_of held.new) }
    ensures ready { IsReady airport.now held.new known.new }
{
    let Some(party) = held.party(name) else {
        return pass_if(is_refusal(block, &Refusal::NotInForce));
    };
    pass_if(is_cancelled(block, name))?;
    known.forget_segment(airport, party.segment);
    held.open(name);
    Ok(())
}

// Whether a block tells that a party is in force.
fn is_filed(block: &Block, asked: &Shut) -> bool
    ensures { IsTrue result ↔ (block.now ≡ Filed asked.now.name asked.now.from asked.now.until) }
{
    match block {
        Block::Filed { flight, start, end } => {
            *flight == asked.name && *start == asked.from && *end == asked.until
        }
        _ => false,
    }
}
