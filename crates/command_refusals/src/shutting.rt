//! A work party that is to shut a segment: what refuses it, or the party.
ghost use Rattle.std.specs.Prelude.{◌≡◌, None, IfOk, IfErr};
ghost use Rattle.taxi_text.specs.declared.command.Command.TheVariants.{Work};
ghost use Rattle.replies.specs.Printable.{IsName};
ghost use Rattle.commitments.specs.Book.{Fits, IsPreparedForParty};
ghost use Rattle.command_refusals.specs.Accepted.{IsAcceptedParty, IsRefusedOrUnprepared};

use crate::holders::{is_full, is_held};
use airport_file::Airport;
use commitments::{Ledger, Party};
use taxi_base::Refusal;
use taxi_text::Shut;

/// The work party that is to shut a segment, with room for it in the ledger, or why it is refused.
pub fn check_work(airport: &Airport, ledger: &mut Ledger, shut: &Shut) -> Result<Party, Refusal>
    requires fits { Fits airport.now ledger.old }
    requires unlifted { ledger.old.lifted ≡ None }
    requires name { IsName shut.now.name }
    ensures ok { IfOk result (IsAcceptedParty airport.now ledger.old.state (Work shut.now)) }
    ensures prepared { IfOk result (λ party. IsPreparedForParty airport.now party.segment ledger.new) }
    ensures err { IfErr result (IsRefusedOrUnprepared airport.now ledger.old.state (Work shut.now)) }
    ensures state { ledger.new.state ≡ ledger.old.state }
    ensures unlifted { ledger.new.lifted ≡ None }
    ensures fits { Fits airport.now ledger.new }
{
    if is_held(ledger, &shut.name) {
        return Err(Refusal::InForce);
    }
    let Some(segment) = airport.segment_named(&shut.segment) else {
        return Err(Refusal::UnknownSegment);
    };
    if is_full(airport, ledger) {
        return Err(Refusal::Full);
    }
    if let Some(fault) = ledger.check_hold(airport, segment, shut.from, shut.until) {
        return Err(Refusal::Step(fault));
    }
    ledger.prepare_party(airport, segment)?;
    Ok(Party {
        name: shut.name,
        segment,
        from: shut.from,
        until: shut.until,
    })
}
