//! Why a work party may not shut a segment.
ghost use Rattle.std.specs.Prelude.{◌≡◌, ◌<◌, ◌∷◌, [], Some, IfOk, IfErr, length};
ghost use Rattle.taxi_base.specs.Airport.{segment_named};
ghost use Rattle.taxi_base.specs.Faults.{hold_cause, hold_fault};
ghost use Rattle.taxi_text.specs.declared.command.Command.TheVariants as command;
ghost use Rattle.replies.specs.Refusals.{first_of, hold_fails, first_refusal};
ghost use Rattle.checked_state.specs.Flights.{state_of, HasSpansOf};
ghost use Rattle.due_refusals.specs.KnownIn.{AreKnownIn};

use crate::taken::taken_by;
use airport_file::Airport;
use check_rows::KnownWindows;
use checked_state::HeldFlights;
use taxi_base::{MOST_HOLDERS, Memory, Refusal, Segment, Span, StepCause, StepFault};
use taxi_text::Shut;

/// The segment that a work party is to shut, or why it is refused before its span is looked at.
pub fn named_party(airport: &Airport, held: &HeldFlights, asked: &Shut) -> Result<Segment, Refusal>
    ensures named { IfOk result (λ segment. segment_named airport.now asked.now.segment ≡ Some segment) }
    ensures ok { IfOk result (λ segment. first_refusal airport.now (state_of held.now) (command.Work asked.now) ≡ first_of (hold_fails airport.now (state_of held.now) asked.now ∷ [])) }
    ensures err { IfErr result (λ why. first_refusal airport.now (state_of held.now) (command.Work asked.now) ≡ Some why) }
{
    if held.has_holder(&asked.name) {
        return Err(Refusal::InForce);
    }
    let Some(segment) = airport.segment_named(&asked.segment) else {
        return Err(Refusal::UnknownSegment);
    };
    if held.count() >= MOST_HOLDERS {
        return Err(Refusal::Full);
    }
    Ok(segment)
}

/// Why a segment may not be shut for a span, told as of a first step; none where it may.
#[tactic(auto, unfolding(taxi_base::specs::Faults::hold_fault))]
pub fn hold_fault(
    airport: &Airport,
    held: &HeldFlights,
    known: &mut KnownWindows,
    segment: Segment,
    span: Span,
) -> Result<Option<StepFault>, Memory>
    requires spans { HasSpansOf airport.now (state_of held.now) held.now }
    requires known { AreKnownIn airport.now (state_of held.now) known.old }
    requires on { segment.0 < length airport.now.segments }
    ensures fault { IfOk result (λ fault. fault ≡ hold_fault airport.now (state_of held.now) (record { segment = segment; span = span })) }
    ensures known { AreKnownIn airport.now (state_of held.now) known.new }
{
    let Some(cause) = hold_cause(airport, held, known, segment, span)? else {
        return Ok(None);
    };
    Ok(Some(StepFault { number: 1, cause }))
}

// Why a segment may not be shut for a span, of several causes the first.
fn hold_cause(
    airport: &Airport,
    held: &HeldFlights,
    known: &mut KnownWindows,
    segment: Segment,
    span: Span,
) -> Result<Option<StepCause>, Memory>
    requires spans { HasSpansOf airport.now (state_of held.now) held.now }
    requires known { AreKnownIn airport.now (state_of held.now) known.old }
    requires on { segment.0 < length airport.now.segments }
    ensures cause { IfOk result (λ cause. cause ≡ hold_cause airport.now (state_of held.now) (record { segment = segment; span = span })) }
    ensures known { AreKnownIn airport.now (state_of held.now) known.new }
{
    if span.until <= span.from {
        Ok(Some(StepCause::TooFast))
    } else if airport.horizon() < span.until {
        Ok(Some(StepCause::PastHorizon))
    } else {
        taken_by(airport, held, known, segment, span)
    }
}
