//! Who is in the way at a second of a segment.
ghost use Rattle.std.specs.Prelude.{◌≡◌, None};
ghost use Rattle.commitments.specs.Book.{Fits};
ghost use Rattle.reply_reasons.specs.InTheWay.{in_the_way};

use airport_file::Airport;
use commitments::Ledger;
use taxi_base::{Name, Segment, StepCause, Time};

/// The first holder by name of those who hold a conflicting segment at a second; none where the second is free, or is past the horizon, or
/// there is no such segment. It needs no memory.
pub(crate) fn in_the_way(
    airport: &Airport,
    others: &Ledger,
    segment: Segment,
    second: Time,
) -> Option<Name>
    requires fits { Fits airport.now others.now }
    requires unlifted { others.now.lifted ≡ None }
    ensures { result ≡ in_the_way airport.now others.now.state segment second }
{
    if segment.0 as usize >= airport.graph().segments() {
        return None;
    }
    if second >= airport.horizon() {
        return None;
    }
    let fault = others.check_hold(airport, segment, second, second + 1)?;
    match &fault.cause {
        StepCause::Taken { by, .. } => Some(*by),
        _ => None,
    }
}
