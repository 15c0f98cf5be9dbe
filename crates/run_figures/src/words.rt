//! The words of a reply by which it is counted.
ghost use Rattle.std.specs.Prelude.{◌≡◌, ◌∷◌, List, ℕ};
ghost use Rattle.taxi_text.specs.Words.{words_of};
ghost use Rattle.run_figures.specs.Counts.{entry_word, refusal_word, step_word};

use replies::Entry;
use taxi_base::{Refusal, StepCause};
use taxi_text::words;

/// What stands before the first blank of a reply.
pub(crate) fn first_word(reply: &[u8]) -> &[u8]
    ensures { (rest : List (List ℕ)) × (words_of reply.now ≡ result.now ∷ rest) }
{
    let mut pieces = words(reply);
    match pieces.next() {
        Some(word) => word,
        None => reply,
    }
}

/// Whether a route is told of a flight, that there is none, or that it is dropped.
pub(crate) fn entry_word(entry: &Entry) -> &'static [u8]
    ensures { result.now ≡ entry_word entry.now }
{
    match entry {
        Entry::Route { .. } => b"route",
        Entry::NoRoute { .. } => b"no-route",
        Entry::Dropped => b"dropped",
    }
}

/// The kind of a refusal: why it was refused, and for a step the cause too.
pub(crate) fn refusal_word(why: &Refusal) -> &'static [u8]
    ensures { result.now ≡ refusal_word why.now }
{
    match why {
        Refusal::BadLine => b"bad-line",
        Refusal::InForce => b"in-force",
        Refusal::UnknownClass => b"unknown-class",
        Refusal::UnknownNode => b"unknown-node",
        Refusal::WrongKind => b"wrong-kind",
        Refusal::UnknownSegment => b"unknown-segment",
        Refusal::NotInForce => b"not-in-force",
        Refusal::NotRouted => b"not-routed",
        Refusal::NotArrival => b"not-arrival",
        Refusal::AlreadyDone { .. } => b"already-done",
        Refusal::AlreadyMoving { .. } => b"already-moving",
        Refusal::Full => b"full",
        Refusal::Step(fault) => step_word(&fault.cause),
        Refusal::NotMoving { .. } => b"not-moving",
        Refusal::NotLate { .. } => b"not-late",
        Refusal::PastEnd { .. } => b"past-end",
        Refusal::Memory => b"memory",
    }
}

fn step_word(cause: &StepCause) -> &'static [u8]
    ensures { result.now ≡ step_word cause.now }
{
    match cause {
        StepCause::ClassBarred => b"step class-barred",
        StepCause::BadTurn => b"step bad-turn",
        StepCause::TooFast => b"step too-fast",
        StepCause::PastHorizon => b"step past-horizon",
        StepCause::Taken { .. } => b"step taken",
    }
}
