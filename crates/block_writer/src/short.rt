//! Blocks that have no rows, written without taking memory: one line of at most 64 bytes. They name nothing of an airport.
ghost use Rattle.std.specs.Prelude.{◌≡◌, ◌≤◌, ◌∷◌, [], length, decimal, codes};
ghost use Rattle.taxi_base.specs.Airport.{Airport as Plain};
ghost use Rattle.replies.specs.declared.block.Block.TheVariants.{Refused, Filed, Cancelled};
ghost use Rattle.replies.specs.Texts.{line_text, cause_words, refusal_words, block_text, and_words};

use crate::line::{begin_line, end_line, push_decimal, push_word};
use taxi_base::{Name, Refusal, StepCause, StepFault, Time};
use taxi_text::ShortText;

/// The text of the reply that a flight is filed, or that a segment is shut.
pub fn filed_text(flight: &Name, start: Time, end: Time) -> ShortText
    ensures { (airport : Plain) → result ≡ block_text airport (Filed flight.now start end) }
{
    filed_line(flight, start, end)
}

fn filed_line(flight: &Name, start: Time, end: Time) -> ShortText
    ensures { result ≡ line_text (codes "filed" ∷ flight.now ∷ decimal start ∷ decimal end ∷ []) }
{
    let mut text = begin_line(b"filed");
    push_word(&mut text, flight.bytes());
    push_decimal(&mut text, start);
    push_decimal(&mut text, end);
    end_line(&mut text);
    text
}

/// The text of the reply that a flight or a work party is taken out.
pub fn cancelled_text(flight: &Name) -> ShortText
    ensures { (airport : Plain) → result ≡ block_text airport (Cancelled flight.now) }
{
    cancelled_line(flight)
}

fn cancelled_line(flight: &Name) -> ShortText
    ensures { result ≡ line_text (codes "cancelled" ∷ flight.now ∷ []) }
{
    let mut text = begin_line(b"cancelled");
    push_word(&mut text, flight.bytes());
    end_line(&mut text);
    text
}

/// The text of the reply that a command is refused.
pub fn refused_text(why: &Refusal) -> ShortText
    ensures { (airport : Plain) → result ≡ block_text airport (Refused why.now) }
{
    refused_line(why)
}

fn refused_line(why: &Refusal) -> ShortText
    ensures { result ≡ line_text (codes "refused" ∷ refusal_words why.now) }
{
    match why {
        Refusal::BadLine => refused_as(b"bad-line"),
        Refusal::InForce => refused_as(b"in-force"),
        Refusal::UnknownClass => refused_as(b"unknown-class"),
        Refusal::UnknownNode => refused_as(b"unknown-node"),
        Refusal::WrongKind => refused_as(b"wrong-kind"),
        Refusal::UnknownSegment => refused_as(b"unknown-segment"),
        Refusal::NotInForce => refused_as(b"not-in-force"),
        Refusal::NotRouted => refused_as(b"not-routed"),
        Refusal::NotArrival => refused_as(b"not-arrival"),
        Refusal::AlreadyDone { end } => refused_at(b"already-done", *end),
        Refusal::AlreadyMoving { start } => refused_at(b"already-moving", *start),
        Refusal::Full => refused_as(b"full"),
        Refusal::Step(fault) => refused_step(fault),
        Refusal::NotMoving { start } => refused_at(b"not-moving", *start),
        Refusal::NotLate { leave } => refused_at(b"not-late", *leave),
        Refusal::PastEnd { horizon } => refused_at(b"past-end", *horizon),
        Refusal::Memory => refused_as(b"memory"),
    }
}

fn refused_as(why: &[u8]) -> ShortText
    requires { length why.now ≤ 20 }
    ensures { result ≡ line_text (codes "refused" ∷ why.now ∷ []) }
{
    let mut text = begin_line(b"refused");
    push_word(&mut text, why);
    end_line(&mut text);
    text
}

fn refused_at(why: &[u8], time: Time) -> ShortText
    requires { length why.now ≤ 20 }
    ensures { result ≡ line_text (codes "refused" ∷ why.now ∷ decimal time ∷ []) }
{
    let mut text = begin_line(b"refused");
    push_word(&mut text, why);
    push_decimal(&mut text, time);
    end_line(&mut text);
    text
}

fn refused_step(fault: &StepFault) -> ShortText
    ensures { result ≡ line_text (codes "refused" ∷ codes "step" ∷ decimal fault.now.number ∷ cause_words fault.now.cause) }
{
    let mut text = begin_line(b"refused");
    push_word(&mut text, b"step");
    push_decimal(&mut text, fault.number);
    push_cause(&mut text, &fault.cause);
    end_line(&mut text);
    text
}

fn push_cause(text: &mut ShortText, cause: &StepCause)
    requires { length text.old ≤ 23 }
    ensures text { text.new ≡ and_words text.old (cause_words cause.now) }
    ensures length { length text.new ≤ 63 }
{
    match cause {
        StepCause::ClassBarred => push_word(text, b"class-barred"),
        StepCause::BadTurn => push_word(text, b"bad-turn"),
        StepCause::TooFast => push_word(text, b"too-fast"),
        StepCause::PastHorizon => push_word(text, b"past-horizon"),
        StepCause::Taken { at, by } => {
            push_word(text, b"taken");
            push_decimal(text, *at);
            push_word(text, by.bytes());
        }
    }
}
