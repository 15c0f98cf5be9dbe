//! Refusals, behind the word `refused`.
ghost use Rattle.std.specs.Prelude.{◌≡◌};
ghost use Rattle.block_reader.specs.Reading.{field_at, word_last, Finds};
ghost use Rattle.block_reader.specs.Blocks.{plain_cause_of, cause_at, fault_at, plain_refusal_of, refusal_at};

use crate::fields::{behind, name_field, number_field, step_number_field, word_at};
use taxi_base::{Refusal, StepCause, StepFault};

#[tactic(auto, unfolding(crate::specs::Blocks::refusal_at))]
pub(crate) fn read_refusal(bytes: &[u8]) -> Option<(Refusal, &[u8])>
    ensures { Finds (λ x. (x.0, x.1.now)) result (refusal_at bytes.now) }
{
    if let Some(rest) = behind(b"already-done ", bytes) {
        let (end, rest) = number_field(b'\n', rest)?;
        return Some((Refusal::AlreadyDone { end }, rest));
    }
    if let Some(rest) = behind(b"already-moving ", bytes) {
        let (start, rest) = number_field(b'\n', rest)?;
        return Some((Refusal::AlreadyMoving { start }, rest));
    }
    if let Some(rest) = behind(b"not-moving ", bytes) {
        let (start, rest) = number_field(b'\n', rest)?;
        return Some((Refusal::NotMoving { start }, rest));
    }
    if let Some(rest) = behind(b"not-late ", bytes) {
        let (leave, rest) = number_field(b'\n', rest)?;
        return Some((Refusal::NotLate { leave }, rest));
    }
    if let Some(rest) = behind(b"past-end ", bytes) {
        let (horizon, rest) = number_field(b'\n', rest)?;
        return Some((Refusal::PastEnd { horizon }, rest));
    }
    if let Some(rest) = behind(b"step ", bytes) {
        let Some((fault, rest)) = read_fault(rest) else {
            return None;
        };
        return Some((Refusal::Step(fault), rest));
    }
    let (word, rest) = word_at(b'\n', bytes)?;
    let refusal = plain_refusal(word)?;
    Some((refusal, rest))
}

#[tactic(auto, unfolding(crate::specs::Blocks::plain_refusal_of))]
fn plain_refusal(word: &[u8]) -> Option<Refusal>
    ensures { result ≡ plain_refusal_of word.now }
{
    if word == b"bad-line".as_slice() {
        Some(Refusal::BadLine)
    } else if word == b"in-force".as_slice() {
        Some(Refusal::InForce)
    } else if word == b"unknown-class".as_slice() {
        Some(Refusal::UnknownClass)
    } else if word == b"unknown-node".as_slice() {
        Some(Refusal::UnknownNode)
    } else if word == b"wrong-kind".as_slice() {
        Some(Refusal::WrongKind)
    } else if word == b"unknown-segment".as_slice() {
        Some(Refusal::UnknownSegment)
    } else if word == b"not-in-force".as_slice() {
        Some(Refusal::NotInForce)
    } else if word == b"not-routed".as_slice() {
        Some(Refusal::NotRouted)
    } else if word == b"not-arrival".as_slice() {
        Some(Refusal::NotArrival)
    } else if word == b"full".as_slice() {
        Some(Refusal::Full)
    } else if word == b"memory".as_slice() {
        Some(Refusal::Memory)
    } else {
        None
    }
}

#[tactic(auto, unfolding(crate::specs::Blocks::fault_at))]
fn read_fault(bytes: &[u8]) -> Option<(StepFault, &[u8])>
    ensures { Finds (λ x. (x.0, x.1.now)) result (fault_at bytes.now) }
{
    let (number, rest) = step_number_field(b' ', bytes)?;
    let Some((cause, rest)) = read_cause(rest) else {
        return None;
    };
    Some((StepFault { number, cause }, rest))
}

#[tactic(auto, unfolding(crate::specs::Blocks::cause_at))]
fn read_cause(bytes: &[u8]) -> Option<(StepCause, &[u8])>
    ensures { Finds (λ x. (x.0, x.1.now)) result (cause_at bytes.now) }
{
    if let Some(rest) = behind(b"taken ", bytes) {
        let (at, rest) = number_field(b' ', rest)?;
        let Some((by, rest)) = name_field(b'\n', rest) else {
            return None;
        };
        return Some((StepCause::Taken { at, by }, rest));
    }
    let (word, rest) = word_at(b'\n', bytes)?;
    let cause = plain_cause(word)?;
    Some((cause, rest))
}

#[tactic(auto, unfolding(crate::specs::Blocks::plain_cause_of))]
fn plain_cause(word: &[u8]) -> Option<StepCause>
    ensures { result ≡ plain_cause_of word.now }
{
    if word == b"class-barred".as_slice() {
        Some(StepCause::ClassBarred)
    } else if word == b"bad-turn".as_slice() {
        Some(StepCause::BadTurn)
    } else if word == b"too-fast".as_slice() {
        Some(StepCause::TooFast)
    } else if word == b"past-horizon".as_slice() {
        Some(StepCause::PastHorizon)
    } else {
        None
    }
}
