//! What is told of a refusal.
ghost use Rattle.std.specs.Prelude.{◌≡◌, ◌∷◌, [], ◌++◌, codes, string_bytes, IfOk, OnOk};
ghost use Rattle.taxi_base.specs.Airport.{Airport as Plain};
ghost use Rattle.replies.specs.declared.block.Block.TheVariants.{Refused};
ghost use Rattle.serde_json.specs.View.{view, members_view};
ghost use Rattle.serde_json.specs.Written.{compact_text};
ghost use Rattle.reply_json.specs.Values.{number_value, with_members};
ghost use Rattle.reply_json.specs.Replies.{why_member, cause_members, refusal_members};
ghost use Rattle.reply_json.specs.Lines.{command_object};

use crate::members::{Members, put_number, put_text, put_value, put_word};
use crate::numbered::Numbered;
use crate::words::words_value;
use serde_json::{Map, Value};
use std::alloc::Global;
use taxi_base::{Memory, Refusal, StepCause, StepFault, Time};
use taxi_text::push_bytes;

/// Writes the object of a refusal at the end.
pub(crate) fn write_refused(
    command: &Numbered,
    why: &Refusal,
    out: &mut Vec<u8>,
) -> Result<(), Memory>
    ensures { (airport : Plain) → OnOk result (out.new.items ≡ out.old.items ++ compact_text (command_object airport command.now.command command.now.line command.now.text.now (Refused why.now))) }
{
    let text = refused_text(*out.allocator(), command, why)?;
    push_bytes(out, text.as_bytes())
}

fn refused_text(alloc: Global, command: &Numbered, why: &Refusal) -> Result<String, Memory>
    ensures { (airport : Plain) → IfOk result (λ text. string_bytes text ≡ compact_text (command_object airport command.now.command command.now.line command.now.text.now (Refused why.now))) }
{
    let value = refused_value(alloc, command, why)?;
    Ok(value.to_string(alloc)?)
}

fn refused_value(alloc: Global, command: &Numbered, why: &Refusal) -> Result<Value, Memory>
    ensures { (airport : Plain) → IfOk result (λ value. view value ≡ command_object airport command.now.command command.now.line command.now.text.now (Refused why.now)) }
{
    let words = words_value(alloc, command.text)?;
    let mut members = Map::new(alloc);
    put_number(&mut members, alloc, "command", command.command)?;
    put_number(&mut members, alloc, "line", command.line)?;
    put_value(&mut members, alloc, "words", words)?;
    put_word(&mut members, alloc, "reply", "refused")?;
    put_refusal(&mut members, alloc, why)?;
    Ok(Value::from(members))
}

// Puts what is told of a refusal.
fn put_refusal(members: &mut Members, alloc: Global, why: &Refusal) -> Result<(), Memory>
    ensures { OnOk result (members_view members.new.entries ≡ with_members (refusal_members why.now) (members_view members.old.entries)) }
{
    match why {
        Refusal::BadLine => put_why(members, alloc, "bad-line"),
        Refusal::InForce => put_why(members, alloc, "in-force"),
        Refusal::UnknownClass => put_why(members, alloc, "unknown-class"),
        Refusal::UnknownNode => put_why(members, alloc, "unknown-node"),
        Refusal::WrongKind => put_why(members, alloc, "wrong-kind"),
        Refusal::UnknownSegment => put_why(members, alloc, "unknown-segment"),
        Refusal::NotInForce => put_why(members, alloc, "not-in-force"),
        Refusal::NotRouted => put_why(members, alloc, "not-routed"),
        Refusal::NotArrival => put_why(members, alloc, "not-arrival"),
        Refusal::AlreadyDone { end } => put_at(members, alloc, "end", *end, "already-done"),
        Refusal::AlreadyMoving { start } => put_at(
            members,
            alloc,
            "start",
            *start,
            "already-moving",
        ),
        Refusal::Full => put_why(members, alloc, "full"),
        Refusal::Step(fault) => put_fault(members, alloc, fault),
        Refusal::NotMoving { start } => put_at(members, alloc, "start", *start, "not-moving"),
        Refusal::NotLate { leave } => put_at(members, alloc, "leave", *leave, "not-late"),
        Refusal::PastEnd { horizon } => { put_at(members, alloc, "horizon", *horizon, "past-end") }
        Refusal::Memory => put_why(members, alloc, "memory"),
    }
}

fn put_why(members: &mut Members, alloc: Global, word: &str) -> Result<(), Memory>
    ensures { OnOk result (members_view members.new.entries ≡ with_members (why_member word.now ∷ []) (members_view members.old.entries)) }
{
    put_word(members, alloc, "why", word)
}

// A second goes with the word.
fn put_at(
    members: &mut Members,
    alloc: Global,
    key: &str,
    second: Time,
    word: &str,
) -> Result<(), Memory>
    ensures { OnOk result (members_view members.new.entries ≡ with_members ((key.now, number_value second) ∷ why_member word.now ∷ []) (members_view members.old.entries)) }
{
    put_number(members, alloc, key, u64::from(second))?;
    put_why(members, alloc, word)
}

// Which step fails, and why.
fn put_fault(members: &mut Members, alloc: Global, fault: &StepFault) -> Result<(), Memory>
    ensures { OnOk result (members_view members.new.entries ≡ with_members ((codes "step", number_value fault.now.number) ∷ why_member (codes "step") ∷ cause_members fault.now.cause) (members_view members.old.entries)) }
{
    put_number(members, alloc, "step", u64::from(fault.number))?;
    put_why(members, alloc, "step")?;
    put_cause(members, alloc, &fault.cause)
}

fn put_cause(members: &mut Members, alloc: Global, cause: &StepCause) -> Result<(), Memory>
    ensures { OnOk result (members_view members.new.entries ≡ with_members (cause_members cause.now) (members_view members.old.entries)) }
{
    match cause {
        StepCause::ClassBarred => put_word(members, alloc, "cause", "class-barred"),
        StepCause::BadTurn => put_word(members, alloc, "cause", "bad-turn"),
        StepCause::TooFast => put_word(members, alloc, "cause", "too-fast"),
        StepCause::PastHorizon => put_word(members, alloc, "cause", "past-horizon"),
        StepCause::Taken { at, by } => {
            put_number(members, alloc, "at", u64::from(*at))?;
            put_text(members, alloc, "by", by.bytes())?;
            put_word(members, alloc, "cause", "taken")
        }
    }
}
