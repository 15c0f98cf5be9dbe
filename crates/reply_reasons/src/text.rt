//! The text of an explanation.
ghost use Rattle.std.specs.Prelude.{◌≡◌, ◌++◌, ◌∷◌, [], codes, decimal, flat_map, IfOk, OnOk};
ghost use Rattle.replies.specs.Texts.{line_text, and_word, and_words};
ghost use Rattle.reply_reasons.specs.Text.{second_word, holder_words, reason_words, reason_line, reasons_text};

use crate::reason::Reason;
use airport_file::Airport;
use airport_words::{arc_text, push_word, segment_text};
use std::alloc::Global;
use taxi_base::{Memory, Name, Time};
use taxi_text::{push_bytes, push_number};

/// The text of the lines, one after the other. The only error is that memory ran out.
#[tactic(auto, unfolding(crate::specs::Text::reasons_text))]
pub fn write_reasons(
    alloc: Global,
    airport: &Airport,
    reasons: &[Reason],
) -> Result<Vec<u8>, Memory>
    ensures { IfOk result (λ text. text.items ≡ reasons_text airport.now reasons.now) }
{
    let mut out = Vec::new(alloc);
    for reason in reasons {
        write_line(&mut out, airport, reason)?;
    }
    Ok(out)
}

#[tactic(auto, unfolding(crate::specs::Text::reason_line))]
fn write_line(out: &mut Vec<u8>, airport: &Airport, reason: &Reason) -> Result<(), Memory>
    ensures { OnOk result (out.new.items ≡ out.old.items ++ reason_line airport.now reason.now) }
{
    match reason {
        Reason::Answer { second } => write_second(out, b"answer", *second),
        Reason::Alone { second } => write_second(out, b"alone", *second),
        Reason::Without { holder, second } => write_without(out, holder, *second),
        Reason::Later { begin, end } => write_span(out, b"later", *begin, *end),
        Reason::Sooner { begin, end } => write_span(out, b"sooner", *begin, *end),
        Reason::Hold { seconds, holder } => write_delay(out, b"hold", *seconds, holder),
        Reason::Queue { seconds, holder } => write_delay(out, b"queue", *seconds, holder),
        Reason::Wait {
            step,
            arc,
            seconds,
            holder,
        } => write_wait(
            out,
            *step,
            arc_text(airport, *arc).bytes(),
            *seconds,
            holder,
        ),
        Reason::Refused { step, at, by } => write_refused(out, *step, *at, by),
        Reason::Held {
            from,
            until,
            holder,
            segment,
        } => write_held(
            out,
            *from,
            *until,
            holder,
            segment_text(airport, *segment).bytes(),
        ),
        Reason::Nothing => push_bytes(out, b"nothing to explain\n"),
    }
}

fn write_second(out: &mut Vec<u8>, word: &[u8], second: Option<Time>) -> Result<(), Memory>
    ensures { OnOk result (out.new.items ≡ out.old.items ++ line_text (word.now ∷ second_word second ∷ [])) }
{
    push_bytes(out, word)?;
    push_second(out, second)?;
    push_bytes(out, b"\n")?;
    Ok(())
}

fn push_second(out: &mut Vec<u8>, second: Option<Time>) -> Result<(), Memory>
    ensures { OnOk result (out.new.items ≡ and_word out.old.items (second_word second)) }
{
    match second {
        Some(second) => push_decimal(out, u64::from(second)),
        None => push_word(out, b"none"),
    }
}

fn write_without(out: &mut Vec<u8>, holder: &Name, second: Time) -> Result<(), Memory>
    ensures { OnOk result (out.new.items ≡ out.old.items ++ line_text (codes "without" ∷ holder.now ∷ decimal second ∷ [])) }
{
    push_bytes(out, b"without")?;
    push_word(out, holder.bytes())?;
    push_decimal(out, u64::from(second))?;
    push_bytes(out, b"\n")?;
    Ok(())
}

fn write_span(out: &mut Vec<u8>, word: &[u8], begin: Time, end: Time) -> Result<(), Memory>
    ensures { OnOk result (out.new.items ≡ out.old.items ++ line_text (word.now ∷ decimal begin ∷ decimal end ∷ [])) }
{
    push_bytes(out, word)?;
    push_decimal(out, u64::from(begin))?;
    push_decimal(out, u64::from(end))?;
    push_bytes(out, b"\n")?;
    Ok(())
}

fn write_delay(
    out: &mut Vec<u8>,
    word: &[u8],
    seconds: Time,
    holder: &Option<Name>,
) -> Result<(), Memory>
    ensures { OnOk result (out.new.items ≡ out.old.items ++ line_text (word.now ∷ decimal seconds ∷ holder_words holder.now)) }
{
    push_bytes(out, word)?;
    push_decimal(out, u64::from(seconds))?;
    push_holder(out, holder)?;
    push_bytes(out, b"\n")?;
    Ok(())
}

fn write_wait(
    out: &mut Vec<u8>,
    step: u64,
    arc: &[u8],
    seconds: Time,
    holder: &Option<Name>,
) -> Result<(), Memory>
    ensures { OnOk result (out.new.items ≡ out.old.items ++ line_text (codes "wait" ∷ decimal step ∷ arc.now ∷ decimal seconds ∷ holder_words holder.now)) }
{
    push_bytes(out, b"wait")?;
    push_decimal(out, step)?;
    push_word(out, arc)?;
    push_decimal(out, u64::from(seconds))?;
    push_holder(out, holder)?;
    push_bytes(out, b"\n")?;
    Ok(())
}

fn write_refused(out: &mut Vec<u8>, step: u32, at: Time, by: &Name) -> Result<(), Memory>
    ensures { OnOk result (out.new.items ≡ out.old.items ++ line_text (codes "refused" ∷ codes "step" ∷ decimal step ∷ codes "taken" ∷ decimal at ∷ by.now ∷ [])) }
{
    push_bytes(out, b"refused step")?;
    push_decimal(out, u64::from(step))?;
    push_word(out, b"taken")?;
    push_decimal(out, u64::from(at))?;
    push_word(out, by.bytes())?;
    push_bytes(out, b"\n")?;
    Ok(())
}

fn write_held(
    out: &mut Vec<u8>,
    from: Time,
    until: Time,
    holder: &Name,
    segment: &[u8],
) -> Result<(), Memory>
    ensures { OnOk result (out.new.items ≡ out.old.items ++ line_text (codes "held" ∷ decimal from ∷ decimal until ∷ holder.now ∷ segment.now ∷ [])) }
{
    push_bytes(out, b"held")?;
    push_decimal(out, u64::from(from))?;
    push_decimal(out, u64::from(until))?;
    push_word(out, holder.bytes())?;
    push_word(out, segment)?;
    push_bytes(out, b"\n")?;
    Ok(())
}

// The name of a holder, where there is one.
fn push_holder(out: &mut Vec<u8>, holder: &Option<Name>) -> Result<(), Memory>
    ensures { OnOk result (out.new.items ≡ and_words out.old.items (holder_words holder.now)) }
{
    match holder {
        Some(name) => push_word(out, name.bytes()),
        None => Ok(()),
    }
}

// A blank and a number.
fn push_decimal(out: &mut Vec<u8>, number: u64) -> Result<(), Memory>
    ensures { OnOk result (out.new.items ≡ and_word out.old.items (decimal number)) }
{
    push_bytes(out, b" ")?;
    push_number(out, number)
}
