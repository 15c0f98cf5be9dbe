//! What stands in the way of a filed route or a work party.
ghost use Rattle.std.specs.Prelude.{◌≡◌, ◌≤◌, ◌<◌, ◌-◌, ◌++◌, ◌∷◌, [], length, map, filter, slice_get, Some, None, IsSome, IfOk, IfSome, OnOk};
ghost use Rattle.taxi_base.specs.declared.answers.Refusal.TheVariants as refusal;
ghost use Rattle.taxi_text.specs.declared.command.Command.TheVariants as command;
ghost use Rattle.replies.specs.Asked.{IsInGrammar, route_filed};
ghost use Rattle.replies.specs.Refusals.{first_refusal};
ghost use Rattle.commitments.specs.Book.{Fits};
ghost use Rattle.command_refusals.specs.Accepted.{IsRefused, IsRefusedOrUnprepared};
ghost use Rattle.reply_reasons.specs.declared.reason.Reason.TheVariants as reason;
ghost use Rattle.reply_reasons.specs.Taken.{entered, shares, held_reason, AreTakenReasons};
ghost use Rattle.reply_reasons.specs.Explained.{IsRefusalExplained};

use crate::reason::Reason;
use airport_file::Airport;
use command_refusals::{check_filed, check_work};
use commitments::Ledger;
use ledger_reports::occupancy;
use std::alloc::Global;
use taxi_base::{
    HeldRow, List, Memory, Name, Refusal, Segment, Span, Step, StepCause, StepFault, Time,
};
use taxi_text::{Command, Filed, Shut};

// A step that a holder stands in the way of, from a second on, and what it asks to hold.
#[derive(Drop)]
struct Taking {
    step: u32,
    at: Time,
    by: Name,
    segment: Segment,
    span: Span,
}

/// What explains the refusal of a command that asks for no route: what is held where a holder stands in the way of a filed route or of a work
/// party. There is nothing to explain of any other.
pub(crate) fn explain_refusal(
    alloc: Global,
    airport: &Airport,
    ledger: &mut Ledger,
    command: &Command,
) -> Result<List<Reason>, Memory>
    requires fits { Fits airport.now ledger.old }
    requires unlifted { ledger.old.lifted ≡ None }
    requires grammar { IsInGrammar command.now }
    ensures { IfOk result (λ reasons. IsRefusalExplained airport.now ledger.old.state command.now reasons) }
{
    match command {
        Command::File(filed) => explain_filed(alloc, airport, ledger, filed),
        Command::Work(shut) => explain_work(alloc, airport, ledger, shut),
        _ => nothing_to_explain(alloc),
    }
}

/// That there is nothing to explain.
pub(crate) fn nothing_to_explain(alloc: Global) -> Result<List<Reason>, Memory>
    ensures { IfOk result (λ reasons. reasons ≡ reason.Nothing ∷ []) }
{
    let mut reasons = List::new(alloc);
    reasons.push(Reason::Nothing)?;
    Ok(reasons)
}

// What explains the reply to a filed route.
fn explain_filed(
    alloc: Global,
    airport: &Airport,
    ledger: &mut Ledger,
    filed: &Filed,
) -> Result<List<Reason>, Memory>
    requires fits { Fits airport.now ledger.old }
    requires unlifted { ledger.old.lifted ≡ None }
    requires grammar { IsInGrammar (command.File filed.now) }
    ensures { IfOk result (λ reasons. IsRefusalExplained airport.now ledger.old.state (command.File filed.now) reasons) }
{
    match check_filed(alloc, airport, ledger, filed) {
        Ok(_flight) => nothing_to_explain(alloc),
        Err(why) => explain_filed_refused(alloc, airport, ledger, filed, &why),
    }
}

// What explains that a filed route is refused.
fn explain_filed_refused(
    alloc: Global,
    airport: &Airport,
    ledger: &Ledger,
    filed: &Filed,
    why: &Refusal,
) -> Result<List<Reason>, Memory>
    requires { IsRefused airport.now ledger.now.state (command.File filed.now) why.now }
    ensures { IfOk result (λ reasons. IsRefusalExplained airport.now ledger.now.state (command.File filed.now) reasons) }
{
    match why {
        Refusal::Memory => Err(Memory::told()),
        Refusal::Step(fault) => explain_step(alloc, airport, ledger, filed, fault),
        _ => nothing_to_explain(alloc),
    }
}

// What explains that a step of a filed route fails.
fn explain_step(
    alloc: Global,
    airport: &Airport,
    ledger: &Ledger,
    filed: &Filed,
    fault: &StepFault,
) -> Result<List<Reason>, Memory>
    requires { first_refusal airport.now ledger.now.state (command.File filed.now) ≡ Some (refusal.Step fault.now) }
    ensures { IfOk result (λ reasons. IsRefusalExplained airport.now ledger.now.state (command.File filed.now) reasons) }
{
    let StepCause::Taken { at, by } = &fault.cause else {
        return nothing_to_explain(alloc);
    };
    let Some(class) = airport.class_named(&filed.class) else {
        return nothing_to_explain(alloc);
    };
    let Some(step) = step_filed(airport, filed, fault.number) else {
        return nothing_to_explain(alloc);
    };
    let taking = Taking {
        step: fault.number,
        at: *at,
        by: *by,
        segment: step.arc.segment(),
        span: step.held(airport.horizon(), airport.clearance(class)),
    };
    explain_taken(alloc, airport, ledger, &taking)
}

// The step of a number of a filed route whose arcs are all the airport's.
fn step_filed(airport: &Airport, filed: &Filed, number: u32) -> Option<Step>
    requires { IsSome (route_filed airport.now filed.now) }
    ensures { IfSome (route_filed airport.now filed.now) (λ steps. result ≡ slice_get steps (number - 1)) }
{
    let place = number.saturating_sub(1) as usize;
    let pair = filed.steps.as_slice().get(place)?;
    let arc = airport.arc_named(&pair.segment, pair.forward)?;
    Some(Step {
        arc,
        enter: entered(filed, place),
        leave: pair.leave,
    })
}

// When the step at a place is entered: at the start, or when the one before is left.
fn entered(filed: &Filed, place: usize) -> Time
    requires { place < length filed.now.steps }
    ensures { result ≡ entered filed.now place }
{
    if place == 0 {
        return filed.start;
    }
    filed.steps.as_slice()[place - 1].leave
}

// What explains the reply to a work party.
fn explain_work(
    alloc: Global,
    airport: &Airport,
    ledger: &mut Ledger,
    shut: &Shut,
) -> Result<List<Reason>, Memory>
    requires fits { Fits airport.now ledger.old }
    requires unlifted { ledger.old.lifted ≡ None }
    requires grammar { IsInGrammar (command.Work shut.now) }
    ensures { IfOk result (λ reasons. IsRefusalExplained airport.now ledger.old.state (command.Work shut.now) reasons) }
{
    match check_work(airport, ledger, shut) {
        Ok(_party) => nothing_to_explain(alloc),
        Err(why) => explain_work_refused(alloc, airport, ledger, shut, &why),
    }
}

// What explains that a work party is refused.
fn explain_work_refused(
    alloc: Global,
    airport: &Airport,
    ledger: &Ledger,
    shut: &Shut,
    why: &Refusal,
) -> Result<List<Reason>, Memory>
    requires { IsRefusedOrUnprepared airport.now ledger.now.state (command.Work shut.now) why.now }
    ensures { IfOk result (λ reasons. IsRefusalExplained airport.now ledger.now.state (command.Work shut.now) reasons) }
{
    match why {
        Refusal::Memory => Err(Memory::told()),
        Refusal::Step(fault) => explain_shut(alloc, airport, ledger, shut, fault),
        _ => nothing_to_explain(alloc),
    }
}

// What explains that a work party may not shut its segment.
fn explain_shut(
    alloc: Global,
    airport: &Airport,
    ledger: &Ledger,
    shut: &Shut,
    fault: &StepFault,
) -> Result<List<Reason>, Memory>
    requires { first_refusal airport.now ledger.now.state (command.Work shut.now) ≡ Some (refusal.Step fault.now) }
    ensures { IfOk result (λ reasons. IsRefusalExplained airport.now ledger.now.state (command.Work shut.now) reasons) }
{
    let StepCause::Taken { at, by } = &fault.cause else {
        return nothing_to_explain(alloc);
    };
    let Some(segment) = airport.segment_named(&shut.segment) else {
        return nothing_to_explain(alloc);
    };
    let span = Span {
        from: shut.from,
        until: shut.until,
    };
    let taking = Taking {
        step: fault.number,
        at: *at,
        by: *by,
        segment,
        span,
    };
    explain_taken(alloc, airport, ledger, &taking)
}

// The refusal, and what is held of the segment and of those in conflict with it at a second of the span.
fn explain_taken(
    alloc: Global,
    airport: &Airport,
    ledger: &Ledger,
    taking: &Taking,
) -> Result<List<Reason>, Memory>
    requires { taking.now.segment.0 < length airport.now.segments }
    ensures { IfOk result (λ reasons. AreTakenReasons airport.now ledger.now.state (record { blocked = record { step = taking.now.step; at = taking.now.at; by = taking.now.by }; hold = record { segment = taking.now.segment; span = taking.now.span } }) reasons) }
{
    let rows = occupancy(alloc, airport, ledger, taking.segment)?;
    let mut reasons = List::new(alloc);
    push_taken(&mut reasons, taking, rows.as_slice())?;
    Ok(reasons)
}

// Adds the refusal, and those of some rows that have a second of the span.
fn push_taken(reasons: &mut List<Reason>, taking: &Taking, rows: &[HeldRow]) -> Result<(), Memory>
    requires { reasons.old ≡ [] }
    ensures { OnOk result (reasons.new ≡ reason.Refused taking.now.step taking.now.at taking.now.by ∷ map held_reason (filter (shares taking.now.span) rows.now)) }
{
    reasons.push(Reason::Refused {
        step: taking.step,
        at: taking.at,
        by: taking.by,
    })?;
    push_held(reasons, rows, taking.span)
}

// Adds the rows that have a second in common with a span.
fn push_held(reasons: &mut List<Reason>, rows: &[HeldRow], span: Span) -> Result<(), Memory>
    ensures { OnOk result (reasons.new ≡ reasons.old ++ map held_reason (filter (shares span) rows.now)) }
{
    for row in rows {
        if shares(span, row) {
            reasons.push(held_reason(row))?;
        }
    }
    Ok(())
}

fn held_reason(row: &HeldRow) -> Reason
    ensures { result ≡ held_reason row.now }
{
    Reason::Held {
        from: row.from,
        until: row.until,
        holder: row.flight,
        segment: row.segment,
    }
}

fn shares(span: Span, row: &HeldRow) -> bool
    ensures { result ≡ shares span row.now }
{
    span.from.max(row.from) < span.until.min(row.until)
}
