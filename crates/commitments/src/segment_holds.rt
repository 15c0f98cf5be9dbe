//! The steps that hold one segment itself, in the order in which they begin.
ghost use Rattle.std.specs.Prelude.{◌≡◌, ◌≢◌, ◌↔◌, ◌+◌, ◌<◌, ◌≤◌, [], ◌∷◌, length, Some, slice_get, All, Contains, IsTrue, IsFalse, IfSome, IfNone, IfOk, OnOk, vec_capacity};
ghost use Rattle.taxi_base.specs.Faults.{first_name};
ghost use Rattle.std.specs.List.{AllWithin};
ghost use Rattle.std.specs.List.Sorted.{IsPermutation, IsNonDecreasingBy};
ghost use Rattle.window_store.specs.Held.{IsFirstHeld};
ghost use Rattle.window_store.specs.Conflicting.{ReachesUpTo};
ghost use Rattle.commitments.specs.Held.{hold_by, clearance_after, party_holder, flight_holder, spans_by, AreSince};
ghost use Rattle.commitments.specs.Taken.{has_second, IsFirstNamed};

use crate::holds::keep_rules;
use airport_file::Airport;
use std::alloc::Global;
use std::marker::Model;
use taxi_base::{Class, Flight, Memory, Name, Party, Span, Step, Time};

/// Who holds segments: a flight of a class, or a work party, which has none.
#[derive(Clone, Copy, PartialEq, Eq)]
pub(crate) struct Holder {
    pub(crate) name: Name,
    // It means nothing for a party.
    class: Class,
    // 1 for a party, and 0 for a flight.
    party: u32,
}

/// A step by which a segment is held, and by whom. Where one goes, all behind it are moved. Without a gap between its fields, as an
/// `Option` of the class would leave, each is moved by a few wide copies.
#[derive(Clone, Copy, PartialEq, Eq)]
pub(crate) struct HeldStep {
    pub(crate) holder: Holder,
    pub(crate) step: Step,
}

impl Holder {
    /// As whom a flight holds segments.
    pub(crate) fn of_flight(flight: &Flight) -> Holder
        ensures { result ≡ flight_holder flight.now }
    {
        Holder {
            name: flight.name,
            class: flight.class,
            party: 0,
        }
    }

    /// As whom a work party does.
    pub(crate) fn of_party(party: &Party) -> Holder
        ensures { result ≡ party_holder party.now }
    {
        Holder {
            name: party.name,
            class: Class(0),
            party: 1,
        }
    }
}

impl HeldStep {
    // For which seconds it holds its segment.
    pub(crate) fn span(&self, airport: &Airport) -> Span
        ensures { result ≡ (hold_by airport.now self.now).span }
    {
        self.step
            .held(airport.horizon(), clearance_after(airport, &self.holder))
    }
}

/// For how long a flight keeps a segment shut after leaving it; a party does not.
pub(crate) fn clearance_after(airport: &Airport, holder: &Holder) -> Time
    ensures clearance { result ≡ clearance_after airport.now holder.now }
    ensures range { result ≤ 600 }
{
    if holder.party == 1 {
        0
    } else {
        airport.clearance(holder.class)
    }
}

// A step among so many last ones is looked for among them.
const NEAR_THE_END: usize = 8;

// Room for so many steps at least.
const LEAST_ROOM: usize = 16;

/// The steps that hold one segment, in the order in which they begin.
#[derive(Drop)]
pub(crate) struct SegmentHolds {
    steps: Vec<HeldStep>,
    // No step holds the segment for longer, its clearance among that.
    longest: u64,
}

impl Model for SegmentHolds {
    ghost use Rattle.std.specs.Prelude.{◌+◌, ◌≤◌, All, vec_capacity};
    ghost use Rattle.std.specs.List.Sorted.{IsNonDecreasingBy};
    ghost use Rattle.commitments.specs.Held.{StepList};

    ghost Value = { StepList };

    ghost view = { λ l. record { steps = l.steps.items; capacity = vec_capacity l.steps } };

    ghost invariant = { λ l. IsNonDecreasingBy (λ held. held.step.enter) l.steps.items × All (λ s. s.step.leave + 600 ≤ s.step.enter + l.longest) l.steps.items };
}

impl SegmentHolds {
    /// No step.
    pub(crate) fn new(alloc: Global) -> SegmentHolds
        ensures { result.steps ≡ [] }
    {
        SegmentHolds {
            steps: Vec::new(alloc),
            longest: 0,
        }
    }

    /// Makes room for so many steps together. The steps stay, also where memory runs out.
    pub(crate) fn make_room(&mut self, wanted: usize) -> Result<(), Memory>
        ensures room { OnOk result (wanted ≤ self.new.capacity) }
        ensures steps { self.new.steps ≡ self.old.steps }
        ensures kept { self.old.capacity ≤ self.new.capacity }
    {
        if self.steps.capacity() >= wanted {
            return Ok(());
        }
        // A list rarely grows, since it gets room for more than is wanted. Growing in place would copy all of its room.
        let room = wanted.saturating_add(wanted).max(LEAST_ROOM);
        self.steps = moved(&self.steps, *self.steps.allocator(), room)?;
        Ok(())
    }

    /// Puts a step among the others. It needs no memory.
    pub(crate) fn insert(&mut self, held: HeldStep)
        requires { length self.old.steps < self.old.capacity }
        ensures steps { IsPermutation (held ∷ self.old.steps) self.new.steps }
        ensures capacity { self.new.capacity ≡ self.old.capacity }
    {
        let place = place_for(&self.steps, held.step.enter);
        let reach = u64::from(held.step.leave) + 600;
        self.longest = self
            .longest
            .max(reach.saturating_sub(u64::from(held.step.enter)));
        self.steps.insert(place, held).unwrap();
    }

    /// Takes a step out. It needs no memory.
    pub(crate) fn remove(&mut self, held: HeldStep)
        requires { Contains self.old.steps held }
        ensures steps { IsPermutation self.old.steps (held ∷ self.new.steps) }
        ensures capacity { self.new.capacity ≡ self.old.capacity }
    {
        let place = self.place(&held);
        self.steps.remove(place);
        if self.steps.is_empty() {
            self.longest = 0;
        }
    }

    // Where a step is.
    fn place(&self, held: &HeldStep) -> usize
        requires { Contains self.now.steps held.now }
        ensures here { result < length self.now.steps }
        ensures is { slice_get self.now.steps result ≡ Some held.now }
    {
        let start = begun_before(&self.steps, u64::from(held.step.enter));
        start + place_among(&self.steps[start..], held).unwrap()
    }

    /// The first second that a step has, from `from` on and before `until`; `until` where none has one.
    pub(crate) fn first_held(&self, airport: &Airport, from: Time, until: Time) -> Time
        requires { from ≤ until }
        ensures { IsFirstHeld (spans_by airport.now self.now.steps) from until result }
    {
        // Steps come in by rising times, so on most segments in conflict none has begun by then.
        if !any_begins_before(&self.steps, until) {
            return until;
        }
        keep_rules(airport);
        let mut first = until;
        for held in self.since(from) {
            if first <= held.step.enter {
                return first;
            }
            let span = held.span(airport);
            let begin = from.max(span.from);
            if begin < span.until {
                first = first.min(begin);
            }
        }
        first
    }

    /// Up to when a step has each second from one on; that second where none has it.
    pub(crate) fn held_until(&self, airport: &Airport, from: Time) -> Time
        ensures { ReachesUpTo (spans_by airport.now self.now.steps) from result }
    {
        keep_rules(airport);
        for held in self.since(from) {
            if from < held.step.enter {
                return from;
            }
            let span = held.span(airport);
            if from < span.until {
                return span.until;
            }
        }
        from
    }

    /// The first name of those whose steps have a second; none where none has it.
    pub(crate) fn first_holder(&self, airport: &Airport, second: Time) -> Option<Name>
        ensures { IsFirstNamed (has_second airport.now second) self.now.steps result }
    {
        keep_rules(airport);
        let mut first = None;
        for held in self.since(second) {
            let span = held.span(airport);
            if second < span.from {
                return first;
            }
            if second < span.until {
                first = first_name(first, Some(held.holder.name));
            }
        }
        first
    }

    // The steps from the first on that may reach beyond a second.
    pub(crate) fn since(&self, second: Time) -> &[HeldStep]
        ensures { AreSince self.now.steps second result.now }
    {
        let past = (u64::from(second) + 1).saturating_sub(self.longest);
        &self.steps[begun_before(&self.steps, past)..]
    }
}

// The steps with room for so many.
fn moved(steps: &[HeldStep], alloc: Global, room: usize) -> Result<Vec<HeldStep>, Memory>
    requires { length steps.now ≤ room }
    ensures steps { IfOk result (λ moved. moved.items ≡ steps.now) }
    ensures room { IfOk result (λ moved. room ≤ vec_capacity moved) }
{
    let mut moved = Vec::with_capacity(alloc, room)?;
    for step in steps {
        moved.push_reserved(*step);
    }
    Ok(moved)
}

/// Of two names the one that stands before the other.
pub(crate) fn first_name(one: Option<Name>, other: Option<Name>) -> Option<Name>
    ensures { result ≡ first_name one other }
{
    let (Some(first), Some(second)) = (one, other) else {
        return one.or(other);
    };
    Some(if second < first { second } else { first })
}

// The place for a step that begins at a second. It is mostly the last: holders come in by rising times.
fn place_for(steps: &[HeldStep], enter: Time) -> usize
    requires { IsNonDecreasingBy (λ held. held.step.enter) steps.now }
    ensures few { result ≤ length steps.now }
    ensures before { AllWithin (λ s. s.step.enter ≤ enter) steps.now 0 result }
    ensures after { AllWithin (λ s. enter ≤ s.step.enter) steps.now result (length steps.now) }
{
    match steps.last() {
        Some(last) if enter < last.step.enter => begun_before(steps, u64::from(enter)),
        _ => steps.len(),
    }
}

// Whether any of some steps begins before a second: the first one does if any.
fn any_begins_before(steps: &[HeldStep], second: Time) -> bool
    requires { IsNonDecreasingBy (λ held. held.step.enter) steps.now }
    ensures { IsFalse result → All (λ s. second ≤ s.step.enter) steps.now }
{
    match steps.first() {
        Some(first) => first.step.enter < second,
        None => false,
    }
}

// How many of some steps begin before a second. None does where the first one does not: mostly the oldest holder goes first.
fn begun_before(steps: &[HeldStep], second: u64) -> usize
    requires { IsNonDecreasingBy (λ held. held.step.enter) steps.now }
    ensures few { result ≤ length steps.now }
    ensures before { AllWithin (λ s. s.step.enter < second) steps.now 0 result }
    ensures after { AllWithin (λ s. second ≤ s.step.enter) steps.now result (length steps.now) }
{
    match steps.first() {
        Some(first) if u64::from(first.step.enter) < second => begun_before_some(steps, second),
        _ => 0,
    }
}

// The same where some do. Traffic comes in order of time, so mostly all do but a few at the end.
fn begun_before_some(steps: &[HeldStep], second: u64) -> usize
    requires { IsNonDecreasingBy (λ held. held.step.enter) steps.now }
    ensures few { result ≤ length steps.now }
    ensures before { AllWithin (λ s. s.step.enter < second) steps.now 0 result }
    ensures after { AllWithin (λ s. second ≤ s.step.enter) steps.now result (length steps.now) }
{
    let near = steps.len().saturating_sub(NEAR_THE_END);
    if near > 0 && u64::from(steps[near - 1].step.enter) < second {
        return near + begun_before_by_halves(&steps[near..], second);
    }
    begun_before_by_halves(steps, second)
}

fn begun_before_by_halves(steps: &[HeldStep], second: u64) -> usize
    requires { IsNonDecreasingBy (λ held. held.step.enter) steps.now }
    ensures few { result ≤ length steps.now }
    ensures before { AllWithin (λ s. s.step.enter < second) steps.now 0 result }
    ensures after { AllWithin (λ s. second ≤ s.step.enter) steps.now result (length steps.now) }
{
    steps.partition_point(|held| u64::from(held.step.enter) < second)
}

// The place of a step among others.
fn place_among(steps: &[HeldStep], held: &HeldStep) -> Option<usize>
    ensures some { IfSome result (λ k. slice_get steps.now k ≡ Some held.now) }
    ensures none { IfNone result (All (λ other. other ≢ held.now) steps.now) }
{
    for (place, other) in steps.iter().enumerate() {
        if is_same(other, held) {
            return Some(place);
        }
    }
    None
}

fn is_same(one: &HeldStep, other: &HeldStep) -> bool
    ensures { IsTrue result ↔ one.now ≡ other.now }
{
    *one == *other
}
