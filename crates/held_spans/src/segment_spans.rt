//! The spans for which one segment is held, and by whom.
ghost use Rattle.std.specs.Prelude.{◌≡◌, ◌+◌, ◌<◌, ◌≤◌, ◌↔◌, ◌∷◌, [], if◌then◌else◌, ℕ, List, map, length, vec_len, vec_capacity, Some, None, slice_get, Contains, IsTrue, IsSome, IfOk, IfSome, OnOk, OnErr};
ghost use Rattle.std.specs.List.{insert, AllWithin};
ghost use Rattle.std.specs.List.Sorted.{IsPermutation, IsNonDecreasingBy};
ghost use Rattle.taxi_base.specs.declared.rows.Span.{Span};
ghost use Rattle.taxi_base.specs.Windows.{span_has, covers};
ghost use Rattle.held_spans.specs.Holders.{IsFirstOf, IsHolderIn};

use crate::first_name;
use std::alloc::Global;
use std::marker::Model;
use taxi_base::{Memory, Name, Span, Time};

/// So many spans are gone through more quickly than by halves.
const FEW: usize = 8;

/// The spans for which a segment is held, in order of time, and beside them the names of their holders in the same order.
#[derive(Drop)]
pub(crate) struct SegmentSpans {
    spans: Vec<Span>,
    holders: Vec<Name>,
    // No span is longer.
    longest: Time,
}

impl Model for SegmentSpans {
    ghost use Rattle.std.specs.Prelude.{◌≡◌, ◌+◌, ◌-◌, ◌≤◌, min, length, All, vec_capacity, vec_len};
    ghost use Rattle.std.specs.List.{zip};
    ghost use Rattle.std.specs.List.Sorted.{IsNonDecreasingBy};
    ghost use Rattle.held_spans.specs.Rows.{SpanRows};

    ghost Value = { SpanRows };

    ghost view = { λ l. record { rows = zip l.spans.items l.holders.items; room = min (vec_capacity l.spans - vec_len l.spans) (vec_capacity l.holders - vec_len l.holders) } };

    ghost invariant = { λ l. (length l.holders.items ≡ length l.spans.items)
        × IsNonDecreasingBy (λ span. span.from) l.spans.items × All (λ span. span.until ≤ span.from + l.longest) l.spans.items };
}

impl SegmentSpans {
    /// No span.
    pub(crate) fn new(alloc: Global) -> SegmentSpans
        ensures { result.rows ≡ [] }
    {
        SegmentSpans {
            spans: Vec::new(alloc),
            holders: Vec::new(alloc),
            longest: 0,
        }
    }

    /// The same spans once more, of the same holders.
    pub(crate) fn copy(&self) -> Result<SegmentSpans, Memory>
        ensures { IfOk result (λ copy. copy.rows ≡ self.now.rows) }
    {
        let alloc = *self.spans.allocator();
        let spans = Vec::from_slice(alloc, &self.spans)?;
        let holders = Vec::from_slice(alloc, &self.holders)?;
        Ok(SegmentSpans {
            spans,
            holders,
            longest: self.longest,
        })
    }

    /// The spans alone.
    pub(crate) fn spans(&self) -> &[Span]
        ensures { result.now ≡ map (λ row. row.0) self.now.rows }
    {
        &self.spans
    }

    /// Those of the spans that may have a second of one span: they have just the seconds of it that all have.
    pub(crate) fn spans_in(&self, span: Span) -> &[Span]
        ensures { (t : ℕ) → IsTrue (span_has span t) → covers result.now t ≡ covers (map (λ row. row.0) self.now.rows) t }
    {
        let begun = &self.spans[..begun_before(&self.spans, span.until)];
        &begun[begun_before_from_last(begun, span.from.saturating_sub(self.longest))..]
    }

    /// How many spans there are.
    pub(crate) fn count(&self) -> usize
        ensures { result ≡ length self.now.rows }
    {
        self.spans.len()
    }

    /// The span at a place, and its holder.
    pub(crate) fn row(&self, place: usize) -> (Span, Name)
        requires { place < length self.now.rows }
        ensures { slice_get self.now.rows place ≡ Some result }
    {
        (self.spans[place], self.holders[place])
    }

    /// Whether a holder has a span.
    pub(crate) fn has(&self, span: Span, holder: &Name) -> bool
        ensures { IsTrue result ↔ Contains self.now.rows (record { 0 = span; 1 = holder.now }) }
    {
        self.place_of(span, holder).is_some()
    }

    /// Puts a span in. Where memory runs out there are those that were, with no less room.
    pub(crate) fn put(&mut self, span: Span, holder: &Name) -> Result<(), Memory>
        ensures ok { OnOk result (IsPermutation (record { 0 = span; 1 = holder.now } ∷ self.old.rows) self.new.rows) }
        ensures err { OnErr result (self.new.rows ≡ self.old.rows) }
        ensures room { self.old.room ≤ self.new.room + 1 }
        ensures kept { OnErr result (self.old.room ≤ self.new.room) }
        ensures full { OnErr result (self.old.room ≡ 0) }
    {
        self.spans.reserve(1)?;
        self.holders.reserve(1)?;
        let place = place_in_order(&self.spans, span);
        let length = span.until.saturating_sub(span.from);
        self.longest = self.longest.max(length);
        insert_reserved(&mut self.spans, place, span);
        insert_reserved(&mut self.holders, place, *holder);
        Ok(())
    }

    /// Takes a span out, which its holder has. It needs no memory, and there is room for it then.
    pub(crate) fn take(&mut self, span: Span, holder: &Name)
        requires { Contains self.old.rows (record { 0 = span; 1 = holder.now }) }
        ensures rows { IsPermutation self.old.rows (record { 0 = span; 1 = holder.now } ∷ self.new.rows) }
        ensures room { self.old.room + 1 ≤ self.new.room }
    {
        let place = self.place_of(span, holder).unwrap();
        self.spans.remove(place);
        self.holders.remove(place);
    }

    // The place of a holder's span. They are in order, so it mostly stands where those end that begin sooner.
    fn place_of(&self, span: Span, holder: &Name) -> Option<usize>
        ensures there { Contains self.now.rows (record { 0 = span; 1 = holder.now }) → IsSome result }
        ensures place { IfSome result (λ place. slice_get self.now.rows place ≡ Some (record { 0 = span; 1 = holder.now })) }
    {
        let near = begun_before(&self.spans, span.from);
        if near < self.spans.len() && self.has_at(near, span, holder) {
            return Some(near);
        }
        for place in 0..self.spans.len() {
            if self.has_at(place, span, holder) {
                return Some(place);
            }
        }
        None
    }

    // Whether a holder's span stands at a place.
    fn has_at(&self, place: usize, span: Span, holder: &Name) -> bool
        requires { place < length self.now.rows }
        ensures { IsTrue result ↔ slice_get self.now.rows place ≡ Some (record { 0 = span; 1 = holder.now }) }
    {
        is_same_span(self.spans[place], span) && is_same_name(&self.holders[place], holder)
    }

    /// The first by name of those whose spans have a second; none where none has it.
    pub(crate) fn first_holder(&self, second: Time) -> Option<Name>
        ensures { IsFirstOf (IsHolderIn self.now.rows second) result }
    {
        let mut first = None;
        for place in 0..self.spans.len() {
            first = first_name(first, self.holder_at(place, second));
        }
        first
    }

    // The holder of the span at a place, where that has a second.
    fn holder_at(&self, place: usize, second: Time) -> Option<Name>
        requires { place < length self.now.rows }
        ensures { (row : Span × List ℕ) → slice_get self.now.rows place ≡ Some row → result ≡ (if span_has row.0 second then Some row.1 else None) }
    {
        if has_second(self.spans[place], second) {
            Some(self.holders[place])
        } else {
            None
        }
    }
}

// Puts an item in at a place, where there is room. At the end it moves no other.
#[tactic(auto, using(std::proofs::lemmas::List::Edits::insert_end))]
fn insert_reserved<T: Drop>(items: &mut Vec<T>, place: usize, item: T)
    requires place { place ≤ length items.old.items }
    requires room { vec_len items.old < vec_capacity items.old }
    ensures items { items.new.items ≡ insert items.old.items place item }
    ensures len { vec_len items.new ≡ vec_len items.old + 1 }
    ensures capacity { vec_capacity items.old ≤ vec_capacity items.new }
{
    if place == items.len() {
        items.push_reserved(item);
    } else {
        items.insert(place, item).unwrap();
    }
}

fn is_same_span(one: Span, other: Span) -> bool
    ensures { IsTrue result ↔ one ≡ other }
{
    one == other
}

fn is_same_name(one: &Name, other: &Name) -> bool
    ensures { IsTrue result ↔ one.now ≡ other.now }
{
    *one == *other
}

fn has_second(span: Span, second: Time) -> bool
    ensures { result ≡ span_has span second }
{
    span.from <= second && second < span.until
}

// The place of a span among those that begin in order. It is mostly the last.
fn place_in_order(spans: &[Span], span: Span) -> usize
    requires { IsNonDecreasingBy (λ other. other.from) spans.now }
    ensures few { result ≤ length spans.now }
    ensures before { AllWithin (λ other. other.from ≤ span.from) spans.now 0 result }
    ensures after { AllWithin (λ other. span.from ≤ other.from) spans.now result (length spans.now) }
{
    match spans.last() {
        Some(last) if span.from < last.from => begun_before(spans, span.from),
        _ => spans.len(),
    }
}

// How many spans begin before a second. It is found near the last of them, if few begin later. None does where the first one does
// not: else mostly the oldest holder goes first.
fn begun_before(spans: &[Span], second: Time) -> usize
    requires { IsNonDecreasingBy (λ span. span.from) spans.now }
    ensures few { result ≤ length spans.now }
    ensures before { AllWithin (λ span. span.from < second) spans.now 0 result }
    ensures after { AllWithin (λ span. second ≤ span.from) spans.now result (length spans.now) }
{
    if few_begin_later(spans, second) {
        return begun_before_from_last(spans, second);
    }
    match spans.first() {
        Some(first) if first.from < second => begun_before_by_halves(spans, second),
        _ => 0,
    }
}

fn few_begin_later(spans: &[Span], second: Time) -> bool {
    spans.len() < FEW || spans[spans.len() - FEW].from < second
}

fn begun_before_by_halves(spans: &[Span], second: Time) -> usize
    requires { IsNonDecreasingBy (λ span. span.from) spans.now }
    ensures few { result ≤ length spans.now }
    ensures before { AllWithin (λ span. span.from < second) spans.now 0 result }
    ensures after { AllWithin (λ span. second ≤ span.from) spans.now result (length spans.now) }
{
    spans.partition_point(|span| span.from < second)
}

// The same, looked for from the last span on.
fn begun_before_from_last(spans: &[Span], second: Time) -> usize
    requires { IsNonDecreasingBy (λ span. span.from) spans.now }
    ensures few { result ≤ length spans.now }
    ensures before { AllWithin (λ span. span.from < second) spans.now 0 result }
    ensures after { AllWithin (λ span. second ≤ span.from) spans.now result (length spans.now) }
{
    let mut begun = spans.len();
    while begun > 0 && second <= spans[begun - 1].from {
        begun -= 1;
    }
    begun
}
