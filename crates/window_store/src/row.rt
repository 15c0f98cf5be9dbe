//! A segment's windows in a row beside the list that has them with their ids, so that they are read where they lie.
ghost use Rattle.std.specs.Prelude.{ℕ, suc, ◌≡◌, ◌↔◌, ◌-◌, ◌<◌, ◌≤◌, length, insert, IsTrue, IsFalse, vec_capacity};
ghost use Rattle.taxi_base.specs.Windows.{AreApart};
ghost use Rattle.interval_list.specs.Intervals.{spans_of, without_span, hull, with_span};
ghost use Rattle.window_store.specs.Rows.{AreOverBy, span_in, cut_in};
ghost use Rattle.window_store.specs.Kept.{LiesInOne};

use interval_list::IntervalList;
use taxi_base::{Span, Time};

/// How many of some spans end by a second. Traffic comes in order of time, so mostly all of them do, or all but the last.
pub(crate) fn over_by(row: &[Span], second: Time) -> usize
    requires { AreApart 0 row.now }
    ensures { AreOverBy row.now second result }
{
    let all = row.len();
    if end_by(row, all, second) {
        return all;
    }
    if end_by(row, all - 1, second) {
        return all - 1;
    }
    over_by_halves(row, second)
}

/// Whether the first spans end by a second.
fn end_by(row: &[Span], count: usize, second: Time) -> bool
    requires apart { AreApart 0 row.now }
    requires few { count ≤ length row.now }
    ensures yes { IsTrue result → (k : ℕ) → k < count → (span_in row.now k).until ≤ second }
    ensures no { IsFalse result → (0 < count) × (second < (span_in row.now (count - 1)).until) }
{
    count == 0 || row[count - 1].until <= second
}

fn over_by_halves(row: &[Span], second: Time) -> usize
    requires { AreApart 0 row.now }
    ensures { AreOverBy row.now second result }
{
    row.partition_point(|span| span.until <= second)
}

/// Whether a span lies in one of the spans of a row.
pub(crate) fn lies_in_one(row: &[Span], span: Span) -> bool
    requires apart { AreApart 0 row.now }
    requires some { span.from < span.until }
    ensures { IsTrue result ↔ LiesInOne row.now span }
{
    let at = over_by(row, span.from);
    if at == row.len() {
        return false;
    }
    let next = row[at];
    next.from <= span.from && span.until <= next.until
}

/// The row anew, from the list.
pub(crate) fn copy_row(row: &mut Vec<Span>, intervals: &IntervalList)
    requires { length intervals.now.windows ≤ vec_capacity row.old }
    ensures spans { row.new.items ≡ spans_of intervals.now.windows }
    ensures capacity { vec_capacity row.new ≡ vec_capacity row.old }
{
    row.clear();
    for window in intervals.windows() {
        row.push_reserved(Span {
            from: window.from,
            until: window.until,
        });
    }
}

/// Takes a span out of a row that has the windows which the list had before it was taken out there.
pub(crate) fn follow(row: &mut Vec<Span>, span: Span, intervals: &IntervalList)
    requires some { span.from < span.until }
    requires apart { AreApart 0 row.old.items }
    requires taken { spans_of intervals.now.windows ≡ without_span span row.old.items }
    requires room { length intervals.now.windows ≤ vec_capacity row.old }
    ensures spans { row.new.items ≡ spans_of intervals.now.windows }
    ensures capacity { vec_capacity row.new ≡ vec_capacity row.old }
{
    if !take_out_of_one(row, span) {
        copy_row(row, intervals);
    }
}

/// Takes a span out of a row, where it meets one span of it at most. Says whether it did.
fn take_out_of_one(row: &mut Vec<Span>, span: Span) -> bool
    requires some { span.from < span.until }
    requires apart { AreApart 0 row.old.items }
    requires room { length (without_span span row.old.items) ≤ vec_capacity row.old }
    ensures taken { IsTrue result → row.new.items ≡ without_span span row.old.items }
    ensures capacity { vec_capacity row.new ≡ vec_capacity row.old }
{
    let at = over_by(row, span.from);
    if at == row.len() {
        return true;
    }
    if !ends_by_next(row, at, span) {
        return false;
    }
    cut_one(row, at, span);
    true
}

/// Whether the span ends before the one after the one at a place begins, if there is one.
fn ends_by_next(row: &[Span], at: usize, span: Span) -> bool
    requires { at < length row.now }
    ensures { IsTrue result → suc at < length row.now → span.until ≤ (span_in row.now (suc at)).from }
{
    match row.get(at + 1) {
        None => true,
        Some(next) => span.until <= next.from,
    }
}

/// Takes a span out of the one that it meets.
fn cut_one(row: &mut Vec<Span>, at: usize, span: Span)
    requires inside { at < length row.old.items }
    requires room { length (cut_in row.old.items at span) ≤ vec_capacity row.old }
    ensures cut { row.new.items ≡ cut_in row.old.items at span }
    ensures capacity { vec_capacity row.new ≡ vec_capacity row.old }
{
    let whole = row[at];
    let left = Span {
        from: whole.from,
        until: whole.until.min(span.from),
    };
    let right = Span {
        from: whole.from.max(span.until),
        until: whole.until,
    };
    match (whole.from < span.from, span.until < whole.until) {
        (true, true) => {
            row[at] = left;
            put_at(row, at + 1, right);
        }
        (true, false) => row[at] = left,
        (false, true) => row[at] = right,
        (false, false) => {
            row.remove(at);
        }
    }
}

/// Puts a span in at a place, which mostly is the end.
fn put_at(row: &mut Vec<Span>, at: usize, span: Span)
    requires inside { at ≤ length row.old.items }
    requires room { length row.old.items < vec_capacity row.old }
    ensures put { row.new.items ≡ insert row.old.items at span }
    ensures capacity { vec_capacity row.new ≡ vec_capacity row.old }
{
    if at == row.len() {
        row.push_reserved(span);
    } else {
        row.insert(at, span).unwrap();
    }
}

/// Puts a span into a row that has the windows which the list had before it was given back there.
pub(crate) fn follow_back(row: &mut Vec<Span>, span: Span, intervals: &IntervalList)
    requires some { span.from < span.until }
    requires apart { AreApart 0 row.old.items }
    requires given { spans_of intervals.now.windows ≡ with_span span row.old.items }
    requires room { length intervals.now.windows ≤ vec_capacity row.old }
    ensures spans { row.new.items ≡ spans_of intervals.now.windows }
    ensures capacity { vec_capacity row.new ≡ vec_capacity row.old }
{
    if !put_in(row, span) {
        copy_row(row, intervals);
    }
}

/// Puts a span into a row, joined with those that it meets or touches, where these are two at most. Says whether it did.
fn put_in(row: &mut Vec<Span>, span: Span) -> bool
    requires some { span.from < span.until }
    requires apart { AreApart 0 row.old.items }
    requires room { length (with_span span row.old.items) ≤ vec_capacity row.old }
    ensures given { IsTrue result → row.new.items ≡ with_span span row.old.items }
    ensures capacity { vec_capacity row.new ≡ vec_capacity row.old }
{
    // One that ends where the span begins is touched, and ends beyond the second before.
    let at = over_by(row, span.from.saturating_sub(1));
    if ends_before(row, at, span) {
        put_at(row, at, span);
        return true;
    }
    let first = joined(span, row[at]);
    if ends_before(row, at + 1, span) {
        row[at] = first;
        return true;
    }
    if !ends_before(row, at + 2, span) {
        return false;
    }
    let second = row.remove(at + 1);
    row[at] = joined(first, second);
    true
}

/// Whether a span ends before the one at a place begins, if there is one.
fn ends_before(row: &[Span], at: usize, span: Span) -> bool
    ensures yes { IsTrue result → at < length row.now → span.until < (span_in row.now at).from }
    ensures no { IsFalse result → (at < length row.now) × ((span_in row.now at).from ≤ span.until) }
{
    match row.get(at) {
        None => true,
        Some(next) => span.until < next.from,
    }
}

/// The least span that has both.
fn joined(span: Span, other: Span) -> Span
    ensures { result ≡ hull span other }
{
    Span {
        from: span.from.min(other.from),
        until: span.until.max(other.until),
    }
}
