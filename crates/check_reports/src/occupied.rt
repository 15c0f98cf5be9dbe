//! The rows that tell what is held of a segment and of those in conflict with it.
ghost use Rattle.std.specs.Prelude.{◌≡◌, ◌↔◌, ◌<◌, ◌≤◌, true, false, All, Contains, IsTrue, length};
ghost use Rattle.std.specs.List.Sorted.{IsPartitionPoint};
ghost use Rattle.taxi_base.specs.Reports.{AreHeldRows, row_precedes};
ghost use Rattle.held_spans.specs.Spans.{rows_at};
ghost use Rattle.checked_state.specs.Flights.{state_of, HasSpansOf};
ghost use Rattle.check_reports.specs.HeldRows.{row_on, end_precedes, name_precedes_then_segment, AreRowsInOrder, IsListed, IsRowDue, IsTold};

use airport_file::Airport;
use checked_state::HeldFlights;
use held_spans::HeldSpans;
use taxi_base::{HeldRow, Name, Segment, Span};

/// Whether rows are in order, none twice, and tell all that is held of a segment and of those in conflict with it. The spans
/// of these segments are asked, and no flight.
pub fn are_held_rows(
    airport: &Airport,
    held: &HeldFlights,
    segment: Segment,
    rows: &[HeldRow],
) -> bool
    requires on { segment.0 < length airport.now.segments }
    requires spans { HasSpansOf airport.now (state_of held.now) held.now }
    ensures { IsTrue result ↔ AreHeldRows airport.now (state_of held.now) segment rows.now }
{
    if !are_in_order(rows) {
        return false;
    }
    let spans = held.spans();
    let conflicting = airport.conflicts().of(segment);
    are_due(airport, spans, segment, rows) && are_all_told(spans, conflicting, rows)
}

// ---- the order

fn are_in_order(rows: &[HeldRow]) -> bool
    ensures { IsTrue result ↔ AreRowsInOrder rows.now }
{
    rows.is_sorted_by(|a, b| precedes(a, b))
}

// Whether a row stands before another: by its begin, its end, the name, and the segment.
fn precedes(a: &HeldRow, b: &HeldRow) -> bool
    ensures { result ≡ row_precedes a.now b.now }
{
    a.from < b.from || (a.from == b.from && precedes_by_end(a, b))
}

fn precedes_by_end(a: &HeldRow, b: &HeldRow) -> bool
    ensures { result ≡ end_precedes a.now b.now }
{
    a.until < b.until || (a.until == b.until && precedes_by_name(a, b))
}

fn precedes_by_name(a: &HeldRow, b: &HeldRow) -> bool
    ensures { result ≡ name_precedes_then_segment a.now b.now }
{
    a.flight < b.flight || (a.flight == b.flight && a.segment.0 < b.segment.0)
}

// ---- each row tells what is held

fn are_due(airport: &Airport, spans: &HeldSpans, segment: Segment, rows: &[HeldRow]) -> bool
    requires on { segment.0 < length airport.now.segments }
    ensures { IsTrue result ↔ All (IsRowDue airport.now spans.now segment) rows.now }
{
    for row in rows {
        if !is_due(airport, spans, segment, row) {
            return false;
        }
    }
    true
}

// Whether a row tells what is held, of a segment in conflict.
fn is_due(airport: &Airport, spans: &HeldSpans, segment: Segment, row: &HeldRow) -> bool
    requires on { segment.0 < length airport.now.segments }
    ensures { IsTrue result ↔ IsRowDue airport.now spans.now segment row.now }
{
    airport.conflicts().conflict(segment, row.segment) && is_listed(spans, row)
}

// Whether what a row tells stands in the list of its segment.
fn is_listed(spans: &HeldSpans, row: &HeldRow) -> bool
    ensures { IsTrue result ↔ IsListed spans.now row.now }
{
    let span = Span {
        from: row.from,
        until: row.until,
    };
    spans.has(row.segment, span, &row.flight)
}

// ---- all that is held is told

// Whether rows tell all for which some segments are held.
fn are_all_told(spans: &HeldSpans, segments: &[Segment], rows: &[HeldRow]) -> bool
    requires { AreRowsInOrder rows.now }
    ensures { IsTrue result ↔ All (IsTold spans.now rows.now) segments.now }
{
    for segment in segments {
        if !is_told(spans, *segment, rows) {
            return false;
        }
    }
    true
}

fn is_told(spans: &HeldSpans, segment: Segment, rows: &[HeldRow]) -> bool
    requires { AreRowsInOrder rows.now }
    ensures { IsTrue result ↔ IsTold spans.now rows.now segment }
{
    for place in 0..spans.count(segment) {
        let (span, holder) = spans.row(segment, place);
        if !has_row(rows, &row_on(segment, span, holder)) {
            return false;
        }
    }
    true
}

// The row that tells of a span for which a segment is held.
fn row_on(segment: Segment, span: Span, holder: Name) -> HeldRow
    ensures { result ≡ row_on segment (record { 0 = span; 1 = holder }) }
{
    HeldRow {
        from: span.from,
        until: span.until,
        flight: holder,
        segment,
    }
}

// Whether rows in order have a row.
fn has_row(rows: &[HeldRow], row: &HeldRow) -> bool
    requires { AreRowsInOrder rows.now }
    ensures { IsTrue result ↔ Contains rows.now row.now }
{
    match rows.get(rows_before(rows, row)) {
        Some(found) => found == row,
        None => false,
    }
}

// How many rows stand before a row's place.
fn rows_before(rows: &[HeldRow], row: &HeldRow) -> usize
    requires { AreRowsInOrder rows.now }
    ensures few { result ≤ length rows.now }
    ensures point { IsPartitionPoint (λ other. row_precedes other row.now ≡ true) (λ other. row_precedes other row.now ≡ false) rows.now result }
{
    rows.partition_point(|other| precedes(other, row))
}
