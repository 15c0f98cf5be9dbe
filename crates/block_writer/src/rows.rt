//! The rows of a block, each of one line.
ghost use Rattle.std.specs.Prelude.{◌≡◌, ◌≤◌, ◌+◌, ◌*◌, ◌∷◌, ◌++◌, ℕ, List, length, All, OnOk, OnErr, ⊤};
ghost use Rattle.taxi_base.specs.Airport.{Airport as Plain};
ghost use Rattle.replies.specs.Texts.{line_text, step_words, label_words, window_words, held_words, flight_words, kind_word};
ghost use Rattle.replies.specs.Printable.{HasArc, HasSegment, HasClass};
ghost use Rattle.block_writer.specs.Printed.{rows_text, IsCutShort};

use crate::line_buffer::{LineBuffer, MOST_LINES};
use airport_file::Airport;
use taxi_base::{FlightKind, FlightRow, HeldRow, LabelRow, Memory, Span, Step};
use taxi_text::push_bytes;

/// What is written as one line.
pub(crate) trait Row {
    /// The line's words.
    ghost words: { Plain → Self → List (List ℕ) };

    /// The airport has what the row names.
    ghost IsWritableRow: { Plain → Self → Type 0 };

    /// Writes the line before what is there.
    fn write(&self, airport: &Airport, line: &mut LineBuffer)
        requires row { IsWritableRow airport.now self.now }
        requires room { length line.old + 96 ≤ 1536 }
        ensures text { line.new ≡ line_text (words airport.now self.now) ++ line.old }
        ensures length { length line.new ≤ length line.old + 96 };
}

impl Row for Step {
    ghost words = { step_words };

    ghost IsWritableRow = { λ airport step. HasArc airport step.arc };

    fn write(&self, airport: &Airport, line: &mut LineBuffer) {
        line.put_last_number(u64::from(self.leave));
        line.put_number(u64::from(self.enter));
        line.put_arc(airport, self.arc);
        line.put(b"step ");
    }
}

impl Row for LabelRow {
    ghost words = { label_words };

    ghost IsWritableRow = { λ airport label. HasArc airport label.arc };

    fn write(&self, airport: &Airport, line: &mut LineBuffer) {
        line.put_last_three(
            u64::from(self.from),
            u64::from(self.until),
            u64::from(self.value),
        );
        line.put_arc(airport, self.arc);
        line.put(b"label ");
    }
}

impl Row for Span {
    ghost words = { λ airport window. window_words window };

    ghost IsWritableRow = { λ airport window. ⊤ };

    fn write(&self, airport: &Airport, line: &mut LineBuffer) {
        let _names = airport;
        line.put_last_number(u64::from(self.until));
        line.put_number(u64::from(self.from));
        line.put(b"window ");
    }
}

impl Row for HeldRow {
    ghost words = { held_words };

    ghost IsWritableRow = { λ airport row. HasSegment airport row.segment };

    fn write(&self, airport: &Airport, line: &mut LineBuffer) {
        line.put_last_segment(airport, self.segment);
        line.put_name(&self.flight);
        line.put_number(u64::from(self.until));
        line.put_number(u64::from(self.from));
        line.put(b"held ");
    }
}

impl Row for FlightRow {
    ghost words = { flight_words };

    ghost IsWritableRow = { λ airport row. HasClass airport row.class };

    fn write(&self, airport: &Airport, line: &mut LineBuffer) {
        line.put_last_number(u64::from(self.end));
        line.put_number(u64::from(self.start));
        line.put_class(airport, self.class);
        put_kind(self.kind, line);
        line.put_name(&self.flight);
        line.put(b"flight ");
    }
}

fn put_kind(kind: FlightKind, line: &mut LineBuffer)
    requires { length line.old + 10 ≤ 1536 }
    ensures text { line.new ≡ kind_word kind ++ 32 ∷ line.old }
    ensures length { length line.new ≤ length line.old + 10 }
{
    match kind {
        FlightKind::Filed => line.put(b"filed "),
        FlightKind::Arrival => line.put(b"arrival "),
        FlightKind::Departure => line.put(b"departure "),
    }
}

/// Writes the lines as they stand, and then rows, at the end of `out`. Where memory runs out a first part of them stands there.
pub(crate) fn print_rows<R: Row>(
    airport: &Airport,
    line: &mut LineBuffer,
    rows: &[R],
    out: &mut Vec<u8>,
) -> Result<(), Memory>
    requires { All (R.IsWritableRow airport.now) rows.now }
    ensures ok { OnOk result (out.new.items ≡ out.old.items ++ (line.old ++ rows_text (R.words airport.now) rows.now)) }
    ensures err { OnErr result (IsCutShort (line.old ++ rows_text (R.words airport.now) rows.now) out.old.items out.new.items) }
{
    push_bytes(out, line.bytes())?;
    let mut rest = rows;
    while !rest.is_empty() {
        let (first, others) = rest.split_at(rest.len().min(MOST_LINES));
        line.clear();
        write_rows(airport, first, line);
        push_bytes(out, line.bytes())?;
        rest = others;
    }
    Ok(())
}

// Writes rows before what is there, the last first.
fn write_rows<R: Row>(airport: &Airport, rows: &[R], line: &mut LineBuffer)
    requires rows { All (R.IsWritableRow airport.now) rows.now }
    requires room { length line.old + 96 * length rows.now ≤ 1536 }
    ensures { line.new ≡ rows_text (R.words airport.now) rows.now ++ line.old }
{
    let mut at = rows.len();
    while at > 0 {
        at -= 1;
        rows[at].write(airport, line);
    }
}
