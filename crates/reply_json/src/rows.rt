//! Rows as objects.
ghost use Rattle.std.specs.Prelude.{◌≡◌, ◌≤◌, ◌++◌, length, OnOk};
ghost use Rattle.taxi_base.specs.Airport.{Airport as Plain};
ghost use Rattle.replies.specs.Texts.{kind_word};
ghost use Rattle.replies.specs.Printable.{IsPrintableStep, IsPrintableLabel, IsPrintableWindow, IsPrintableHeld, IsPrintableFlight};
ghost use Rattle.serde_json.specs.Data.{Data};
ghost use Rattle.serde_json.specs.Written.{compact_text};
ghost use Rattle.reply_json.specs.Values.{word_value};
ghost use Rattle.reply_json.specs.Replies.{step_object, label_object, window_object, held_object, flight_object};

use crate::pieces::{quoted_arc, quoted_class, quoted_name, quoted_segment};
use airport_file::Airport;
use itoa::Buffer;
use taxi_base::{FlightKind, FlightRow, HeldRow, LabelRow, Memory, Span, Step, Time};
use taxi_text::{ShortText, push_bytes};

/// What is told as one object.
pub(crate) trait Row {
    /// The object that tells of it.
    ghost object: { Plain → Self → Data };

    /// It has a text in the grammar of replies.
    ghost Fits: { Plain → Self → Type 0 };

    /// Writes the object at the end.
    fn write(&self, airport: &Airport, out: &mut Vec<u8>) -> Result<(), Memory>
        requires { Fits airport.now self.now }
        ensures { OnOk result (out.new.items ≡ out.old.items ++ compact_text (object airport.now self.now)) };
}

impl Row for Step {
    ghost object = { step_object };

    ghost Fits = { IsPrintableStep };

    fn write(&self, airport: &Airport, out: &mut Vec<u8>) -> Result<(), Memory> {
        write_step(airport, self, out)
    }
}

impl Row for LabelRow {
    ghost object = { label_object };

    ghost Fits = { IsPrintableLabel };

    fn write(&self, airport: &Airport, out: &mut Vec<u8>) -> Result<(), Memory> {
        write_label(airport, self, out)
    }
}

impl Row for Span {
    ghost object = { λ airport window. window_object window };

    ghost Fits = { λ airport window. IsPrintableWindow window };

    fn write(&self, airport: &Airport, out: &mut Vec<u8>) -> Result<(), Memory> {
        let _names = airport;
        write_window(self, out)
    }
}

impl Row for HeldRow {
    ghost object = { held_object };

    ghost Fits = { IsPrintableHeld };

    fn write(&self, airport: &Airport, out: &mut Vec<u8>) -> Result<(), Memory> {
        write_held(airport, self, out)
    }
}

impl Row for FlightRow {
    ghost object = { flight_object };

    ghost Fits = { IsPrintableFlight };

    fn write(&self, airport: &Airport, out: &mut Vec<u8>) -> Result<(), Memory> {
        write_flight(airport, self, out)
    }
}

// A short text has no room for the whole; nor has it in the rows below.
fn write_step(airport: &Airport, step: &Step, out: &mut Vec<u8>) -> Result<(), Memory>
    requires { IsPrintableStep airport.now step.now }
    ensures { OnOk result (out.new.items ≡ out.old.items ++ compact_text (step_object airport.now step.now)) }
{
    let mut digits = Buffer::new();
    let arc = quoted_arc(airport, step.arc);
    let mut text = ShortText::new();
    text.push(b"{\"arc\":");
    text.push(arc.bytes());
    text.push(b",\"enter\":");
    text.push(digits.format(step.enter).as_bytes());
    push_bytes(out, text.bytes())?;
    let mut text = ShortText::new();
    text.push(b",\"leave\":");
    text.push(digits.format(step.leave).as_bytes());
    text.push(b"}");
    push_bytes(out, text.bytes())
}

fn write_label(airport: &Airport, label: &LabelRow, out: &mut Vec<u8>) -> Result<(), Memory>
    requires { IsPrintableLabel airport.now label.now }
    ensures { OnOk result (out.new.items ≡ out.old.items ++ compact_text (label_object airport.now label.now)) }
{
    let mut digits = Buffer::new();
    let arc = quoted_arc(airport, label.arc);
    let mut text = ShortText::new();
    text.push(b"{\"arc\":");
    text.push(arc.bytes());
    text.push(b",\"from\":");
    text.push(digits.format(label.from).as_bytes());
    push_bytes(out, text.bytes())?;
    let mut text = ShortText::new();
    text.push(b",\"until\":");
    text.push(digits.format(label.until).as_bytes());
    text.push(b",\"value\":");
    text.push(digits.format(label.value).as_bytes());
    text.push(b"}");
    push_bytes(out, text.bytes())
}

fn write_window(window: &Span, out: &mut Vec<u8>) -> Result<(), Memory>
    ensures { OnOk result (out.new.items ≡ out.old.items ++ compact_text (window_object window.now)) }
{
    let mut digits = Buffer::new();
    let mut text = ShortText::new();
    text.push(b"{\"from\":");
    text.push(digits.format(window.from).as_bytes());
    text.push(b",\"until\":");
    text.push(digits.format(window.until).as_bytes());
    text.push(b"}");
    push_bytes(out, text.bytes())
}

fn write_held(airport: &Airport, row: &HeldRow, out: &mut Vec<u8>) -> Result<(), Memory>
    requires { IsPrintableHeld airport.now row.now }
    ensures { OnOk result (out.new.items ≡ out.old.items ++ compact_text (held_object airport.now row.now)) }
{
    let mut digits = Buffer::new();
    let flight = quoted_name(&row.flight);
    let mut text = ShortText::new();
    text.push(b"{\"flight\":");
    text.push(flight.bytes());
    text.push(b",\"from\":");
    text.push(digits.format(row.from).as_bytes());
    push_bytes(out, text.bytes())?;
    let segment = quoted_segment(airport, row.segment);
    let mut text = ShortText::new();
    text.push(b",\"segment\":");
    text.push(segment.bytes());
    text.push(b",\"until\":");
    text.push(digits.format(row.until).as_bytes());
    text.push(b"}");
    push_bytes(out, text.bytes())
}

fn write_flight(airport: &Airport, row: &FlightRow, out: &mut Vec<u8>) -> Result<(), Memory>
    requires { IsPrintableFlight airport.now row.now }
    ensures { OnOk result (out.new.items ≡ out.old.items ++ compact_text (flight_object airport.now row.now)) }
{
    let mut digits = Buffer::new();
    let class = quoted_class(airport, row.class);
    let mut text = ShortText::new();
    text.push(b"{\"class\":");
    text.push(class.bytes());
    text.push(b",\"end\":");
    text.push(digits.format(row.end).as_bytes());
    push_bytes(out, text.bytes())?;
    let flight = quoted_name(&row.flight);
    let mut text = ShortText::new();
    text.push(b",\"flight\":");
    text.push(flight.bytes());
    text.push(b",\"kind\":");
    text.push(quoted_kind(row.kind));
    push_bytes(out, text.bytes())?;
    let mut text = ShortText::new();
    text.push(b",\"start\":");
    text.push(digits.format(row.start).as_bytes());
    text.push(b"}");
    push_bytes(out, text.bytes())
}

fn quoted_kind(kind: FlightKind) -> &'static [u8]
    ensures same { result.now ≡ compact_text (word_value (kind_word kind)) }
    ensures short { length result.now ≤ 11 }
{
    match kind {
        FlightKind::Filed => b"\"filed\"",
        FlightKind::Arrival => b"\"arrival\"",
        FlightKind::Departure => b"\"departure\"",
    }
}
