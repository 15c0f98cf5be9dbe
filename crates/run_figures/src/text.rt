//! The text of the figures.
ghost use Rattle.std.specs.Prelude.{◌≡◌, ◌<◌, ◌≤◌, ◌++◌, ◌∷◌, List, length, map, flat_map, All, IfOk, OnOk};
ghost use Rattle.taxi_base.specs.Airport.{IsWellFormed};
ghost use Rattle.taxi_base.specs.State.{IsSound};
ghost use Rattle.airport_file.specs.Words.{class_word};
ghost use Rattle.replies.specs.declared.block.Block.{Block as PlainBlock};
ghost use Rattle.replies.specs.Texts.{kind_word};
ghost use Rattle.run_figures.specs.Counts.{AreCounts};
ghost use Rattle.run_figures.specs.Busy.{busy_seconds, segment_in};
ghost use Rattle.run_figures.specs.Figures.{counts_text, tallies_text, sums_text, shift_line, class_text, kind_text, holders_text, busy_text, IsFigures};

use crate::busy::{Busy, busiest, flights_on};
use crate::counting::{Count, ReplyCounts};
use crate::flights::{Sums, sums_over};
use crate::line::write_line;
use airport_file::Airport;
use airport_words::{class_text, segment_text};
use commitments::Ledger;
use std::alloc::Global;
use taxi_base::{Class, FlightKind, Memory, Segment};
use taxi_text::ShortText;

/// The figures of a run, by the counts of its replies and by what is in force at its end. The only error is that memory ran out.
pub fn write_figures(
    alloc: Global,
    airport: &Airport,
    counts: &ReplyCounts,
    ledger: &Ledger,
) -> Result<Vec<u8>, Memory>
    requires { IsSound airport.now ledger.now.state }
    ensures { (blocks : List PlainBlock) → AreCounts airport.now blocks counts.now → IfOk result (λ text. IsFigures airport.now blocks ledger.now.state text.items) }
{
    // The airport keeps its rules, so sums of seconds are small.
    let _horizon = airport.horizon();
    let mut out = Vec::new(alloc);
    write_answers(&mut out, counts)?;
    write_holders(&mut out, airport, ledger)?;
    let rows = busiest(alloc, airport, ledger)?;
    write_busiest(&mut out, airport, ledger, rows.as_slice())?;
    Ok(out)
}

// How often each kind of reply came.
fn write_answers(out: &mut Vec<u8>, counts: &ReplyCounts) -> Result<(), Memory>
    ensures { OnOk result (out.new.items ≡ out.old.items ++ tallies_text counts.now) }
{
    write_line(out, b"commands", b"", counts.commands)?;
    write_counts(out, b"reply ", counts.replies.as_slice())?;
    write_counts(out, b"entry ", counts.entries.as_slice())?;
    write_counts(out, b"refused ", counts.refusals.as_slice())
}

// A line for each count.
fn write_counts(out: &mut Vec<u8>, what: &[u8], counts: &[Count]) -> Result<(), Memory>
    ensures { OnOk result (out.new.items ≡ out.old.items ++ counts_text what.now counts.now) }
{
    for count in counts {
        write_line(out, what, count.kind.bytes(), count.number)?;
    }
    Ok(())
}

// What the holders in force come to.
fn write_holders(out: &mut Vec<u8>, airport: &Airport, ledger: &Ledger) -> Result<(), Memory>
    requires rules { IsWellFormed airport.now }
    requires sound { IsSound airport.now ledger.now.state }
    ensures { OnOk result (out.new.items ≡ out.old.items ++ holders_text airport.now ledger.now.state) }
{
    write_line(out, b"parties", b"", ledger.parties() as u64)?;
    write_kind(out, airport, ledger, FlightKind::Filed)?;
    write_kind(out, airport, ledger, FlightKind::Arrival)?;
    write_kind(out, airport, ledger, FlightKind::Departure)
}

// The sums of each class over the flights of a kind.
fn write_kind(
    out: &mut Vec<u8>,
    airport: &Airport,
    ledger: &Ledger,
    kind: FlightKind,
) -> Result<(), Memory>
    requires rules { IsWellFormed airport.now }
    requires sound { IsSound airport.now ledger.now.state }
    ensures { OnOk result (out.new.items ≡ out.old.items ++ kind_text airport.now ledger.now.state kind) }
{
    for number in 0..airport.classes().count() as u32 {
        write_class(out, airport, ledger, kind, Class(number))?;
    }
    Ok(())
}

// The sums over the flights of a kind and a class.
fn write_class(
    out: &mut Vec<u8>,
    airport: &Airport,
    ledger: &Ledger,
    kind: FlightKind,
    class: Class,
) -> Result<(), Memory>
    requires rules { IsWellFormed airport.now }
    requires sound { IsSound airport.now ledger.now.state }
    ensures { OnOk result (out.new.items ≡ out.old.items ++ class_text airport.now ledger.now.state kind class.0) }
{
    let sums = sums_over(airport, ledger, kind, class);
    let subject = subject_of(airport, kind, class);
    write_sums(out, kind, subject.bytes(), &sums)
}

// Of which flights a line tells: their kind and their class.
fn subject_of(airport: &Airport, kind: FlightKind, class: Class) -> ShortText
    ensures { result ≡ kind_word kind ++ 32 ∷ class_word airport.now class }
{
    let class = class_text(airport, class);
    let mut text = ShortText::new();
    text.push(kind_word(kind));
    text.push(b" ");
    text.push(class.bytes());
    text
}

fn kind_word(kind: FlightKind) -> &'static [u8]
    ensures word { result.now ≡ kind_word kind }
    ensures short { length result.now ≤ 9 }
{
    match kind {
        FlightKind::Filed => b"filed",
        FlightKind::Arrival => b"arrival",
        FlightKind::Departure => b"departure",
    }
}

fn write_sums(
    out: &mut Vec<u8>,
    kind: FlightKind,
    subject: &[u8],
    sums: &Sums,
) -> Result<(), Memory>
    requires { sums.now.least ≤ sums.now.taxied }
    ensures { OnOk result (out.new.items ≡ out.old.items ++ sums_text kind subject.now sums.now) }
{
    write_line(out, b"flights ", subject, sums.flights)?;
    write_line(out, b"taxied ", subject, sums.taxied)?;
    write_line(out, b"least ", subject, sums.least)?;
    write_line(out, b"waited ", subject, sums.taxied - sums.least)?;
    write_shift(out, kind, subject, sums.shifted)
}

// How long arrivals are held, and how early departures are.
fn write_shift(
    out: &mut Vec<u8>,
    kind: FlightKind,
    subject: &[u8],
    seconds: u64,
) -> Result<(), Memory>
    ensures { OnOk result (out.new.items ≡ out.old.items ++ shift_line kind subject.now seconds) }
{
    match kind {
        FlightKind::Filed => Ok(()),
        FlightKind::Arrival => write_line(out, b"held ", subject, seconds),
        FlightKind::Departure => write_line(out, b"early ", subject, seconds),
    }
}

// The lines of segments, of which the seconds are known.
fn write_busiest(
    out: &mut Vec<u8>,
    airport: &Airport,
    ledger: &Ledger,
    rows: &[Busy],
) -> Result<(), Memory>
    requires { All (λ row. row.0.0 ≡ busy_seconds airport.now ledger.now.state row.1) rows.now }
    ensures { OnOk result (out.new.items ≡ out.old.items ++ flat_map (busy_text airport.now ledger.now.state) (map segment_in rows.now)) }
{
    for (seconds, segment) in rows {
        write_busy(out, airport, ledger, *segment, seconds.0)?;
    }
    Ok(())
}

fn write_busy(
    out: &mut Vec<u8>,
    airport: &Airport,
    ledger: &Ledger,
    segment: Segment,
    seconds: u64,
) -> Result<(), Memory>
    requires { seconds ≡ busy_seconds airport.now ledger.now.state segment }
    ensures { OnOk result (out.new.items ≡ out.old.items ++ busy_text airport.now ledger.now.state segment) }
{
    let name = segment_text(airport, segment);
    write_line(out, b"busy-seconds ", name.bytes(), seconds)?;
    write_line(
        out,
        b"busy-flights ",
        name.bytes(),
        flights_on(ledger, segment),
    )
}
