//! The checkpoint, line by line.
ghost use Rattle.std.specs.Prelude.{◌≡◌, ◌++◌, IfOk, OnOk, flat_map};
ghost use Rattle.taxi_base.specs.Walks.{begin_of};
ghost use Rattle.replies.specs.Texts.{line_text, lines_text};
ghost use Rattle.checkpoint_file.specs.Lines.{wish_words, wish_lines, file_words, too_long_words, route_words, flight_lines, work_words, checkpoint_text};
ghost use Rattle.checkpoint_file.specs.Written.{step_text};

use crate::words::{number_text, write_line, write_words};
use airport_file::Airport;
use airport_words::{arc_text, class_text, node_text, push_word, segment_text};
use command_refusals::Trip;
use commitments::Ledger;
use std::alloc::Global;
use taxi_base::{Flight, Memory, Name, Party, Request, Step, Time};
use taxi_text::push_bytes;

// A command files a route of so many steps at most.
const MOST_STEPS: usize = 256;

/// The checkpoint of what a ledger has in force: the flights and then the work parties, by rising names. The only error is that memory
/// ran out.
pub fn write_checkpoint(
    alloc: Global,
    airport: &Airport,
    ledger: &Ledger,
) -> Result<Vec<u8>, Memory>
    ensures { IfOk result (λ text. text.items ≡ checkpoint_text airport.now ledger.now.state) }
{
    let mut out = Vec::new(alloc);
    write_flights(&mut out, airport, ledger)?;
    write_parties(&mut out, airport, ledger)?;
    Ok(out)
}

fn write_flights(out: &mut Vec<u8>, airport: &Airport, ledger: &Ledger) -> Result<(), Memory>
    ensures { OnOk result (out.new.items ≡ out.old.items ++ flat_map (λ flight. lines_text (flight_lines airport.now flight)) ledger.now.state.flights) }
{
    for place in 0..ledger.count() {
        write_flight(out, airport, ledger.at(place))?;
    }
    Ok(())
}

fn write_parties(out: &mut Vec<u8>, airport: &Airport, ledger: &Ledger) -> Result<(), Memory>
    ensures { OnOk result (out.new.items ≡ out.old.items ++ flat_map (λ party. line_text (work_words airport.now party)) ledger.now.state.parties) }
{
    for place in 0..ledger.parties() {
        write_party(out, airport, &ledger.party_at(place))?;
    }
    Ok(())
}

// What a flight asked for, and its route.
fn write_flight(out: &mut Vec<u8>, airport: &Airport, flight: &Flight) -> Result<(), Memory>
    ensures { OnOk result (out.new.items ≡ out.old.items ++ lines_text (flight_lines airport.now flight.now)) }
{
    write_request(out, airport, flight)?;
    write_route(out, airport, flight)?;
    Ok(())
}

// The comment of a request; nothing of a flight that was filed.
fn write_request(out: &mut Vec<u8>, airport: &Airport, flight: &Flight) -> Result<(), Memory>
    ensures { OnOk result (out.new.items ≡ out.old.items ++ lines_text (wish_lines airport.now flight.now flight.now.request)) }
{
    let class = flight.class;
    match flight.request {
        Request::Filed => Ok(()),
        Request::Arrival {
            from,
            to,
            time,
            hold: slack,
        } => {
            let trip = Trip {
                class,
                from,
                to,
                time,
                slack,
            };
            write_wish(out, airport, b"arrival", &flight.name, &trip)
        }
        Request::Departure {
            from,
            to,
            time,
            queue: slack,
        } => {
            let trip = Trip {
                class,
                from,
                to,
                time,
                slack,
            };
            write_wish(out, airport, b"departure", &flight.name, &trip)
        }
    }
}

// The comment that tells of which kind a flight's trip is, and which trip.
fn write_wish(
    out: &mut Vec<u8>,
    airport: &Airport,
    kind: &[u8],
    name: &Name,
    trip: &Trip,
) -> Result<(), Memory>
    ensures { OnOk result (out.new.items ≡ out.old.items ++ line_text (wish_words airport.now kind.now name.now trip.now)) }
{
    let class = class_text(airport, trip.class);
    let from = node_text(airport, trip.from);
    let to = node_text(airport, trip.to);
    let time = number_text(u64::from(trip.time));
    let slack = number_text(u64::from(trip.slack));
    write_line(
        out,
        b"#",
        &[
            kind,
            name.bytes(),
            class.bytes(),
            from.bytes(),
            to.bytes(),
            time.bytes(),
            slack.bytes(),
        ],
    )
}

// The command that files a route, or the comment that it is too long for one.
fn write_route(out: &mut Vec<u8>, airport: &Airport, flight: &Flight) -> Result<(), Memory>
    ensures { OnOk result (out.new.items ≡ out.old.items ++ line_text (route_words airport.now flight.now)) }
{
    if flight.steps.as_slice().len() > MOST_STEPS {
        write_too_long(out, flight)
    } else {
        write_file(out, airport, flight)
    }
}

fn write_too_long(out: &mut Vec<u8>, flight: &Flight) -> Result<(), Memory>
    ensures { OnOk result (out.new.items ≡ out.old.items ++ line_text (too_long_words flight.now)) }
{
    let name = flight.name;
    let count = number_text(flight.steps.as_slice().len() as u64);
    write_line(
        out,
        b"#",
        &[b"too-long".as_slice(), name.bytes(), count.bytes()],
    )
}

fn write_file(out: &mut Vec<u8>, airport: &Airport, flight: &Flight) -> Result<(), Memory>
    ensures { OnOk result (out.new.items ≡ out.old.items ++ line_text (file_words airport.now flight.now)) }
{
    let name = flight.name;
    let class = class_text(airport, flight.class);
    let start = number_text(u64::from(start_of(flight.steps.as_slice())));
    push_bytes(out, b"file")?;
    write_words(out, &[name.bytes(), class.bytes(), start.bytes()])?;
    write_steps(out, airport, flight.steps.as_slice())?;
    push_bytes(out, b"\n")?;
    Ok(())
}

// When a route begins; 0 where it has no step.
fn start_of(steps: &[Step]) -> Time
    ensures { result ≡ begin_of steps.now }
{
    match steps.first() {
        Some(step) => step.enter,
        None => 0,
    }
}

fn write_steps(out: &mut Vec<u8>, airport: &Airport, steps: &[Step]) -> Result<(), Memory>
    ensures { OnOk result (out.new.items ≡ out.old.items ++ flat_map (step_text airport.now) steps.now) }
{
    for step in steps {
        write_step(out, airport, step)?;
    }
    Ok(())
}

// The arc of a step, and when it is left.
fn write_step(out: &mut Vec<u8>, airport: &Airport, step: &Step) -> Result<(), Memory>
    ensures { OnOk result (out.new.items ≡ out.old.items ++ step_text airport.now step.now) }
{
    let arc = arc_text(airport, step.arc);
    let leave = number_text(u64::from(step.leave));
    push_word(out, arc.bytes())?;
    push_word(out, leave.bytes())?;
    Ok(())
}

fn write_party(out: &mut Vec<u8>, airport: &Airport, party: &Party) -> Result<(), Memory>
    ensures { OnOk result (out.new.items ≡ out.old.items ++ line_text (work_words airport.now party.now)) }
{
    let name = party.name;
    let segment = segment_text(airport, party.segment);
    let from = number_text(u64::from(party.from));
    let until = number_text(u64::from(party.until));
    write_line(
        out,
        b"work",
        &[name.bytes(), segment.bytes(), from.bytes(), until.bytes()],
    )
}
