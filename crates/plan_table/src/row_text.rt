//! A row of the plan as a record of the table.
ghost use Rattle.std.specs.Prelude.{◌≡◌, ◌∷◌, ◌≤◌, [], OnOk, decimal, unwrap_or};
ghost use Rattle.airport_text.specs.Written.{and_records};
ghost use Rattle.plan_table.specs.Rows.{row_fields, header_fields, kind_word, direction_word, time_word};

use crate::row::PlanRow;
use airport_text::RecordWriter;
use civil_times::Start;
use itoa::Buffer;
use taxi_base::{FlightKind, Memory, Name, Time};
use taxi_text::ShortText;

/// Writes the names of the columns.
pub(crate) fn write_header(records: &mut RecordWriter) -> Result<(), Memory>
    ensures { OnOk result (records.new ≡ and_records records.old (header_fields ∷ [])) }
{
    records.write(&[
        b"name".as_slice(),
        b"kind".as_slice(),
        b"class".as_slice(),
        b"from".as_slice(),
        b"to".as_slice(),
        b"step".as_slice(),
        b"segment".as_slice(),
        b"direction".as_slice(),
        b"tail".as_slice(),
        b"head".as_slice(),
        b"enter".as_slice(),
        b"leave".as_slice(),
        b"until".as_slice(),
        b"least".as_slice(),
        b"wait".as_slice(),
        b"slack".as_slice(),
    ])
}

/// Writes a row, with its times as seconds or, where a start is given, as civil times.
pub(crate) fn write_row(
    records: &mut RecordWriter,
    start: &Option<Start>,
    row: &PlanRow,
) -> Result<(), Memory>
    requires enter { row.now.enter ≤ 604800 }
    requires leave { row.now.leave ≤ 604800 }
    requires until { row.now.until ≤ 604800 }
    ensures { OnOk result (records.new ≡ and_records records.old (row_fields start.now row.now ∷ [])) }
{
    let (name, class, from, to) = (row.name, row.class, row.from, row.to);
    let (segment, tail, head) = (row.segment, row.tail, row.head);
    let (mut enter, mut leave, mut until) = (TimeRoom::new(), TimeRoom::new(), TimeRoom::new());
    let mut number = Buffer::new();
    let mut least = Buffer::new();
    let mut wait = Buffer::new();
    let mut slack = Buffer::new();
    records.write(&[
        name.bytes(),
        kind_word(row.kind),
        class_word(&class),
        from.bytes(),
        to.bytes(),
        number.format(row.number).as_bytes(),
        segment.bytes(),
        direction_word(row.forward),
        tail.bytes(),
        head.bytes(),
        time_text(start, row.enter, &mut enter),
        time_text(start, row.leave, &mut leave),
        time_text(start, row.until, &mut until),
        least.format(row.least).as_bytes(),
        wait.format(row.wait).as_bytes(),
        slack.format(row.slack).as_bytes(),
    ])
}

fn kind_word(kind: Option<FlightKind>) -> &'static [u8]
    ensures { result.now ≡ kind_word kind }
{
    match kind {
        None => b"work",
        Some(FlightKind::Filed) => b"filed",
        Some(FlightKind::Arrival) => b"arrival",
        Some(FlightKind::Departure) => b"departure",
    }
}

fn class_word(class: &Option<Name>) -> &[u8]
    ensures { result.now ≡ unwrap_or class.now [] }
{
    match class {
        Some(name) => name.bytes(),
        None => b"",
    }
}

fn direction_word(forward: Option<bool>) -> &'static [u8]
    ensures { result.now ≡ direction_word forward }
{
    match forward {
        None => b"",
        Some(true) => b"forward",
        Some(false) => b"backward",
    }
}

// Room for a second, as a number or as a civil time.
#[derive(Drop)]
struct TimeRoom {
    digits: Buffer,
    civil: Option<ShortText>,
}

impl TimeRoom {
    fn new() -> TimeRoom {
        TimeRoom {
            digits: Buffer::new(),
            civil: None,
        }
    }
}

// A second as a number or, where a start is given, as a civil time.
fn time_text<'a>(start: &Option<Start>, second: Time, room: &'a mut TimeRoom) -> &'a [u8]
    requires { second ≤ 604800 }
    ensures { result.now ≡ time_word start.now second }
{
    match start {
        Some(start) => room.civil.insert(start.later(second)).bytes(),
        None => room.digits.format(second).as_bytes(),
    }
}
