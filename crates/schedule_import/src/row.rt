//! The rows of a schedule: what each says, and whether the airport can take it.
ghost use Rattle.std.specs.Prelude.{◌≡◌, ◌-ℤ◌, map, IfOk};
ghost use Rattle.civil_times.specs.Times.{IsSecond};
ghost use Rattle.schedule_import.specs.Rows.{movement_named, movement_of, names_of, row_of_words, row_of_fields, row_of, are_known, are_of_kinds, time_within, time_of_row};

use airport_file::Airport;
use civil_times::second_of;
use taxi_base::{Name, Time};
use taxi_text::read_number;

/// Whether a flight comes or goes.
#[derive(Clone, Copy, Debug, PartialEq, Eq)]
pub(crate) enum Movement {
    Arrival,
    Departure,
}

/// The names of a row, as written.
#[derive(Clone, Copy)]
pub(crate) struct Names {
    pub flight: Name,
    pub class: Name,
    pub from: Name,
    pub to: Name,
}

/// What a row says.
#[derive(Clone, Copy)]
pub(crate) struct Row {
    pub movement: Movement,
    pub names: Names,
    /// The second of its time, counted from 1970-01-01T00:00:00Z.
    pub second: i64,
    /// An arrival's hold or a departure's queue, in seconds.
    pub slack: Time,
}

/// Why a row is not taken. Of several reasons the first in this order is told.
#[derive(Clone, Copy, Debug, PartialEq, Eq)]
pub(crate) enum RowFault {
    /// The first field is no known word.
    UnknownRow,
    /// There are not seven fields.
    FieldCount,
    /// The flight, the class or a node is not written as a name.
    BadName,
    /// The time is not written as one.
    BadTime,
    /// The hold or the queue is not written as a number.
    BadNumber,
    /// The airport has no such class or node.
    UnknownName,
    /// A node is not of the kind that is needed.
    WrongKind,
    /// The time is not within the airport's day.
    OutOfDay,
}

/// What a record says, or the first of the five faults that need no airport.
pub(crate) fn read_row(fields: &[&[u8]]) -> Result<Row, RowFault>
    ensures value { result ≡ row_of (map (λ f. f.now) fields.now) }
    ensures range { IfOk result (λ row. IsSecond row.second) }
{
    match movement_of(fields) {
        Some(movement) => read_fields(movement, fields),
        None => Err(RowFault::UnknownRow),
    }
}

fn movement_of(fields: &[&[u8]]) -> Option<Movement>
    ensures { result ≡ movement_of (map (λ f. f.now) fields.now) }
{
    match fields {
        [word, ..] => movement_named(word),
        [] => None,
    }
}

fn movement_named(word: &[u8]) -> Option<Movement>
    ensures { result ≡ movement_named word.now }
{
    if word == b"arrival".as_slice() {
        Some(Movement::Arrival)
    } else if word == b"departure".as_slice() {
        Some(Movement::Departure)
    } else {
        None
    }
}

fn read_fields(movement: Movement, fields: &[&[u8]]) -> Result<Row, RowFault>
    ensures value { result ≡ row_of_fields movement (map (λ f. f.now) fields.now) }
    ensures range { IfOk result (λ row. IsSecond row.second) }
{
    match fields {
        [_, flight, class, from, to, time, slack] => {
            read_words(movement, names_of(flight, class, from, to), time, slack)
        }
        _ => Err(RowFault::FieldCount),
    }
}

fn read_words(
    movement: Movement,
    names: Option<Names>,
    time: &[u8],
    slack: &[u8],
) -> Result<Row, RowFault>
    ensures value { result ≡ row_of_words movement names time.now slack.now }
    ensures range { IfOk result (λ row. IsSecond row.second) }
{
    let Some(names) = names else {
        return Err(RowFault::BadName);
    };
    let Some(second) = second_of(time) else {
        return Err(RowFault::BadTime);
    };
    let Some(slack) = read_number(slack) else {
        return Err(RowFault::BadNumber);
    };
    Ok(Row {
        movement,
        names,
        second,
        slack,
    })
}

fn names_of(flight: &[u8], class: &[u8], from: &[u8], to: &[u8]) -> Option<Names>
    ensures { result ≡ names_of flight.now class.now from.now to.now }
{
    let flight = Name::read(flight)?;
    let class = Name::read(class)?;
    let from = Name::read(from)?;
    let to = Name::read(to)?;
    Some(Names {
        flight,
        class,
        from,
        to,
    })
}

/// At which second of the airport's day the row's time comes, for a day that starts at the given second; or the first of
/// the three faults that need the airport.
pub(crate) fn time_of_row(airport: &Airport, start: i64, row: &Row) -> Result<Time, RowFault>
    requires start { IsSecond start }
    requires second { IsSecond row.now.second }
    ensures { result ≡ time_of_row airport.now start row.now }
{
    if !are_known(airport, &row.names) {
        return Err(RowFault::UnknownName);
    }
    if !are_of_kinds(airport, row.movement, &row.names) {
        return Err(RowFault::WrongKind);
    }
    match time_within(airport.horizon(), row.second - start) {
        Some(time) => Ok(time),
        None => Err(RowFault::OutOfDay),
    }
}

fn are_known(airport: &Airport, names: &Names) -> bool
    ensures { result ≡ are_known airport.now names.now }
{
    airport.class_named(&names.class).is_some()
        && airport.node_named(&names.from).is_some()
        && airport.node_named(&names.to).is_some()
}

fn are_of_kinds(airport: &Airport, movement: Movement, names: &Names) -> bool
    ensures { result ≡ are_of_kinds airport.now movement names.now }
{
    match movement {
        Movement::Arrival => airport.has_runway(&names.from) && airport.has_stand(&names.to),
        Movement::Departure => airport.has_stand(&names.from) && airport.has_runway(&names.to),
    }
}

// The seconds, where they are not negative and below the horizon.
fn time_within(horizon: Time, seconds: i64) -> Option<Time>
    ensures { result ≡ time_within horizon seconds }
{
    if seconds < 0 || seconds >= i64::from(horizon) {
        return None;
    }
    Some(seconds as u32)
}
