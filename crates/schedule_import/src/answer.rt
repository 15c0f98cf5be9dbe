//! The line that answers a record.
ghost use Rattle.std.specs.Prelude.{◌≡◌, ◌+◌, ◌∷◌, ◌++◌, [], map, decimal, OnOk};
ghost use Rattle.std.specs.List.{join_with_byte};
ghost use Rattle.civil_times.specs.Times.{IsSecond};
ghost use Rattle.schedule_import.specs.Rows.{time_of_row};
ghost use Rattle.schedule_import.specs.Answers.{fault_word, movement_word, command_line, comment_line, line_of_time, line_of};

use crate::row::{Movement, Names, Row, RowFault, read_row, time_of_row};
use airport_file::Airport;
use taxi_base::{Memory, Time};
use taxi_text::{push_bytes, push_number};

/// Adds the line that answers the record of this number, and its line feed.
pub(crate) fn push_answer(
    out: &mut Vec<u8>,
    airport: &Airport,
    start: i64,
    at: u64,
    fields: &[&[u8]],
) -> Result<(), Memory>
    requires { IsSecond start }
    ensures { OnOk result (out.new.items ≡ out.old.items ++ (line_of airport.now start at (map (λ f. f.now) fields.now) ++ 10 ∷ [])) }
{
    match read_row(fields) {
        Ok(row) => push_row(out, airport, start, at, &row),
        Err(why) => push_comment(out, at, why),
    }
}

fn push_row(
    out: &mut Vec<u8>,
    airport: &Airport,
    start: i64,
    at: u64,
    row: &Row,
) -> Result<(), Memory>
    requires start { IsSecond start }
    requires second { IsSecond row.now.second }
    ensures { OnOk result (out.new.items ≡ out.old.items ++ (line_of_time at row.now (time_of_row airport.now start row.now) ++ 10 ∷ [])) }
{
    match time_of_row(airport, start, row) {
        Ok(time) => push_command(out, row, time),
        Err(why) => push_comment(out, at, why),
    }
}

fn push_command(out: &mut Vec<u8>, row: &Row, time: Time) -> Result<(), Memory>
    ensures { OnOk result (out.new.items ≡ out.old.items ++ (command_line row.now time ++ 10 ∷ [])) }
{
    push_bytes(out, movement_word(row.movement))?;
    push_names(out, &row.names)?;
    push_number_word(out, time)?;
    push_number_word(out, row.slack)?;
    push_bytes(out, b"\n")
}

// The names, each after a blank.
fn push_names(out: &mut Vec<u8>, names: &Names) -> Result<(), Memory>
    ensures { OnOk result (out.new.items ≡ out.old.items ++ (32 ∷ join_with_byte 32 (names.now.flight ∷ names.now.class ∷ names.now.from ∷ names.now.to ∷ []))) }
{
    push_word(out, names.flight.bytes())?;
    push_word(out, names.class.bytes())?;
    push_word(out, names.from.bytes())?;
    push_word(out, names.to.bytes())
}

// A word after a blank.
fn push_word(out: &mut Vec<u8>, word: &[u8]) -> Result<(), Memory>
    ensures { OnOk result (out.new.items ≡ out.old.items ++ (32 ∷ word.now)) }
{
    push_bytes(out, b" ")?;
    push_bytes(out, word)
}

fn push_number_word(out: &mut Vec<u8>, number: u32) -> Result<(), Memory>
    ensures { OnOk result (out.new.items ≡ out.old.items ++ (32 ∷ decimal number)) }
{
    push_bytes(out, b" ")?;
    push_number(out, u64::from(number))
}

fn push_comment(out: &mut Vec<u8>, at: u64, why: RowFault) -> Result<(), Memory>
    ensures { OnOk result (out.new.items ≡ out.old.items ++ (comment_line at why ++ 10 ∷ [])) }
{
    push_bytes(out, b"# row ")?;
    push_number(out, at)?;
    push_bytes(out, b" ")?;
    push_bytes(out, fault_word(why))?;
    push_bytes(out, b"\n")
}

fn movement_word(movement: Movement) -> &'static [u8]
    ensures { result.now ≡ movement_word movement }
{
    match movement {
        Movement::Arrival => b"arrival",
        Movement::Departure => b"departure",
    }
}

fn fault_word(why: RowFault) -> &'static [u8]
    ensures { result.now ≡ fault_word why }
{
    match why {
        RowFault::UnknownRow => b"unknown-row",
        RowFault::FieldCount => b"field-count",
        RowFault::BadName => b"bad-name",
        RowFault::BadTime => b"bad-time",
        RowFault::BadNumber => b"bad-number",
        RowFault::UnknownName => b"unknown-name",
        RowFault::WrongKind => b"wrong-kind",
        RowFault::OutOfDay => b"out-of-day",
    }
}
