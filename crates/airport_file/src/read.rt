//! Reading an airport file.
ghost use Rattle.std.specs.Prelude.{◌≡◌, ◌+◌, ◌≤◌, ◌<◌, ◌∷◌, [], Some, None, Ok, Err, true, length, IfOk, IfSome, bytes_eq, codes, if◌then◌else◌};
ghost use Rattle.csv.specs.Records.{fields_of};
ghost use Rattle.airport_rules.specs.Versions.{version_named};
ghost use Rattle.airport_rules.specs.Plan.{empty_plan};
ghost use Rattle.airport_rules.specs.Rules.{judge};
ghost use Rattle.airport_rules.specs.Sound.{IsSound};
ghost use Rattle.airport_rules.specs.Judged.{Answers, texts_of};
ghost use Rattle.airport_file.specs.Reading.{records_of, version_of, finished, judged_after, airport_of_records, airport_of};
ghost use Rattle.airport_file.specs.Refused.{ForBad};
ghost use Rattle.airport_file.specs.Rows.{IsReading, rows_of, rows_left};
ghost use Rattle.csv.specs.declared.parser.State.TheVariants as st;

use crate::build::build;
use crate::lines::read_line;
use crate::records::{MOST_FIELDS, fields_of, read_row, reader_of, short_fields};
use crate::{Airport, AirportFault};
use airport_rules::{NotTaken, Plan, Version, judge};
use csv::{ByteRecord, Reader};
use std::alloc::Global;
use taxi_base::Memory;
use thiserror::Error;

/// Why an airport file is refused.
#[derive(Debug, Drop, Error)]
pub enum AirportRefused {
    /// The first record that breaks a rule, counted from 1, and the rule.
    #[error("record {at}: {why}")]
    Bad { at: u32, why: AirportFault },
    #[error("out of memory")]
    Memory,
}

impl From<Memory> for AirportRefused {
    ghost use Rattle.std.specs.Prelude.{◌≡◌};
    ghost use Rattle.airport_file.specs.declared.read.AirportRefused.TheVariants as refused;

    ghost from_gives = { λ _ e. e ≡ refused.Memory };

    fn from(_memory: Memory) -> AirportRefused {
        AirportRefused::Memory
    }
}

/// The airport that the bytes of a file give. Each record is judged as it is read, and none is kept.
pub fn read_airport(alloc: Global, bytes: &[u8]) -> Result<Airport, AirportRefused>
    requires { length bytes.now ≤ 4194304 }
    ensures ok { IfOk result (λ airport. airport_of bytes.now ≡ Ok airport) }
    ensures bad { ForBad result (λ at why. airport_of bytes.now ≡ Err (record { at = at; why = why })) }
{
    if begins_as_file(bytes) {
        if let Some(airport) = read_lines(alloc, bytes)? {
            return Ok(airport);
        }
    }
    read_records(alloc, bytes)
}

/// Whether a text begins with the letter that each airport file begins with, and so with no mark of the byte order.
fn begins_as_file(bytes: &[u8]) -> bool
    ensures { result ≡ true → records_of bytes.now ≡ rows_of st.StartRecord (Some bytes.now) }
{
    match bytes.first() {
        Some(first) => *first == b't',
        None => false,
    }
}

/// The airport of a text of plain lines. None where a line is not plain.
#[tactic(auto, unfolding(crate::specs::Reading::airport_of))]
fn read_lines(alloc: Global, bytes: &[u8]) -> Result<Option<Airport>, AirportRefused>
    requires few { length bytes.now ≤ 4194304 }
    requires rows { records_of bytes.now ≡ rows_of st.StartRecord (Some bytes.now) }
    ensures ok { IfOk result (λ found. IfSome found (λ airport. airport_of bytes.now ≡ Ok airport)) }
    ensures bad { ForBad result (λ at why. airport_of bytes.now ≡ Err (record { at = at; why = why })) }
{
    let mut fields = Vec::new(alloc);
    let Some(rest) = read_line(bytes, &mut fields)? else {
        return Ok(None);
    };
    match version_in(fields.as_slice()) {
        Some(version) => airport_of_lines(alloc, version, rest, &mut fields),
        None => Err(bad(1, AirportFault::FirstRow)),
    }
}

/// The airport of the lines after the first. None where a line is not plain.
fn airport_of_lines<'a>(
    alloc: Global,
    version: Version,
    text: &'a [u8],
    fields: &mut Vec<&'a [u8]>,
) -> Result<Option<Airport>, AirportRefused>
    requires { length text.now ≤ 4194304 }
    ensures ok { IfOk result (λ found. IfSome found (λ airport. judged_after version 1 empty_plan (rows_of st.StartRecord (Some text.now)) ≡ Ok airport)) }
    ensures bad { ForBad result (λ at why. judged_after version 1 empty_plan (rows_of st.StartRecord (Some text.now)) ≡ Err (record { at = at; why = why })) }
{
    let mut plan = Plan::new(alloc);
    match judge_lines(alloc, version, text, fields, &mut plan)? {
        Some(last) => Ok(Some(finished(alloc, plan, last)?)),
        None => Ok(None),
    }
}

/// Judges the lines after the first, each against those before it, and gives the number of the last.
fn judge_lines<'a>(
    alloc: Global,
    version: Version,
    text: &'a [u8],
    fields: &mut Vec<&'a [u8]>,
    plan: &mut Plan,
) -> Result<Option<u32>, AirportRefused>
    requires few { length text.now ≤ 4194304 }
    requires sound { IsSound plan.old }
    ensures sound { IfOk result (λ found. IfSome found (λ _. IsSound plan.new)) }
    ensures ok { IfOk result (λ found. IfSome found (λ last. judged_after version 1 plan.old (rows_of st.StartRecord (Some text.now)) ≡ finished last plan.new plan.new.horizon)) }
    ensures bad { ForBad result (λ at why. judged_after version 1 plan.old (rows_of st.StartRecord (Some text.now)) ≡ Err (record { at = at; why = why })) }
{
    let mut last: u32 = 1;
    let mut rest = text;
    'lines: while !rest.is_empty() {
        let Some(behind) = read_line(rest, fields)? else {
            return Ok(None);
        };
        rest = behind;
        last += 1;
        match judge(alloc, version, plan, fields.as_slice()) {
            Ok(()) => {}
            Err(NotTaken::Fault(why)) => return Err(bad(last, why)),
            Err(NotTaken::Memory) => return Err(AirportRefused::Memory),
        }
    }
    Ok(Some(last))
}

/// The airport of a plan to which no record comes any more, where the last one has this number.
fn finished(alloc: Global, plan: Plan, last: u32) -> Result<Airport, AirportRefused>
    requires { IsSound plan }
    ensures ok { IfOk result (λ airport. finished last plan plan.horizon ≡ Ok airport) }
    ensures bad { ForBad result (λ at why. finished last plan plan.horizon ≡ Err (record { at = at; why = why })) }
{
    match plan.horizon() {
        Some(horizon) => Ok(build(alloc, plan, horizon)?),
        None => Err(bad(last, AirportFault::NoHorizon)),
    }
}

/// The airport of any text.
#[tactic(auto, unfolding(crate::specs::Reading::airport_of))]
fn read_records(alloc: Global, bytes: &[u8]) -> Result<Airport, AirportRefused>
    requires { length bytes.now ≤ 4194304 }
    ensures ok { IfOk result (λ airport. airport_of bytes.now ≡ Ok airport) }
    ensures bad { ForBad result (λ at why. airport_of bytes.now ≡ Err (record { at = at; why = why })) }
{
    let mut reader = reader_of(alloc, bytes);
    let mut row = ByteRecord::new(alloc);
    airport_of_records(alloc, &mut reader, &mut row)
}

/// The airport of the records that a reader has still to read.
fn airport_of_records(
    alloc: Global,
    reader: &mut Reader<&[u8]>,
    row: &mut ByteRecord,
) -> Result<Airport, AirportRefused>
    requires ready { IsReading reader.old }
    requires few { length (rows_left reader.old) ≤ 4194304 }
    ensures ok { IfOk result (λ airport. airport_of_records (rows_left reader.old) ≡ Ok airport) }
    ensures bad { ForBad result (λ at why. airport_of_records (rows_left reader.old) ≡ Err (record { at = at; why = why })) }
{
    if !read_row(reader, row)? {
        return Err(bad(1, AirportFault::FirstRow));
    }
    match version_of(alloc, row)? {
        Some(version) => airport_of_rows(alloc, version, reader, row),
        None => Err(bad(1, AirportFault::FirstRow)),
    }
}

/// A record that breaks a rule.
fn bad(at: u32, why: AirportFault) -> AirportRefused
    ensures { result ≡ AirportRefused.Bad at why }
{
    AirportRefused::Bad { at, why }
}

/// The version of a file by its first record; none where that is not an airport's.
fn version_of(alloc: Global, row: &ByteRecord) -> Result<Option<Version>, Memory>
    ensures { IfOk result (λ version. version ≡ version_of (fields_of row.now)) }
{
    let fields = fields_of(alloc, row)?;
    Ok(version_in(fields.as_slice()))
}

fn version_in(fields: &[&[u8]]) -> Option<Version>
    ensures { result ≡ version_of (texts_of fields.now) }
{
    match fields {
        [word, number] => version_by(word, number),
        _ => None,
    }
}

fn version_by(word: &[u8], number: &[u8]) -> Option<Version>
    ensures { result ≡ (if bytes_eq word.now (codes "taxi-airport") then version_named number.now else None) }
{
    if word == b"taxi-airport".as_slice() {
        Version::named(number)
    } else {
        None
    }
}

/// The airport of the records after the first.
fn airport_of_rows(
    alloc: Global,
    version: Version,
    reader: &mut Reader<&[u8]>,
    row: &mut ByteRecord,
) -> Result<Airport, AirportRefused>
    requires ready { IsReading reader.old }
    requires few { length (rows_left reader.old) ≤ 4194304 }
    ensures ok { IfOk result (λ airport. judged_after version 1 empty_plan (rows_left reader.old) ≡ Ok airport) }
    ensures bad { ForBad result (λ at why. judged_after version 1 empty_plan (rows_left reader.old) ≡ Err (record { at = at; why = why })) }
{
    let mut plan = Plan::new(alloc);
    let last = judge_rows(alloc, version, reader, row, &mut plan)?;
    finished(alloc, plan, last)
}

/// Judges the records after the first, each against those before it, and gives the number of the last.
fn judge_rows(
    alloc: Global,
    version: Version,
    reader: &mut Reader<&[u8]>,
    row: &mut ByteRecord,
    plan: &mut Plan,
) -> Result<u32, AirportRefused>
    requires ready { IsReading reader.old }
    requires few { length (rows_left reader.old) ≤ 4194304 }
    requires sound { IsSound plan.old }
    ensures sound { IfOk result (λ _. IsSound plan.new) }
    ensures ok { IfOk result (λ last. judged_after version 1 plan.old (rows_left reader.old) ≡ finished last plan.new plan.new.horizon) }
    ensures bad { ForBad result (λ at why. judged_after version 1 plan.old (rows_left reader.old) ≡ Err (record { at = at; why = why })) }
{
    let mut at: u32 = 1;
    'rows: while read_row(reader, row)? {
        at += 1;
        match judge_row(alloc, version, plan, row) {
            Ok(()) => {}
            Err(NotTaken::Fault(why)) => return Err(bad(at, why)),
            Err(NotTaken::Memory) => return Err(AirportRefused::Memory),
        }
    }
    Ok(at)
}

fn judge_row(
    alloc: Global,
    version: Version,
    plan: &mut Plan,
    row: &ByteRecord,
) -> Result<(), NotTaken>
    ensures { Answers (judge version plan.old (fields_of row.now)) plan.new result }
{
    if row.len() <= MOST_FIELDS {
        let fields = short_fields(row);
        return judge(alloc, version, plan, &fields[..row.len()]);
    }
    match fields_of(alloc, row) {
        Ok(fields) => judge(alloc, version, plan, fields.as_slice()),
        Err(memory) => Err(memory.into()),
    }
}
