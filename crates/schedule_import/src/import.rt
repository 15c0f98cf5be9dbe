//! From the bytes of a schedule to the text of its commands.
ghost use Rattle.std.specs.Prelude.{◌≡◌, ◌+◌, ◌<◌, ◌^◌, Ok, Err, length, map, IfOk, IfSome};
ghost use Rattle.csv.specs.Records.{fields_of};
ghost use Rattle.civil_times.specs.Times.{IsSecond};
ghost use Rattle.schedule_import.specs.Answers.{answers_from};
ghost use Rattle.schedule_import.specs.Schedule.{is_schedule, is_first_row, start_by, start_of, after_first, import_of_records, import_of};

use crate::answer::push_answer;
use airport_file::{Airport, all_records, fields_of};
use civil_times::second_of;
use csv::ByteRecord;
use std::alloc::Global;
use taxi_base::Memory;
use thiserror::Error;

/// Why a schedule is refused.
#[derive(Debug, Drop, Error)]
pub enum ScheduleRefused {
    /// The first record is missing, or is not `taxi-schedule,1`.
    #[error("the first record is not that of a schedule")]
    FirstRow,
    /// The second record is missing, or does not say when the day starts.
    #[error("the second record does not say when the day starts")]
    BadStart,
    #[error("out of memory")]
    Memory,
}

impl From<Memory> for ScheduleRefused {
    ghost use Rattle.std.specs.Prelude.{◌≡◌};
    ghost use Rattle.schedule_import.specs.declared.import.ScheduleRefused.TheVariants as refused;

    ghost from_gives = { λ _ e. e ≡ refused.Memory };

    fn from(_memory: Memory) -> ScheduleRefused {
        ScheduleRefused::Memory
    }
}

/// The command file that a day's schedule comes to at an airport: each record from the third on gives a command, or a
/// comment that says why it gives none. `Memory` stands for every error of the reader too.
#[tactic(auto, unfolding(crate::specs::Schedule::import_of))]
pub fn import_schedule(
    alloc: Global,
    airport: &Airport,
    bytes: &[u8],
) -> Result<Vec<u8>, ScheduleRefused>
    ensures ok { IfOk result (λ text. import_of airport.now bytes.now ≡ Ok text.items) }
    ensures first_row { result ≡ Err ScheduleRefused.FirstRow → import_of airport.now bytes.now ≡ Err ScheduleRefused.FirstRow }
    ensures bad_start { result ≡ Err ScheduleRefused.BadStart → import_of airport.now bytes.now ≡ Err ScheduleRefused.BadStart }
{
    let records = all_records(alloc, bytes)?;
    import_records(alloc, airport, records.as_slice())
}

fn import_records(
    alloc: Global,
    airport: &Airport,
    records: &[ByteRecord],
) -> Result<Vec<u8>, ScheduleRefused>
    ensures ok { IfOk result (λ text. import_of_records airport.now (map fields_of records.now) ≡ Ok text.items) }
    ensures first_row { result ≡ Err ScheduleRefused.FirstRow → import_of_records airport.now (map fields_of records.now) ≡ Err ScheduleRefused.FirstRow }
    ensures bad_start { result ≡ Err ScheduleRefused.BadStart → import_of_records airport.now (map fields_of records.now) ≡ Err ScheduleRefused.BadStart }
{
    let Some((first, rows)) = records.split_first() else {
        return Err(ScheduleRefused::FirstRow);
    };
    if !is_first_row(alloc, first)? {
        return Err(ScheduleRefused::FirstRow);
    }
    import_day(alloc, airport, rows)
}

// The records from the second on.
fn import_day(
    alloc: Global,
    airport: &Airport,
    records: &[ByteRecord],
) -> Result<Vec<u8>, ScheduleRefused>
    ensures ok { IfOk result (λ text. after_first airport.now (map fields_of records.now) ≡ Ok text.items) }
    ensures first_row { result ≡ Err ScheduleRefused.FirstRow → after_first airport.now (map fields_of records.now) ≡ Err ScheduleRefused.FirstRow }
    ensures bad_start { result ≡ Err ScheduleRefused.BadStart → after_first airport.now (map fields_of records.now) ≡ Err ScheduleRefused.BadStart }
{
    let Some((second, rows)) = records.split_first() else {
        return Err(ScheduleRefused::BadStart);
    };
    let Some(start) = start_of(alloc, second)? else {
        return Err(ScheduleRefused::BadStart);
    };
    let text = answers(alloc, airport, start, rows)?;
    Ok(text)
}

fn is_first_row(alloc: Global, row: &ByteRecord) -> Result<bool, Memory>
    ensures { IfOk result (λ yes. yes ≡ is_first_row (fields_of row.now)) }
{
    let fields = fields_of(alloc, row)?;
    Ok(is_first(fields.as_slice()))
}

fn is_first(fields: &[&[u8]]) -> bool
    ensures { result ≡ is_first_row (map (λ f. f.now) fields.now) }
{
    match fields {
        [word, version] => is_schedule(word, version),
        _ => false,
    }
}

fn is_schedule(word: &[u8], version: &[u8]) -> bool
    ensures { result ≡ is_schedule word.now version.now }
{
    word == b"taxi-schedule".as_slice() && version == b"1".as_slice()
}

fn start_of(alloc: Global, row: &ByteRecord) -> Result<Option<i64>, Memory>
    ensures value { IfOk result (λ start. start ≡ start_of (fields_of row.now)) }
    ensures range { IfOk result (λ start. IfSome start IsSecond) }
{
    let fields = fields_of(alloc, row)?;
    Ok(start_in(fields.as_slice()))
}

fn start_in(fields: &[&[u8]]) -> Option<i64>
    ensures value { result ≡ start_of (map (λ f. f.now) fields.now) }
    ensures range { IfSome result IsSecond }
{
    match fields {
        [word, time] => start_at(word, time),
        _ => None,
    }
}

fn start_at(word: &[u8], time: &[u8]) -> Option<i64>
    ensures value { result ≡ start_by word.now time.now }
    ensures range { IfSome result IsSecond }
{
    if word == b"start".as_slice() {
        second_of(time)
    } else {
        None
    }
}

// The answers to the records from the third on.
fn answers(
    alloc: Global,
    airport: &Airport,
    start: i64,
    rows: &[ByteRecord],
) -> Result<Vec<u8>, Memory>
    requires { IsSecond start }
    ensures { IfOk result (λ text. text.items ≡ answers_from airport.now start 3 (map fields_of rows.now)) }
{
    let mut out = Vec::new(alloc);
    for (k, row) in rows.iter().enumerate() {
        let fields = fields_of(alloc, row)?;
        push_answer(&mut out, airport, start, k as u64 + 3, fields.as_slice())?;
    }
    Ok(out)
}
