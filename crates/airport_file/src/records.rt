//! The records of a file, one at a time.
ghost use Rattle.std.specs.Prelude.{◌≡◌, ◌≤◌, ◌∷◌, [], true, false, length, map, take, IfOk};
ghost use Rattle.airport_rules.specs.Judged.{texts_of};
ghost use Rattle.std.specs.Borrow.{Bor};
ghost use Rattle.csv.specs.Records.{fields_of};
ghost use Rattle.airport_file.specs.Reading.{records_of};
ghost use Rattle.csv.specs.Reading.{error_kind};
ghost use Rattle.airport_file.specs.Rows.{IsReading, IsOfMemory, rows_left};

use csv::{ByteRecord, Error, Reader, ReaderBuilder};
use std::alloc::Global;
use taxi_base::Memory;

/// A reader of the records of these bytes, flexible and without a header row.
pub fn reader_of(alloc: Global, bytes: &[u8]) -> Reader<&[u8]>
    ensures ready { IsReading result }
    ensures rows { rows_left result ≡ records_of bytes.now }
    ensures few { length (rows_left result) ≤ length bytes.now }
{
    ReaderBuilder::new()
        .has_headers(false)
        .flexible(true)
        .from_reader(alloc, bytes)
}

/// Reads the next record into `row`, and says whether there was one.
pub fn read_row(reader: &mut Reader<&[u8]>, row: &mut ByteRecord) -> Result<bool, Memory>
    requires { IsReading reader.old }
    ensures ready { IfOk result (λ found. found ≡ true → IsReading reader.new) }
    ensures next { IfOk result (λ found. found ≡ true → rows_left reader.old ≡ fields_of row.new ∷ rows_left reader.new) }
    ensures end { IfOk result (λ found. found ≡ false → rows_left reader.old ≡ []) }
{
    match reader.read_byte_record(row) {
        Ok(found) => Ok(found),
        Err(error) => Err(want_of_memory(&error)),
    }
}

// What the reader calls want of memory in words of its own.
fn want_of_memory(error: &Error) -> Memory
    requires { IsOfMemory (error_kind error.now) }
{
    let _error = error;
    Memory::told()
}

/// Every record of the bytes.
pub fn all_records(alloc: Global, bytes: &[u8]) -> Result<Vec<ByteRecord>, Memory>
    ensures records { IfOk result (λ v. map fields_of v.items ≡ records_of bytes.now) }
    ensures few { IfOk result (λ v. length v.items ≤ length bytes.now) }
{
    let mut reader = reader_of(alloc, bytes);
    records_left(alloc, &mut reader)
}

/// Every record that a reader has still to read.
fn records_left(alloc: Global, reader: &mut Reader<&[u8]>) -> Result<Vec<ByteRecord>, Memory>
    requires { IsReading reader.old }
    ensures { IfOk result (λ v. map fields_of v.items ≡ rows_left reader.old) }
{
    let mut row = ByteRecord::new(alloc);
    let mut rows = Vec::new(alloc);
    'rows: while read_row(reader, &mut row)? {
        rows.push(row.clone()?)?;
    }
    Ok(rows)
}

/// The fields of a record, as slices of it.
pub fn fields_of<'a>(alloc: Global, row: &'a ByteRecord) -> Result<Vec<&'a [u8]>, Memory>
    ensures { IfOk result (λ fields. texts_of fields.items ≡ fields_of row.now) }
{
    let mut fields = Vec::new(alloc);
    for at in 0..row.len() {
        fields.push(row.get(at).unwrap())?;
    }
    Ok(fields)
}

/// How many fields the longest record has that may keep the rules.
pub(crate) const MOST_FIELDS: usize = 17;

/// The fields of a record that has few, as slices of it, and empty ones behind them. It takes no memory.
pub(crate) fn short_fields(row: &ByteRecord) -> [&[u8]; 17]
    requires { length (fields_of row.now) ≤ 17 }
    ensures { texts_of (take (length (fields_of row.now)) result) ≡ fields_of row.now }
{
    let mut fields = [b"".as_slice(); 17];
    for at in 0..row.len() {
        fields[at] = row.get(at).unwrap();
    }
    fields
}
