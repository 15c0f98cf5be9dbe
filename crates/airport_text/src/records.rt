//! Records as comma-separated text, one after the other.
ghost use Rattle.std.specs.Prelude.{◌≡◌, ◌∷◌, [], map, IfOk, OnOk};
ghost use Rattle.csv.specs.Records.{fields_of};
ghost use Rattle.airport_text.specs.Written.{and_records};

use csv::{ByteRecord, Writer, WriterBuilder};
use std::alloc::Global;
use std::marker::Model;
use taxi_base::Memory;

/// A text of records in the making, seen by contracts as the text so far.
#[derive(Drop)]
pub struct RecordWriter {
    writer: Writer<Vec<u8>>,
    // Where a record was cut off for want of memory, no other may follow it.
    lost: Option<Memory>,
}

impl Model for RecordWriter {
    ghost use Rattle.std.specs.Prelude.{◌≡◌, ◌++◌, List, ℕ, None};
    ghost use Rattle.csv.specs.Writing.{writer_under, writer_pending};

    ghost Value = { List ℕ };

    ghost use Rattle.airport_text.specs.Written.{IsBetweenRecords};

    ghost view = { λ r. (writer_under r.writer).items ++ writer_pending r.writer };

    ghost invariant = { λ r. r.lost ≡ None → IsBetweenRecords r.writer };
}

impl RecordWriter {
    /// No record yet.
    pub fn new(alloc: Global) -> RecordWriter
        ensures { result ≡ [] }
    {
        let writer = WriterBuilder::new()
            .flexible(true)
            .from_writer(Vec::new(alloc));
        RecordWriter { writer, lost: None }
    }

    /// Adds a record of these fields. After an error no other is added.
    pub fn write(&mut self, fields: &[&[u8]]) -> Result<(), Memory>
        ensures { OnOk result (self.new ≡ and_records self.old (map (λ f. f.now) fields.now ∷ [])) }
    {
        if let Some(memory) = self.lost {
            return Err(memory);
        }
        if self.writer.write_fields(fields).is_err() {
            let memory = Memory::told();
            self.lost = Some(memory);
            return Err(memory);
        }
        Ok(())
    }

    /// The same of a record whose fields stand in a row.
    pub fn write_row(&mut self, row: &ByteRecord) -> Result<(), Memory>
        ensures { OnOk result (self.new ≡ and_records self.old (fields_of row.now ∷ [])) }
    {
        if let Some(memory) = self.lost {
            return Err(memory);
        }
        if self.writer.write_byte_record(row).is_err() {
            let memory = Memory::told();
            self.lost = Some(memory);
            return Err(memory);
        }
        Ok(())
    }

    /// The whole text.
    pub fn finish(self) -> Result<Vec<u8>, Memory>
        ensures { IfOk result (λ text. text.items ≡ self) }
    {
        match self.writer.into_inner() {
            Ok(text) => Ok(text),
            Err(_) => Err(Memory::told()),
        }
    }
}
