//! The records of a table's bytes, one after the other.

ghost use Rattle.std.specs.Prelude.{◌≡◌, ◌^◌, ◌<◌, false, All, length, slice_index_or, []};
ghost use Rattle.csv.specs.Reading.{default_config, has_failed, records, strip_bom};
ghost use Rattle.csv.specs.Records.{fields_of};
ghost use Rattle.set_tables.specs.Records.{AreShort, ReadsRow, ReadsTable, left_of};

use crate::TableFault;
use csv::{ByteRecord, ErrorKind, Reader, ReaderBuilder};
use std::alloc::Global;
use std::marker::Model;

/// The record of a table that was read last, and what is left of the table's bytes.
#[derive(Drop)]
pub(crate) struct Records<'a> {
    reader: Reader<&'a [u8]>,
    row: ByteRecord,
}

impl<'a> Model for Records<'a> {
    ghost use Rattle.set_tables.specs.Cursor.{Cursor};

    ghost Value = { Cursor };

    ghost use Rattle.set_tables.specs.Inside.{cursor_of, IsReading};

    ghost view = { cursor_of };

    ghost invariant = { IsReading };
}

impl<'a> Records<'a> {
    /// The cursor before the first record. A byte order mark at the start is no part of it.
    pub(crate) fn of(alloc: Global, bytes: &'a [u8]) -> Records<'a>
        requires { length bytes.now < 2 ^ 32 }
        ensures left { result.left ≡ records default_config (strip_bom bytes.now) }
        ensures short { All AreShort result.left }
    {
        Records {
            reader: ReaderBuilder::new()
                .has_headers(false)
                .flexible(true)
                .from_reader(alloc, bytes),
            row: ByteRecord::new(alloc),
        }
    }

    /// Goes to the next record, if there is one.
    pub(crate) fn next_row(&mut self) -> Result<bool, TableFault>
        ensures { ReadsRow self.old.left self.new.row self.new.left result }
    {
        read_record(&mut self.reader, &mut self.row)
    }

    /// How many cells the record has.
    pub(crate) fn width(&self) -> usize
        ensures { result ≡ length self.now.row }
    {
        self.row.len()
    }

    /// A cell of the record.
    pub(crate) fn cell(&self, k: usize) -> &[u8]
        requires { k < length self.now.row }
        ensures { result.now ≡ slice_index_or self.now.row k [] }
    {
        match self.row.get(k) {
            Some(cell) => cell,
            None => unreachable!(),
        }
    }
}

// Reads the next record of a table into the row, if there is one.
fn read_record(reader: &mut Reader<&[u8]>, row: &mut ByteRecord) -> Result<bool, TableFault>
    requires { has_failed reader.old ≡ false → ReadsTable reader.old }
    ensures goes { ReadsRow (left_of reader.old) (fields_of row.new) (left_of reader.new) result }
    ensures reads { has_failed reader.new ≡ false → ReadsTable reader.new }
{
    match reader.read_byte_record(row) {
        Ok(found) => Ok(found),
        Err(error) => match error.into_kind() {
            ErrorKind::Io(_) | ErrorKind::OutOfMemory => Err(TableFault::Memory),
            _ => unreachable!(),
        },
    }
}
