// The records of a data file, one after the other.
ghost use Rattle.std.specs.Prelude.{◌≡◌, ◌∷◌, [], true, false, drop, IfOk, OnOk};
ghost use Rattle.csv.specs.Records.{fields_of};
ghost use Rattle.aso_load.specs.Csv.{IsReading, left_of, records_of};

use aso_num::NoMemory;
use csv::{ByteRecord, Reader, ReaderBuilder};
use std::alloc::Global;

/// A reader of the records of a text. A byte order mark is passed over.
pub fn open<'a>(alloc: Global, delimiter: u8, text: &'a [u8]) -> Reader<&'a [u8]>
    ensures reading { IsReading result }
    ensures left { left_of result ≡ records_of delimiter text.now }
{
    ReaderBuilder::new()
        .has_headers(false)
        .flexible(true)
        .delimiter(delimiter)
        .from_reader(alloc, text)
}

/// The next record, and whether there was one. A text in memory fails in no other way than for want of memory.
pub fn next<'a>(reader: &mut Reader<&'a [u8]>, row: &mut ByteRecord) -> Result<bool, NoMemory>
    requires { IsReading reader.old }
    ensures reading { IfOk result (λ found. (found ≡ true) → IsReading reader.new) }
    ensures next { IfOk result (λ found. (found ≡ true) → left_of reader.old ≡ fields_of row.new ∷ left_of reader.new) }
    ensures end { IfOk result (λ found. (found ≡ false) → left_of reader.old ≡ []) }
{
    if let Ok(found) = reader.read_byte_record(row) {
        return Ok(found);
    }
    Err(NoMemory)
}

/// Passes over this many records, and says whether there were so many.
pub fn pass_over<'a>(
    count: u32,
    reader: &mut Reader<&'a [u8]>,
    row: &mut ByteRecord,
) -> Result<bool, NoMemory>
    requires { IsReading reader.old }
    ensures reading { IfOk result (λ found. (found ≡ true) → IsReading reader.new) }
    ensures left { IfOk result (λ found. (found ≡ true) → left_of reader.new ≡ drop count (left_of reader.old)) }
    ensures end { IfOk result (λ found. (found ≡ false) → drop count (left_of reader.old) ≡ []) }
{
    for passed in 0..count {
        if !next(reader, row)? {
            return Ok(false);
        }
    }
    Ok(true)
}
