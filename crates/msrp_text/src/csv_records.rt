//! The records of a text as the `csv` crate reads them: the way for lines that aren't plain.
ghost use Rattle.std.specs.Prelude.{◌≡◌, ◌↔◌};
ghost use Rattle.msrp_plan.specs.Common.{ℕ, List, Some, None, Err, IfOk, IfErr, OnOk, option_map, true, false};
ghost use Rattle.csv.specs.Records.{fields_of};
ghost use Rattle.csv.specs.declared.reader.Trim.TheVariants as trim;
ghost use Rattle.csv.specs.Reading.{default_config, is_flexible, is_io, reader_config, reader_trim, stops_reader};
ghost use Rattle.msrp_text.specs.Settings.{is_ready};

use crate::records::Stopped;
use csv::{ByteRecord, ErrorKind, Reader, ReaderBuilder};
use std::alloc::Global;
use std::io::Read;

// Why a record couldn't be read; the reader is set so that no rule on records refuses one.
fn stopped_by(kind: &ErrorKind) -> Stopped
    requires { stops_reader kind.now ≡ true }
    ensures { (result ≡ Stopped.Read) ↔ (is_io kind.now ≡ true) }
{
    match kind {
        ErrorKind::Io(_) => Stopped::Read,
        ErrorKind::OutOfMemory => Stopped::Memory,
        _ => unreachable!(),
    }
}

/// The records of a text: fields between commas, no header row; an empty line is no record.
#[derive(Drop)]
pub(crate) struct CsvRecords<R> {
    rows: Reader<R>,
    stopped: Option<Stopped>,
    ghost trim: { stopped ≡ None → reader_trim rows ≡ trim.None },
    ghost config: { stopped ≡ None → reader_config rows ≡ default_config },
    ghost ready: { stopped ≡ None → is_ready rows ≡ true },
    ghost flexible: { stopped ≡ None → is_flexible rows ≡ true },
}

impl<R: Read> CsvRecords<R> {
    ghost use Rattle.msrp_text.specs.Records.{GivesNext, csv_left, csv_records, csv_under};

    /// The records of the rest of a reader.
    pub(crate) fn new(alloc: Global, text: R) -> CsvRecords<R>
        ensures left { csv_left R.remaining result ≡ option_map csv_records (R.remaining text) }
        ensures goes { result.stopped ≡ None }
    {
        let rows = ReaderBuilder::new()
            .has_headers(false)
            .flexible(true)
            .from_reader(alloc, text);
        CsvRecords {
            rows,
            stopped: None,
        }
    }

    /// The reader underneath.
    pub(crate) fn reader(&self) -> &R
        ensures { result.now ≡ csv_under self.now }
    {
        self.rows.get_ref()
    }

    /// Reads the next record into `row`; false at the end.
    pub(crate) fn read(&mut self, row: &mut ByteRecord) -> Result<bool, Stopped>
        ensures next { IfOk result (λ found. (left : List (List (List ℕ))) → csv_left R.remaining self.old ≡ Some left → GivesNext left found (fields_of row.new) (csv_left R.remaining self.new)) }
        ensures goes { OnOk result (self.new.stopped ≡ None) }
        ensures stops { IfErr result (λ why. self.new.stopped ≡ Some why) }
        ensures stopped { (why : Stopped) → self.old.stopped ≡ Some why → result ≡ Err why }
    {
        if let Some(why) = self.stopped {
            return Err(why);
        }
        match self.rows.read_byte_record(row) {
            Ok(found) => Ok(found),
            Err(error) => {
                let why = stopped_by(error.kind());
                self.stopped = Some(why);
                Err(why)
            }
        }
    }

    /// Makes each further read fail, for that reason.
    pub(crate) fn stop(&mut self, why: Stopped)
        ensures under { csv_under self.new ≡ csv_under self.old }
        ensures stops { self.new.stopped ≡ Some why }
    {
        self.stopped = Some(why);
    }
}
