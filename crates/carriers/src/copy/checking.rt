// Checks bytes for being a copy, field by field.
ghost use Rattle.std.specs.Prelude.{◌≡◌, ◌+◌, ◌*◌, length, is_ok, OnOk, nat_lt};
ghost use Rattle.carriers.specs.Copies.{copy_length, copy_read, each_read, header_read, record_read, record_size, records_read, required};
ghost use Rattle.table.specs.Readers.{Advanced};
ghost use Rattle.table.specs.Wire.{field};
ghost use Rattle.table.specs.declared.fault.Reason.TheVariants.{Copy};

use crate::format::Format;
use table::fault::{Fault, Reason};
use table::reader::{Reader, Refusals};

// Why a reader of a copy refuses. A type of its own, so that no function has to ask which reason its reader has.
#[derive(Drop)]
pub(crate) struct CopyRefusals;

impl Refusals for CopyRefusals {
    ghost short = { λ _. Copy };

    ghost wrong = { λ _. Copy };

    fn short(&self) -> Reason {
        Reason::Copy
    }

    fn wrong(&self) -> Reason {
        Reason::Copy
    }
}

type CopyReader<'a> = Reader<'a, CopyRefusals>;

// The next field, if it is below `limit`. Not `field_between`: no format is known to have a switch.
#[tactic(auto, unfolding(table::specs::Wire::tested_field))]
fn read_below(reader: &mut CopyReader, limit: u32) -> Result<u32, Fault>
    ensures value { result ≡ required (λ w. nat_lt w limit) reader.old.bytes.now reader.old.at }
    ensures reader { Advanced reader.old reader.new (is_ok result) 4 }
{
    let at = reader.offset();
    let word = reader.field()?;
    if word >= limit {
        return Err(Reason::Copy.at(at));
    }
    Ok(word)
}

// The next `count` fields, whatever their values. Not shared with the table's `read_words`: a copy's law says each field by itself.
fn check_words(reader: &mut CopyReader, count: usize) -> Result<(), Fault>
    ensures value { result ≡ each_read (λ i. field Copy reader.old.bytes.now (reader.old.at + i * 4)) count }
    ensures reader { Advanced reader.old reader.new (is_ok result) (count * 4) }
{
    for _i in 0..count {
        reader.field()?;
    }
    Ok(())
}

impl Format {
    // The next record: its count, the words' count, and the words.
    #[tactic(auto, unfolding(crate::specs::Copies::record_read))]
    fn check_record(self, reader: &mut CopyReader) -> Result<(), Fault>
        ensures value { result ≡ record_read self.nodes reader.old.bytes.now reader.old.at }
        ensures reader { Advanced reader.old reader.new (is_ok result) (record_size self.nodes) }
    {
        let words = self.nodes as u32;
        reader.field()?;
        reader.field_between(words, words)?;
        check_words(reader, self.nodes)
    }

    // All records; the reader stands at the first.
    fn check_records(self, reader: &mut CopyReader) -> Result<(), Fault>
        requires { reader.old.at ≡ 12 }
        ensures value { result ≡ records_read self.switches self.nodes reader.old.bytes.now }
        ensures reader { Advanced reader.old reader.new (is_ok result) (self.switches * record_size self.nodes) }
    {
        for _j in 0..self.switches {
            self.check_record(reader)?;
        }
        Ok(())
    }

    // The code, the sender and the number of records.
    #[tactic(auto, unfolding(crate::specs::Copies::header_read))]
    fn check_header(self, reader: &mut CopyReader) -> Result<(), Fault>
        requires { reader.old.at ≡ 0 }
        ensures value { result ≡ header_read self.code self.switches reader.old.bytes.now }
        ensures reader { Advanced reader.old reader.new (is_ok result) 12 }
    {
        let records = self.switches as u32;
        reader.field_between(self.code, self.code)?;
        read_below(reader, records)?;
        reader.field_between(records, records)?;
        Ok(())
    }

    // Whether the bytes are one copy and no more.
    #[tactic(auto, unfolding(crate::specs::Copies::copy_read))]
    pub(crate) fn check(self, bytes: &[u8]) -> Result<(), Fault>
        ensures value { result ≡ copy_read self.code self.switches self.nodes bytes.now }
        ensures sized { OnOk result (length bytes.now ≡ copy_length self.switches self.nodes) }
    {
        let mut reader = Reader::new(bytes, CopyRefusals);
        self.check_header(&mut reader)?;
        self.check_records(&mut reader)?;
        let end = reader.offset();
        if end != bytes.len() {
            return Err(Reason::Copy.at(end));
        }
        Ok(())
    }
}
