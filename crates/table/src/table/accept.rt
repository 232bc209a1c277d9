// Turns a draft into a checked table.
ghost use Rattle.std.specs.Prelude.{◌≡◌, ◌≤◌, true, false, length, take, is_ok, IfOk, IfErr};
ghost use Rattle.table.specs.Delivered.{named_kind};
ghost use Rattle.table.specs.TableLaws.{TableLaws};
ghost use Rattle.table.specs.Tables.{longest_table, table_alone, table_front, table_length};
ghost use Rattle.table.specs.Views.{view};
ghost use Rattle.table.specs.Wire.{counted, filled};

use crate::fault::{Fault, Reason};
use crate::kind::Kind;
use crate::reader::Reader;
use crate::table::parse::{TableRefusals, read_all_rules, read_header, read_nodes, read_starts};
use crate::table::{Checked, Draft};
use arrayvec::ArrayVec;
use readings::reading::Reading;

impl<'a> Draft<'a> {
    pub fn new(bytes: &'a [u8]) -> Draft<'a>
        ensures { result.bytes.now ≡ bytes.now }
    {
        Draft { bytes }
    }

    // The delivered kind that the first field names.
    pub fn kind(&self) -> Result<Kind, Fault>
        ensures value { result ≡ named_kind self.now.bytes.now }
        ensures places { IfErr result (λ e. e.place ≡ 0) }
    {
        let mut reader = Reader::new(self.bytes, TableRefusals);
        let code = reader.field()?;
        Ok(Kind::try_from(code)?)
    }
}

// The table at the front of `bytes`, which its own counts end.
fn read_table<'a, K: Reading>(bytes: &'a [u8]) -> Result<Checked<'a>, Fault>
    ensures value { counted result view ≡ table_front K.CODE bytes.now }
    ensures bytes { IfOk result (λ table. table.bytes.now ≡ take (table_length (view table)) bytes.now) }
    ensures inside { IfOk result (λ table. table_length (view table) ≤ length bytes.now) }
    ensures laws { TableLaws K.CODE bytes.now }
    ensures places { IfErr result (λ e. e.place ≤ longest_table) }
{
    let mut reader = Reader::new(bytes, TableRefusals);
    let header = read_header::<K>(&mut reader)?;
    let switches = header.switches;
    let mut nodes = ArrayVec::new();
    read_nodes(&mut reader, switches, header.nodes, &mut nodes)?;
    let mut rules = ArrayVec::new();
    read_all_rules(&mut reader, switches, &nodes, &mut rules)?;
    read_starts(&mut reader, switches, nodes.len(), rules.len())?;
    let end = reader.offset();
    Ok(Checked {
        bytes: &bytes[..end],
        switches,
        nodes,
        rules,
    })
}

// Accepts the table that is all of the draft and fills `place` with it, or refuses and leaves `place`.
pub fn check<'a, K: Reading>(draft: Draft<'a>, place: &mut Checked<'a>) -> Result<(), Fault>
    ensures value { filled result (view place.new) ≡ table_alone K.CODE draft.entry.bytes.now }
    ensures bytes { is_ok result ≡ true → place.new.bytes.now ≡ draft.entry.bytes.now }
    ensures kept { is_ok result ≡ false → place.new ≡ place.old }
    ensures laws { TableLaws K.CODE draft.entry.bytes.now }
    ensures places { IfErr result (λ e. e.place ≤ longest_table) }
{
    let bytes = draft.bytes;
    let table = read_table::<K>(bytes)?;
    let end = table.length();
    if end != bytes.len() {
        return Err(Reason::TableLength.at(end));
    }
    *place = table;
    Ok(())
}

// Accepts the table at the front of the draft, which its own counts end, and answers its length;
// or refuses and leaves `place`.
pub fn check_front<'a, K: Reading>(
    draft: Draft<'a>,
    place: &mut Checked<'a>,
) -> Result<usize, Fault>
    ensures value { counted result (λ length. view place.new) ≡ table_front K.CODE draft.entry.bytes.now }
    ensures length { IfOk result (λ n. n ≡ table_length (view place.new)) }
    ensures bytes { IfOk result (λ n. place.new.bytes.now ≡ take n draft.entry.bytes.now) }
    ensures kept { is_ok result ≡ false → place.new ≡ place.old }
    ensures laws { TableLaws K.CODE draft.entry.bytes.now }
    ensures places { IfErr result (λ e. e.place ≤ longest_table) }
{
    let table = read_table::<K>(draft.bytes)?;
    let length = table.length();
    *place = table;
    Ok(length)
}
