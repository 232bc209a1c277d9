// Writes a hand as a copy's bytes.
ghost use Rattle.std.specs.Prelude.{◌≡◌, ◌+◌, ◌≤◌, length};
ghost use Rattle.carriers.specs.Copies.{copy_bytes, copy_length, record_fields, record_size, records_fields};
ghost use Rattle.carriers.specs.Memory.{placed};
ghost use Rattle.std.specs.List.{flat_map};
ghost use Rattle.step.specs.Records.{hand_length, record_length, records_length};
ghost use Rattle.table.specs.Wire.{word_bytes};

use crate::format::Format;
use byteorder::{BigEndian, ByteOrder};

// Writes one field, high byte first.
#[tactic(auto, using(crate::proofs::Fields::word_put))]
pub(crate) fn put_word(bytes: &mut [u8], at: usize, word: u32)
    requires { at + 4 ≤ length bytes.old }
    ensures { bytes.new ≡ placed bytes.old at (word_bytes word) }
{
    BigEndian::write_u32(&mut bytes[at..], word);
}

// Hand and bytes come from the caller, and each method asks for their lengths: a struct of both would be made for one call.
impl Format {
    // Writes a record: its count, the words' count, and the words.
    fn put_record(self, words: &[u32], bytes: &mut [u8])
        requires words { length words.now ≡ record_length self.nodes }
        requires bytes { length bytes.old ≡ record_size self.nodes }
        ensures { bytes.new ≡ flat_map word_bytes (record_fields self.nodes words.now) }
    {
        put_word(bytes, 0, words[0]);
        put_word(bytes, 4, self.nodes as u32);
        BigEndian::write_u32_into(&words[1..], &mut bytes[8..]);
    }

    // Writes all records. By index: with `chunks_exact` and `enumerate` the proof that the items are the records did not close.
    fn put_records(self, records: &[u32], bytes: &mut [u8])
        requires records { length records.now ≡ records_length self.switches self.nodes }
        requires bytes { length bytes.old ≡ copy_length self.switches self.nodes }
        ensures { bytes.new ≡ placed bytes.old 12 (flat_map word_bytes (records_fields self.nodes records.now self.switches)) }
    {
        for j in 0..self.switches {
            let from = self.start_in_hand(j);
            let to = self.start_in_bytes(j);
            self.put_record(
                &records[from..from + self.nodes + 1],
                &mut bytes[to..to + 8 + 4 * self.nodes],
            );
        }
    }

    // Writes the whole copy; the bytes have its length.
    pub(crate) fn write(self, hand: &[u32], bytes: &mut [u8])
        requires hand { length hand.now ≡ hand_length self.switches self.nodes }
        requires bytes { length bytes.old ≡ copy_length self.switches self.nodes }
        ensures { bytes.new ≡ copy_bytes self.code self.switches self.nodes hand.now }
    {
        put_word(bytes, 0, self.code);
        put_word(bytes, 4, hand[0]);
        put_word(bytes, 8, self.switches as u32);
        self.put_records(&hand[1..], bytes);
    }
}
