// Fills a hand from a copy's bytes.
ghost use Rattle.std.specs.Prelude.{◌≡◌, length};
ghost use Rattle.carriers.specs.Copies.{copy_length, hand_in, record_in, record_size, records_in};
ghost use Rattle.carriers.specs.Memory.{placed};
ghost use Rattle.step.specs.Records.{hand_length, record_length};

use crate::format::Format;
use byteorder::{BigEndian, ByteOrder};

// Hand and bytes come from the caller, and the methods ask for their lengths: a struct of both would be made for one call.
impl Format {
    // A record, without the words' count.
    fn take_record(self, bytes: &[u8], words: &mut [u32])
        requires bytes { length bytes.now ≡ record_size self.nodes }
        requires words { length words.old ≡ record_length self.nodes }
        ensures { words.new ≡ record_in self.nodes bytes.now 0 }
    {
        words[0] = BigEndian::read_u32(bytes);
        BigEndian::read_u32_into(&bytes[8..], &mut words[1..]);
    }

    // The records, after the sender that stands in front of them.
    // By index: tried `chunks_exact_mut`, in whose loop no invariant can name the hand.
    fn take_records(self, bytes: &[u8], hand: &mut [u32])
        requires bytes { length bytes.now ≡ copy_length self.switches self.nodes }
        requires hand { length hand.old ≡ hand_length self.switches self.nodes }
        ensures { hand.new ≡ placed hand.old 1 (records_in self.nodes bytes.now self.switches) }
    {
        for j in 0..self.switches {
            let from = self.start_in_bytes(j);
            let to = 1 + self.start_in_hand(j);
            self.take_record(
                &bytes[from..from + 8 + 4 * self.nodes],
                &mut hand[to..to + self.nodes + 1],
            );
        }
    }

    // Fills the hand with the copy that the bytes hold.
    pub(crate) fn fill(self, bytes: &[u8], hand: &mut [u32])
        requires bytes { length bytes.now ≡ copy_length self.switches self.nodes }
        requires hand { length hand.old ≡ hand_length self.switches self.nodes }
        ensures { hand.new ≡ hand_in self.switches self.nodes bytes.now }
    {
        hand[0] = BigEndian::read_u32(&bytes[4..]);
        self.take_records(bytes, hand);
    }
}
