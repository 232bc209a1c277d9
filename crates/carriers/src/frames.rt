// Places of bytes: the flag as a field, and then the copy.
ghost use Rattle.std.specs.Prelude.{◌+◌};
ghost use Rattle.carriers.specs.FramePlaces.{frame_copied, frame_copy, frame_flag, frame_place};
ghost use Rattle.carriers.specs.FrameLaws.{frame_copy_there, frame_flag_there, frame_least, frame_some, frame_zeros};
ghost use Rattle.table.specs.Wire.{word_at};

use crate::copy::writing::put_word;
use crate::format::Format;
use crate::places::Places;
use byteorder::{BigEndian, ByteOrder};

impl Places for u8 {
    ghost zero = { 0 };

    ghost width = { frame_place };

    ghost flag = { λ place. word_at place 0 };

    ghost copy = { frame_copied };

    ghost flags = { frame_flag };

    ghost copies = { frame_copy };

    ghost some = { frame_some };

    ghost least = { frame_least };

    ghost zeros = { frame_zeros };

    ghost flag_there = { frame_flag_there };

    ghost copy_there = { frame_copy_there };

    fn clear(memory: &mut [u8]) {
        memory.fill(0);
    }

    fn width(format: Format) -> usize {
        4 + format.copy_length()
    }

    #[tactic(auto, using(crate::proofs::Fields::big_first))]
    fn flag(place: &[u8]) -> u32 {
        BigEndian::read_u32(place)
    }

    fn store(place: &mut [u8], format: Format, new_flag: u32, hand: &[u32]) {
        put_word(place, 0, new_flag);
        format.write(hand, &mut place[4..]);
    }

    #[tactic(auto, using(crate::proofs::FramePlaces::frame_freed))]
    fn release(place: &mut [u8]) {
        put_word(place, 0, 0);
    }

    fn load(place: &[u8], format: Format, hand: &mut [u32]) {
        format.fill(&place[4..], hand);
    }
}
