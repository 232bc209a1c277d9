// Places of words: the flag, and then the hand.
ghost use Rattle.std.specs.Prelude.{◌+◌, drop, slice_index};
ghost use Rattle.carriers.specs.WordPlaces.{word_copied, word_copy, word_flag, word_place};
ghost use Rattle.carriers.specs.WordLaws.{word_copy_there, word_flag_there, word_least, word_some, word_zeros};

use crate::format::Format;
use crate::places::Places;

impl Places for u32 {
    ghost zero = { 0 };

    ghost width = { word_place };

    ghost flag = { λ place. slice_index place 0 };

    ghost copy = { word_copied };

    ghost flags = { word_flag };

    ghost copies = { word_copy };

    ghost some = { word_some };

    ghost least = { word_least };

    ghost zeros = { word_zeros };

    ghost flag_there = { word_flag_there };

    ghost copy_there = { word_copy_there };

    fn clear(memory: &mut [u32]) {
        memory.fill(0);
    }

    fn width(format: Format) -> usize {
        1 + format.hand_length()
    }

    fn flag(place: &[u32]) -> u32 {
        place[0]
    }

    fn store(place: &mut [u32], _format: Format, new_flag: u32, hand: &[u32]) {
        place[0] = new_flag;
        place[1..].copy_from_slice(hand);
    }

    fn release(place: &mut [u32]) {
        place[0] = 0;
    }

    fn load(place: &[u32], _format: Format, hand: &mut [u32]) {
        hand.copy_from_slice(&place[1..]);
    }
}
