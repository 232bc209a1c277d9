// How places for copies lie in memory of bytes or of words.
ghost use Rattle.std.specs.Prelude.{◌≡◌, ℕ, ◌<◌, ◌≤◌, List, length, replicate};
ghost use Rattle.carriers.specs.Memory.{part};
ghost use Rattle.carriers.specs.declared.shape.Shape.{Shape};
ghost use Rattle.step.specs.Records.{hand_length};

use crate::format::Format;
use crate::shape::Shape;

// What memory is made of. A place has a flag, which is 0 where the place is free, and a copy. The flag lies in the lent memory,
// so it is a word and no `Option`.
pub trait Places: Sized {
    ghost zero: { Self };

    // How long a place is, for so many switches and nodes.
    ghost width: { ℕ → ℕ → ℕ };

    // The flag and the copy that a place holds.
    ghost flag: { List Self → ℕ };

    ghost copy: { ℕ → ℕ → List Self → List ℕ };

    // The flags and the copies of a memory's places, by their numbers.
    ghost flags: { Shape → List Self → ℕ → ℕ };

    ghost copies: { Shape → List Self → ℕ → List ℕ };

    // Writes zeros over a memory. Not written once with `fill`: that asks that a clone of the zero cannot fail,
    // which was not proved of a type parameter.
    fn clear(memory: &mut [Self])
        ensures { memory.new ≡ replicate (length memory.old) zero };

    fn width(format: Format) -> usize
        ensures { result ≡ width format.switches format.nodes };

    fn flag(place: &[Self]) -> u32
        requires { width 0 0 ≤ length place.now }
        ensures { result ≡ flag place.now };

    // Puts a copy into a place, under a flag.
    fn store(place: &mut [Self], format: Format, new_flag: u32, hand: &[u32])
        requires whole { length place.old ≡ width format.switches format.nodes }
        requires hand { length hand.now ≡ hand_length format.switches format.nodes }
        ensures flag { flag place.new ≡ new_flag }
        ensures copy { copy format.switches format.nodes place.new ≡ hand.now };

    // Frees a place.
    fn release(place: &mut [Self])
        requires { width 0 0 ≤ length place.old }
        ensures { flag place.new ≡ 0 };

    // Fills the hand with the copy of a place.
    fn load(place: &[Self], format: Format, hand: &mut [u32])
        requires whole { length place.now ≡ width format.switches format.nodes }
        requires hand { length hand.old ≡ hand_length format.switches format.nodes }
        ensures { hand.new ≡ copy format.switches format.nodes place.now };

    // A place is as long as the least one, which is not empty, or longer.
    ghost some: { 0 < width 0 0 };

    ghost least: { (n m : ℕ) → width 0 0 ≤ width n m };

    // Memory of zeros has free places only.
    ghost zeros: { (s : Shape) (memory : List Self) (size k : ℕ) → memory ≡ replicate size zero → flags s memory k ≡ 0 };

    // They are those of the parts of the memory.
    ghost flag_there: { (s : Shape) (memory : List Self) (k : ℕ) → flags s memory k ≡ flag (part (width s.switches s.nodes) memory k) };

    ghost copy_there: { (s : Shape) (memory : List Self) (k : ℕ) → copies s memory k ≡ copy s.switches s.nodes (part (width s.switches s.nodes) memory k) };
}
