// What the calls of a pool do to its places.
ghost use Rattle.std.specs.Prelude.{◌≡◌, ◌+◌, ◌*◌, ◌<◌, ◌≤◌, length};
ghost use Rattle.carriers.specs.Memory.{part};
ghost use Rattle.carriers.specs.Places.{lowest_below, used_below};
ghost use Rattle.carriers.specs.Stores.{Released, Stored};
ghost use Rattle.step.specs.Records.{hand_length};

use crate::places::Places;
use crate::pool::Pool;

// The places lie in one slice, since the memory is lent; a place is a number, for which each method asks, as an index is. What is
// done to a place that was searched for is not inlined, for speed: the search then works out nothing else beside the place.
impl<'a, P: Places> Pool<'a, P> {
    // Where a place begins.
    fn start(&self, place: usize) -> usize
        requires { place < self.now.shape.capacity }
        ensures value { result ≡ place * P.width self.now.shape.switches self.now.shape.nodes }
        ensures room { result + P.width self.now.shape.switches self.now.shape.nodes ≤ length self.now.memory.now }
    {
        place * P::width(self.shape.format())
    }

    // What a place holds.
    fn held_at(&self, place: usize) -> &[P]
        requires { place < self.now.shape.capacity }
        ensures { result.now ≡ part (P.width self.now.shape.switches self.now.shape.nodes) self.now.memory.now place }
    {
        let at = self.start(place);
        let end = at + P::width(self.shape.format());
        &self.memory[at..end]
    }

    fn flag(&self, place: usize) -> u32
        requires { place < self.now.shape.capacity }
        ensures { result ≡ P.flags self.now.shape self.now.memory.now place }
    {
        P::flag(self.held_at(place))
    }

    // The lowest place with this flag.
    pub(crate) fn lowest(&self, wanted: u32) -> Option<usize>
        ensures { result ≡ lowest_below (P.flags self.now.shape self.now.memory.now) wanted self.now.shape.capacity }
    {
        (0..self.shape.capacity).find(|place| self.flag(*place) == wanted)
    }

    // How many places hold a copy.
    pub(crate) fn used(&self) -> usize
        ensures { result ≡ used_below (P.flags self.now.shape self.now.memory.now) self.now.shape.capacity }
    {
        (0..self.shape.capacity)
            .filter(|place| self.flag(*place) != 0)
            .count()
    }

    // The place of the copy with this number.
    #[tactic(auto, using(crate::proofs::HeldPlaces::lowest_unused))]
    pub(crate) fn place_of(&self, number: u32) -> Option<usize>
        ensures { result ≡ lowest_below (P.flags self.now.shape self.now.memory.now) (number + 1) self.now.shape.capacity }
    {
        // No copy has a number that was not given out; so number + 1 is a word.
        if number >= self.next {
            return None;
        }
        self.lowest(number + 1)
    }

    // Puts a copy into a free place, under the next number.
    #[inline(never)]
    pub(crate) fn hold(&mut self, place: usize, hand: &[u32])
        requires within { place < self.old.shape.capacity }
        requires free { P.flags self.old.shape self.old.memory.now place ≡ 0 }
        requires number { self.old.next < u32.MAX }
        requires hand { length hand.now ≡ hand_length self.old.shape.switches self.old.shape.nodes }
        ensures places { Stored (P.flags self.old.shape self.old.memory.now) (P.flags self.new.shape self.new.memory.now) (P.copies self.old.shape self.old.memory.now) (P.copies self.new.shape self.new.memory.now) self.old.shape.capacity place (self.old.next + 1) hand.now }
        ensures next { self.new.next ≡ self.old.next + 1 }
        ensures shape { self.new.shape ≡ self.old.shape }
    {
        let format = self.shape.format();
        let at = self.start(place);
        let end = at + P::width(format);
        let flag = self.next + 1;
        P::store(&mut self.memory[at..end], format, flag, hand);
        self.next = flag;
    }

    // Frees a place.
    #[inline(never)]
    pub(crate) fn free(&mut self, place: usize)
        requires { place < self.old.shape.capacity }
        ensures places { Released (P.flags self.old.shape self.old.memory.now) (P.flags self.new.shape self.new.memory.now) (P.copies self.old.shape self.old.memory.now) (P.copies self.new.shape self.new.memory.now) self.old.shape.capacity place }
        ensures next { self.new.next ≡ self.old.next }
        ensures shape { self.new.shape ≡ self.old.shape }
    {
        let at = self.start(place);
        let end = at + P::width(self.shape.format());
        P::release(&mut self.memory[at..end]);
    }

    // Fills the hand with the copy of a place.
    #[inline(never)]
    pub(crate) fn load(&self, place: usize, hand: &mut [u32])
        requires within { place < self.now.shape.capacity }
        requires hand { length hand.old ≡ hand_length self.now.shape.switches self.now.shape.nodes }
        ensures { hand.new ≡ P.copies self.now.shape self.now.memory.now place }
    {
        P::load(self.held_at(place), self.shape.format(), hand);
    }
}
