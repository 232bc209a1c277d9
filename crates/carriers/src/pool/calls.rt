// A pool as a carrier.
ghost use Rattle.carriers.specs.Pools.{meaning_of};

use crate::carrier::{Carrier, Figures};
use crate::places::Places;
use crate::pool::Pool;
use table::fault::{Fault, Reason};

impl<'a, P: Places> Carrier for Pool<'a, P> {
    ghost meaning = { λ s. meaning_of s.shape s.next (P.flags s.shape s.memory.now) (P.copies s.shape s.memory.now) };

    #[tactic(auto, using(crate::proofs::HeldPlaces::held_length))]
    fn figures(&self) -> Figures {
        Figures {
            code: self.shape.code,
            switches: self.shape.switches as usize,
            nodes: self.shape.nodes as usize,
            capacity: self.shape.capacity,
            held: self.used(),
            next: self.next,
        }
    }

    #[tactic(auto, using(crate::proofs::HeldPlaces::lowest_some))]
    fn put(&mut self, hand: &[u32]) -> Result<u32, Fault> {
        if hand.len() != self.shape.hand_length() || hand[0] >= self.shape.switches {
            return Err(Reason::Shape.into());
        }
        let number = self.next;
        if number == u32::MAX {
            return Err(Reason::Full.into());
        }
        let place = self.lowest(0).ok_or(Reason::Full)?;
        self.hold(place, hand);
        Ok(number)
    }

    #[tactic(auto, using(crate::proofs::HeldPlaces::lowest_some))]
    fn fetch(&self, number: u32, hand: &mut [u32]) -> Result<(), Fault> {
        if hand.len() != self.shape.hand_length() {
            return Err(Reason::Shape.into());
        }
        let place = self.place_of(number).ok_or(Reason::NotHeld)?;
        self.load(place, hand);
        Ok(())
    }

    #[tactic(auto, using(crate::proofs::HeldPlaces::lowest_some))]
    fn retire(&mut self, number: u32) -> Result<(), Fault> {
        let place = self.place_of(number).ok_or(Reason::NotHeld)?;
        self.free(place);
        Ok(())
    }
}
