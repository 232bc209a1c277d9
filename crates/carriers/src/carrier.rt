// Anything that keeps copies by number.
ghost use Rattle.carriers.specs.Figures.{figures_of};
ghost use Rattle.carriers.specs.Meanings.{Meaning, Put, Fetched, Retired};
ghost use Rattle.std.specs.Prelude.{◌≡◌};

use table::fault::Fault;

// What a carrier says of itself.
#[derive(Clone, Copy, Debug, PartialEq)]
pub struct Figures {
    pub code: u32,
    pub switches: usize,
    pub nodes: usize,
    // How many copies it can hold.
    pub capacity: usize,
    // How many it holds.
    pub held: usize,
    // The number of the next copy.
    pub next: u32,
}

// A carrier, by what it means. A copy is handed in and out as a hand: the sender, and one record for each switch.
pub trait Carrier {
    ghost meaning: { Self → Meaning };

    // What a carrier keeps true of its own parts; opening gives it and every call keeps it.
    ghost sound: { Self → Type 0 } = { λ _. Unit {0} };

    fn figures(&self) -> Figures
        ensures { sound self.now → result ≡ figures_of (meaning self.now) };

    // Holds the copy under the next number, and answers that number.
    fn put(&mut self, hand: &[u32]) -> Result<u32, Fault>
        ensures { sound self.old → Put (meaning self.old) (meaning self.new) hand.now result (sound self.new) };

    // Puts the copy with this number into the hand.
    fn fetch(&self, number: u32, hand: &mut [u32]) -> Result<(), Fault>
        ensures { sound self.now → Fetched (meaning self.now) number hand.old hand.new result };

    // Stops holding the copy with this number.
    fn retire(&mut self, number: u32) -> Result<(), Fault>
        ensures { sound self.old → Retired (meaning self.old) (meaning self.new) number result (sound self.new) };
}
