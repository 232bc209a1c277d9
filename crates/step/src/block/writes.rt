// What a step writes into a block.
ghost use Rattle.std.specs.Prelude.{◌≡◌, ◌+◌, ◌<◌, ◌≤◌, ◌∷◌, length, slice_set};
ghost use Rattle.step.specs.Blocks.{Becomes, node_count, switch_count};
ghost use Rattle.step.specs.Records.{hand_length, hand_records, put_record, records_length};
ghost use Rattle.step.specs.StepLaws.{Words};
ghost use Rattle.step.specs.Steps.{taken, taken_one};
ghost use Rattle.table.specs.Limits.{register_count};

use crate::block::Block;
use crate::records::Records;

impl Block<'_, '_> {
    // The records, to read.
    pub(crate) fn records(&self) -> Records<'_>
        ensures switches { result.switches ≡ switch_count self.now }
        ensures nodes { result.nodes ≡ node_count self.now }
        ensures words { result.words.now ≡ self.now.words.now }
        ensures small { Words self.now.words.now }
    {
        Records::new(self.table, &*self.words)
    }

    // Where the registers begin, after the records.
    pub(crate) fn registers_start(&self) -> usize
        ensures value { result ≡ records_length (switch_count self.now) (node_count self.now) }
        ensures inside { result + register_count ≤ length self.now.words.now }
    {
        self.table.switches() * (self.table.nodes().len() + 1)
    }

    // Takes over the record of switch `j` from a copy's records where it is newer there; never the own one.
    fn take_one(&mut self, copy: &Records, j: usize)
        requires there { j < switch_count self.old }
        requires switches { copy.now.switches ≡ switch_count self.old }
        requires nodes { copy.now.nodes ≡ node_count self.old }
        ensures { Becomes self.old self.new (taken_one (node_count self.old) self.old.switch copy.now.words.now self.old.words.now j) }
    {
        if j != self.switch && copy.count_of(j) > self.records().count_of(j) {
            let at = copy.start(j);
            self.words[at..at + copy.nodes + 1].copy_from_slice(copy.record(j));
        }
    }

    // Takes over every record that is newer. By number: in a loop over `chunks_exact_mut` no invariant can name the words.
    #[tactic(auto, unfolding(crate::specs::Steps::taken))]
    fn take_over(&mut self, copy: &Records)
        requires switches { copy.now.switches ≡ switch_count self.old }
        requires nodes { copy.now.nodes ≡ node_count self.old }
        ensures { Becomes self.old self.new (taken (node_count self.old) self.old.switch copy.now.words.now self.old.words.now (switch_count self.old)) }
    {
        for j in 0..copy.switches {
            self.take_one(copy, j);
        }
    }

    // Takes over from a hand: its sender, and then the copy's records.
    pub(crate) fn take_hand(&mut self, hand: &[u32])
        requires { length hand.now ≡ hand_length (switch_count self.old) (node_count self.old) }
        ensures { Becomes self.old self.new (taken (node_count self.old) self.old.switch (hand_records hand.now) self.old.words.now (switch_count self.old)) }
    {
        let copy = Records::new(self.table, &hand[1..]);
        self.take_over(&copy);
    }

    // Writes a register.
    pub(crate) fn set_register(&mut self, register: usize, word: u32)
        requires { register < register_count }
        ensures { Becomes self.old self.new (slice_set self.old.words.now (records_length (switch_count self.old) (node_count self.old) + register) word) }
    {
        let at = self.registers_start();
        self.words[at + register] = word;
    }

    // Writes the own record: its count, and its words.
    pub(crate) fn put_own(&mut self, count: u32, words: &[u32])
        requires { length words.now ≡ node_count self.old }
        ensures { Becomes self.old self.new (put_record (node_count self.old) self.old.words.now self.old.switch (count ∷ words.now)) }
    {
        let switch = self.switch;
        let at = self.records().start(switch);
        self.words[at] = count;
        self.words[at + 1..at + 1 + words.len()].copy_from_slice(words);
    }
}
