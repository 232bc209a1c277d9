// The part of a step that every event has: the own count grows, and the own words are worked out.
ghost use Rattle.std.specs.Prelude.{◌≡◌, ◌+◌, ◌<◌, length};
ghost use Rattle.step.specs.Blocks.{Becomes, node_count};
ghost use Rattle.step.specs.Nodes.{on_words};
ghost use Rattle.step.specs.StepLaws.{StepLaw};
ghost use Rattle.step.specs.Steps.{advanced, max_count, own_count, own_mask, own_words};
ghost use Rattle.table.specs.Views.{view};

use crate::block::Block;
use crate::sight::Place;
use crate::words::{Words, broken};
use readings::reading::Reading;
use table::limits::REGISTERS;

// What a step answers.
#[derive(Clone, Copy, Debug, PartialEq)]
pub struct Outcome {
    // The own count after the step.
    pub count: u32,
    // Bit r is set where rule r is broken now.
    pub broken: u32,
}

impl Block<'_, '_> {
    // The own words, and the broken mask.
    #[tactic(auto, using(crate::proofs::Ready::all_ready, crate::proofs::Ready::rules_ready))]
    fn work_out<K: Reading>(&self) -> (Words, u32)
        ensures words { result.0.items ≡ own_words (on_words K.kind) (view self.now.table.now) self.now.switch self.now.words.now }
        ensures every { length result.0.items ≡ node_count self.now }
        ensures mask { result.1 ≡ own_mask (on_words K.kind) (view self.now.table.now) self.now.switch self.now.words.now }
        ensures law { StepLaw K.kind (view self.now.table.now) self.now.switch self.now.words.now result.1 }
    {
        let nodes = self.table.nodes();
        let at = self.registers_start();
        let place = Place {
            switch: self.switch,
            records: self.records(),
            registers: &self.words[at..at + REGISTERS],
        };
        let words = place.own_words::<K>(nodes);
        let broken = broken(self.table.rules(), self.switch, &words);
        (words, broken)
    }

    // Makes the next state.
    pub(crate) fn advance<K: Reading>(&mut self) -> Outcome
        requires { own_count (node_count self.old) self.old.switch self.old.words.now < max_count }
        ensures block { Becomes self.old self.new (advanced (on_words K.kind) (view self.old.table.now) self.old.switch self.old.words.now) }
        ensures count { result.count ≡ own_count (node_count self.old) self.old.switch self.old.words.now + 1 }
        ensures broken { result.broken ≡ own_mask (on_words K.kind) (view self.old.table.now) self.old.switch self.old.words.now }
        ensures law { StepLaw K.kind (view self.old.table.now) self.old.switch self.old.words.now result.broken }
    {
        let switch = self.switch;
        let count = self.records().count_of(switch) + 1;
        let (words, broken) = self.work_out::<K>();
        self.put_own(count, &words);
        Outcome { count, broken }
    }
}
