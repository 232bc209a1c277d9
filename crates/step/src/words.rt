// The own words of a switch, and the rules that they break.
ghost use Rattle.std.specs.Prelude.{◌≡◌, ◌<◌, ◌≤◌, true, [], length};
ghost use Rattle.step.specs.Names.{all_named, names_below, rules_below};
ghost use Rattle.step.specs.Nodes.{on_words};
ghost use Rattle.step.specs.Steps.{hit, mask, new_words, own_word};
ghost use Rattle.table.specs.Limits.{max_nodes, max_rules};

use crate::sight::{Past, Place, Sight};
use arrayvec::ArrayVec;
use readings::reading::Reading;
use table::node::{Node, Rule};

// The words of one record.
pub(crate) type Words = ArrayVec<u32, 48>;

impl Place<'_> {
    // The own word of the next node, after the words of the nodes below it.
    fn own_word<K: Reading>(&self, words: &[u32], node: Node) -> u32
        requires below { length words.now < self.now.records.nodes }
        requires named { names_below self.now.records.switches (length words.now) node ≡ true }
        ensures { result ≡ own_word (on_words K.kind) self.now.records.nodes self.now.switch self.now.records.words.now self.now.registers.now words.now node }
    {
        let sight = Sight {
            place: *self,
            words,
        };
        sight.word::<K>(node, words.len(), Past::Later)
    }

    // The own words, worked out from node 0 upward.
    #[tactic(auto, using(crate::proofs::NewWords::named_at))]
    pub(crate) fn own_words<K: Reading>(&self, nodes: &[Node]) -> Words
        requires every { length nodes.now ≡ self.now.records.nodes }
        requires few { length nodes.now ≤ max_nodes }
        requires named { all_named self.now.records.switches 0 nodes.now ≡ true }
        ensures every { length result.items ≡ self.now.records.nodes }
        ensures words { result.items ≡ new_words (on_words K.kind) self.now.records.nodes self.now.switch self.now.records.words.now self.now.registers.now nodes.now [] }
    {
        let mut words = ArrayVec::new();
        for node in nodes {
            let word = self.own_word::<K>(&words, *node);
            words.push(word);
        }
        words
    }
}

// Whether a rule at `switch` is broken.
fn is_broken(rule: Rule, switch: usize, words: &[u32]) -> bool
    requires { rule.node < length words.now }
    ensures { result ≡ hit switch words.now rule }
{
    rule.switch == switch && words[rule.node] == 0
}

// The broken mask: bit r is set where rule r is broken.
#[tactic(auto, using(crate::proofs::Masks::done_all, crate::proofs::Masks::done_below, crate::proofs::Masks::done_small, crate::proofs::Masks::bit_small, crate::proofs::Masks::byte_bit))]
pub(crate) fn broken(rules: &[Rule], switch: usize, words: &[u32]) -> u32
    requires few { length rules.now ≤ max_rules }
    requires below { rules_below (length words.now) rules.now ≡ true }
    ensures { result ≡ mask switch words.now rules.now }
{
    let mut mask = 0;
    for rule in rules.iter().rev() {
        mask = 2 * mask + u32::from(is_broken(*rule, switch, words));
    }
    mask
}
