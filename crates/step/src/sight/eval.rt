// A node's word.
ghost use Rattle.std.specs.Prelude.{◌≡◌, ◌<◌, ◌≤◌, true, length};
ghost use Rattle.step.specs.Names.{names_below};
ghost use Rattle.step.specs.Nodes.{before, first, here, later, node_word, there, on_words};
ghost use Rattle.step.specs.Sights.{past_of, seen, was};
ghost use Rattle.step.specs.Truths.{truth, truth_word};

use crate::sight::Sight;
use readings::reading::Reading;
use table::node::Node;

// A truth's word: `u32::from`. A name of its own is plainer in the ten arms below than the conversion, whose target they would
// have to write.
fn truth_word(b: bool) -> u32
    ensures { result ≡ truth_word b }
{
    u32::from(b)
}

// Each method asks that its node is lower: a type for a lower node would be made for one call alone.
impl Sight<'_> {
    // A lower node's new word.
    fn here(&self, a: usize) -> u32
        requires { a < length self.now.words.now }
        ensures { result ≡ here (seen self.now) a }
    {
        self.words[a]
    }

    // The own word of node `a` from before.
    fn before(&self, a: usize) -> u32
        requires { a < self.now.place.records.nodes }
        ensures { result ≡ before (seen self.now) a }
    {
        self.place.records.word(self.place.switch, a)
    }

    // A lower node's word at switch `j`.
    fn there(&self, j: usize, b: usize) -> u32
        requires there { j < self.now.place.records.switches }
        requires known { b < self.now.place.records.nodes }
        requires below { b < length self.now.words.now }
        ensures { result ≡ there (seen self.now) j b }
    {
        if j == self.place.switch {
            return self.here(b);
        }
        self.place.records.word(j, b)
    }
}

// The past of a node: in a first state there is none, later it comes in by the own words from before.
#[derive(Clone, Copy)]
pub(crate) enum Past {
    First,
    Later,
}

impl Sight<'_> {
    fn previously(&self, past: Past, a: usize) -> bool
        requires below { a < length self.now.words.now }
        requires known { a < self.now.place.records.nodes }
        ensures { result ≡ (past_of (seen self.now) past 0).previously a }
    {
        match past {
            Past::First => self.here(a) != 0,
            Past::Later => self.before(a) != 0,
        }
    }

    // Whether the own node `i` was true before; `none` where there is no past.
    fn was(&self, past: Past, i: usize, none: bool) -> bool
        requires { i < self.now.place.records.nodes }
        ensures { result ≡ was (seen self.now) past i none }
    {
        match past {
            Past::First => none,
            Past::Later => self.before(i) != 0,
        }
    }
}

impl Sight<'_> {
    // Whether a lower node is true.
    fn holds(&self, a: usize) -> bool
        requires { a < length self.now.words.now }
        ensures { result ≡ truth (here (seen self.now) a) }
    {
        self.here(a) != 0
    }

    // A lower node's reading.
    fn reading<K: Reading>(&self, a: usize) -> K
        requires { a < length self.now.words.now }
        ensures { result ≡ K.kind.reading (here (seen self.now) a) }
    {
        K::from_word(self.here(a))
    }

    // The word of node `i`, which names only lower nodes.
    pub(crate) fn word<K: Reading>(&self, node: Node, i: usize, past: Past) -> u32
        requires named { names_below self.now.place.records.switches (length self.now.words.now) node ≡ true }
        requires fewer { length self.now.words.now ≤ self.now.place.records.nodes }
        requires known { i < self.now.place.records.nodes }
        ensures { result ≡ node_word (on_words K.kind) (seen self.now) (past_of (seen self.now) past i) node }
    {
        match node {
            Node::Truth(b) => truth_word(b),
            Node::Not(a) => truth_word(!self.holds(a)),
            Node::And(a, b) => truth_word(self.holds(a) & self.holds(b)),
            Node::Or(a, b) => truth_word(self.holds(a) | self.holds(b)),
            Node::Implies(a, b) => truth_word(!self.holds(a) | self.holds(b)),
            Node::Iff(a, b) => truth_word(self.holds(a) == self.holds(b)),
            Node::Previously(a) => truth_word(self.previously(past, a)),
            Node::Once(a) => truth_word(self.holds(a) | self.was(past, i, false)),
            Node::Always(a) => truth_word(self.holds(a) & self.was(past, i, true)),
            Node::Since(a, b) => truth_word(
                self.holds(b) | self.holds(a) & self.was(past, i, false),
            ),
            Node::TruthAt(j, b) => truth_word(self.there(j, b) != 0),
            Node::Within(a, b) => truth_word(self.reading::<K>(a).within(self.reading::<K>(b))),
            Node::Same(a, b) => truth_word(self.reading::<K>(a).same(self.reading::<K>(b))),
            Node::Constant(w) => K::from_word(w).to_word(),
            Node::Register(g) => K::from_word(self.place.registers[g]).to_word(),
            Node::Join(a, b) => self.reading::<K>(a).join(self.reading::<K>(b)).to_word(),
            Node::Cut(a, b) => self.reading::<K>(a).cut(self.reading::<K>(b)).to_word(),
            Node::ReadingAt(j, b) => K::from_word(self.there(j, b)).to_word(),
        }
    }
}
