// What the switches start with: the values of their nodes, and the rules that these break.
ghost use Rattle.std.specs.Prelude.{◌≡◌, ◌<◌, length, IfOk};
ghost use Rattle.inspect.specs.Openings.{words_by, first_words};
ghost use Rattle.step.specs.Opening.{open_block, opened};
ghost use Rattle.step.specs.StepLaws.{record_words};
ghost use Rattle.step.specs.Steps.{Fitting, mask};
ghost use Rattle.table.specs.Views.{view};

use crate::report::Accepted;
use crate::value::Value;
use readings::number::Number;
use readings::ports::Ports;
use std::alloc::{AllocError, Global};
use std::fmt;
use step::lengths::block_length;
use step::open::{broken_in, open};
use table::fault::Fault;
use table::kind::Kind;
use table::node::Node;
use table::table::Checked;

// One switch of an accepted table.
#[derive(Clone, Copy)]
pub struct Switch<'a, 'b> {
    pub kind: Kind,
    pub table: &'a Checked<'b>,
    pub number: usize,
    ghost there: { number < (view table.now).switches },
}

// What a switch starts with.
#[derive(Drop)]
pub struct Opening {
    // The word of each node.
    pub words: Vec<u32>,
    // Bit i is 1 where rule i is broken.
    pub broken: u32,
}

impl Switch<'_, '_> {
    // Fills the block with what the switch starts with. A match: a kind of reading is a type, and no value stands for it.
    fn fill(self, block: &mut [u32]) -> Result<(), Fault>
        ensures { block.new ≡ open_block (words_by self.entry.kind) (view self.entry.table.now) self.entry.number block.old }
    {
        match self.kind {
            Kind::Numbers => open::<Number>(self.table, self.number, block),
            Kind::Ports => open::<Ports>(self.table, self.number, block),
        }
    }

    // The block that the switch starts with.
    fn block(self, heap: Global) -> Result<Vec<u32>, AllocError>
        ensures value { IfOk result (λ v. v.items ≡ opened (words_by self.entry.kind) (view self.entry.table.now) self.entry.number) }
        ensures fitting { IfOk result (λ v. Fitting (view self.entry.table.now) self.entry.number v.items) }
    {
        let mut block = vec![in heap; 0; block_length(self.table)]?;
        // It fails at no block of this length.
        let _ = self.fill(&mut block);
        Ok(block)
    }

    // The words of the own record in a block. By hand, as the step's own `Records` is private to its crate.
    fn own_words<'c>(self, block: &'c [u32]) -> &'c [u32]
        requires { Fitting (view self.table.now) self.number block.now }
        ensures { result.now ≡ record_words (length (view self.entry.table.now).nodes) block.now self.entry.number }
    {
        let nodes = self.table.nodes().len();
        let at = self.number * (nodes + 1) + 1;
        &block[at..at + nodes]
    }

    // What the switch starts with.
    pub fn opening(self, heap: Global) -> Result<Opening, AllocError>
        ensures words { IfOk result (λ o. o.words.items ≡ first_words self.entry.kind (view self.entry.table.now) self.entry.number) }
        ensures broken { IfOk result (λ o. o.broken ≡ mask self.entry.number (first_words self.entry.kind (view self.entry.table.now) self.entry.number) (view self.entry.table.now).rules) }
    {
        let block = self.block(heap)?;
        let words = self.own_words(&block).to_vec(heap)?;
        let broken = broken_in(self.table, self.number, &block).unwrap_or(0);
        Ok(Opening { words, broken })
    }
}

// The values of all nodes at one switch.
#[derive(Clone, Copy)]
pub struct State<'a> {
    pub kind: Kind,
    pub nodes: &'a [Node],
    // The word of each node.
    pub words: &'a [u32],
}

// Writes a node's value.
fn write_value<W: fmt::Write>(
    kind: Kind,
    node: Node,
    word: u32,
    f: &mut fmt::Formatter<W>,
) -> fmt::Result {
    if node.is_truth() {
        let truth = word != 0;
        write!(f, "{truth}")
    } else {
        let value = Value { kind, word };
        write!(f, "{value}")
    }
}

impl fmt::Display for State<'_> {
    fn fmt<W: fmt::Write>(&self, f: &mut fmt::Formatter<W>) -> fmt::Result {
        for (number, (node, word)) in self.nodes.iter().zip(self.words).enumerate() {
            let between = if number == 0 { "" } else { ", " };
            write!(f, "{between}n{number} = ")?;
            write_value(self.kind, *node, *word, f)?;
        }
        Ok(())
    }
}

// The rules that are broken at one switch.
#[derive(Clone, Copy)]
pub struct Broken {
    pub switch: usize,
    // Bit i is 1 where rule i is broken.
    pub mask: u32,
}

impl fmt::Display for Broken {
    fn fmt<W: fmt::Write>(&self, f: &mut fmt::Formatter<W>) -> fmt::Result {
        let Broken { switch, mask } = *self;
        for rule in (0..u32::BITS).filter(|rule| mask >> *rule & 1 == 1) {
            write!(f, "  rule {rule} at switch {switch}\n")?;
        }
        Ok(())
    }
}

impl Accepted<'_, '_> {
    // What is printed of its openings.
    pub fn opening_text(self, heap: Global) -> Result<String, AllocError> {
        let Accepted { kind, table } = self;
        let nodes = table.nodes();
        let mut states = String::new(heap);
        let mut rules = String::new(heap);
        // By number: there is no list of switches.
        for number in 0..table.switches() {
            let switch = Switch {
                kind,
                table,
                number,
            };
            let opening = switch.opening(heap)?;
            let state = State {
                kind,
                nodes,
                words: opening.words.as_slice(),
            };
            let broken = Broken {
                switch: number,
                mask: opening.broken,
            };
            write!(states, "  switch {number}: {state}\n")?;
            write!(rules, "{broken}")?;
        }
        if rules.is_empty() {
            rules.push_str("  none\n")?;
        }
        format!(in heap; "\nopening\n{states}broken at the start\n{rules}")
    }
}
