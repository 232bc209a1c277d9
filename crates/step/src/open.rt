// The block that a switch starts with.
ghost use Rattle.std.specs.Prelude.{◌≡◌, ◌<◌, true, length, replicate, OnOk};
ghost use Rattle.step.specs.Blocks.{Becomes, node_count, switch_count};
ghost use Rattle.step.specs.Names.{names_below};
ghost use Rattle.step.specs.Nodes.{on_words};
ghost use Rattle.step.specs.StepLaws.{OpeningLaw, standing_answer};
ghost use Rattle.step.specs.Opening.{column, columns, first_word, open_answer, open_block, open_refusal, opened, opened_one, start_registers};
ghost use Rattle.step.specs.Refusing.{refused_by};
ghost use Rattle.step.specs.Records.{records_length};
ghost use Rattle.step.specs.Steps.{Fitting};
ghost use Rattle.table.specs.Limits.{register_count};
ghost use Rattle.table.specs.Views.{view};
ghost use Rattle.std.proofs.Math.Seq.{paste};

use crate::block::Block;
use crate::lengths::block_length;
use crate::records::Records;
use crate::sight::{Past, Place, Sight};
use crate::words::broken;
use readings::reading::Reading;
use table::fault::{Fault, Reason};
use table::limits::REGISTERS;
use table::node::Node;
use table::table::Checked;

// The words that the registers of `switch` start with.
fn starts(table: &Checked, switch: usize) -> [u32; 8]
    requires { switch < (view table.now).switches }
    ensures { result ≡ start_registers (view table.now) switch }
{
    let mut words = [0; 8];
    for (g, word) in words.iter_mut().enumerate() {
        *word = table.starting_word(switch, g).unwrap_or(0);
    }
    words
}

impl Place<'_> {
    // The first word of node `i`, from a block whose lower nodes are worked out.
    fn first_word<K: Reading>(&self, i: usize, node: Node) -> u32
        requires below { i < self.now.records.nodes }
        requires named { names_below self.now.records.switches i node ≡ true }
        ensures { result ≡ first_word (on_words K.kind) self.now.records.nodes self.now.registers.now self.now.records.words.now i self.now.switch node }
    {
        let at = self.records.start(self.switch) + 1;
        let sight = Sight {
            place: *self,
            words: &self.records.words[at..at + i],
        };
        sight.word::<K>(node, i, Past::First)
    }
}

impl Block<'_, '_> {
    // Works out node `i` at switch `j`.
    fn open_one<K: Reading>(&mut self, j: usize, i: usize, node: Node)
        requires there { j < switch_count self.old }
        requires below { i < node_count self.old }
        requires named { names_below (switch_count self.old) i node ≡ true }
        ensures { Becomes self.old self.new (opened_one (on_words K.kind) (view self.old.table.now) node i self.old.words.now j) }
    {
        let registers = starts(self.table, j);
        let records = self.records();
        let at = records.start(j) + 1 + i;
        let place = Place {
            switch: j,
            records,
            registers: &registers,
        };
        let word = place.first_word::<K>(i, node);
        self.words[at] = word;
    }

    // Works out node `i` at every switch, by number: the number says which record it is.
    #[tactic(auto, unfolding(crate::specs::Opening::column))]
    fn open_column<K: Reading>(&mut self, i: usize, node: Node)
        requires below { i < node_count self.old }
        requires named { names_below (switch_count self.old) i node ≡ true }
        ensures { Becomes self.old self.new (column (on_words K.kind) (view self.old.table.now) node i self.old.words.now (switch_count self.old)) }
    {
        for j in 0..self.table.switches() {
            self.open_one::<K>(j, i, node);
        }
    }

    // Works out every node, from node 0 upward.
    fn open_nodes<K: Reading>(&mut self)
        ensures { Becomes self.old self.new (columns (on_words K.kind) (view self.old.table.now) (view self.old.table.now).nodes 0 self.old.words.now) }
    {
        let table = self.table;
        for (i, node) in table.nodes().iter().enumerate() {
            self.open_column::<K>(i, *node);
        }
    }

    // Every word 0.
    fn clear(&mut self)
        ensures { Becomes self.old self.new (replicate (length self.old.words.now) 0) }
    {
        self.words.fill(0);
    }

    // Writes the own registers.
    fn put_registers(&mut self, registers: &[u32])
        requires { length registers.now ≡ register_count }
        ensures { Becomes self.old self.new (paste self.old.words.now (records_length (switch_count self.old) (node_count self.old)) registers.now register_count) }
    {
        let at = self.registers_start();
        self.words[at..at + REGISTERS].copy_from_slice(registers);
    }

    // Fills the block with what the switch starts with.
    fn fill<K: Reading>(&mut self)
        ensures value { Becomes self.old self.new (opened (on_words K.kind) (view self.old.table.now) self.old.switch) }
        ensures law { OpeningLaw K.kind (view self.old.table.now) self.old.switch }
    {
        self.clear();
        self.open_nodes::<K>();
        let own = starts(self.table, self.switch);
        self.put_registers(&own);
    }
}

// Admits the block and the switch, or says why they do not fit the table.
pub(crate) fn admit(table: &Checked, switch: usize, block: &[u32]) -> Result<(), Reason>
    ensures value { result ≡ refused_by (open_refusal (view table.now) switch block.now) }
    ensures admitted { OnOk result (Fitting (view table.now) switch block.now) }
{
    let switches = table.switches();
    if block.len() != block_length(table) {
        return Err(Reason::Shape);
    }
    if switch >= switches {
        return Err(Reason::Switch);
    }
    Ok(())
}

// Fills the block with what `switch` starts with, or refuses and leaves it. Table, switch and block are the caller's; `Block` is
// what an admitted call makes of them.
pub fn open<K: Reading>(table: &Checked, switch: usize, block: &mut [u32]) -> Result<(), Fault>
    ensures answer { result ≡ open_answer (view table.now) switch block.old }
    ensures block { block.new ≡ open_block (on_words K.kind) (view table.now) switch block.old }
    ensures law { OnOk result (OpeningLaw K.kind (view table.now) switch) }
{
    admit(table, switch, block)?;
    let mut own = Block {
        table,
        switch,
        words: block,
    };
    own.fill::<K>();
    Ok(())
}

// The broken mask of the own record in a block, as it stands.
#[tactic(auto, using(crate::proofs::Ready::rules_ready))]
pub fn broken_in(table: &Checked, switch: usize, block: &[u32]) -> Result<u32, Fault>
    ensures { result ≡ standing_answer (view table.now) switch block.now }
{
    admit(table, switch, block)?;
    let words = Records::new(table, block).words_of(switch);
    Ok(broken(table.rules(), switch, words))
}
