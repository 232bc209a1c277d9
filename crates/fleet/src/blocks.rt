// The blocks of the switches, one after another in one memory.
ghost use Rattle.std.specs.Prelude.{◌≡◌, ◌+◌, ◌*◌, ◌<◌, ◌≤◌, length, OnOk};
ghost use Rattle.fleet.specs.Blocks.{Able, Inside, block_in, copy_in, stepped_in, stuck_by, word_in};
ghost use Rattle.history.specs.Calls.{first_memory, put_block};
ghost use Rattle.step.specs.Events.{act_of};
ghost use Rattle.step.specs.Nodes.{on_words};
ghost use Rattle.step.specs.Opening.{opened};
ghost use Rattle.step.specs.Records.{block_length, hand_length};
ghost use Rattle.step.specs.Refusing.{refused_by};
ghost use Rattle.step.specs.Steps.{outcome, send};
ghost use Rattle.table.specs.Views.{view};

use readings::reading::Reading;
use step::Outcome;
use step::lengths::block_length;
use step::open::open;
use step::step::{Event, step};
use table::fault::Reason;
use table::limits::REGISTERS;
use table::table::Checked;

// The blocks of all switches of a table, to read. They lie in one slice, since the memory is lent; a switch is a number, for which
// each method asks, as an index is.
#[derive(Clone, Copy)]
pub(crate) struct Blocks<'a, 'b> {
    pub(crate) table: &'a Checked<'b>,
    pub(crate) memory: &'a [u32],
    ghost whole: { length memory.now ≡ (view table.now).switches * block_length (view table.now).switches (length (view table.now).nodes) },
}

impl<'a, 'b> Blocks<'a, 'b> {
    // Where the block of `switch` begins.
    fn start(&self, switch: usize) -> usize
        requires { switch < (view self.now.table.now).switches }
        ensures value { result ≡ switch * block_length (view self.now.table.now).switches (length (view self.now.table.now).nodes) }
        ensures inside { result + block_length (view self.now.table.now).switches (length (view self.now.table.now).nodes) ≤ length self.now.memory.now }
    {
        switch * block_length(self.table)
    }

    // Word `i` of what `switch` knows of the switch `of`. By hand, as the step's own `Records` is private to its crate.
    pub(crate) fn word(&self, switch: usize, of: usize, i: usize) -> u32
        requires there { switch < (view self.now.table.now).switches }
        requires known { of < (view self.now.table.now).switches }
        requires within { i ≤ length (view self.now.table.now).nodes }
        ensures { result ≡ word_in (view self.now.table.now) self.now.memory.now switch of i }
    {
        let at = self.start(switch);
        self.memory[at + of * (self.table.nodes().len() + 1) + i]
    }

    // Puts a copy of what `switch` knows into the hand.
    pub(crate) fn copy(&self, switch: u32, hand: &mut [u32])
        requires there { switch < (view self.now.table.now).switches }
        requires room { length hand.old ≡ hand_length (view self.now.table.now).switches (length (view self.now.table.now).nodes) }
        ensures { hand.new ≡ copy_in (view self.now.table.now) self.now.memory.now switch }
    {
        let records = block_length(self.table) - REGISTERS;
        let at = self.start(switch as usize);
        hand[0] = switch;
        hand[1..1 + records].copy_from_slice(&self.memory[at..at + records]);
    }

    // Whether `switch` can make an event.
    pub(crate) fn can_act(&self, switch: usize) -> Result<(), Reason>
        ensures value { result ≡ refused_by (stuck_by (view self.now.table.now) self.now.memory.now switch) }
        ensures able { OnOk result (Able (view self.now.table.now) switch send self.now.memory.now) }
    {
        if switch >= self.table.switches() {
            return Err(Reason::Switch);
        }
        if self.word(switch, switch, 0) == u32::MAX {
            return Err(Reason::Count);
        }
        Ok(())
    }
}

// Those that write take table and memory each: `Writing { table, memory }.step::<K>(switch, event)`, made by a call that has both,
// is no plainer than what stands here.

// Fills the block of `switch` with what it starts with.
fn open_block<K: Reading>(table: &Checked, switch: usize, memory: &mut [u32])
    requires { Inside (view table.now) switch memory.old }
    ensures { memory.new ≡ put_block (on_words K.kind) (view table.now) memory.old switch (opened (on_words K.kind) (view table.now) switch) }
{
    let size = block_length(table);
    let at = Blocks { table, memory }.start(switch);
    let _ = open::<K>(table, switch, &mut memory[at..at + size]);
}

// Fills every block with what its switch starts with, by number: there is no list of switches.
pub(crate) fn open_blocks<K: Reading>(table: &Checked, memory: &mut [u32])
    requires { length memory.old ≡ (view table.now).switches * block_length (view table.now).switches (length (view table.now).nodes) }
    ensures { memory.new ≡ first_memory (on_words K.kind) (view table.now) }
{
    for switch in 0..table.switches() {
        open_block::<K>(table, switch, memory);
    }
}

// The step of `switch` in its block.
pub(crate) fn step_block<K: Reading>(
    table: &Checked,
    switch: usize,
    event: Event,
    memory: &mut [u32],
) -> Outcome
    requires { Able (view table.now) switch (act_of event) memory.old }
    ensures memory { memory.new ≡ stepped_in (view table.now) (on_words K.kind) memory.old switch (act_of event.entry) }
    ensures outcome { result ≡ outcome (on_words K.kind) (view table.now) switch (act_of event.entry) (block_in (view table.now) memory.old switch) }
{
    let size = block_length(table);
    let at = Blocks { table, memory }.start(switch);
    step::<K>(table, switch, event, &mut memory[at..at + size]).unwrap()
}

// The step of a send, and then the copy of what `switch` knows.
pub(crate) fn send_block<K: Reading>(
    table: &Checked,
    switch: u32,
    memory: &mut [u32],
    hand: &mut [u32],
) -> Outcome
    requires able { Able (view table.now) switch send memory.old }
    requires room { length hand.old ≡ hand_length (view table.now).switches (length (view table.now).nodes) }
    ensures memory { memory.new ≡ stepped_in (view table.now) (on_words K.kind) memory.old switch send }
    ensures hand { hand.new ≡ copy_in (view table.now) memory.new switch }
    ensures outcome { result ≡ outcome (on_words K.kind) (view table.now) switch send (block_in (view table.now) memory.old switch) }
{
    let outcome = step_block::<K>(table, switch as usize, Event::Send, memory);
    Blocks { table, memory }.copy(switch, hand);
    outcome
}
