// One switch's step.
ghost use Rattle.std.specs.Prelude.{◌≡◌, true, IfOk, OnOk};
ghost use Rattle.step.specs.Blocks.{Becomes, node_count, switch_count};
ghost use Rattle.step.specs.Nodes.{on_words};
ghost use Rattle.step.specs.Refusing.{refused_by};
ghost use Rattle.step.specs.StepLaws.{StepLaw};
ghost use Rattle.step.specs.Records.{hand_length};
ghost use Rattle.step.specs.Steps.{Admitted, acted_block, hand_fits, own_count, register_fits, step_answer, step_block, step_refusal};
ghost use Rattle.step.specs.Events.{act_of};
ghost use Rattle.table.specs.Views.{view};

use crate::advance::Outcome;
use crate::block::Block;
use crate::lengths::hand_length;
use crate::open;
use crate::records::Records;
use readings::reading::Reading;
use table::fault::{Fault, Reason};
use table::limits::REGISTERS;
use table::table::Checked;

// What happens at a switch.
#[derive(Clone, Copy)]
pub enum Event<'a> {
    // A register gets a word.
    Set { register: usize, word: u32 },
    // A copy of the own records is sent.
    Send,
    // A copy is received, as the words of a hand: its sender, and then its records.
    Receive { hand: &'a [u32] },
}

// A hand has the length that the table asks for.
fn hand_fits(event: Event, length: usize) -> bool
    ensures { result ≡ hand_fits length (act_of event.entry) }
{
    match event {
        Event::Receive { hand } => hand.len() == length,
        _ => true,
    }
}

// A register is one that a switch has.
fn register_fits(event: Event) -> bool
    ensures { result ≡ register_fits (act_of event.entry) }
{
    match event {
        Event::Set { register, .. } => register < REGISTERS,
        _ => true,
    }
}

impl Block<'_, '_> {
    // Does what the event does before the own words are worked out.
    #[tactic(auto, using(crate::proofs::Acting::acted_own))]
    fn act(&mut self, event: Event)
        requires hand { hand_fits (hand_length (switch_count self.old) (node_count self.old)) (act_of event) ≡ true }
        requires register { register_fits (act_of event) ≡ true }
        ensures value { Becomes self.old self.new (acted_block (view self.old.table.now) self.old.switch (act_of event.entry) self.old.words.now) }
        ensures own { own_count (node_count self.old) self.old.switch self.new.words.now ≡ own_count (node_count self.old) self.old.switch self.old.words.now }
    {
        match event {
            Event::Set { register, word } => self.set_register(register, word),
            Event::Send => {}
            Event::Receive { hand } => self.take_hand(hand),
        }
    }
}

// Admits the step, or says why it cannot be made.
fn admit(table: &Checked, switch: usize, event: Event, block: &[u32]) -> Result<(), Reason>
    ensures value { result ≡ refused_by (step_refusal (view table.now) switch (act_of event.entry) block.now) }
    ensures admitted { OnOk result (Admitted (view table.now) switch (act_of event.entry) block.now) }
{
    if !hand_fits(event, hand_length(table)) {
        return Err(Reason::Shape);
    }
    open::admit(table, switch, block)?;
    if !register_fits(event) {
        return Err(Reason::Operand);
    }
    if Records::new(table, block).count_of(switch) == u32::MAX {
        return Err(Reason::Count);
    }
    Ok(())
}

// The step at `switch`: the event acts, the own count grows by 1, and the own words are worked out.
// A refused step leaves the block.
pub fn step<K: Reading>(
    table: &Checked,
    switch: usize,
    event: Event,
    block: &mut [u32],
) -> Result<Outcome, Fault>
    ensures answer { result ≡ step_answer (on_words K.kind) (view table.now) switch (act_of event.entry) block.old }
    ensures block { block.new ≡ step_block (on_words K.kind) (view table.now) switch (act_of event.entry) block.old }
    ensures law { IfOk result (λ o. StepLaw K.kind (view table.now) switch (acted_block (view table.now) switch (act_of event.entry) block.old) o.broken) }
{
    admit(table, switch, event, block)?;
    let mut own = Block {
        table,
        switch,
        words: block,
    };
    own.act(event);
    Ok(own.advance::<K>())
}
