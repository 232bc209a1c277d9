// The calls that are events: set, send and receive.
ghost use Rattle.fleet.specs.FleetCalls.{Called};
ghost use Rattle.fleet.specs.Shapes.{state};
ghost use Rattle.history.specs.Calls.{receive_call, send_call, set_call};
ghost use Rattle.step.specs.Nodes.{on_words};
ghost use Rattle.table.specs.Views.{view};

use crate::blocks::{send_block, step_block};
use crate::call::{Call, Reply};
use crate::fleet::Fleet;
use carriers::carrier::Carrier;
use readings::reading::Reading;
use step::step::Event;
use table::fault::Fault;
use table::table::Checked;

impl<'a, K: Reading, C: Carrier> Fleet<'a, K, C> {
    // A register of `switch` gets a word.
    pub fn set(
        &mut self,
        table: &Checked,
        memory: &mut [u32],
        hand: &[u32],
        switch: u32,
        register: u32,
        word: u32,
    ) -> Result<Reply, Fault>
        ensures { C.sound self.old.carrier → Called K.CODE (on_words K.kind) (view table.now) self.old.live (state memory.old hand.now (C.meaning self.old.carrier)) self.new.live (state memory.new hand.now (C.meaning self.new.carrier)) (set_call switch register word) result (C.sound self.new.carrier) }
    {
        let call = Call::Set {
            switch,
            register,
            word,
        };
        self.admit(table, memory, hand, call)?;
        let register = register as usize;
        let event = Event::Set { register, word };
        let outcome = step_block::<K>(table, switch as usize, event, memory);
        Ok(Reply::of(outcome, None))
    }

    // `switch` sends a copy of what it knows after the step; the hand then holds that copy.
    pub fn send(
        &mut self,
        table: &Checked,
        memory: &mut [u32],
        hand: &mut [u32],
        switch: u32,
    ) -> Result<Reply, Fault>
        ensures { C.sound self.old.carrier → Called K.CODE (on_words K.kind) (view table.now) self.old.live (state memory.old hand.old (C.meaning self.old.carrier)) self.new.live (state memory.new hand.new (C.meaning self.new.carrier)) (send_call switch) result (C.sound self.new.carrier) }
    {
        self.admit(table, memory, hand, Call::Send { switch })?;
        let outcome = send_block::<K>(table, switch, memory, hand);
        let number = self.carrier.put(hand)?;
        Ok(Reply::of(outcome, Some(number)))
    }

    // `switch` receives the copy with this number, which the hand then holds.
    pub fn receive(
        &mut self,
        table: &Checked,
        memory: &mut [u32],
        hand: &mut [u32],
        switch: u32,
        number: u32,
    ) -> Result<Reply, Fault>
        ensures { C.sound self.old.carrier → Called K.CODE (on_words K.kind) (view table.now) self.old.live (state memory.old hand.old (C.meaning self.old.carrier)) self.new.live (state memory.new hand.new (C.meaning self.new.carrier)) (receive_call switch number) result (C.sound self.new.carrier) }
    {
        let call = Call::Receive { switch, number };
        self.admit(table, memory, hand, call)?;
        self.carrier.fetch(number, hand)?;
        let event = Event::Receive { hand };
        let outcome = step_block::<K>(table, switch as usize, event, memory);
        Ok(Reply::of(outcome, None))
    }
}
