// Calls by value, one and many.
ghost use Rattle.fleet.specs.FleetCalls.{Called, call_of};
ghost use Rattle.fleet.specs.FleetRuns.{Ran, listed, said_by};
ghost use Rattle.fleet.specs.Shapes.{state};
ghost use Rattle.history.specs.AnsweredLaw.{AnsweredLaw};
ghost use Rattle.history.specs.Orders.{New};
ghost use Rattle.history.specs.Runs.{WordCall};
ghost use Rattle.std.specs.Prelude.{OnOk};
ghost use Rattle.step.specs.Nodes.{on_words};
ghost use Rattle.table.specs.Views.{view};

use crate::call::{Call, Reply};
use crate::fleet::Fleet;
use carriers::carrier::Carrier;
use readings::reading::Reading;
use table::fault::{Fault, Reason};
use table::table::Checked;

impl<'a, K: Reading, C: Carrier> Fleet<'a, K, C> {
    // One call of a listing.
    pub fn call(
        &mut self,
        table: &Checked,
        memory: &mut [u32],
        hand: &mut [u32],
        call: Call,
    ) -> Result<Reply, Fault>
        ensures word { WordCall (call_of call) }
        ensures made { C.sound self.old.carrier → Called K.CODE (on_words K.kind) (view table.now) self.old.live (state memory.old hand.old (C.meaning self.old.carrier)) self.new.live (state memory.new hand.new (C.meaning self.new.carrier)) (call_of call) result (C.sound self.new.carrier) }
    {
        match call {
            Call::Set {
                switch,
                register,
                word,
            } => self.set(table, memory, hand, switch, register, word),
            Call::Send { switch } => self.send(table, memory, hand, switch),
            Call::Receive { switch, number } => self.receive(table, memory, hand, switch, number),
            Call::Retire { number } => self.retire_call(table, memory, hand, number),
        }
    }

    // A list of calls, each of which may be refused. Nothing is done where no call can be made, or where the replies
    // are not as many as the calls.
    pub fn run(
        &mut self,
        table: &Checked,
        memory: &mut [u32],
        hand: &mut [u32],
        calls: &[Call],
        replies: &mut [Result<Reply, Fault>],
    ) -> Result<(), Fault>
        ensures ran { C.sound self.old.carrier → Ran K.CODE (on_words K.kind) (view table.now) self.old.live (state memory.old hand.old (C.meaning self.old.carrier)) self.new.live (state memory.new hand.new (C.meaning self.new.carrier)) (listed calls.now) replies.old replies.new result (C.sound self.new.carrier) }
        ensures law { OnOk result (C.sound self.old.carrier → New (on_words K.kind) (view table.now) (state memory.old hand.old (C.meaning self.old.carrier)) → AnsweredLaw K.kind (view table.now) (state memory.old hand.old (C.meaning self.old.carrier)) (listed calls.now) (said_by replies.new) memory.new) }
    {
        self.ready(table, memory, hand)?;
        if replies.len() != calls.len() {
            return Err(Reason::Shape.at(0));
        }
        // By index: tried `iter_mut` and `zip`, in whose loop no invariant can name the replies. They are lent beside the calls,
        // since the fleet has no heap.
        for (i, call) in calls.iter().enumerate() {
            replies[i] = self.call(table, memory, hand, *call);
        }
        Ok(())
    }
}
