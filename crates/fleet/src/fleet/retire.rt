// Retiring a copy.
ghost use Rattle.fleet.specs.FleetCalls.{Called, RetiredBy};
ghost use Rattle.fleet.specs.Shapes.{state};
ghost use Rattle.history.specs.Calls.{retire_call};
ghost use Rattle.step.specs.Nodes.{on_words};
ghost use Rattle.table.specs.Views.{view};

use crate::call::{Call, Reply};
use crate::fleet::Fleet;
use carriers::carrier::Carrier;
use readings::reading::Reading;
use table::fault::{Fault, Reason};
use table::table::Checked;

impl<'a, K: Reading, C: Carrier> Fleet<'a, K, C> {
    // The carrier stops holding the copy with this number.
    pub fn retire(&mut self, number: u32) -> Result<(), Fault>
        ensures { C.sound self.old.carrier → RetiredBy self.old.live (C.meaning self.old.carrier) self.new.live (C.meaning self.new.carrier) number result (C.sound self.new.carrier) }
    {
        if !self.live {
            return Err(Reason::Shut.at(0));
        }
        self.carrier.retire(number)
    }

    // The same as a call of a listing, which tests the shape of what it is handed.
    pub(crate) fn retire_call(
        &mut self,
        table: &Checked,
        memory: &[u32],
        hand: &[u32],
        copy: u32,
    ) -> Result<Reply, Fault>
        ensures { C.sound self.old.carrier → Called K.CODE (on_words K.kind) (view table.now) self.old.live (state memory.now hand.now (C.meaning self.old.carrier)) self.new.live (state memory.now hand.now (C.meaning self.new.carrier)) (retire_call copy) result (C.sound self.new.carrier) }
    {
        self.admit(table, memory, hand, Call::Retire { number: copy })?;
        self.carrier.retire(copy)?;
        Ok(Reply::default())
    }
}
