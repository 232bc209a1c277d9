// What every call tests first.
ghost use Rattle.carriers.specs.Figures.{figures_of};
ghost use Rattle.fleet.specs.FleetCalls.{Admitted, call_of, early, or_else, unready_by};
ghost use Rattle.fleet.specs.Shapes.{Sized, state};
ghost use Rattle.std.specs.Prelude.{◌≡◌, OnOk};
ghost use Rattle.step.specs.Refusing.{refused_by};
ghost use Rattle.table.specs.Views.{view};

use crate::blocks::Blocks;
use crate::call::Call;
use crate::fleet::Fleet;
use crate::shape::shaped;
use carriers::carrier::Carrier;
use readings::reading::Reading;
use table::fault::Reason;
use table::table::Checked;

impl<'a, K: Reading, C: Carrier> Fleet<'a, K, C> {
    // Whether a call can be made: the fleet is live, and everything has the table's shape.
    // Table, memory and hand stay three parameters here: `self.ready(Handed { table, memory, hand })` is no plainer, since
    // each call then writes to two of them.
    pub(crate) fn ready(&self, table: &Checked, memory: &[u32], hand: &[u32]) -> Result<(), Reason>
        ensures value { C.sound self.now.carrier → result ≡ refused_by (unready_by self.now.live K.CODE (view table.now) (state memory.now hand.now (C.meaning self.now.carrier))) }
        ensures lengths { OnOk result (Sized (view table.now) memory.now hand.now) }
    {
        if !self.live {
            return Err(Reason::Shut);
        }
        if !shaped::<K>(table, memory, hand, self.carrier.figures()) {
            return Err(Reason::Shape);
        }
        Ok(())
    }

    // Whether the call is admitted, before the carrier is asked for a copy.
    pub(crate) fn admit(
        &self,
        table: &Checked,
        memory: &[u32],
        hand: &[u32],
        call: Call,
    ) -> Result<(), Reason>
        ensures value { C.sound self.now.carrier → result ≡ refused_by (or_else (unready_by self.now.live K.CODE (view table.now) (state memory.now hand.now (C.meaning self.now.carrier))) (early (view table.now) memory.now (figures_of (C.meaning self.now.carrier)) (call_of call))) }
        ensures admitted { OnOk result (Admitted (view table.now) memory.now hand.now (call_of call)) }
    {
        self.ready(table, memory, hand)?;
        Blocks { table, memory }.admit(self.carrier.figures(), call)
    }
}
